// Refusals 9 and 10 (document 01, "Refusal numbers"): how blocks lie on each other, and the greatest conductance.
ghost use Rattle.std.specs.Prelude.{◌≡◌, true, ◌≤◌, ◌<◌, pos};
ghost use Rattle.whole.specs.Inner.{In};
ghost use Rattle.slots.specs.Units.{most_k, most_leakance, most_thickness};
ghost use Rattle.flow.specs.Inner.{FaceIn};
ghost use Rattle.grid.specs.Place.{blocks_of};
ghost use Rattle.slices.specs.Cases.{case_in};
ghost use Rattle.whole.specs.Search.{found_of};
ghost use Rattle.flow.specs.Litres.{over_area_of};
ghost use Rattle.wellformed.specs.Widths.{area_of};
ghost use Rattle.wellformed.specs.Inner.{Conducts, far_within};
ghost use Rattle.wellformed.specs.Links.{active_of};
ghost use Rattle.wellformed.specs.Limits.{exceeds, greatest_of, either_exceeds, overlaps, face_exceeds, above_exceeds, boundary_exceeds, block_exceeds, at_fault, first_at_fault};

use super::links::is_live;
use super::spot::Spot;
use super::widths::{area, face};
use block::geometry::{aquifer_top, k_in};
use block::units::{FRESH, SALT, TICKS};
use flow::lateral::{Face, conductance, face_k};
use flow::litres::over_area;
use grid::Grid;
use grid::place::{blocks, place_of, stride};
use grid::units::{ABOVE, NEXT_COLUMN, NEXT_ROW};
use slices::JudgedCase;
use slots::{Block, is_active, load};

// 10: "a conductance of either fluid exceeds 268,435,456", litres a day for each metre of head difference. The definitions name it in `flow`, whose
// functions require it.
const MOST_CONDUCTANCE: i64 = 268_435_456;

// The least that exceeds it.
const OVER_CONDUCTANCE: i64 = MOST_CONDUCTANCE + 1;

// Whether a face's conductance in a fluid, "worked out with the greater aquifer thickness of the two blocks", exceeds the limit.
// Inner: the numbers are in range and both blocks active.
#[tactic(auto, unfolding(crate::specs::Limits::greatest_of))]
fn fluid_exceeds(g: Grid, face: Face, low: Block, high: Block, fluid: usize) -> bool
    requires { Conducts g face low high }
    ensures { result ≡ exceeds (greatest_of g face low high fluid) }
{
    let k = face_k(face, k_in(g, low, fluid), k_in(g, high, fluid));
    let thickness = low.thickness.max(high.thickness);
    MOST_CONDUCTANCE < conductance(face, k, thickness)
}

// Whether a face is far within the limit in either fluid, by the greater K and the greater thickness alone. Inner: the numbers are in range.
#[tactic(auto, unfolding(crate::specs::Inner::far_within))]
fn far_within(face: Face, k: i64, thickness: i64) -> bool
    requires face_in { FaceIn face }
    requires fact { In (pos 0) (pos most_k) k }
    requires fact_2 { In (pos 0) (pos most_thickness) thickness }
    ensures { result ≡ far_within face k thickness }
{
    4 * k * thickness * face.across < OVER_CONDUCTANCE * ((face.low + face.high) * TICKS)
}

// The same in either fluid. Inner: the numbers are in range and both blocks active.
#[tactic(auto, unfolding(crate::specs::Limits::either_exceeds))]
fn either_exceeds(g: Grid, face: Face, low: Block, high: Block) -> bool
    requires { Conducts g face low high }
    ensures { result ≡ either_exceeds g face low high }
{
    let k = low.k.max(high.k);
    let thickness = low.thickness.max(high.thickness);
    !far_within(face, k, thickness)
        && (fluid_exceeds(g, face, low, high, FRESH) || fluid_exceeds(g, face, low, high, SALT))
}

impl<'a> Spot<'a> {
    // 9: "an active block's top lies above the base of the block directly above it, both active".
    #[tactic(auto, unfolding(crate::specs::Limits::overlaps))]
    fn overlaps_above(&self) -> bool
        ensures { result ≡ overlaps (case_in self.now.judged.case) self.now.block }
    {
        let case = self.judged.case;
        is_live(case.grid, case.slots, self.block, self.place, ABOVE)
            && load(case.slots, self.block + stride(case.grid, ABOVE)).base
                < aquifer_top(load(case.slots, self.block))
    }

    // 10, of the face to the next column or row.
    #[tactic(auto, using(crate::proofs::SpotLaws::spot_conducts, crate::proofs::SpotLaws::spot_placed, crate::proofs::SpotLaws::spot_onward), unfolding(crate::specs::Limits::face_exceeds))]
    fn face_exceeds(&self, axis: usize) -> bool
        requires { axis ≤ 1 }
        ensures { result ≡ face_exceeds (case_in self.now.judged.case) axis self.now.block }
    {
        let case = self.judged.case;
        is_live(case.grid, case.slots, self.block, self.place, axis)
            && either_exceeds(
                case.grid,
                face(case.columns, case.rows, self.place, axis),
                load(case.slots, self.block),
                load(case.slots, self.block + stride(case.grid, axis)),
            )
    }

    // Whether "floor(leakance·area/1,000)" of a leakance exceeds the limit. Inner: the leakance is in range.
    #[tactic(auto, using(crate::proofs::SpotLaws::spot_placed))]
    fn leakance_exceeds(&self, leakance: i64) -> bool
        requires { In (pos 0) (pos most_leakance) leakance }
        ensures { result ≡ exceeds (over_area_of leakance (area_of (case_in self.now.judged.case) self.now.block)) }
    {
        let case = self.judged.case;
        MOST_CONDUCTANCE < over_area(leakance, area(case.columns, case.rows, self.place))
    }

    // 10, of the leakage to the block above.
    #[tactic(auto, unfolding(crate::specs::Limits::above_exceeds))]
    fn above_exceeds(&self) -> bool
        ensures { result ≡ above_exceeds (case_in self.now.judged.case) self.now.block }
    {
        let case = self.judged.case;
        is_live(case.grid, case.slots, self.block, self.place, ABOVE)
            && self.leakance_exceeds(load(case.slots, self.block).leakance)
    }

    // 10, of the boundary. Inner: the block is active.
    #[tactic(auto, unfolding(crate::specs::Limits::boundary_exceeds))]
    fn boundary_exceeds(&self) -> bool
        requires { active_of self.now.judged.case.slots.now self.now.block ≡ true }
        ensures { result ≡ boundary_exceeds (case_in self.now.judged.case) self.now.block }
    {
        self.leakance_exceeds(load(self.judged.case.slots, self.block).boundary_leakance)
    }

    // 10: "counts faces between active blocks to the next column, next row and above, and the boundary".
    #[tactic(auto, unfolding(crate::specs::Limits::block_exceeds))]
    fn block_exceeds(&self) -> bool
        ensures { result ≡ block_exceeds (case_in self.now.judged.case) self.now.block }
    {
        is_active(self.judged.case.slots, self.block)
            && (self.face_exceeds(NEXT_COLUMN)
                || self.face_exceeds(NEXT_ROW)
                || self.above_exceeds()
                || self.boundary_exceeds())
    }

    // Whether a block is at fault by 9, or by 10.
    #[tactic(auto, unfolding(crate::specs::Limits::at_fault))]
    fn at_fault(&self, number: u64) -> bool
        ensures { result ≡ at_fault (case_in self.now.judged.case) number self.now.block }
    {
        if number == 9 {
            self.overlaps_above()
        } else {
            self.block_exceeds()
        }
    }
}

// Whether a block, counted from 0, is at fault by 9, or by 10. Only an active one is: of the others no place is worked out. Inner: the block is inside.
#[tactic(auto, using(crate::proofs::SpotLaws::fault_active))]
fn is_at_fault(judged: JudgedCase<'_>, number: u64, block: usize) -> bool
    requires { block < blocks_of judged.case.grid }
    ensures { result ≡ at_fault (case_in judged.entry.case) number block }
{
    if !is_active(judged.case.slots, block) {
        return false;
    }
    let spot = Spot {
        judged,
        block,
        place: place_of(judged.case.grid, block),
    };
    spot.at_fault(number)
}

// The first block at fault by 9, or by 10, counted from 1.
#[tactic(auto, unfolding(crate::specs::Limits::first_at_fault))]
pub fn first_at_fault(judged: JudgedCase<'_>, number: u64) -> Option<usize>
    ensures { result ≡ found_of (first_at_fault (case_in judged.entry.case) number) }
{
    let total = blocks(judged.case.grid);
    for block in 0..total {
        if is_at_fault(judged, number, block) {
            return Some(block + 1);
        }
    }
    None
}
