// A lateral face (document 01): neighbours in a row or column of one layer. The low side is the block with the lower number.
ghost use Rattle.std.specs.Prelude.{◌≡◌, pos, ◌≤ℤ◌};
ghost use Rattle.whole.specs.Inner.{In};
ghost use Rattle.slots.specs.Units.{most_thickness};
ghost use Rattle.block.specs.Inner.{most_fluid_k};
ghost use Rattle.flow.specs.Litres.{most_conductance};
ghost use Rattle.flow.specs.Lateral.{face_k_of, conductance_of, tip_of, face_thickness_of, face_conductance_of, lateral_of};
ghost use Rattle.flow.specs.Inner.{Width, FaceIn, SideIn, BehindIn};

use super::litres::{leaving, litres};
use block::units::TICKS;
use whole::floor_div;

// The widths at a face, metres: of the two blocks along the line, and across it.
#[derive(Clone, Copy)]
pub struct Face {
    pub low: i64,
    pub high: i64,
    pub across: i64,
}

// One fluid in the block on one side of a face: its K in mm/day, its thickness and its head in ticks.
#[derive(Clone, Copy)]
pub struct Side {
    pub k: i64,
    pub thickness: i64,
    pub head: i64,
}

// The block behind a tip, away from the face: its width along the line in metres and the fluid's thickness there in ticks, which is 0 where
// no active block is there.
#[derive(Clone, Copy)]
pub struct Behind {
    pub width: i64,
    pub thickness: i64,
}

// "Kf = floor((L1+L2)K1K2 / (L1K2+L2K1))", mm/day. "Take the short way when the two values agree" (document 02, W-204): Kf is then that K.
// Inner: widths and both K are in range.
pub fn face_k(face: Face, low: i64, high: i64) -> i64
    requires face_in { FaceIn face }
    requires fact { In (pos 1) (pos most_fluid_k) low }
    requires fact_2 { In (pos 1) (pos most_fluid_k) high }
    ensures { result ≡ face_k_of face low high }
{
    if low == high {
        low
    } else {
        floor_div(
            (face.low + face.high) * low * high,
            face.low * high + face.high * low,
        )
    }
}

// "conductance C = floor(2·Kf·B·W / ((L1+L2)·4,096)) for face thickness B", litres a day for each metre of head difference.
// Inner: widths, Kf and thickness are in range.
pub fn conductance(face: Face, k: i64, thickness: i64) -> i64
    requires face_in { FaceIn face }
    requires fact { In (pos 0) (pos most_fluid_k) k }
    requires fact_2 { In (pos 0) (pos most_thickness) thickness }
    ensures { result ≡ conductance_of face k thickness }
{
    floor_div(
        2 * k * thickness * face.across,
        (face.low + face.high) * TICKS,
    )
}

// The thickness at a tip, ticks: that of the one block which holds the fluid, less what it loses towards the tip at the slope from the
// block behind. Inner: widths and thicknesses are in range.
#[tactic(auto, unfolding(crate::specs::Lateral::tip_of))]
fn tip_thickness(width: i64, thickness: i64, behind: Behind) -> i64
    requires width { Width width }
    requires fact { In (pos 0) (pos most_thickness) thickness }
    requires behind_in { BehindIn behind }
    ensures { result ≡ tip_of width thickness behind }
{
    if 0 < behind.thickness {
        let rise = (behind.thickness - thickness).max(0);
        let lost = floor_div(rise * width, behind.width + width);
        (thickness - lost).max(0)
    } else {
        0
    }
}

// "face thickness B", ticks: the mean where both blocks hold the fluid, the tip's where one does, 0 where neither. `behind` is the block
// behind the one that holds it. Inner: widths and thicknesses are in range.
#[tactic(auto, unfolding(crate::specs::Lateral::face_thickness_of))]
fn face_thickness(face: Face, low: i64, high: i64, behind: Behind) -> i64
    requires face_in { FaceIn face }
    requires fact { In (pos 0) (pos most_thickness) low }
    requires fact_2 { In (pos 0) (pos most_thickness) high }
    requires behind_in { BehindIn behind }
    ensures { result ≡ face_thickness_of face low high behind }
{
    if 0 < low && 0 < high {
        floor_div(low + high, 2)
    } else if 0 < low {
        tip_thickness(face.low, low, behind)
    } else if 0 < high {
        tip_thickness(face.high, high, behind)
    } else {
        0
    }
}

// The flow of one fluid through a face, litres a day, positive from the low to the high side: "No flow leaves the block without the
// fluid." Inner: the sides are in range and the conductance is not refused with 10.
pub fn lateral(face: Face, low: Side, high: Side, behind: Behind) -> i64
    requires face_in { FaceIn face }
    requires side_in { SideIn low }
    requires side_in_2 { SideIn high }
    requires behind_in { BehindIn behind }
    requires behind_bound { face_conductance_of face low high behind ≤ℤ pos most_conductance }
    ensures { result ≡ lateral_of face low high behind }
{
    let k = face_k(face, low.k, high.k);
    let thickness = face_thickness(face, low.thickness, high.thickness, behind);
    let through = conductance(face, k, thickness);
    let flow = litres(through, low.head - high.head);
    leaving(low.thickness, high.thickness, flow)
}
