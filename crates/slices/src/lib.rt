// A case as slices hold it, and what it is refused with before any physics: "Slices are judged 3, 7, 4, 5, 6", each number over
// everything before the next begins (document 01, "Refusal numbers").
#![tactic(auto)]

pub mod refusal;

ghost use Rattle.std.specs.Prelude.{◌≡◌, ◌*◌, ◌≤◌, length, IfOk};
ghost use Rattle.grid.specs.Inner.{Counted};
ghost use Rattle.grid.specs.Place.{blocks_of};
ghost use Rattle.slices.specs.Refusals.{refusal_in};
ghost use Rattle.slices.specs.Cases.{case_in};
ghost use Rattle.whole.specs.Search.{found_of};
ghost use Rattle.slices.specs.Slices.{case_of, room_holds, widths_hold, fault_of, shape_of, contents_of, first_refusal};
ghost use Rattle.slices.specs.Inner.{judged_lent, reaches_over, Judged, Roomy};

use grid::Grid;
use grid::judging::{counts_hold, terms_hold};
use grid::place::{blocks, is_top};
use refusal::Refusal;
use slots::rules::slots_hold;
use slots::units::SLOTS_EACH;
use whole::ranges::{Range, all_within};

// A case as slices hold it. It may hold any numbers, and its slices may have any length: `judge_ranges` says which are refused.
#[derive(Clone, Copy)]
pub struct Case<'a> {
    pub grid: Grid,
    // Widths of columns and of rows, metres.
    pub columns: &'a [i64],
    pub rows: &'a [i64],
    // Sixteen slots to a block.
    pub slots: &'a [i64],
}

// Metres.
const MOST_WIDTH: i64 = 4_096;

// Column and row widths, metres.
pub const WIDTHS: Range = Range {
    lower: 1,
    upper: MOST_WIDTH,
};

impl<'a> Case<'a> {
    // 7: "a lent slice is too short". Inner: the counts are in range.
    #[tactic(auto, unfolding(crate::specs::Slices::room_holds))]
    fn room_holds(&self) -> bool
        requires { Counted self.now.grid }
        ensures { result ≡ room_holds (case_in self.now) }
    {
        let grid = self.grid;
        grid.columns <= self.columns.len()
            && grid.rows <= self.rows.len()
            && SLOTS_EACH * blocks(grid) <= self.slots.len()
    }

    // 5: "a width is out of range", of columns and rows in metres. Inner: both slices are long enough.
    #[tactic(auto, unfolding(crate::specs::Slices::widths_hold))]
    fn widths_hold(&self) -> bool
        requires { Roomy (case_in self.now) }
        ensures { result ≡ widths_hold self.now.grid self.now.columns.now self.now.rows.now }
    {
        let grid = self.grid;
        all_within(self.columns, grid.columns, WIDTHS) && all_within(self.rows, grid.rows, WIDTHS)
    }

    // 6: "a slot is out of range": the first block at fault, counted from 1. Inner: the counts are in range and the slots reach so far.
    fn first_fault(&self) -> Option<usize>
        requires counted { Counted self.now.grid }
        requires roomy { Roomy (case_in self.now) }
        ensures { result ≡ found_of (fault_of self.now.grid self.now.slots.now) }
    {
        let grid = self.grid;
        let total = blocks(grid);
        for block in 0..total {
            let at = SLOTS_EACH * block;
            if !slots_hold(&self.slots[at..], is_top(grid, block)) {
                return Some(block + 1);
            }
        }
        None
    }

    // 3, then 7: whether a case is there, its counts in range and its slices long enough. Inlined, like what hands a case on, since each call would copy its
    // fifteen words.
    #[tactic(auto, using(grid::proofs::JudgingLaws::counted_where), unfolding(crate::specs::Slices::shape_of, crate::specs::Slices::first_refusal, crate::specs::Slices::or_else))]
    #[inline(always)]
    pub fn shape(&self) -> Result<(), Refusal>
        ensures { refusal_in result ≡ first_refusal (shape_of (case_in self.now)) }
    {
        if !counts_hold(self.grid) {
            return Err(Refusal::Counts);
        }
        if !self.room_holds() {
            return Err(Refusal::Short);
        }
        Ok(())
    }

    // 4, then 5, then 6. Inner: 3 and 7 do not refuse the case.
    #[tactic(auto, using(crate::proofs::SlicesLaws::blames_found), unfolding(crate::specs::Slices::contents_of, crate::specs::Slices::first_refusal, crate::specs::Slices::or_else))]
    fn contents(&self) -> Result<(), Refusal>
        requires counted { Counted self.now.grid }
        requires roomy { Roomy (case_in self.now) }
        ensures { refusal_in result ≡ first_refusal (contents_of (case_in self.now)) }
    {
        if !terms_hold(self.grid) {
            return Err(Refusal::Terms);
        }
        if !self.widths_hold() {
            return Err(Refusal::Widths);
        }
        match self.first_fault() {
            Some(block) => Err(Refusal::Slots { block }),
            None => Ok(()),
        }
    }
}

// A case that 3, 7, 4, 5 and 6 do not refuse.
#[derive(Clone, Copy)]
pub struct JudgedCase<'a> {
    pub case: Case<'a>,
    pub ghost judged: { Judged (case_in case) },
}

impl<'a> Case<'a> {
    // The first of 3, 7, 4, 5 and 6 that a case in slices is refused with, and the block that it names. `reaches` says whether what is lent besides is
    // long enough, and 7 is of that too. Any numbers, and slices of any length, are judged.
    #[tactic(auto, using(crate::proofs::SlicesLaws::judged_contents, crate::proofs::SlicesLaws::judged_shape, crate::proofs::SlicesLaws::judged_short, crate::proofs::SlicesLaws::refused_some))]
    #[inline(always)]
    pub fn judge_ranges(self, reaches: bool) -> Result<JudgedCase<'a>, Refusal>
        ensures refusal { refusal_in result ≡ judged_lent (case_in self.entry) reaches }
        ensures same { IfOk result (λ j. j.case ≡ self.entry) }
    {
        self.shape()?;
        if !reaches {
            return Err(Refusal::Short);
        }
        self.contents()?;
        Ok(JudgedCase { case: self })
    }
}

// Whether a slice of `room` numbers reaches over a grid, with `each` numbers to a block. Of counts that are out of range it says no. Inner: a block
// takes at most sixteen.
#[tactic(auto, using(grid::proofs::JudgingLaws::counted_where))]
pub fn reaches_over(g: Grid, each: usize, room: usize) -> bool
    requires { each ≤ 16 }
    ensures { result ≡ reaches_over g each room }
{
    counts_hold(g) && each * blocks(g) <= room
}
