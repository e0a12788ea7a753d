// The verdict on proposed heads (document 01, "Balance, verdict, table").
#![tactic(auto)]

pub mod places;
pub mod search;
pub mod units;

ghost use Rattle.std.specs.Prelude.{◌≡◌, ◌*◌, ◌≤◌};
ghost use Rattle.grid.specs.Units.{most_blocks};
ghost use Rattle.grid.specs.Place.{blocks_of};
ghost use Rattle.slices.specs.Cases.{case_in};
ghost use Rattle.books.specs.Inner.{Slotted, Watered, pair_of};
ghost use Rattle.balance.specs.Inner.{Bounded};
ghost use Rattle.verdict.specs.Ruling.{
  first_place,
  code_of,
  concerning,
  by_balance,
  verdict_by,
  verdict_of,
  answer_in,
  verdict_answer,
};

use balance::balances::fill_balances;
use books::rows::ROW;
use books::waters::fill_waters;
use grid::Grid;
use search::{count_places, first_place, largest};
use slices::Case;
use slices::refusal::Refusal;
use units::{DRY, FAILING, MOVED};
use wellformed::{WellFormedCase, check_slices};

// "A verdict has the code, the first block concerned (0 if accepted), how many places fail .., and the largest balance without sign among
// free places", litres a day. Blocks are counted from 1.
#[derive(Clone, Copy)]
pub struct Verdict {
    pub code: u64,
    pub block: usize,
    pub count: usize,
    pub largest: i64,
}

// The verdict 21 or 22, whose first place is given. Inner: slots and balances are in range, and the row holds their thicknesses.
#[tactic(auto, using(crate::proofs::RulingLaws::first_place_short), unfolding(crate::specs::Ruling::concerning))]
fn concerned(
    g: Grid,
    slots: &[i64],
    waters: &[i64],
    balances: &[i64],
    code: u64,
    first: usize,
) -> Verdict
    requires slotted { Slotted g slots.now }
    requires watered { Watered g slots.now waters.now }
    requires bounded { Bounded (blocks_of g) balances.now }
    requires first_value { first ≡ first_place g slots.now (pair_of balances.now) code }
    ensures { result ≡ concerning g slots.now (pair_of balances.now) code }
{
    Verdict {
        code,
        block: (first + 1) / 2,
        count: count_places(g, slots, waters, balances, code),
        largest: 0,
    }
}

// "(23 fresh, 24 salt); else 0, accepted", by the first failing place. Inner: the place is one of a grid.
#[tactic(auto, using(crate::proofs::RulingLaws::code_found))]
fn code_of(first: usize) -> u64
    requires { first ≤ 2 * most_blocks }
    ensures { result ≡ code_of first }
{
    if first == 0 {
        0
    } else {
        FAILING + ((first - 1) % 2) as u64
    }
}

// The verdict 23, 24 or 0. Inner: slots and balances are in range, and the row holds their thicknesses.
#[tactic(auto, using(crate::proofs::RulingLaws::first_place_short), unfolding(crate::specs::Ruling::by_balance))]
fn by_balance(g: Grid, slots: &[i64], waters: &[i64], balances: &[i64]) -> Verdict
    requires slotted { Slotted g slots.now }
    requires watered { Watered g slots.now waters.now }
    requires bounded { Bounded (blocks_of g) balances.now }
    ensures { result ≡ by_balance g slots.now (pair_of balances.now) }
{
    let first = first_place(g, slots, waters, balances, FAILING);
    Verdict {
        code: code_of(first),
        block: (first + 1) / 2,
        count: count_places(g, slots, waters, balances, FAILING),
        largest: largest(g, slots, balances),
    }
}

// The verdict on a case whose thicknesses and balances stand in rows. Inner: slots and balances are in range, and the row holds their
// thicknesses.
#[tactic(auto, unfolding(crate::specs::Ruling::verdict_by))]
pub fn verdict_of_rows(g: Grid, slots: &[i64], waters: &[i64], balances: &[i64]) -> Verdict
    requires slotted { Slotted g slots.now }
    requires watered { Watered g slots.now waters.now }
    requires bounded { Bounded (blocks_of g) balances.now }
    ensures { result ≡ verdict_by g slots.now (pair_of balances.now) }
{
    let moved = first_place(g, slots, waters, balances, MOVED);
    if 0 < moved {
        return concerned(g, slots, waters, balances, MOVED, moved);
    }
    let dry = first_place(g, slots, waters, balances, DRY);
    if 0 < dry {
        return concerned(g, slots, waters, balances, DRY, dry);
    }
    by_balance(g, slots, waters, balances)
}

// The verdict on the heads proposed in a case that is refused nothing. Thicknesses and balances of every block are worked out once, into two rows of
// two numbers to a block.
pub fn verdict_of_case(well_formed: WellFormedCase<'_>) -> Verdict
    ensures { result ≡ verdict_of (case_in well_formed.entry.case) }
{
    let case = well_formed.case;
    let mut waters = [0i64; ROW];
    fill_waters(case.grid, case.slots, &mut waters);
    let mut balances = [0i64; ROW];
    fill_balances(
        case.grid,
        case.columns,
        case.rows,
        case.slots,
        &waters,
        &mut balances,
    );
    verdict_of_rows(case.grid, case.slots, &waters, &balances)
}

// The verdict on the heads proposed in a case in slices, or what the case is refused with, 3, 7, 4, 5, 6, 9 or 10, and the block that the
// refusal names. Any numbers, and slices of any length, are answered.
#[tactic(auto, using(crate::proofs::RulingLaws::answer_err, crate::proofs::RulingLaws::answer_ok), unfolding(crate::specs::Ruling::verdict_answer))]
pub fn verdict_of_slices(case: Case<'_>) -> Result<Verdict, Refusal>
    ensures { answer_in result ≡ verdict_answer (case_in case.entry) }
{
    Ok(verdict_of_case(check_slices(case)?))
}
