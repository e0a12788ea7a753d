// The water account of a zone (document 01, "Balance, verdict, table"): its table of two rows of nine lines, litres a day, and what it is
// refused with.
#![tactic(auto)]

mod table;

ghost use Rattle.std.specs.Prelude.{◌≡◌, ◌≤◌, ◌<◌, length};
ghost use Rattle.grid.specs.Inner.{Counted};
ghost use Rattle.grid.specs.Place.{blocks_of};
ghost use Rattle.slices.specs.Slices.{case_of, first_refusal};
ghost use Rattle.slices.specs.Cases.{case_in};
ghost use Rattle.books.specs.Waters.{well_checks};
ghost use Rattle.zone.specs.Zones.{marked_of};
ghost use Rattle.zone.specs.Inner.{Ready, Worked};
ghost use Rattle.budget.specs.Answers.{layer_zone, everywhere, eighteen_of, answer_in, answer_of, tabled, zone_of_case, zone_answer, layer_answer, whole_answer};
ghost use Rattle.budget.specs.Inner.{mark_of, marks_of};

use balance::balances::fill_balances;
use books::rows::ROW;
use books::waters::{fill_waters, first_dry};
use grid::Grid;
use grid::place::{blocks, place_of};
use grid::units::MOST_BLOCKS;
use slices::refusal::Refusal;
use slices::{Case, reaches_over};
use table::{flat, table};
use wellformed::{WellFormedCase, check_lent, check_slices};
use whole::ranges::{Range, all_within};

// The lines of a table: nine of fresh water and then nine of salt water, in the order "storage, edge in, edge out, converted, wells, recharge, boundary,
// supply, error", litres a day.
pub type Table = [i64; 18];

// "the public answer, a struct with the refusal beside it, carries one flat array of 18": none, or a refusal beside lines that are all 0.
#[derive(Clone, Copy, Debug, PartialEq, Eq, Drop)]
pub struct Answer {
    pub refusal: Option<Refusal>,
    pub lines: Table,
}

// A table, or a refusal beside lines that are all 0.
fn told(table: Result<Table, Refusal>) -> Answer
    ensures { answer_of result ≡ answer_in table }
{
    match table {
        Ok(lines) => Answer {
            refusal: None,
            lines,
        },
        Err(refusal) => Answer {
            refusal: Some(refusal),
            lines: [0; 18],
        },
    }
}

// "A zone is a mark 0 or 1 per block."
const MARKS: Range = Range { lower: 0, upper: 1 };

// The eighteen lines of a zone of a case whose thicknesses and balances stand in rows. Inner: the case is well formed, the rows hold its
// thicknesses and its balances, and the marks reach over the grid.
pub fn table_on(
    g: Grid,
    columns: &[i64],
    rows: &[i64],
    slots: &[i64],
    waters: &[i64],
    balances: &[i64],
    marks: &[i64],
) -> Table
    requires { Ready (case_of g columns.now rows.now slots.now) waters.now balances.now marks.now }
    ensures { result ≡ eighteen_of (case_of g columns.now rows.now slots.now) (marked_of marks.now) }
{
    flat(table(g, columns, rows, slots, waters, balances, marks))
}

// The table of a zone of a well-formed case, or 13 with the first dry block. Thicknesses and balances of every block are worked out once, into
// two rows of two numbers to a block. Inner: the marks reach over the grid.
fn account(well_formed: WellFormedCase<'_>, marks: &[i64]) -> Result<Table, Refusal>
    requires { blocks_of well_formed.case.grid ≤ length marks.now }
    ensures { answer_in result ≡ tabled (first_refusal (well_checks (case_in well_formed.entry.case))) (eighteen_of (case_in well_formed.entry.case) (marked_of marks.now)) }
{
    let case = well_formed.case;
    let mut waters = [0i64; ROW];
    fill_waters(case.grid, case.slots, &mut waters);
    if let Some(block) = first_dry(case.grid, case.slots, &waters) {
        return Err(Refusal::DryWell { block });
    }
    let mut balances = [0i64; ROW];
    fill_balances(
        case.grid,
        case.columns,
        case.rows,
        case.slots,
        &waters,
        &mut balances,
    );
    Ok(table_on(
        case.grid,
        case.columns,
        case.rows,
        case.slots,
        &waters,
        &balances,
        marks,
    ))
}

// "then, for a table, 11 before 13": the table of a zone of a case that is not refused before its marks are looked at. Inner: the marks reach over the
// grid.
pub fn zone_of_case(well_formed: WellFormedCase<'_>, marks: &[i64]) -> Result<Table, Refusal>
    requires { blocks_of well_formed.case.grid ≤ length marks.now }
    ensures { answer_in result ≡ zone_of_case (case_in well_formed.entry.case) marks.now }
{
    if !all_within(marks, blocks(well_formed.case.grid), MARKS) {
        return Err(Refusal::Marks);
    }
    account(well_formed, marks)
}

// The table of a zone of a case in slices, or what it is refused with.
fn table_of_zone(case: Case<'_>, marks: &[i64]) -> Result<Table, Refusal>
    ensures { answer_in result ≡ zone_answer (case_in case.entry) marks.now }
{
    let reaches = reaches_over(case.grid, 1, marks.len());
    zone_of_case(check_lent(case, reaches)?, marks)
}

// The table of a zone of a case in slices, or what it is refused with: 3, 7, 4, 5, 6, 9, 10, 11 or 13, and the block that the refusal names.
// `marks` has a 1 for each block of the zone and a 0 for each other. Any numbers, and slices of any length, are answered.
pub fn zone_table(case: Case<'_>, marks: &[i64]) -> Answer
    ensures { answer_of result ≡ zone_answer (case_in case.entry) marks.now }
{
    told(table_of_zone(case, marks))
}

// The mark of a block in the zone of a layer, counted from 1 at the bottom. Inner: the counts are in range and the block is inside.
fn mark_in_layer(g: Grid, layer: usize, block: usize) -> i64
    requires counted { Counted g }
    requires block_bound { block < blocks_of g }
    ensures { result ≡ mark_of (layer_zone g layer) block }
{
    let place = place_of(g, block);
    if place.layer + 1 == layer { 1 } else { 0 }
}

// Puts in the marks of a layer, counted from 1 at the bottom. Inner: the counts are in range and the marks reach over the grid.
fn fill_layer_marks(g: Grid, layer: usize, marks: &mut [i64])
    requires counted { Counted g }
    requires g_in_bounds { blocks_of g ≤ length marks.old }
    ensures { marks.new ≡ marks_of (blocks_of g) (layer_zone g layer) marks.old }
{
    let total = blocks(g);
    for block in 0..total {
        let mark = mark_in_layer(g, layer, block);
        marks[block] = mark;
    }
}

// The eighteen lines of one layer of a case whose thicknesses and balances stand in rows, layers counted from 1 at the bottom. Inner: the case is
// well formed and the rows hold its thicknesses and its balances.
pub fn layer_on(
    g: Grid,
    columns: &[i64],
    rows: &[i64],
    slots: &[i64],
    waters: &[i64],
    balances: &[i64],
    layer: usize,
) -> Table
    requires { Worked (case_of g columns.now rows.now slots.now) waters.now balances.now }
    ensures { result ≡ eighteen_of (case_of g columns.now rows.now slots.now) (layer_zone g layer) }
{
    let mut marks = [0i64; MOST_BLOCKS];
    fill_layer_marks(g, layer, &mut marks);
    table_on(g, columns, rows, slots, waters, balances, &marks)
}

// The same of the whole grid. Inner: the case is well formed and the rows hold its thicknesses and its balances.
pub fn whole_on(
    g: Grid,
    columns: &[i64],
    rows: &[i64],
    slots: &[i64],
    waters: &[i64],
    balances: &[i64],
) -> Table
    requires { Worked (case_of g columns.now rows.now slots.now) waters.now balances.now }
    ensures { result ≡ eighteen_of (case_of g columns.now rows.now slots.now) everywhere }
{
    let marks = [1i64; MOST_BLOCKS];
    table_on(g, columns, rows, slots, waters, balances, &marks)
}

// The table of one layer of a case in slices, or what the case is refused with.
fn table_of_layer(case: Case<'_>, layer: usize) -> Result<Table, Refusal>
    ensures { answer_in result ≡ layer_answer (case_in case.entry) layer }
{
    let well_formed = check_slices(case)?;
    let mut marks = [0i64; MOST_BLOCKS];
    fill_layer_marks(well_formed.case.grid, layer, &mut marks);
    account(well_formed, &marks)
}

// The table of one layer of a case in slices, counted from 1 at the bottom, or what the case is refused with: 3, 7, 4, 5, 6, 9, 10 or 13. A
// layer that is not there has no blocks, and a table of zeros.
pub fn layer_table(case: Case<'_>, layer: usize) -> Answer
    ensures { answer_of result ≡ layer_answer (case_in case.entry) layer }
{
    told(table_of_layer(case, layer))
}

// The table of the whole grid of a case in slices, or what the case is refused with.
fn table_of_whole(case: Case<'_>) -> Result<Table, Refusal>
    ensures { answer_in result ≡ whole_answer (case_in case.entry) }
{
    account(check_slices(case)?, &[1i64; MOST_BLOCKS])
}

// The table of the whole grid of a case in slices, or what the case is refused with: 3, 7, 4, 5, 6, 9, 10 or 13.
pub fn whole_table(case: Case<'_>) -> Answer
    ensures { answer_of result ≡ whole_answer (case_in case.entry) }
{
    told(table_of_whole(case))
}
