// A case file, read into lent slices (document 01, "The case file"): "A file is judged number by number".
#![tactic(auto)]

ghost use Rattle.std.specs.Prelude.{◌≡◌, ◌≤◌, ◌*◌, ℤ, List, length, IfOk, T};
ghost use Rattle.whole.specs.Lent.{over};
ghost use Rattle.grid.specs.Inner.{Counted, Termed};
ghost use Rattle.grid.specs.Judging.{density_holds};
ghost use Rattle.grid.specs.Place.{blocks_of};
ghost use Rattle.grid.specs.Record.{counts, density, terms};
ghost use Rattle.slices.specs.Slices.{case_of, first_refusal, shape_of};
ghost use Rattle.slices.specs.Inner.{Judged, Roomy};
ghost use Rattle.fields.specs.declared.Part.TheVariants.{Counts, Terms};
ghost use Rattle.fields.specs.Inner.{Within};
ghost use Rattle.casefile.specs.Reading.{answer_in, judging, counted_of, weighed_of, termed_of, body_of, after_density, after_counts, reading_of};
ghost use Rattle.casefile.specs.Inner.{Follows, density_at, stored_of, terms_at};

use fields::runs::{ending, fill, fill_blocks};
use fields::{MOST_SLOTS, Part};
use grid::judging::density_holds;
use grid::place::blocks;
use grid::units::MOST_ACROSS;
use grid::{COUNTS, DENSITY, Grid, TERMS};
use slices::refusal::Refusal;
use slices::{Case, JudgedCase};
use slots::units::SLOTS_EACH;
use wellformed::judge_limits;
use whole::lent::copy_front;

// The record of a case as far as it was read, and the place after its last number.
#[derive(Clone, Copy)]
struct Head {
    grid: Grid,
    next: usize,
}

// The record of a case by its counts. Inner: they are within their ends.
#[tactic(auto, unfolding(crate::specs::Reading::counted_of))]
fn counted(values: &[i64]) -> Grid
    requires counts_in_bounds { counts ≤ length values.now }
    requires within { Within Counts counts values.now }
    ensures { result ≡ counted_of values.now }
{
    Grid {
        columns: values[0] as usize,
        rows: values[1] as usize,
        layers: values[2] as usize,
        delta: 0,
        fresh_weight: 0,
        salt_weight: 0,
        flag: 0,
        step: 0,
        tolerance: 0,
    }
}

// The record of a case with δ and the two weights. Inner: there are as many.
#[tactic(auto, unfolding(crate::specs::Reading::weighed_of))]
fn weighed(grid: Grid, values: &[i64]) -> Grid
    requires { density ≤ length values.now }
    ensures { result ≡ weighed_of grid values.now }
{
    Grid {
        delta: values[0],
        fresh_weight: values[1],
        salt_weight: values[2],
        ..grid
    }
}

// The record of a case with its terms. Inner: they are within their ends.
#[tactic(auto, unfolding(crate::specs::Reading::termed_of))]
fn termed(grid: Grid, values: &[i64]) -> Grid
    requires terms_in_bounds { terms ≤ length values.now }
    requires within { Within Terms terms values.now }
    ensures { result ≡ termed_of grid values.now }
{
    Grid {
        flag: values[0] as u64,
        step: values[1],
        tolerance: values[2],
        ..grid
    }
}

// The counts, which begin a file.
#[tactic(auto, using(crate::proofs::ReadingLaws::counts_refused, crate::proofs::ReadingLaws::counts_done, crate::proofs::ReadingLaws::counts_left))]
fn read_counts(file: &[u8]) -> Result<Head, Refusal>
    ensures { (columns rows slots : List ℤ) → Follows result (reading_of file.now columns rows slots) (λ h. judging (first_refusal (shape_of (case_of h.grid columns rows slots))) (after_counts h.grid file.now h.next)) }
{
    let mut counts = [0i64; COUNTS];
    let next = fill(file, Ok(0), Part::Counts, &mut counts)?;
    Ok(Head {
        grid: counted(&counts),
        next,
    })
}

// What follows the counts: δ and the weights, and "4 for a weight or pair out of range".
#[tactic(auto, using(crate::proofs::ReadingLaws::density_refused, crate::proofs::ReadingLaws::density_fails, crate::proofs::ReadingLaws::density_passes, crate::proofs::ReadingLaws::density_left))]
fn read_density(file: &[u8], head: Head) -> Result<Head, Refusal>
    ensures read { Follows result (after_counts head.grid file.now head.next) (λ h. after_density h.grid file.now h.next) }
    ensures record { IfOk result (λ h. h.grid ≡ weighed_of head.grid (density_at file.now head.next)) }
    ensures stands { IfOk result (λ h. T (density_holds h.grid)) }
{
    let mut weights = [0i64; DENSITY];
    let next = fill(file, Ok(head.next), Part::Density, &mut weights)?;
    let grid = weighed(head.grid, &weights);
    if !density_holds(grid) {
        return Err(Refusal::Terms);
    }
    Ok(Head { grid, next })
}

// What follows δ and the weights. Inner: these are in range.
#[tactic(auto, using(crate::proofs::ReadingLaws::terms_refused, crate::proofs::ReadingLaws::terms_done, crate::proofs::ReadingLaws::terms_left))]
fn read_terms(file: &[u8], head: Head) -> Result<Head, Refusal>
    requires { T (density_holds head.grid) }
    ensures read { Follows result (after_density head.grid file.now head.next) (λ h. body_of h.grid file.now h.next) }
    ensures record { IfOk result (λ h. h.grid ≡ termed_of head.grid (terms_at file.now head.next)) }
    ensures stands { IfOk result (λ h. Termed h.grid) }
{
    let mut terms = [0i64; TERMS];
    let next = fill(file, Ok(head.next), Part::Terms, &mut terms)?;
    Ok(Head {
        grid: termed(head.grid, &terms),
        next,
    })
}

// What follows the terms: "column widths, row widths, then per block ..", and then 8. Inner: the record is in range, and each slice has just the room
// that it needs.
fn read_parts(
    file: &[u8],
    head: Head,
    columns: &mut [i64],
    rows: &mut [i64],
    slots: &mut [i64],
) -> Result<(), Refusal>
    requires counted { Counted head.grid }
    requires termed { Termed head.grid }
    requires columns_room { length columns.old ≡ head.grid.columns }
    requires rows_room { length rows.old ≡ head.grid.rows }
    requires slots_room { length slots.old ≡ 16 * blocks_of head.grid }
    ensures read { Follows result (body_of head.grid file.now head.next) (λ _. stored_of (case_of head.grid columns.new rows.new slots.new)) }
    ensures judged { IfOk result (λ _. Judged (case_of head.grid columns.new rows.new slots.new)) }
{
    let columns_read = fill(file, Ok(head.next), Part::Widths, columns);
    let rows_read = fill(file, columns_read, Part::Widths, rows);
    let run = fill_blocks(file, rows_read, head.grid, slots);
    ending(file, run)
}

// What follows the terms, read into arrays of its own, "9, 10", and where nothing refuses it over the front of the lent slices. Inner: the record is in range
// and the lent slices have room.
#[tactic(auto, using(crate::proofs::ReadingLaws::stored_refused, crate::proofs::ReadingLaws::stored_passed))]
fn read_body(
    file: &[u8],
    head: Head,
    columns: &mut [i64],
    rows: &mut [i64],
    slots: &mut [i64],
) -> Result<Grid, Refusal>
    requires counted { Counted head.grid }
    requires termed { Termed head.grid }
    requires roomy { Roomy (case_of head.grid columns.old rows.old slots.old) }
    ensures answer { answer_in result ≡ (body_of head.grid file.now head.next).answer }
    ensures columns { columns.new ≡ over (body_of head.grid file.now head.next).columns columns.old }
    ensures rows { rows.new ≡ over (body_of head.grid file.now head.next).rows rows.old }
    ensures slots { slots.new ≡ over (body_of head.grid file.now head.next).slots slots.old }
{
    let grid = head.grid;
    let mut columns_room = [0i64; MOST_ACROSS];
    let mut rows_room = [0i64; MOST_ACROSS];
    let mut slots_room = [0i64; MOST_SLOTS];
    let total = SLOTS_EACH * blocks(grid);
    let own_columns = &mut columns_room[..grid.columns];
    let own_rows = &mut rows_room[..grid.rows];
    let own_slots = &mut slots_room[..total];
    read_parts(file, head, own_columns, own_rows, own_slots)?;
    let case = Case {
        grid,
        columns: own_columns,
        rows: own_rows,
        slots: own_slots,
    };
    judge_limits(JudgedCase { case })?;
    copy_front(case.columns, columns);
    copy_front(case.rows, rows);
    copy_front(case.slots, slots);
    Ok(grid)
}

// Reads a case file. The answer is its record, or the first of 1 to 10 that the file is refused with, and the block that the refusal names. `columns` and
// `rows` are lent for the widths in metres, `slots` for sixteen slots a block: what was read goes over the front of each, and the rest of it is as it
// was. A refusal changes none of them. Any bytes, and slices of any length, are answered.
#[tactic(auto, using(crate::proofs::ReadingLaws::judging_refused, crate::proofs::ReadingLaws::judging_passed))]
pub fn read_case(
    file: &[u8],
    columns: &mut [i64],
    rows: &mut [i64],
    slots: &mut [i64],
) -> Result<Grid, Refusal>
    ensures answer { answer_in result ≡ (reading_of file.now columns.old rows.old slots.old).answer }
    ensures columns { columns.new ≡ over (reading_of file.now columns.old rows.old slots.old).columns columns.old }
    ensures rows { rows.new ≡ over (reading_of file.now columns.old rows.old slots.old).rows rows.old }
    ensures slots { slots.new ≡ over (reading_of file.now columns.old rows.old slots.old).slots slots.old }
{
    let head = read_counts(file)?;
    let lent = Case {
        grid: head.grid,
        columns,
        rows,
        slots,
    };
    lent.shape()?;
    let head = read_density(file, head)?;
    let head = read_terms(file, head)?;
    read_body(file, head, columns, rows, slots)
}
