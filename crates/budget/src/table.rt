// "two rows, fresh and salt, of nine lines": an array of two arrays of nine numbers, built by value, litres a day.
ghost use Rattle.std.specs.Prelude.{◌≡◌, ℕ, ◌≤◌, ◌<◌, pos, get_or, length};
ghost use Rattle.std.proofs.Math.Seq.{paste};
ghost use Rattle.whole.specs.Inner.{Abs};
ghost use Rattle.grid.specs.Place.{blocks_of};
ghost use Rattle.slices.specs.Slices.{case_of};
ghost use Rattle.zone.specs.Zones.{marked_of};
ghost use Rattle.zone.specs.Inner.{Ready};
ghost use Rattle.budget.specs.Table.{row_of};
ghost use Rattle.budget.specs.Inner.{add_row, add_table, share_of, table_to, flat_of, entry, most_line};

use block::units::{FRESH, SALT};
use grid::Grid;
use grid::place::blocks;
use zone::lines::{Lines, terms};

// The nine lines in their order.
fn row(lines: Lines) -> [i64; 9]
    ensures { result ≡ row_of lines }
{
    [
        lines.storage,
        lines.edge_in,
        lines.edge_out,
        lines.converted,
        lines.wells,
        lines.recharge,
        lines.boundary,
        lines.supply,
        lines.error,
    ]
}

// Two rows added line by line. Inner: the numbers are in range.
fn add_rows(a: [i64; 9], b: [i64; 9]) -> [i64; 9]
    requires by_index { (line : ℕ) → Abs most_line (get_or a line (pos 0)) }
    requires by_index_2 { (line : ℕ) → Abs most_line (get_or b line (pos 0)) }
    ensures { result ≡ add_row a b }
{
    let mut sums = a;
    for line in 0..9 {
        sums[line] = a[line] + b[line];
    }
    sums
}

// Two tables added line by line. Inner: the numbers are in range.
fn add(a: [[i64; 9]; 2], b: [[i64; 9]; 2]) -> [[i64; 9]; 2]
    requires by_index { (fluid line : ℕ) → Abs most_line (entry a fluid line) }
    requires by_index_2 { (fluid line : ℕ) → Abs most_line (entry b fluid line) }
    ensures { result ≡ add_table a b }
{
    [add_rows(a[0], b[0]), add_rows(a[1], b[1])]
}

// What a block, with the links that lead on from it, gives to the table. Inner: the case is well formed, the rows hold its thicknesses and its
// balances, the marks reach over the grid, and the block is inside.
fn share(
    g: Grid,
    columns: &[i64],
    rows: &[i64],
    slots: &[i64],
    waters: &[i64],
    balances: &[i64],
    marks: &[i64],
    block: usize,
) -> [[i64; 9]; 2]
    requires ready { Ready (case_of g columns.now rows.now slots.now) waters.now balances.now marks.now }
    requires block_bound { block < blocks_of g }
    ensures { result ≡ share_of (case_of g columns.now rows.now slots.now) (marked_of marks.now) block }
{
    let fresh = terms(
        g, columns, rows, slots, waters, balances, marks, block, FRESH,
    );
    let salt = terms(
        g, columns, rows, slots, waters, balances, marks, block, SALT,
    );
    [row(fresh), row(salt)]
}

// The table of a zone, in one pass over the blocks. Inner: the case is well formed, the rows hold its thicknesses and its balances, and the
// marks reach over the grid.
pub fn table(
    g: Grid,
    columns: &[i64],
    rows: &[i64],
    slots: &[i64],
    waters: &[i64],
    balances: &[i64],
    marks: &[i64],
) -> [[i64; 9]; 2]
    requires { Ready (case_of g columns.now rows.now slots.now) waters.now balances.now marks.now }
    ensures { result ≡ table_to (blocks_of g) (case_of g columns.now rows.now slots.now) (marked_of marks.now) }
{
    let total = blocks(g);
    let mut sums = [[0i64; 9]; 2];
    for block in 0..total {
        let more = share(g, columns, rows, slots, waters, balances, marks, block);
        let next = add(sums, more);
        sums = next;
    }
    sums
}

// The lines with a row laid in from a place on. Inner: there is room from there on. It says too that the row has nine lines, since the type
// of a table's row does not tell the caller's proof.
fn put(lines: [i64; 18], at: usize, row: [i64; 9]) -> [i64; 18]
    requires { at ≤ 9 }
    ensures laid { result ≡ paste lines at row 9 }
    ensures wide { length row ≡ 9 }
{
    let mut out = lines;
    for line in 0..9 {
        out[at + line] = row[line];
    }
    out
}

// The two rows one after the other, fresh before salt.
pub fn flat(rows: [[i64; 9]; 2]) -> [i64; 18]
    ensures { result ≡ flat_of rows }
{
    let fresh = put([0i64; 18], 0, rows[0]);
    put(fresh, 9, rows[1])
}
