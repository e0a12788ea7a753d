// Stored files, read into slices of stored lengths.
use super::{FILE_ROOM, next_file};
use casefile::read_case;
use grid::Grid;
use printing::{print_answer, print_row};
use slices::Case;
use std::io;
use std::io::{Read, Write};
use stored::{Lent, SLOTS_ROOM, WIDTHS_ROOM};

// What every lent number is before a read. No file can hold it.
const UNREAD: i64 = -9_000_000_000;

// The record of a case: columns, rows, layers, δ, fresh weight, salt weight, flag, step, tolerance.
fn print_grid<W: Write>(out: &mut W, grid: Grid) -> io::Result<()> {
    let Grid {
        columns,
        rows,
        layers,
        delta,
        fresh_weight,
        salt_weight,
        flag,
        step,
        tolerance,
    } = grid;
    writeln!(
        out,
        "read {columns} {rows} {layers} {delta} {fresh_weight} {salt_weight} {flag} {step} {tolerance}"
    )
}

// The numbers in front of a slice that a read put there.
fn front(numbers: &[i64]) -> &[i64] {
    match numbers.iter().position(|z| *z == UNREAD) {
        Some(unread) => &numbers[..unread],
        None => numbers,
    }
}

// What was read: the record, and the numbers of each slice after its name.
fn print_read<W: Write>(out: &mut W, case: Case<'_>) -> io::Result<()> {
    print_grid(out, case.grid)?;
    let slices = [case.columns, case.rows, case.slots];
    for (name, numbers) in ["columns", "rows", "slots"].into_iter().zip(slices) {
        write!(out, "{name}")?;
        print_row(out, front(numbers))?;
    }
    Ok(())
}

// How many numbers of the lent slices are as they were before a read.
fn print_kept<W: Write>(
    out: &mut W,
    columns: &[i64],
    rows: &[i64],
    slots: &[i64],
) -> io::Result<()> {
    let lent = columns.iter().chain(rows).chain(slots);
    let kept = lent.filter(|z| **z == UNREAD).count();
    writeln!(out, "kept {kept}")
}

// The next file of a batch, read into slices of the lengths that are stored with it: the answer, and how many of their numbers it left.
pub fn run_read<R: Read, W: Write>(batch: &mut R, out: &mut W, length: u64) -> io::Result<()> {
    let mut columns = [UNREAD; WIDTHS_ROOM];
    let mut rows = [UNREAD; WIDTHS_ROOM];
    let mut slots = [UNREAD; SLOTS_ROOM];
    let Lent {
        columns,
        rows,
        slots,
    } = Lent::next(batch, &mut columns, &mut rows, &mut slots)?;
    let mut file = [0u8; FILE_ROOM];
    let file = next_file(batch, length, &mut file)?;
    let answer = read_case(file, columns, rows, slots).map(|grid| Case {
        grid,
        columns,
        rows,
        slots,
    });
    print_answer(out, answer, print_read)?;
    print_kept(out, columns, rows, slots)
}
