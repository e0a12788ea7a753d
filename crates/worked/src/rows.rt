// Numbers of a file, and files of 512 and 513 blocks (document 01, "Numbers worked by hand").
use numbers::{NumberError, read_number, signed};
use printing::{print_answer, print_session};
use session::session_of_file;
use slices::refusal::Refusal;
use std::io;
use std::io::Write;

// The number in some bytes and the place after it, or the refusal.
fn print_number_of<W: Write>(out: &mut W, bytes: &[u8]) -> io::Result<()> {
    let answer = read_number(bytes, 0).map_err(|error| match error {
        NumberError::Ended => Refusal::Ended,
        NumberError::TooLong => Refusal::TooLong,
    });
    print_answer(out, answer, |out, number| {
        writeln!(out, "number {} {}", number.value, number.next)
    })
}

// "300 is AC 02; 80 00 is refused with 2; -1 is sent as 1."
pub fn run_numbers<W: Write>(out: &mut W) -> io::Result<()> {
    print_number_of(out, b"\xAC\x02")?;
    print_number_of(out, b"\x80\x00")?;
    let number = signed(1);
    writeln!(out, "signed {number}")
}

// Room for the file of a grid of 513 inactive blocks.
const ROOM: usize = 1_024;

// What the program prints for a grid of one layer whose blocks are all inactive, a byte 0 each: widths of 100 m, δ 40, flag 0, 30 days, tolerance 5. As much
// of the file is there as there is room for.
fn run_grid<W: Write>(out: &mut W, columns: u8, rows: u8) -> io::Result<()> {
    let mut file = [0u8; ROOM];
    let before = [columns, rows, 1, 40, 0, 30, 5];
    let across = usize::from(columns);
    let along = usize::from(rows);
    let widths = before.len() + across + along;
    let end = widths + across * along;
    file[..before.len()].copy_from_slice(&before);
    file[before.len()..widths].fill(100);
    print_session(out, session_of_file(&file[..end.min(ROOM)]))
}

// "512 blocks pass, 513 refused.": 64 x 8 x 1 and 27 x 19 x 1 blocks.
pub fn run_grids<W: Write>(out: &mut W) -> io::Result<()> {
    run_grid(out, 64, 8)?;
    run_grid(out, 27, 19)
}
