// Runs stored cases in slices through `wellformed`, `verdict`, `budget` and `report`. What it writes is held to the file `stdout`; docs/VECTORS.md has the
// form of both.
#![tactic(auto)]

mod print;

use budget::zone_table;
use print::{print_report, print_table};
use printing::{print_answer, print_verdict};
use report::block_report;
use std::io;
use std::io::{Read, Write};
use stored::{Room, fill, next_part, next_word, run_batch, word_or_zero};
use verdict::verdict_of_slices;
use wellformed::check_slices;

// Room for marks: twice as many as the greatest grid has blocks.
const MARKS_ROOM: usize = 1_024;

// What the check says of the case that is next in a batch, its columns having been read, and then what the verdict says.
fn run_verdict<R: Read, W: Write>(batch: &mut R, out: &mut W, columns: u64) -> io::Result<()> {
    let mut room = Room::filled(0);
    let case = room.next_case(batch, columns)?;
    print_answer(out, check_slices(case), |out, _| writeln!(out, "passed"))?;
    print_answer(out, verdict_of_slices(case), print_verdict)
}

// The table of a zone of the next case: behind the case stand how many marks there are, and these.
fn run_table<R: Read, W: Write>(batch: &mut R, out: &mut W, columns: u64) -> io::Result<()> {
    let mut room = Room::filled(0);
    let case = room.next_case(batch, columns)?;
    let mut marks = [0i64; MARKS_ROOM];
    let marks = next_part(batch, &mut marks)?;
    fill(batch, marks)?;
    let answer = zone_table(case, marks);
    let table = match answer.refusal {
        None => Ok(answer.lines),
        Some(refusal) => Err(refusal),
    };
    print_answer(out, table, print_table)
}

// The report of a block of the next case: behind the case stands the block's number.
fn run_report<R: Read, W: Write>(batch: &mut R, out: &mut W, columns: u64) -> io::Result<()> {
    let mut room = Room::filled(0);
    let case = room.next_case(batch, columns)?;
    let number = word_or_zero(batch)? as usize;
    print_answer(out, block_report(case, number), print_report)
}

// The cases of the three batches, one batch after the other, and of each batch what is asked of its cases.
fn main(rt: HostRuntime) -> io::Result<()> {
    let mut out = rt.stdout();
    run_batch(&rt, "slices.bin", &mut out, next_word, run_verdict)?;
    run_batch(&rt, "tables.bin", &mut out, next_word, run_table)?;
    run_batch(&rt, "reports.bin", &mut out, next_word, run_report)
}
