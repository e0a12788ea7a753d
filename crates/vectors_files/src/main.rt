// Runs stored files through `session` and `casefile`. What it writes is held to the file `stdout`; docs/VECTORS.md has the form of both.
#![tactic(auto)]

mod reads;

ghost use Rattle.std.specs.Prelude.{◌≤◌, IfOk, length};

use printing::print_session;
use reading::read_full;
use reads::run_read;
use session::session_of_file;
use std::io;
use std::io::{Read, Write};
use stored::{next_number, next_word, run_batch};

// Room for the bytes of a stored file: twice what the program takes, and more.
const FILE_ROOM: usize = 65_536;

// The next bytes of a batch, at the front of a slice: of a given length as far as there is room, and fewer where the batch ends.
fn next_file<'a, R: Read>(batch: &mut R, count: u64, file: &'a mut [u8]) -> io::Result<&'a [u8]>
    ensures { IfOk result (λ bytes. length bytes.now ≤ length file.old) }
{
    let room = (count as usize).min(file.len());
    let n = read_full(batch, &mut file[..room])?;
    Ok(&file[..n])
}

// What the program prints for the next file of a batch, and a line `--`.
fn run_case<R: Read, W: Write>(batch: &mut R, out: &mut W, length: u64) -> io::Result<()> {
    let mut file = [0u8; FILE_ROOM];
    let file = next_file(batch, length, &mut file)?;
    print_session(out, session_of_file(file))?;
    writeln!(out, "--")
}

// The files of both batches, one batch after the other.
fn main(rt: HostRuntime) -> io::Result<()> {
    let mut out = rt.stdout();
    run_batch(&rt, "cases.bin", &mut out, next_number, run_case)?;
    run_batch(&rt, "reads.bin", &mut out, next_word, run_read)
}
