// Runs stored doubles through `metres`. What it writes is held to the file `stdout`; docs/VECTORS.md has the form of both.
#![tactic(auto)]

use metres::boundary::{Boundary, take_boundary};
use metres::take_in;
use printing::print_answer;
use std::io;
use std::io::{Read, Write};
use std::num::f64_from_bits_with_nan;
use stored::print::print_set;
use stored::{next_word, run_batch};

// The double of a word is taken in, and then taken as the floor of a sea. The patterns of what is no number all stand for one.
fn run_double<R: Read, W: Write>(_batch: &mut R, out: &mut W, bits: u64) -> io::Result<()> {
    let metres = f64_from_bits_with_nan(bits);
    print_answer(
        out,
        take_in(metres),
        |out, tick| writeln!(out, "tick {tick}"),
    )?;
    print_set(out, take_boundary(Boundary::Sea { floor: metres }))
}

// The one batch.
fn main(rt: HostRuntime) -> io::Result<()> {
    run_batch(&rt, "doubles.bin", &mut rt.stdout(), next_word, run_double)
}
