// What more than one program prints: the bits of a double, and what a boundary sets.
use metres::boundary::BoundarySlots;
use printing::print_answer;
use slices::refusal::Refusal;
use std::io::Write;
use std::{fmt, io};

// A double as its bits, or `none` for what is no number.
#[derive(Clone, Copy)]
pub struct Bits(pub f64);

impl fmt::Display for Bits {
    fn fmt<W: fmt::Write>(&self, f: &mut fmt::Formatter<W>) -> fmt::Result {
        let Bits(double) = *self;
        if double.is_nan() {
            return write!(f, "none");
        }
        write!(f, "{}", double.to_bits())
    }
}

// The kind and level that a boundary sets, or the refusal.
pub fn print_set<W: Write>(out: &mut W, set: Result<BoundarySlots, Refusal>) -> io::Result<()> {
    print_answer(out, set, |out, set| {
        writeln!(out, "set {} {}", set.kind, set.level)
    })
}
