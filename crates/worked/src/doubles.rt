// Boundaries as the client writes them, and ticks shown in metres (document 01, "Metres").
use metres::boundary::{Boundary, take_boundary};
use metres::show;
use printing::print_answer;
use std::io;
use std::io::Write;
use stored::print::{Bits, print_set};

// What the six boundaries set, the river's stage being 1.5 m and the sea's floor -1.5 m.
pub fn run_boundaries<W: Write>(out: &mut W) -> io::Result<()> {
    for boundary in [
        Boundary::None,
        Boundary::River { stage: 1.5 },
        Boundary::Sea { floor: -1.5 },
        Boundary::FixedFresh,
        Boundary::FixedSalt,
        Boundary::BothFixed,
    ] {
        print_set(out, take_boundary(boundary))?;
    }
    Ok(())
}

// A tick in metres, or the refusal.
fn print_shown<W: Write>(out: &mut W, tick: i64) -> io::Result<()> {
    print_answer(out, show(tick), |out, metres| {
        writeln!(out, "metres {}", Bits(metres))
    })
}

// -1.5 m; then 2⁵³ - 1 and -(2⁵³ - 1), the last ticks that are shown, each before the next, which is refused.
pub fn run_shown<W: Write>(out: &mut W) -> io::Result<()> {
    for tick in [
        -6144,
        9_007_199_254_740_991,
        9_007_199_254_740_992,
        -9_007_199_254_740_991,
        -9_007_199_254_740_992,
    ] {
        print_shown(out, tick)?;
    }
    Ok(())
}
