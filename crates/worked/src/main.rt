// Runs through the public functions the rows of document 01's "Numbers worked by hand" that come after l, the six boundaries, and ticks on both sides of
// what is shown. What it writes is held to the file `stdout`, whose lines are worked by hand.
#![tactic(auto)]

mod doubles;
mod rows;

use std::io;

// The rows, one after the other.
fn main(rt: HostRuntime) -> io::Result<()> {
    let mut out = rt.stdout();
    rows::run_numbers(&mut out)?;
    rows::run_grids(&mut out)?;
    doubles::run_boundaries(&mut out)?;
    doubles::run_shown(&mut out)
}
