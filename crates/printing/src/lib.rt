// What the program writes to standard output (document 01, "Numbers worked by hand"): the words around the numbers, which `session` decides. Single
// blanks stand between words, and a line feed at each line's end. Each function takes the writer, and fails where a write does. No contract says what is
// written; it is held to stored outputs.
#![tactic(auto)]

use session::{LINES_EACH, Session};
use slices::refusal::Refusal;
use std::io::Write;
use std::{fmt, io};
use verdict::Verdict;

// Lines of a table in one fluid.
const ROW_LINES: usize = 9;

// A function's answer, as `print` writes it; or "a refusal prints `refused`, number, block".
pub fn print_answer<T, W: Write, F: FnOnce(&mut W, T) -> io::Result<()>>(
    out: &mut W,
    answer: Result<T, Refusal>,
    print: F,
) -> io::Result<()>
    requires { F.IsAlwaysCallable print }
{
    match answer {
        Ok(answer) => print(out, answer),
        Err(refusal) => writeln!(out, "{refusal}"),
    }
}

// "Verdict fields stand as listed above": code, block, count, largest balance in litres a day.
pub fn print_verdict<W: Write>(out: &mut W, verdict: Verdict) -> io::Result<()> {
    let Verdict {
        code,
        block,
        count,
        largest,
    } = verdict;
    writeln!(out, "verdict {code} {block} {count} {largest}")
}

// Numbers, each after a blank, and the line's end.
pub fn print_row<W: Write>(out: &mut W, numbers: &[i64]) -> io::Result<()> {
    for z in numbers {
        write!(out, " {z}")?;
    }
    writeln!(out)
}

// What a table is of: a layer, counted from 1, or the whole.
#[derive(Clone, Copy)]
enum Part {
    Layer(usize),
    All,
}

impl fmt::Display for Part {
    fn fmt<W: fmt::Write>(&self, f: &mut fmt::Formatter<W>) -> fmt::Result {
        match self {
            Part::Layer(number) => write!(f, "layer {number}"),
            Part::All => write!(f, "all"),
        }
    }
}

// The two rows of a table, fresh and salt.
fn print_table<W: Write>(out: &mut W, part: Part, lines: &[i64]) -> io::Result<()> {
    for (fluid, row) in ["fresh", "salt"]
        .into_iter()
        .zip(lines.chunks_exact(ROW_LINES))
    {
        write!(out, "{part} {fluid}")?;
        print_row(out, row)?;
    }
    Ok(())
}

// A verdict and its tables. The last table is that of the whole, and the others those of the layers, from 1.
fn print_judged<W: Write>(out: &mut W, session: Session) -> io::Result<()> {
    print_verdict(out, session.verdict)?;
    let tables = session.tables;
    for (number, lines) in (1..=tables).zip(session.lines.chunks_exact(LINES_EACH)) {
        let part = if number == tables {
            Part::All
        } else {
            Part::Layer(number)
        };
        print_table(out, part, lines)?;
    }
    Ok(())
}

// A refusal, or a verdict and its tables.
pub fn print_session<W: Write>(out: &mut W, session: Result<Session, Refusal>) -> io::Result<()> {
    print_answer(out, session, print_judged)
}
