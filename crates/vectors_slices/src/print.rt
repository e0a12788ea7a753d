// What each function answers, in a line: a word and the numbers.
use budget::Table;
use printing::print_row;
use report::Report;
use std::io;
use std::io::Write;
use stored::print::Bits;

// The eighteen lines of a zone's table.
pub fn print_table<W: Write>(out: &mut W, lines: Table) -> io::Result<()> {
    write!(out, "table")?;
    print_row(out, &lines)
}

// A block's five doubles.
pub fn print_report<W: Write>(out: &mut W, report: Report) -> io::Result<()> {
    let fresh_head = Bits(report.fresh_head);
    let salt_head = Bits(report.salt_head);
    let interface = Bits(report.interface);
    let fresh_thickness = Bits(report.fresh_thickness);
    let salt_thickness = Bits(report.salt_thickness);
    writeln!(
        out,
        "report {fresh_head} {salt_head} {interface} {fresh_thickness} {salt_thickness}"
    )
}
