// A block's report (document 01, "Metres").
#![tactic(auto)]

ghost use Rattle.std.specs.Prelude.{◌≡◌};
ghost use Rattle.grid.specs.Inner.{Termed};
ghost use Rattle.slots.specs.Inner.{Ends};
ghost use Rattle.slices.specs.Cases.{case_in};
ghost use Rattle.report.specs.Reports.{answer_in, names_active, report_answer, report_of, report_of_case};

use block::density::interface;
use block::geometry::{levels_of, thicknesses};
use block::new_heads;
use grid::Grid;
use grid::place::{blocks, is_top};
use metres::metres_of;
use slices::refusal::Refusal;
use slices::{Case, JudgedCase};
use slots::{Block, is_active, load};
use wellformed::check_slices;

// "A block's report gives both heads, interface and both thicknesses in metres, from new heads, the interface being ζ."
#[derive(Clone, Copy, Debug, PartialEq)]
pub struct Report {
    pub fresh_head: f64,
    pub salt_head: f64,
    pub interface: f64,
    pub fresh_thickness: f64,
    pub salt_thickness: f64,
}

// The report of a block in the top layer or below it, "from new heads, the interface being ζ". Inner: the terms and slots are in range.
#[tactic(auto, unfolding(crate::specs::Reports::report_of))]
fn report_of(g: Grid, own: Block, top: bool) -> Report
    requires termed { Termed g }
    requires ends { Ends own }
    ensures { result ≡ report_of g own top }
{
    let heads = new_heads(own);
    let waters = thicknesses(levels_of(g, own, top, heads));
    Report {
        fresh_head: metres_of(heads.fresh),
        salt_head: metres_of(heads.salt),
        interface: metres_of(interface(g, heads)),
        fresh_thickness: metres_of(waters.fresh),
        salt_thickness: metres_of(waters.salt),
    }
}

// Whether a number, counted from 1, is that of an active block.
#[tactic(auto, unfolding(crate::specs::Reports::names_active))]
fn names_active(judged: JudgedCase, number: usize) -> bool
    ensures { result ≡ names_active judged.entry.case.grid judged.entry.case.slots.now number }
{
    let case = judged.case;
    1 <= number && number <= blocks(case.grid) && is_active(case.slots, number - 1)
}

// "for a report 14": the report of a block by its number, counted from 1, in a case that is not refused before.
#[tactic(auto, using(crate::proofs::ReportLaws::named_some, crate::proofs::ReportLaws::named_within), unfolding(crate::specs::Reports::report_of_case))]
pub fn report_of_case(judged: JudgedCase, number: usize) -> Result<Report, Refusal>
    ensures { answer_in result ≡ report_of_case (case_in judged.entry.case) number }
{
    if !names_active(judged, number) {
        return Err(Refusal::NoBlock { number });
    }
    let case = judged.case;
    let block = number - 1;
    Ok(report_of(case.grid, load(case.slots, block), is_top(case.grid, block)))
}

// The report of a block of a case in slices, by its number, counted from 1, or what it is refused with: 3, 7, 4, 5, 6, 9 or 10, and then 14, which
// names the number asked for. Any numbers, and slices of any length, are answered.
#[tactic(auto, using(crate::proofs::ReportLaws::slices_refuse, crate::proofs::ReportLaws::number_decides, slices::proofs::SlicesLaws::refused_some))]
pub fn block_report(case: Case, number: usize) -> Result<Report, Refusal>
    ensures { answer_in result ≡ report_answer (case_in case.entry) number }
{
    let formed = check_slices(case)?;
    report_of_case(JudgedCase { case: formed.case }, number)
}
