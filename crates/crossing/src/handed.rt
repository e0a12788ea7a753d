// What is answered for a case that is handed over, as a record and slices, before it goes over the front of what is lent for it.
ghost use Rattle.std.specs.Prelude.{◌≡◌, ◌≤◌, ◌<◌, length, IfOk, MatchResult};
ghost use Rattle.whole.specs.Lent.{over};
ghost use Rattle.grid.specs.Record.{record_numbers};
ghost use Rattle.slices.specs.declared.refusal.Refusal.TheVariants.{Short};
ghost use Rattle.slices.specs.Refusals.{refusal_in};
ghost use Rattle.report.specs.Reports.{answer_in as report_in};
ghost use Rattle.verdict.specs.Ruling.{answer_in as verdict_in};
ghost use Rattle.budget.specs.Answers.{answer_in as table_in};
ghost use Rattle.casefile.specs.Reading.{answer_in as record_in};
ghost use Rattle.crossing.specs.Crossing.{check_handed, verdict_handed, table_handed, report_handed, read_handed};
ghost use Rattle.crossing.specs.Inner.{lent_of};

use super::{REPORT, TABLE, VERDICT, grid_of};
use budget::{Table, zone_of_case};
use casefile::read_case;
use grid::{Grid, RECORD_NUMBERS};
use report::{Report, report_of_case};
use slices::refusal::Refusal;
use slices::{Case, JudgedCase, reaches_over};
use verdict::{Verdict, verdict_of_case};
use wellformed::{WellFormedCase, check_lent};

// A case as it is handed over: a row of the record's numbers, the widths of columns and rows in metres, and sixteen slots to a block. It may hold any
// numbers, and each slice may have any length.
#[derive(Clone, Copy)]
pub struct HandedCase<'a> {
    pub record: &'a [i64],
    pub columns: &'a [i64],
    pub rows: &'a [i64],
    pub slots: &'a [i64],
}

impl<'a> HandedCase<'a> {
    // The case, or 7 for a record that is too short: it has no counts to judge.
    #[inline(always)]
    fn case(self) -> Result<Case<'a>, Refusal>
        ensures { MatchResult result (λ c. (record_numbers ≤ length self.entry.record.now) × (c ≡ lent_of self.entry)) (λ e. (length self.entry.record.now < record_numbers) × (e ≡ Short)) }
    {
        if self.record.len() < RECORD_NUMBERS {
            return Err(Refusal::Short);
        }
        Ok(Case {
            grid: grid_of(self.record),
            columns: self.columns,
            rows: self.rows,
            slots: self.slots,
        })
    }

    // What the case is refused with, 7 for the record first; `reaches` says whether all that is lent besides is long enough.
    #[tactic(auto, using(crate::proofs::CrossingLaws::case_short, crate::proofs::CrossingLaws::case_long))]
    #[inline(always)]
    pub fn check(self, reaches: bool) -> Result<WellFormedCase<'a>, Refusal>
        ensures refusal { refusal_in result ≡ check_handed self.entry.record.now self.entry.columns.now self.entry.rows.now self.entry.slots.now reaches }
        ensures same { IfOk result (λ w. w.case ≡ lent_of self.entry) }
    {
        check_lent(self.case()?, reaches)
    }

    // The verdict, where `room` numbers are lent for it.
    #[tactic(auto, using(verdict::proofs::RulingLaws::answer_err, verdict::proofs::RulingLaws::answer_ok), unfolding(crate::specs::Crossing::verdict_handed))]
    pub fn verdict(self, room: usize) -> Result<Verdict, Refusal>
        ensures { verdict_in result ≡ verdict_handed self.entry.record.now self.entry.columns.now self.entry.rows.now self.entry.slots.now room }
    {
        Ok(verdict_of_case(self.check(VERDICT <= room)?))
    }

    // The table of a zone, where `room` numbers are lent for it. `marks` has a 1 for each block of the zone and a 0 for each other.
    #[tactic(auto, using(crate::proofs::CrossingLaws::table_short, crate::proofs::CrossingLaws::table_refused))]
    pub fn table(self, marks: &[i64], room: usize) -> Result<Table, Refusal>
        ensures { table_in result ≡ table_handed self.entry.record.now self.entry.columns.now self.entry.rows.now self.entry.slots.now marks.now room }
    {
        let case = self.case()?;
        let reaches = TABLE <= room && reaches_over(case.grid, 1, marks.len());
        zone_of_case(check_lent(case, reaches)?, marks)
    }

    // The report of a block, by its number, counted from 1, where `room` doubles are lent for it.
    #[tactic(auto, using(crate::proofs::CrossingLaws::handed_refused, crate::proofs::CrossingLaws::handed_given), unfolding(crate::specs::Crossing::report_handed))]
    pub fn report(self, number: usize, room: usize) -> Result<Report, Refusal>
        ensures { report_in result ≡ report_handed self.entry.record.now self.entry.columns.now self.entry.rows.now self.entry.slots.now number room }
    {
        let formed = self.check(REPORT <= room)?;
        report_of_case(JudgedCase { case: formed.case }, number)
    }
}

// Reads a case file into lent slices, where `room` numbers are lent for its record: 7 for that before all else.
#[tactic(auto, using(crate::proofs::CrossingLaws::read_short, crate::proofs::CrossingLaws::read_roomy))]
pub fn read_handed(
    file: &[u8],
    room: usize,
    columns: &mut [i64],
    rows: &mut [i64],
    slots: &mut [i64],
) -> Result<Grid, Refusal>
    ensures answer { record_in result ≡ (read_handed file.now room columns.old rows.old slots.old).answer }
    ensures columns { columns.new ≡ over (read_handed file.now room columns.old rows.old slots.old).columns columns.old }
    ensures rows { rows.new ≡ over (read_handed file.now room columns.old rows.old slots.old).rows rows.old }
    ensures slots { slots.new ≡ over (read_handed file.now room columns.old rows.old slots.old).slots slots.old }
{
    if room < RECORD_NUMBERS {
        return Err(Refusal::Short);
    }
    read_case(file, columns, rows, slots)
}
