// What the program prints for a case (document 01, "Numbers worked by hand"): the numbers of a refusal, or of a verdict and the tables of the layers
// and of the whole. The words around them are in `printing`.
#![tactic(auto)]

ghost use Rattle.std.specs.Prelude.{false, ◌≡◌, ◌*◌, ◌+◌, ◌≤◌, length};
ghost use Rattle.whole.specs.Lent.{over};
ghost use Rattle.slices.specs.Cases.{case_in};
ghost use Rattle.verdict.specs.Ruling.{verdict_of};
ghost use Rattle.zone.specs.Inner.{Worked};
ghost use Rattle.budget.specs.Answers.{case_refusal};
ghost use Rattle.session.specs.Sessions.{first_line_only, layers_of, tables_of, printed_in, session_in, ruling, session_of, file_session};

use balance::balances::fill_balances;
use books::rows::ROW;
use books::waters::fill_waters;
use budget::{layer_on, whole_on};
use casefile::read_case;
use fields::MOST_SLOTS;
use grid::units::{MOST_ACROSS, MOST_LAYERS};
use slices::Case;
use slices::refusal::Refusal;
use verdict::units::{DRY, MOVED};
use verdict::{Verdict, verdict_of_rows};
use wellformed::{WellFormedCase, check_slices};
use whole::lent::copy_front;

// A verdict, and how many tables follow it: one for each layer from 1 and one for the whole, or none. A table has eighteen lines, litres a day, as in
// `budget`, and the tables stand one after the other; all lines behind them are 0.
#[derive(Clone, Copy)]
pub struct Session {
    pub verdict: Verdict,
    pub tables: usize,
    pub lines: [i64; MOST_LINES],
}

// Lines of a table.
pub const LINES_EACH: usize = 18;

// The most tables: one for each of the most layers and one for the whole.
pub const MOST_TABLES: usize = MOST_LAYERS + 1;

// Lines of the most tables.
pub const MOST_LINES: usize = LINES_EACH * MOST_TABLES;

// 8: "in the program, before all else, a file above 28,672 bytes".
pub const MOST_FILE: usize = 28_672;

// "With verdict 21 or 22 only the first line is printed".
fn first_line_only(code: u64) -> bool
    ensures { result ≡ first_line_only code }
{
    matches!(code, MOVED | DRY)
}

// A well-formed case with the thicknesses and the balances of all its blocks in rows: they are worked out once, for the verdict and for all tables.
#[derive(Clone, Copy)]
struct WorkedCase<'a> {
    well_formed: WellFormedCase<'a>,
    waters: &'a [i64],
    balances: &'a [i64],
    ghost worked: { Worked (case_in well_formed.case) waters.now balances.now },
}

impl<'a> WorkedCase<'a> {
    // The tables of all layers into the front of a slice. Inner: the case is refused nothing, 13 included, and the slice has room.
    fn fill_layers(&self, out: &mut [i64])
        requires wet { (case_refusal (case_in self.now.well_formed.case)).number ≡ 0 }
        requires layers_in_bounds { 18 * self.now.well_formed.case.grid.layers ≤ length out.old }
        ensures { out.new ≡ over (layers_of (case_in self.now.well_formed.case) self.now.well_formed.case.grid.layers) out.old }
    {
        let case = self.well_formed.case;
        for layer in 0..case.grid.layers {
            let lines = layer_on(
                case.grid,
                case.columns,
                case.rows,
                case.slots,
                self.waters,
                self.balances,
                layer + 1,
            );
            copy_front(&lines, &mut out[LINES_EACH * layer..]);
        }
    }

    // The tables of all layers and then of the whole into the front of a slice. Inner: the case is refused nothing, 13 included, and the slice has room.
    fn fill_tables(&self, out: &mut [i64])
        requires wet { (case_refusal (case_in self.now.well_formed.case)).number ≡ 0 }
        requires layers_in_bounds { 18 * (self.now.well_formed.case.grid.layers + 1) ≤ length out.old }
        ensures { out.new ≡ over (tables_of (case_in self.now.well_formed.case)) out.old }
    {
        self.fill_layers(out);
        let case = self.well_formed.case;
        let lines = whole_on(
            case.grid,
            case.columns,
            case.rows,
            case.slots,
            self.waters,
            self.balances,
        );
        copy_front(&lines, &mut out[LINES_EACH * case.grid.layers..]);
    }

    // What is printed beside a verdict on the case. Inner: beside any verdict but 21 and 22 no well is dry.
    #[tactic(auto, using(crate::proofs::SessionLaws::ruling_alone, crate::proofs::SessionLaws::ruling_tables))]
    fn ruled(&self, verdict: Verdict) -> Session
        requires { first_line_only verdict.code ≡ false → (case_refusal (case_in self.now.well_formed.case)).number ≡ 0 }
        ensures { printed_in result ≡ ruling (case_in self.now.well_formed.case) verdict }
    {
        let mut lines = [0i64; MOST_LINES];
        let tables = if first_line_only(verdict.code) {
            0
        } else {
            self.fill_tables(&mut lines);
            self.well_formed.case.grid.layers + 1
        };
        Session {
            verdict,
            tables,
            lines,
        }
    }
}

// What is printed for a case that is refused nothing.
fn session_of_case(well_formed: WellFormedCase<'_>) -> Session
    ensures { printed_in result ≡ ruling (case_in well_formed.entry.case) (verdict_of (case_in well_formed.entry.case)) }
{
    let case = well_formed.case;
    let mut waters = [0i64; ROW];
    fill_waters(case.grid, case.slots, &mut waters);
    let mut balances = [0i64; ROW];
    fill_balances(
        case.grid,
        case.columns,
        case.rows,
        case.slots,
        &waters,
        &mut balances,
    );
    let verdict = verdict_of_rows(case.grid, case.slots, &waters, &balances);
    let worked = WorkedCase {
        well_formed,
        waters: &waters,
        balances: &balances,
    };
    worked.ruled(verdict)
}

// What is printed for a case in slices, or what it is refused with: 3, 7, 4, 5, 6, 9 or 10. Any numbers, and slices of any length, are answered.
#[tactic(auto, using(crate::proofs::SessionLaws::session_refused, crate::proofs::SessionLaws::session_ruled, slices::proofs::SlicesLaws::refused_some))]
pub fn session_of_slices(case: Case<'_>) -> Result<Session, Refusal>
    ensures { session_in result ≡ session_of (case_in case.entry) }
{
    Ok(session_of_case(check_slices(case)?))
}

// What is printed for a file: 8 where it has more than 28,672 bytes, or what the file is refused with as it is read, or what is printed for the case in it.
// Any bytes are answered.
#[tactic(auto, using(crate::proofs::SessionLaws::file_long, crate::proofs::SessionLaws::file_read, crate::proofs::SessionLaws::read_refused, crate::proofs::SessionLaws::read_unrefused))]
pub fn session_of_file(file: &[u8]) -> Result<Session, Refusal>
    ensures { session_in result ≡ file_session file.now }
{
    if MOST_FILE < file.len() {
        return Err(Refusal::Excess);
    }
    let mut columns = [0i64; MOST_ACROSS];
    let mut rows = [0i64; MOST_ACROSS];
    let mut slots = [0i64; MOST_SLOTS];
    let grid = read_case(file, &mut columns, &mut rows, &mut slots)?;
    session_of_slices(Case {
        grid,
        columns: &columns,
        rows: &rows,
        slots: &slots,
    })
}
