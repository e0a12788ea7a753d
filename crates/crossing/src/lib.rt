// What crosses to other languages: the record of a case as a row of numbers, and a refusal or an answer handed over. The functions that other languages
// call are in `client`.
#![tactic(auto)]

pub mod handed;

ghost use Rattle.std.specs.Prelude.{[], ◌≡◌, ◌≤◌, get_or, length, pos, IfOk};
ghost use Rattle.std.specs.Result.{result_unwrap_or};
ghost use Rattle.whole.specs.Lent.{over};
ghost use Rattle.grid.specs.Inner.{Counted, Termed};
ghost use Rattle.slices.specs.Refusals.{refusal_in};
ghost use Rattle.crossing.specs.Inner.{Small};
ghost use Rattle.crossing.specs.Crossing.{count_in, flag_in, grid_of, numbers_of_grid, numbers_of_verdict, doubles_of, handed};

use grid::{Grid, RECORD_NUMBERS};
use report::Report;
use slices::refusal::Refusal;
use verdict::Verdict;
use whole::lent::copy_front;

// Numbers of a verdict: code, block, count, largest.
pub const VERDICT: usize = 4;

// Lines of a table.
pub const TABLE: usize = 18;

// Doubles of a report.
pub const REPORT: usize = 5;

// A count of a record. Below zero it is out of range, as 0 is.
fn count_of(z: i64) -> usize
    ensures { result ≡ count_in z }
{
    usize::try_from(z).unwrap_or(0)
}

// The flag of a record. Below zero it is out of range, as 2 is.
fn flag_of(z: i64) -> u64
    ensures { result ≡ flag_in z }
{
    u64::try_from(z).unwrap_or(2)
}

// A number of a record by its place, 0 where it has none.
fn number_at(row: &[i64], place: usize) -> i64
    ensures { result ≡ get_or row.now place (pos 0) }
{
    row.get(place).copied().unwrap_or(0)
}

// The record of a case by its numbers; those that are not there count as 0.
#[tactic(auto, unfolding(crate::specs::Crossing::grid_of))]
pub fn grid_of(record: &[i64]) -> Grid
    ensures { result ≡ grid_of «record».now }
{
    Grid {
        columns: count_of(number_at(record, 0)),
        rows: count_of(number_at(record, 1)),
        layers: count_of(number_at(record, 2)),
        delta: number_at(record, 3),
        fresh_weight: number_at(record, 4),
        salt_weight: number_at(record, 5),
        flag: flag_of(number_at(record, 6)),
        step: number_at(record, 7),
        tolerance: number_at(record, 8),
    }
}

// The numbers of a record. Inner: it is in range.
pub fn numbers_of_grid(g: Grid) -> [i64; RECORD_NUMBERS]
    requires counted { Counted g }
    requires termed { Termed g }
    ensures { result ≡ numbers_of_grid g }
{
    [
        g.columns as i64,
        g.rows as i64,
        g.layers as i64,
        g.delta,
        g.fresh_weight,
        g.salt_weight,
        g.flag as i64,
        g.step,
        g.tolerance,
    ]
}

// The numbers of a verdict. Inner: code, block and count are no greater than those of a verdict on a grid.
pub fn numbers_of_verdict(v: Verdict) -> [i64; VERDICT]
    requires { Small v }
    ensures { result ≡ numbers_of_verdict v }
{
    [v.code as i64, v.block as i64, v.count as i64, v.largest]
}

// The doubles of a report.
pub fn doubles_of(report: Report) -> [f64; REPORT]
    ensures { result ≡ doubles_of report }
{
    [
        report.fresh_head,
        report.salt_head,
        report.interface,
        report.fresh_thickness,
        report.salt_thickness,
    ]
}

// The number of a refusal, 0 for none. The block that it names, 0 for none, goes into `block`.
pub fn tell<T>(answer: &Result<T, Refusal>, block: &mut usize) -> u64
    ensures number { result ≡ (refusal_in answer.now).number }
    ensures block { block.new ≡ (refusal_in answer.now).block }
{
    match answer {
        Ok(_) => {
            *block = 0;
            0
        }
        Err(refusal) => {
            *block = refusal.block();
            refusal.number()
        }
    }
}

// Hands over a refusal or a row of values: "no lent slice changes by it". Inner: values that are handed over have room.
pub fn hand_row<T: Copy>(
    told: Result<(), Refusal>,
    values: &[T],
    out: &mut [T],
    block: &mut usize,
) -> u64
    requires { (refusal_in told).number ≡ 0 → length values.now ≤ length out.old }
    ensures number { result ≡ (refusal_in told).number }
    ensures block { block.new ≡ (refusal_in told).block }
    ensures out { out.new ≡ over (handed (refusal_in told) values.now) out.old }
{
    if told.is_ok() {
        copy_front(values, out);
    }
    tell(&told, block)
}

// Hands over a refusal or an answer of so many values. Inner: an answer that is handed over has room.
pub fn hand<T: Copy, const N: usize>(
    answer: Result<[T; N], Refusal>,
    out: &mut [T],
    block: &mut usize,
) -> u64
    requires { IfOk answer (λ values. length values ≤ length out.old) }
    ensures number { result ≡ (refusal_in answer).number }
    ensures block { block.new ≡ (refusal_in answer).block }
    ensures out { out.new ≡ over (handed (refusal_in answer) (result_unwrap_or answer [])) out.old }
{
    match &answer {
        Ok(values) => hand_row(Ok(()), values, out, block),
        Err(refusal) => hand_row(Err(*refusal), &[], out, block),
    }
}
