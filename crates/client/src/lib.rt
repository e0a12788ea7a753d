// The functions for other languages (docs/CLIENT.md): numbers and slices cross, a slice as a pointer and a length. A function answers with the number of a
// refusal, 0 for none, and writes the block that it names, counted from 1 and 0 for none, to `block`. What was asked for goes over the front of a lent
// slice, and a refusal changes no slice. A record that is too short is refused with 7 before all else, and a slice that is too short for the answer with 7 in
// 7's place. A record is columns, rows, layers, δ, fresh and salt weight in grams a litre, flag, step in days, tolerance in litres a day; `columns` and
// `rows` are the widths in metres.
#![tactic(auto)]

ghost use Rattle.std.specs.Prelude.{true, ◌≡◌, pos, length};
ghost use Rattle.std.specs.Result.{result_unwrap_or};
ghost use Rattle.whole.specs.Lent.{over};
ghost use Rattle.slots.specs.Units.{most_level};
ghost use Rattle.slices.specs.Refusals.{refusal_in};
ghost use Rattle.metres.specs.declared.boundary.Boundary.TheVariants.{Sea};
ghost use Rattle.metres.specs.Boundaries.{boundary_slots_of};
ghost use Rattle.metres.specs.Metres.{shown_of, taken_of};
ghost use Rattle.crossing.specs.Crossing.{check_handed, verdict_handed, table_handed, report_handed, read_handed, verdict_left, table_left, report_left, record_left};
ghost use Rattle.client.specs.Kept.{kept};

use crossing::handed::{HandedCase, read_handed};
use crossing::{doubles_of, hand, numbers_of_grid, numbers_of_verdict, tell};
use metres::boundary::{Boundary, take_boundary};
use metres::{show, take_in};
use slices::refusal::Refusal;

// What a case in slices is refused with: 3, 7, 4, 5, 6, 9 or 10.
#[unsafe(no_mangle)]
pub extern "C" fn caydubeesh_check(
    record: &[i64],
    columns: &[i64],
    rows: &[i64],
    slots: &[i64],
    block: &mut usize,
) -> u64
    ensures number { result ≡ (check_handed «record».now columns.now rows.now slots.now true).number }
    ensures block { block.new ≡ (check_handed «record».now columns.now rows.now slots.now true).block }
{
    let case = HandedCase {
        record,
        columns,
        rows,
        slots,
    };
    tell(&case.check(true), block)
}

// The verdict on the heads proposed in a case in slices, over the front of `verdict`: code, block, count of places, largest balance in litres a day. It is
// refused as `caydubeesh_check` refuses.
#[unsafe(no_mangle)]
pub extern "C" fn caydubeesh_verdict(
    record: &[i64],
    columns: &[i64],
    rows: &[i64],
    slots: &[i64],
    verdict: &mut [i64],
    block: &mut usize,
) -> u64
    ensures number { result ≡ (verdict_handed «record».now columns.now rows.now slots.now (length verdict.old)).refusal.number }
    ensures block { block.new ≡ (verdict_handed «record».now columns.now rows.now slots.now (length verdict.old)).refusal.block }
    ensures verdict { verdict.new ≡ verdict_left «record».now columns.now rows.now slots.now verdict.old }
{
    let case = HandedCase {
        record,
        columns,
        rows,
        slots,
    };
    let answer = case.verdict(verdict.len()).map(numbers_of_verdict);
    hand(answer, verdict, block)
}

// The table of a zone of a case in slices, over the front of `lines`: nine lines of fresh water and nine of salt water, litres a day. `marks` has a 1 for
// each block of the zone and a 0 for each other. It is refused as `caydubeesh_check` refuses, with 7 for short marks too, and then with 11 or 13.
#[unsafe(no_mangle)]
pub extern "C" fn caydubeesh_zone_table(
    record: &[i64],
    columns: &[i64],
    rows: &[i64],
    slots: &[i64],
    marks: &[i64],
    lines: &mut [i64],
    block: &mut usize,
) -> u64
    ensures number { result ≡ (table_handed «record».now columns.now rows.now slots.now marks.now (length lines.old)).refusal.number }
    ensures block { block.new ≡ (table_handed «record».now columns.now rows.now slots.now marks.now (length lines.old)).refusal.block }
    ensures lines { lines.new ≡ table_left «record».now columns.now rows.now slots.now marks.now lines.old }
{
    let case = HandedCase {
        record,
        columns,
        rows,
        slots,
    };
    let answer = case.table(marks, lines.len());
    hand(answer, lines, block)
}

// The report of a block of a case in slices, by its number, counted from 1, over the front of `metres`: fresh head, salt head, interface, fresh thickness,
// salt thickness. It is refused as `caydubeesh_check` refuses, and then with 14, which names the number asked for.
#[unsafe(no_mangle)]
pub extern "C" fn caydubeesh_report(
    record: &[i64],
    columns: &[i64],
    rows: &[i64],
    slots: &[i64],
    number: usize,
    metres: &mut [f64],
    block: &mut usize,
) -> u64
    ensures number { result ≡ (report_handed «record».now columns.now rows.now slots.now number (length metres.old)).refusal.number }
    ensures block { block.new ≡ (report_handed «record».now columns.now rows.now slots.now number (length metres.old)).refusal.block }
    ensures metres { metres.new ≡ report_left «record».now columns.now rows.now slots.now number metres.old }
{
    let case = HandedCase {
        record,
        columns,
        rows,
        slots,
    };
    let answer = case.report(number, metres.len()).map(doubles_of);
    hand(answer, metres, block)
}

// Reads a case file into `record`, widths and slots, sixteen to a block. It is refused with one of 1 to 10.
#[unsafe(no_mangle)]
pub extern "C" fn caydubeesh_read(
    file: &[u8],
    record: &mut [i64],
    columns: &mut [i64],
    rows: &mut [i64],
    slots: &mut [i64],
    block: &mut usize,
) -> u64
    ensures number { result ≡ (read_handed file.now (length «record».old) columns.old rows.old slots.old).answer.refusal.number }
    ensures block { block.new ≡ (read_handed file.now (length «record».old) columns.old rows.old slots.old).answer.refusal.block }
    ensures recorded { «record».new ≡ record_left file.now columns.old rows.old slots.old «record».old }
    ensures columns { columns.new ≡ over (read_handed file.now (length «record».old) columns.old rows.old slots.old).columns columns.old }
    ensures rows { rows.new ≡ over (read_handed file.now (length «record».old) columns.old rows.old slots.old).rows rows.old }
    ensures slots { slots.new ≡ over (read_handed file.now (length «record».old) columns.old rows.old slots.old).slots slots.old }
{
    let answer = read_handed(file, record.len(), columns, rows, slots);
    hand(answer.map(numbers_of_grid), record, block)
}

// Puts an answer into what is lent for it, which beside a refusal stays as it was. The number of the refusal, 0 for none.
fn give<T: Copy>(answer: Result<T, Refusal>, to: &mut T) -> u64
    ensures number { result ≡ (refusal_in answer).number }
    ensures to { to.new ≡ result_unwrap_or answer to.old }
{
    match answer {
        Ok(given) => {
            *to = given;
            0
        }
        Err(refusal) => refusal.number(),
    }
}

// The nearest tick of a head, a base or a stage in metres, halves to the even one. It is refused with 12, and `tick` is then as it was.
#[unsafe(no_mangle)]
pub extern "C" fn caydubeesh_tick(metres: f64, tick: &mut i64) -> u64
    ensures number { result ≡ (taken_of (pos most_level) metres).refusal.number }
    ensures tick { tick.new ≡ kept (taken_of (pos most_level) metres).refusal (taken_of (pos most_level) metres).tick tick.old }
{
    give(take_in(metres), tick)
}

// The same of a sea floor, whose tick is not above 0.
#[unsafe(no_mangle)]
pub extern "C" fn caydubeesh_floor_tick(metres: f64, tick: &mut i64) -> u64
    ensures number { result ≡ (boundary_slots_of (Sea metres)).refusal.number }
    ensures tick { tick.new ≡ kept (boundary_slots_of (Sea metres)).refusal (boundary_slots_of (Sea metres)).level tick.old }
{
    let taken = take_boundary(Boundary::Sea { floor: metres });
    give(taken.map(|slots| slots.level), tick)
}

// A tick in metres, exactly. Ticks of 2⁵³ and more without sign are refused with 12, and `metres` is then as it was.
#[unsafe(no_mangle)]
pub extern "C" fn caydubeesh_metres(tick: i64, metres: &mut f64) -> u64
    ensures number { result ≡ (shown_of tick).refusal.number }
    ensures metres { metres.new ≡ kept (shown_of tick).refusal (shown_of tick).metres metres.old }
{
    give(show(tick), metres)
}
