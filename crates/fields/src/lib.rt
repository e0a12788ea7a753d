// The numbers that a case file sends, one at a time (document 01, "The case file" and "Refusal numbers").
#![tactic(auto)]

pub mod runs;

ghost use Rattle.std.specs.Prelude.{◌≡◌, ◌≤◌, ◌<◌, ◌^◌, length};
ghost use Rattle.numbers.specs.Numbers.{number_at};
ghost use Rattle.fields.specs.Fields.{most_slots, got_in, refusal_of, record_range, is_boundary_slot, slot_sent, weight_sent, is_sent, ends_of, part_refusal, meant_of, number_judged, field_at, unread_of};

use grid::units::{
    LEAST_FRESH_WEIGHT, LEAST_SALT_WEIGHT, MOST_ACROSS, MOST_BLOCKS, MOST_DELTA, MOST_FRESH_WEIGHT,
    MOST_LAYERS, MOST_SALT_WEIGHT, MOST_STEP, MOST_TOLERANCE,
};
use grid::{COUNTS, DENSITY, RECORD_NUMBERS};
use numbers::{NumberError, read_number, signed};
use slices::WIDTHS;
use slices::refusal::Refusal;
use slots::ranges::range_of;
use slots::rules::OPEN_KINDS;
use slots::units::SLOTS_EACH;
use whole::is_zero;
use whole::ranges::{Range, in_range};

// The parts of a file whose numbers are judged alike: the counts, δ with the two weights, the terms, the widths, and the slots of a
// block, which is counted from 1.
#[derive(Clone, Copy)]
pub enum Part {
    Counts,
    Density,
    Terms,
    Widths,
    Slots { block: usize },
}

// A number of a part that was read, and the place after it.
#[derive(Clone, Copy)]
pub struct Field {
    pub value: i64,
    pub next: usize,
}

// The slots of the most blocks: more than any part of a file has.
pub const MOST_SLOTS: usize = SLOTS_EACH * MOST_BLOCKS;

// The ends of the numbers of a case's record: columns, rows, layers, δ, fresh weight, salt weight, flag, step, tolerance.
const RECORD_RANGES: [Range; RECORD_NUMBERS] = [
    // columns
    Range {
        lower: 1,
        upper: MOST_ACROSS as i64,
    },
    // rows
    Range {
        lower: 1,
        upper: MOST_ACROSS as i64,
    },
    // layers
    Range {
        lower: 1,
        upper: MOST_LAYERS as i64,
    },
    // δ, or 0 where the two weights follow
    Range {
        lower: 0,
        upper: MOST_DELTA,
    },
    // fresh weight, grams a litre
    Range {
        lower: LEAST_FRESH_WEIGHT,
        upper: MOST_FRESH_WEIGHT,
    },
    // salt weight, grams a litre
    Range {
        lower: LEAST_SALT_WEIGHT,
        upper: MOST_SALT_WEIGHT,
    },
    // water-table flag
    Range { lower: 0, upper: 1 },
    // time step, days
    Range {
        lower: 1,
        upper: MOST_STEP,
    },
    // tolerance, litres a day
    Range {
        lower: 0,
        upper: MOST_TOLERANCE,
    },
];

// The ends of a number of the record, counted from 0; 0 and 0 where there is no such number.
#[tactic(auto, unfolding(crate::specs::Fields::record_range))]
fn record_range(n: usize) -> Range
    ensures { result ≡ record_range n }
{
    if n < RECORD_NUMBERS {
        RECORD_RANGES[n]
    } else {
        Range { lower: 0, upper: 0 }
    }
}

// The slots of a river or a sea, "the two boundary slots".
fn is_boundary_slot(slot: usize) -> bool
    ensures { result ≡ is_boundary_slot slot }
{
    10 <= slot && slot <= 11
}

// Whether the next slot of a block is sent, after the slots so far: "K alone if 0, otherwise its slots in order, the two boundary slots only for
// kinds 1 and 2".
#[tactic(auto, unfolding(crate::specs::Fields::slot_sent, slots::specs::Slots::slots_at))]
fn slot_sent(done: &[i64]) -> bool
    ensures { result ≡ slot_sent done.now }
{
    done.is_empty()
        || 0 < done[0] && (!is_boundary_slot(done.len()) || in_range(OPEN_KINDS, done[9]))
}

// Whether δ or the next weight is sent, after those so far: "A δ of 0 in the case now means that two more numbers follow".
#[tactic(auto, unfolding(crate::specs::Fields::weight_sent))]
fn weight_sent(done: &[i64]) -> bool
    ensures { result ≡ weight_sent done.now }
{
    done.is_empty() || is_zero(done[0])
}

// Whether the next number of a part is sent, after those so far. One that is not sent is 0.
#[tactic(auto, unfolding(crate::specs::Fields::is_sent))]
fn is_sent(part: Part, done: &[i64]) -> bool
    ensures { result ≡ is_sent part done.now }
{
    match part {
        Part::Density => weight_sent(done),
        Part::Slots { .. } => slot_sent(done),
        Part::Counts | Part::Terms | Part::Widths => true,
    }
}

// The ends of a number of a part, counted from 0. Inner: n is at most 8,192.
#[tactic(auto, unfolding(crate::specs::Fields::ends_of))]
fn ends_of(part: Part, n: usize) -> Range
    requires { n ≤ most_slots }
    ensures { result ≡ ends_of part n }
{
    match part {
        Part::Counts => record_range(n),
        Part::Density => record_range(COUNTS + n),
        Part::Terms => record_range(COUNTS + DENSITY + n),
        Part::Widths => WIDTHS,
        Part::Slots { .. } => range_of(n),
    }
}

// What a number of a part is refused with outside its ends.
#[tactic(auto, unfolding(crate::specs::Fields::part_refusal))]
fn part_refusal(part: Part) -> Refusal
    ensures { refusal_of result ≡ part_refusal part }
{
    match part {
        Part::Counts => Refusal::Counts,
        Part::Density | Part::Terms => Refusal::Terms,
        Part::Widths => Refusal::Widths,
        Part::Slots { block } => Refusal::Slots { block },
    }
}

// What a number means that is sent for a field with a lower end: a field that can be below zero is signed. Inner: the number has at most five bytes.
#[tactic(auto, unfolding(crate::specs::Fields::meant_of))]
fn meant(n: u64, lower: i64) -> i64
    requires { n < 2 ^ 35 }
    ensures { result ≡ meant_of lower n }
{
    if lower < 0 { signed(n) } else { n as i64 }
}

// What a file is refused with where no number stands.
fn unread(error: NumberError) -> Refusal
    ensures { refusal_of result ≡ unread_of error }
{
    match error {
        NumberError::Ended => Refusal::Ended,
        NumberError::TooLong => Refusal::TooLong,
    }
}

// A number that is sent, at a place of the file: "1 or 2, then its range". It is the one after n of its part. Inner: n is at most 8,192.
#[tactic(auto, unfolding(crate::specs::Fields::number_judged, crate::specs::Fields::judged_in))]
fn sent_at(file: &[u8], at: usize, part: Part, n: usize) -> Result<Field, Refusal>
    requires { n ≤ most_slots }
    ensures { got_in result ≡ number_judged (number_at file.now at) (ends_of part n) (part_refusal part) }
{
    let number = read_number(file, at).map_err(unread)?;
    let ends = ends_of(part, n);
    let value = meant(number.value, ends.lower);
    if !in_range(ends, value) {
        return Err(part_refusal(part));
    }
    Ok(Field {
        value,
        next: number.next,
    })
}

// The next number of a part, from a place, after the numbers so far; one that is not sent is 0. Inner: there are at most
// 8,192 of them.
#[tactic(auto, unfolding(crate::specs::Fields::field_at))]
pub fn field_at(file: &[u8], at: usize, part: Part, done: &[i64]) -> Result<Field, Refusal>
    requires { length done.now ≤ most_slots }
    ensures { got_in result ≡ field_at part file.now at done.now }
{
    if is_sent(part, done) {
        sent_at(file, at, part, done.len())
    } else {
        Ok(Field { value: 0, next: at })
    }
}
