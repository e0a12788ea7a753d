// What the programs that run stored vectors share: the numbers of a batch, the cases in it, and what more than one of them prints. docs/VECTORS.md has the
// form of a batch.
#![tactic(auto)]

pub mod print;

ghost use Rattle.std.specs.Prelude.{◌≡◌, ◌≤◌, IfOk, length, take};

use grid::Grid;
use numbers::signed;
use reading::read_full;
use slices::Case;
use std::fs::File;
use std::io;
use std::io::{Read, Write};

// A program runs so many entries of a batch at most.
pub const MOST_ENTRIES: usize = 100_000;

// Room for the widths of a stored case along an axis, and for its slots: twice what the greatest grid needs, and more.
pub const WIDTHS_ROOM: usize = 1_024;

pub const SLOTS_ROOM: usize = 16_384;

// The three slices of a case, as they are lent.
#[derive(Drop)]
pub struct Lent<'a> {
    pub columns: &'a mut [i64],
    pub rows: &'a mut [i64],
    pub slots: &'a mut [i64],
}

impl<'a> Lent<'a> {
    // Slices of the lengths that are next in a batch, each a front of one that is given.
    pub fn next<R: Read>(
        batch: &mut R,
        columns: &'a mut [i64],
        rows: &'a mut [i64],
        slots: &'a mut [i64],
    ) -> io::Result<Lent<'a>>
        ensures columns { IfOk result (λ lent. length lent.columns.now ≤ length columns.old) }
        ensures rows { IfOk result (λ lent. length lent.rows.now ≤ length rows.old) }
        ensures slots { IfOk result (λ lent. length lent.slots.now ≤ length slots.old) }
    {
        Ok(Lent {
            columns: next_part(batch, columns)?,
            rows: next_part(batch, rows)?,
            slots: next_part(batch, slots)?,
        })
    }
}

// Room for the three slices of a stored case.
#[derive(Drop)]
pub struct Room {
    columns: [i64; WIDTHS_ROOM],
    rows: [i64; WIDTHS_ROOM],
    slots: [i64; SLOTS_ROOM],
}

impl Room {
    // Room whose numbers are all alike.
    pub fn filled(number: i64) -> Room {
        Room {
            columns: [number; WIDTHS_ROOM],
            rows: [number; WIDTHS_ROOM],
            slots: [number; SLOTS_ROOM],
        }
    }

    // Slices of the lengths that are next in a batch.
    pub fn lend<R: Read>(&mut self, batch: &mut R) -> io::Result<Lent<'_>> {
        let Room {
            columns,
            rows,
            slots,
        } = self;
        Lent::next(batch, columns, rows, slots)
    }

    // The case that is next in a batch, its columns having been read: its record, the lengths of its slices, and these.
    pub fn next_case<R: Read>(&mut self, batch: &mut R, columns: u64) -> io::Result<Case<'_>> {
        let grid = record_after(batch, columns)?;
        let Lent {
            columns,
            rows,
            slots,
        } = self.lend(batch)?;
        fill(batch, columns)?;
        fill(batch, rows)?;
        fill(batch, slots)?;
        Ok(Case {
            grid,
            columns,
            rows,
            slots,
        })
    }
}

// The next bytes of a batch, as many as a number has, or none at its end.
fn next_bytes<R: Read, const N: usize>(batch: &mut R) -> io::Result<Option<[u8; N]>> {
    let mut bytes = [0u8; N];
    let n = read_full(batch, &mut bytes)?;
    Ok(if n < N { None } else { Some(bytes) })
}

// The next number of a batch in four bytes, the lowest first, or none at its end.
pub fn next_number<R: Read>(batch: &mut R) -> io::Result<Option<u64>> {
    Ok(next_bytes(batch)?.map(|bytes| u64::from(u32::from_le_bytes(bytes))))
}

// The next word of a batch, a number in eight bytes, the lowest first, or none at its end.
pub fn next_word<R: Read>(batch: &mut R) -> io::Result<Option<u64>> {
    Ok(next_bytes(batch)?.map(u64::from_le_bytes))
}

// The next word of a batch, 0 at its end.
pub fn word_or_zero<R: Read>(batch: &mut R) -> io::Result<u64> {
    Ok(next_word(batch)?.unwrap_or(0))
}

// The next word of a batch, signed.
fn next_signed<R: Read>(batch: &mut R) -> io::Result<i64> {
    Ok(signed(word_or_zero(batch)?))
}

// The front of a slice, as many numbers as the next word of a batch says: all of them where it says more.
pub fn next_part<'a, R: Read>(batch: &mut R, numbers: &'a mut [i64]) -> io::Result<&'a mut [i64]>
    ensures { IfOk result (λ part. (length part.now ≤ length numbers.old) × (part.now ≡ take (length part.now) numbers.old)) }
{
    let count = (word_or_zero(batch)? as usize).min(numbers.len());
    Ok(&mut numbers[..count])
}

// The next words of a batch, signed, over a slice.
pub fn fill<R: Read>(batch: &mut R, numbers: &mut [i64]) -> io::Result<()> {
    for z in numbers {
        *z = next_signed(batch)?;
    }
    Ok(())
}

// The record of a stored case whose columns have been read: columns, rows, layers, δ, fresh weight, salt weight, flag, step, tolerance.
fn record_after<R: Read>(batch: &mut R, columns: u64) -> io::Result<Grid> {
    Ok(Grid {
        columns: columns as usize,
        rows: word_or_zero(batch)? as usize,
        layers: word_or_zero(batch)? as usize,
        delta: next_signed(batch)?,
        fresh_weight: next_signed(batch)?,
        salt_weight: next_signed(batch)?,
        flag: word_or_zero(batch)?,
        step: next_signed(batch)?,
        tolerance: next_signed(batch)?,
    })
}

// Runs the entries of a batch, one after the other to its end: `next` reads the number that an entry begins with, and `run` what follows it. The batch is
// the file of that name where the program runs.
pub fn run_batch<
    W: Write,
    N: Fn(&mut File) -> io::Result<Option<u64>>,
    F: Fn(&mut File, &mut W, u64) -> io::Result<()>,
>(rt: &HostRuntime, name: &str, out: &mut W, next: N, run: F) -> io::Result<()>
    requires next { N.IsAlwaysCallable next }
    requires run { F.IsAlwaysCallable run }
{
    let mut batch = File::open(rt, name)?;
    for _ in 0..MOST_ENTRIES {
        let Some(number) = next(&mut batch)? else {
            return Ok(());
        };
        run(&mut batch, out, number)?;
    }
    Ok(())
}
