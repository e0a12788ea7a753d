// Runs of numbers of a case file, into a lent slice (document 01, "The case file"): a part's numbers one after the other, and block by block.
ghost use Rattle.std.specs.Prelude.{◌≡◌, ◌≤◌, ◌*◌, length};
ghost use Rattle.whole.specs.Lent.{over};
ghost use Rattle.grid.specs.Inner.{Counted};
ghost use Rattle.grid.specs.Place.{blocks_of};
ghost use Rattle.slices.specs.Refusals.{refusal_in};
ghost use Rattle.fields.specs.Fields.{most_slots};
ghost use Rattle.fields.specs.Runs.{Done, fill_of, block_from, blocks_from, ending_of, run_in};

use super::{Part, field_at};
use grid::Grid;
use grid::place::{blocks, is_top};
use slices::refusal::Refusal;
use slots::rules::slots_hold;
use slots::units::SLOTS_EACH;

// As many numbers of a part as a slice has room for, from a place, and the place after them; where one is refused, those before it stand in the front of
// the slice. Inner: there are at most 8,192.
#[tactic(auto, using(crate::proofs::RunsLaws::fill_here, crate::proofs::RunsLaws::fill_none, crate::proofs::RunsLaws::fill_refused, whole::proofs::LentLaws::over_front))]
fn fill_from(file: &[u8], at: usize, part: Part, out: &mut [i64]) -> Result<usize, Refusal>
    requires { length out.old ≤ most_slots }
    ensures run { run_in result ≡ (fill_of (Done at) part file.now (length out.old)).run }
    ensures values { out.new ≡ over (fill_of (Done at) part file.now (length out.old)).values out.old }
{
    let mut next = at;
    for k in 0..out.len() {
        let field = field_at(file, next, part, &out[..k])?;
        out[k] = field.value;
        next = field.next;
    }
    Ok(next)
}

// The same from where another run ended; nothing where that was refused. Inner: there are at most 8,192.
#[tactic(auto, using(crate::proofs::RunsLaws::fill_ended))]
pub fn fill(
    file: &[u8],
    from: Result<usize, Refusal>,
    part: Part,
    out: &mut [i64],
) -> Result<usize, Refusal>
    requires { length out.old ≤ most_slots }
    ensures run { run_in result ≡ (fill_of (run_in from) part file.now (length out.old)).run }
    ensures values { out.new ≡ over (fill_of (run_in from) part file.now (length out.old)).values out.old }
{
    fill_from(file, from?, part, out)
}

// The slots of a block, counted from 1, into a slice, and then its rules: 6, "after its last number". Inner: the slice has room for sixteen.
#[tactic(auto, using(crate::proofs::FilledLaws::block_refused, crate::proofs::FilledLaws::block_falls, crate::proofs::FilledLaws::block_stands, crate::proofs::FilledLaws::block_values))]
fn fill_block(
    file: &[u8],
    at: usize,
    block: usize,
    top: bool,
    out: &mut [i64],
) -> Result<usize, Refusal>
    requires { length out.old ≡ 16 }
    ensures run { run_in result ≡ (block_from (Done at) file.now block top).run }
    ensures values { out.new ≡ over (block_from (Done at) file.now block top).values out.old }
{
    let next = fill_from(file, at, Part::Slots { block }, out)?;
    if !slots_hold(out, top) {
        return Err(Refusal::Slots { block });
    }
    Ok(next)
}

// The slots of all blocks of a grid into a slice, and the place after them; where one is refused, those before it stand in the front of the slice. Inner:
// the counts are in range and the slice has room.
#[tactic(auto, unfolding(crate::specs::Runs::blocks_from))]
fn fill_blocks_from(file: &[u8], at: usize, g: Grid, out: &mut [i64]) -> Result<usize, Refusal>
    requires counted { Counted g }
    requires roomy { 16 * blocks_of g ≤ length out.old }
    ensures run { run_in result ≡ (blocks_from (Done at) g file.now (blocks_of g)).run }
    ensures values { out.new ≡ over (blocks_from (Done at) g file.now (blocks_of g)).values out.old }
{
    let mut next = at;
    let total = blocks(g);
    for block in 0..total {
        let start = SLOTS_EACH * block;
        let slots = &mut out[start..start + SLOTS_EACH];
        next = fill_block(file, next, block + 1, is_top(g, block), slots)?;
    }
    Ok(next)
}

// The same from where another run ended; nothing where that was refused. Inner: the counts are in range and the slice has room.
#[tactic(auto, using(crate::proofs::FilledLaws::blocks_ended))]
pub fn fill_blocks(
    file: &[u8],
    from: Result<usize, Refusal>,
    g: Grid,
    out: &mut [i64],
) -> Result<usize, Refusal>
    requires counted { Counted g }
    requires roomy { 16 * blocks_of g ≤ length out.old }
    ensures run { run_in result ≡ (blocks_from (run_in from) g file.now (blocks_of g)).run }
    ensures values { out.new ≡ over (blocks_from (run_in from) g file.now (blocks_of g)).values out.old }
{
    fill_blocks_from(file, from?, g, out)
}

// What a run over the whole file is refused with, at the latest 8: "bytes follow the last block".
#[tactic(auto, unfolding(crate::specs::Runs::ending_of))]
pub fn ending(file: &[u8], run: Result<usize, Refusal>) -> Result<(), Refusal>
    ensures { refusal_in result ≡ ending_of (run_in run) file.now }
{
    let at = run?;
    if at < file.len() {
        Err(Refusal::Excess)
    } else {
        Ok(())
    }
}
