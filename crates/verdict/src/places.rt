// Places, each a block and a fluid (document 01, "Balance, verdict, table"): which are moved, free or failing. In block order, "fresh before
// salt in one block", place p is block p / 2 in fluid p % 2.
ghost use Rattle.std.specs.Prelude.{◌≡◌, ◌<◌};
ghost use Rattle.grid.specs.Place.{blocks_of};
ghost use Rattle.books.specs.Inner.{Slotted, Sound, Watered, pair_of};
ghost use Rattle.balance.specs.Inner.{Bounded};
ghost use Rattle.verdict.specs.Places.{moved_at, free_at, fails_at, counted_at, free_size_of, places_of};

use super::units::{DRY, MOVED};
use block::units::FRESH;
use block::{in_fluid, new_heads, old_heads};
use books::own::is_fixed;
use books::rows::pair;
use books::waters::is_dry_at;
use grid::Grid;
use slots::{is_active, load};

// Whether a fixed head "moved from old to new". Inner: the block is there and in range.
#[tactic(auto, unfolding(crate::specs::Places::moved_at))]
fn has_moved(slots: &[i64], block: usize, fluid: usize) -> bool
    requires { Sound slots.now block }
    ensures { result ≡ moved_at slots.now fluid block }
{
    if !is_active(slots, block) {
        return false;
    }
    let own = load(slots, block);
    is_fixed(own, fluid) && in_fluid(new_heads(own), fluid) != in_fluid(old_heads(own), fluid)
}

// Whether a block's head in a fluid is free: the block is active, and its kind does not fix it. Inner: the block is
// there and in range.
#[tactic(auto, unfolding(crate::specs::Places::free_at))]
fn is_free(slots: &[i64], block: usize, fluid: usize) -> bool
    requires { Sound slots.now block }
    ensures { result ≡ free_at slots.now fluid block }
{
    is_active(slots, block) && !is_fixed(load(slots, block), fluid)
}

// Whether a place's "head is free" and its "balance without sign exceeds the tolerance". Inner: slots and balances are in
// range, and the block is inside.
#[tactic(auto, unfolding(crate::specs::Places::fails_at))]
fn fails(g: Grid, slots: &[i64], balances: &[i64], block: usize, fluid: usize) -> bool
    requires slotted { Slotted g slots.now }
    requires bounded { Bounded (blocks_of g) balances.now }
    requires block_bound { block < blocks_of g }
    ensures { result ≡ fails_at g slots.now (pair_of balances.now) fluid block }
{
    is_free(slots, block, fluid) && g.tolerance < in_fluid(pair(balances, block), fluid).abs()
}

// Whether a code counts a place: "for 21 each moved head; for 22 each dry well", at the first place of its block; otherwise a failing place.
// Inner: slots and balances are in range, the row holds their thicknesses, and the block is inside.
#[tactic(auto, using(books::proofs::WatersLaws::sound), unfolding(crate::specs::Places::counted_at))]
pub fn counted_at(
    g: Grid,
    slots: &[i64],
    waters: &[i64],
    balances: &[i64],
    code: u64,
    block: usize,
    fluid: usize,
) -> bool
    requires slotted { Slotted g slots.now }
    requires watered { Watered g slots.now waters.now }
    requires bounded { Bounded (blocks_of g) balances.now }
    requires block_bound { block < blocks_of g }
    ensures { result ≡ counted_at g slots.now (pair_of balances.now) code fluid block }
{
    match code {
        MOVED => has_moved(slots, block, fluid),
        DRY => fluid == FRESH && is_dry_at(g, slots, waters, block),
        _ => fails(g, slots, balances, block, fluid),
    }
}

// The balance without sign at a free place, litres a day, otherwise 0. Inner: slots and balances are in range, and the place
// is inside.
#[tactic(auto, unfolding(crate::specs::Places::free_size_of))]
pub fn free_size(g: Grid, slots: &[i64], balances: &[i64], place: usize) -> i64
    requires slotted { Slotted g slots.now }
    requires bounded { Bounded (blocks_of g) balances.now }
    requires place_bound { place < places_of g }
    ensures { result ≡ free_size_of slots.now (pair_of balances.now) place }
{
    let block = place / 2;
    let fluid = place % 2;
    if is_free(slots, block, fluid) {
        in_fluid(pair(balances, block), fluid).abs()
    } else {
        0
    }
}
