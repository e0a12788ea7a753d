// The waters of a case's blocks, in ticks (document 01, "One block"). A row of thicknesses is worked out once, and every flow reads it.
ghost use Rattle.std.specs.Prelude.{◌≡◌, ◌*◌, ◌≤◌, ◌<◌, length};
ghost use Rattle.whole.specs.Search.{found_of};
ghost use Rattle.grid.specs.Place.{blocks_of};
ghost use Rattle.slots.specs.Inner.{Ends};
ghost use Rattle.block.specs.Inner.{Levelled, Thick, levels_on};
ghost use Rattle.block.specs.Wells.{lengths_of};
ghost use Rattle.books.specs.Inner.{Slotted, Watered, filled_of};
ghost use Rattle.books.specs.Waters.{waters_of, dry_at, dry_of};

use super::rows::{pair, put};
use block::geometry::{levels_of, levels_on, thicknesses};
use block::wells::{is_dry, screen_lengths};
use block::{Fluids, new_heads};
use grid::Grid;
use grid::place::{blocks, is_top};
use slots::{Block, is_active, load};

// The thickness of each fluid in a block by its new heads, ticks; none in an inactive one. Inner: the slots are in range and the block is
// inside.
fn waters_of(g: Grid, slots: &[i64], block: usize) -> Fluids
    requires slotted { Slotted g slots.now }
    requires block_bound { block < blocks_of g }
    ensures { result ≡ waters_of g slots.now block }
{
    if is_active(slots, block) {
        let own = load(slots, block);
        return thicknesses(levels_of(g, own, is_top(g, block), new_heads(own)));
    }
    Fluids { fresh: 0, salt: 0 }
}

// Puts the thicknesses of all blocks into a row. Inner: the slots are in range and the row has room.
pub fn fill_waters(g: Grid, slots: &[i64], row: &mut [i64])
    requires slotted { Slotted g slots.now }
    requires g_in_bounds { 2 * blocks_of g ≤ length row.old }
    ensures { row.new ≡ filled_of (blocks_of g) (waters_of g slots.now) row.old }
{
    let total = blocks(g);
    for block in 0..total {
        let both = waters_of(g, slots, block);
        put(row, block, both);
    }
}

// The lengths of a block's screen inside each fluid, by the thickness of each, ticks. Inner: slots and thicknesses are in range.
pub fn lengths_on(block: Block, waters: Fluids) -> Fluids
    requires ends { Ends block }
    requires thick { Thick waters }
    requires levelled { Levelled (levels_on block.base waters) }
    ensures { result ≡ lengths_of block (levels_on block.base waters) }
{
    screen_lengths(block, levels_on(block.base, waters))
}

// "Pumpage other than 0 with wetted length 0 is a dry well." Inner: the slots are in range, the row holds their thicknesses, and the block is
// inside.
pub fn is_dry_at(g: Grid, slots: &[i64], waters: &[i64], block: usize) -> bool
    requires slotted { Slotted g slots.now }
    requires watered { Watered g slots.now waters.now }
    requires block_bound { block < blocks_of g }
    ensures { result ≡ dry_at g slots.now block }
{
    if is_active(slots, block) {
        let own = load(slots, block);
        return is_dry(own, lengths_on(own, pair(waters, block)));
    }
    false
}

// 13: "a table is asked for with a dry well": the first block at fault, counted from 1. Inner: the slots are in range and the row holds their
// thicknesses.
pub fn first_dry(g: Grid, slots: &[i64], waters: &[i64]) -> Option<usize>
    requires slotted { Slotted g slots.now }
    requires watered { Watered g slots.now waters.now }
    ensures { result ≡ found_of (dry_of g slots.now) }
{
    let total = blocks(g);
    for block in 0..total {
        if is_dry_at(g, slots, waters, block) {
            return Some(block + 1);
        }
    }
    None
}
