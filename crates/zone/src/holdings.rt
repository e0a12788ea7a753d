// What a marked active block gives by itself to a zone's lines, litres a day: all lines but edges and converted.
ghost use Rattle.std.specs.Prelude.{◌≡◌, ◌≤◌, ◌<◌, length};
ghost use Rattle.grid.specs.Place.{blocks_of, place_of};
ghost use Rattle.slots.specs.Slots.{block_of};
ghost use Rattle.slices.specs.Slices.{case_of};
ghost use Rattle.block.specs.Fluids.{in_fluid};
ghost use Rattle.wellformed.specs.Inner.{WellFormed};
ghost use Rattle.books.specs.Inner.{Slotted, Watered, pair_of};
ghost use Rattle.books.specs.Own.{fixed_of};
ghost use Rattle.books.specs.Bookkeeping.{books_of};
ghost use Rattle.balance.specs.Inner.{Bounded};
ghost use Rattle.zone.specs.Zones.{marked_of, in_zone};
ghost use Rattle.zone.specs.Holdings.{own_in, settled_of};

use super::zones::in_zone;
use block::in_fluid;
use books::own::{Own, is_fixed, own_terms};
use books::rows::pair;
use grid::Grid;
use grid::place::Place;
use slots::load;

// What a block's balance gives to "supply" and "error", litres a day.
#[derive(Clone, Copy)]
pub struct Settlement {
    pub supply: i64,
    pub error: i64,
}

// The own terms of a block that is not marked or not active.
const NOTHING: Own = Own {
    recharge: 0,
    boundary: 0,
    pumped: 0,
    storage: 0,
};

// The own terms of a marked active block in a fluid, litres a day; nothing of any other. Inner: the case is well formed, the row holds its
// thicknesses, the marks reach over the grid, and the block is inside, at its place.
#[tactic(auto, using(wellformed::proofs::LinksLaws::reach, crate::proofs::TermLaws::zone_active), unfolding(crate::specs::Holdings::own_in, books::specs::Bookkeeping::books_of))]
pub fn own_in_zone(
    g: Grid,
    columns: &[i64],
    rows: &[i64],
    slots: &[i64],
    waters: &[i64],
    marks: &[i64],
    block: usize,
    place: Place,
    fluid: usize,
) -> Own
    requires well_formed { WellFormed (case_of g columns.now rows.now slots.now) }
    requires watered { Watered g slots.now waters.now }
    requires g_in_bounds { blocks_of g ≤ length marks.now }
    requires block_bound { block < blocks_of g }
    requires place_value { place ≡ place_of g block }
    ensures { result ≡ own_in slots.now (books_of (case_of g columns.now rows.now slots.now) fluid) (marked_of marks.now) block }
{
    if in_zone(slots, marks, block) {
        own_terms(g, columns, rows, slots, waters, block, place, fluid)
    } else {
        NOTHING
    }
}

// What a block's balance in a fluid gives to supply where its head is fixed, to error where it is free, litres a day. Inner: slots and balances
// are in range, the marks reach over the grid, and the block is inside.
pub fn settle(
    g: Grid,
    slots: &[i64],
    balances: &[i64],
    marks: &[i64],
    block: usize,
    fluid: usize,
) -> Settlement
    requires slotted { Slotted g slots.now }
    requires bounded { Bounded (blocks_of g) balances.now }
    requires g_in_bounds { blocks_of g ≤ length marks.now }
    requires block_bound { block < blocks_of g }
    ensures { result ≡ settled_of (in_zone slots.now (marked_of marks.now) block) (fixed_of (block_of slots.now block) fluid) (in_fluid (pair_of balances.now block) fluid) }
{
    if in_zone(slots, marks, block) {
        let balance = in_fluid(pair(balances, block), fluid);
        if is_fixed(load(slots, block), fluid) {
            return Settlement {
                supply: -balance,
                error: 0,
            };
        }
        return Settlement {
            supply: 0,
            error: balance,
        };
    }
    Settlement {
        supply: 0,
        error: 0,
    }
}
