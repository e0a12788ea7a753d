// What a block has of its own in a fluid, litres a day (document 01, "Leakage, river and sea", "One block").
ghost use Rattle.std.specs.Prelude.{◌≡◌, true, ◌<◌, pos};
ghost use Rattle.whole.specs.Inner.{In};
ghost use Rattle.grid.specs.Inner.{Termed};
ghost use Rattle.grid.specs.Place.{blocks_of, place_of};
ghost use Rattle.slots.specs.Units.{most_kind};
ghost use Rattle.slots.specs.Inner.{Ends};
ghost use Rattle.slices.specs.Slices.{case_of};
ghost use Rattle.block.specs.Inner.{Levelled, Thick, levels_on, most_area};
ghost use Rattle.block.specs.Fluids.{in_fluid, old_heads};
ghost use Rattle.block.specs.Geometry.{levels_of, thicknesses_of};
ghost use Rattle.block.specs.Storage.{storage_of};
ghost use Rattle.block.specs.Wells.{lengths_of, shares_of};
ghost use Rattle.wellformed.specs.Links.{active_of};
ghost use Rattle.wellformed.specs.Inner.{WellFormed};
ghost use Rattle.books.specs.Inner.{Watered};
ghost use Rattle.books.specs.Own.{own_of, fixing_of, fixed_of};

use super::rows::pair;
use super::waters::lengths_on;
use block::geometry::{levels_of, thicknesses};
use block::storage::storage;
use block::units::FRESH;
use block::wells::shares;
use block::{Fluids, in_fluid, old_heads};
use flow::boundary::{boundary, recharge};
use grid::Grid;
use grid::place::{Place, has_next};
use grid::units::ABOVE;
use slots::rules::is_kind;
use slots::{Block, load};
use wellformed::widths::area;

// A block's own terms in one fluid, litres a day: what recharge and boundary bring, what wells take, and what goes into storage.
#[derive(Clone, Copy)]
pub struct Own {
    pub recharge: i64,
    pub boundary: i64,
    pub pumped: i64,
    pub storage: i64,
}

// What a block's well takes of a fluid, litres a day, by the thickness of each fluid, ticks. Inner: slots and thicknesses are in range.
fn pumped(block: Block, waters: Fluids, fluid: usize) -> i64
    requires ends { Ends block }
    requires thick { Thick waters }
    requires levelled { Levelled (levels_on block.base waters) }
    ensures { result ≡ in_fluid (shares_of block (lengths_of block (levels_on block.base waters))) fluid }
{
    in_fluid(shares(block, lengths_on(block, waters)), fluid)
}

// What of a fluid goes into a block's storage, litres a day, by its area, m², and the thickness of each fluid, ticks. Inner: terms, slots, area and
// thicknesses are in range.
fn stored(g: Grid, block: Block, top: bool, over: i64, waters: Fluids, fluid: usize) -> i64
    requires termed { Termed g }
    requires ends { Ends block }
    requires fact { In (pos 0) (pos most_area) over }
    requires thick { Thick waters }
    ensures { result ≡ storage_of g block over (in_fluid waters fluid) (in_fluid (thicknesses_of (levels_of g block top (old_heads block))) fluid) }
{
    let old = thicknesses(levels_of(g, block, top, old_heads(block)));
    storage(
        g,
        block,
        over,
        in_fluid(waters, fluid),
        in_fluid(old, fluid),
    )
}

// A block's own terms in a fluid, litres a day. Inner: the case is well formed, the row holds its thicknesses, and the block is inside and active, at its
// place.
pub fn own_terms(
    g: Grid,
    columns: &[i64],
    rows: &[i64],
    slots: &[i64],
    waters: &[i64],
    block: usize,
    place: Place,
    fluid: usize,
) -> Own
    requires well_formed { WellFormed (case_of g columns.now rows.now slots.now) }
    requires watered { Watered g slots.now waters.now }
    requires block_bound { block < blocks_of g }
    requires place_value { place ≡ place_of g block }
    requires block_value { active_of slots.now block ≡ true }
    ensures { result ≡ own_of (case_of g columns.now rows.now slots.now) fluid block }
{
    let own = load(slots, block);
    let top = !has_next(g, place, ABOVE);
    let over = area(columns, rows, place);
    let thickness = pair(waters, block);
    Own {
        recharge: recharge(g, own, top, over, fluid),
        boundary: boundary(g, own, top, over, thickness, fluid),
        pumped: pumped(own, thickness, fluid),
        storage: stored(g, own, top, over, thickness, fluid),
    }
}

// The kind that fixes the head of one fluid: "3 fixed fresh, 4 fixed salt".
fn fixing(fluid: usize) -> i64
    ensures { result ≡ fixing_of fluid }
{
    if fluid == FRESH { 3 } else { 4 }
}

// Whether a block's head in a fluid is fixed, by itself or by kind 5, "both fixed". Inner: the slots are within their ends.
pub fn is_fixed(block: Block, fluid: usize) -> bool
    requires { Ends block }
    ensures { result ≡ fixed_of block fluid }
{
    if is_kind(block, fixing(fluid)) {
        return true;
    }
    is_kind(block, 5)
}
