// Levels and thicknesses of a block's waters (document 01, "One block"), and its K in each fluid.
ghost use Rattle.std.specs.Prelude.{◌≡◌};
ghost use Rattle.whole.specs.Inner.{Abs};
ghost use Rattle.grid.specs.Inner.{Termed};
ghost use Rattle.slots.specs.Units.{most_level};
ghost use Rattle.slots.specs.Inner.{Ends};
ghost use Rattle.block.specs.Inner.{Heads, Levelled, Thick, levels_on};
ghost use Rattle.block.specs.Geometry.{aquifer_top_of, has_water_table, saturated_top_of, levels_of, thicknesses_of, k_of};

use super::Fluids;
use super::density::{interface, salt_k};
use super::units::FRESH;
use grid::Grid;
use slots::Block;
use whole::clamp;

// The levels that part a block's waters, ticks: salt water from the base to the interface Z, which is held, and fresh water from there to
// the saturated top U.
#[derive(Clone, Copy)]
pub struct Levels {
    pub base: i64,
    pub interface: i64,
    pub top: i64,
}

// "Aquifer top = base + thickness", ticks. Inner: the slots are within their ends.
#[tactic(auto, unfolding(crate::specs::Geometry::aquifer_top_of))]
pub fn aquifer_top(block: Block) -> i64
    requires { Ends block }
    ensures { result ≡ aquifer_top_of block }
{
    block.base + block.thickness
}

// Whether a block has a water table: "in the top layer with flag 1".
#[tactic(auto, unfolding(crate::specs::Geometry::has_water_table))]
pub fn has_water_table(g: Grid, top: bool) -> bool
    ensures { result ≡ has_water_table g top }
{
    top && g.flag == 1
}

// "Saturated top U", ticks. Inner: slots and heads are in range.
#[tactic(auto, unfolding(crate::specs::Geometry::saturated_top_of, crate::specs::Geometry::aquifer_top_of))]
fn saturated_top(g: Grid, block: Block, top: bool, heads: Fluids) -> i64
    requires ends { Ends block }
    requires heads { Heads heads }
    ensures { result ≡ saturated_top_of g block top heads }
{
    let top_of_aquifer = aquifer_top(block);
    if has_water_table(g, top) {
        clamp(heads.fresh, block.base, top_of_aquifer)
    } else {
        top_of_aquifer
    }
}

// Base, held interface and saturated top of a block, ticks, by its old or its new heads. Inner: the terms, slots and heads are in range.
pub fn levels_of(g: Grid, block: Block, top: bool, heads: Fluids) -> Levels
    requires termed { Termed g }
    requires ends { Ends block }
    requires heads { Heads heads }
    ensures { result ≡ levels_of g block top heads }
{
    let saturated = saturated_top(g, block, top, heads);
    let held = clamp(interface(g, heads), block.base, saturated);
    Levels {
        base: block.base,
        interface: held,
        top: saturated,
    }
}

// "Fresh thickness Bf = U - Z, salt thickness Bs = Z - base", ticks. Inner: the levels stand in their order.
pub fn thicknesses(levels: Levels) -> Fluids
    requires { Levelled levels }
    ensures { result ≡ thicknesses_of levels }
{
    Fluids {
        fresh: levels.top - levels.interface,
        salt: levels.interface - levels.base,
    }
}

// The levels of a block whose base stands at a level, by the thickness of each fluid, ticks. Inner: all are in range.
#[tactic(auto, unfolding(crate::specs::Inner::levels_on))]
pub fn levels_on(base: i64, waters: Fluids) -> Levels
    requires abs { Abs most_level base }
    requires thick { Thick waters }
    ensures { result ≡ levels_on base waters }
{
    let interface = base + waters.salt;
    Levels {
        base,
        interface,
        top: interface + waters.fresh,
    }
}

// A block's K in a fluid, mm/day: its own for fresh, salt K for salt. Inner: the terms and slots are in range.
pub fn k_in(g: Grid, block: Block, fluid: usize) -> i64
    requires termed { Termed g }
    requires ends { Ends block }
    ensures { result ≡ k_of g block fluid }
{
    if fluid == FRESH {
        block.k
    } else {
        salt_k(g, block.k)
    }
}
