// Leakage between a block and the one directly above it (document 01, "Leakage, river and sea").
ghost use Rattle.std.specs.Prelude.{◌≡◌, ◌≤◌, pos};
ghost use Rattle.whole.specs.Inner.{In};
ghost use Rattle.grid.specs.Inner.{Termed};
ghost use Rattle.block.specs.Inner.{Heads, Level, Thick};
ghost use Rattle.block.specs.Fluids.{salt};
ghost use Rattle.flow.specs.Litres.{most_conductance};
ghost use Rattle.flow.specs.Leakage.{uppermost_of, lowermost_of, fresh_head_of, difference_of, leakage_of};
ghost use Rattle.flow.specs.Inner.{LeakageSideIn};

use super::litres::{leaving, litres};
use block::density::fresh_equivalent;
use block::units::{FRESH, SALT};
use block::{Fluids, in_fluid, together};
use grid::Grid;

// What leakage sees of a block: the head and the thickness of each fluid, ticks.
#[derive(Clone, Copy)]
pub struct LeakageSide {
    pub heads: Fluids,
    pub thickness: Fluids,
}

// The fluid at a block's top, which is named for it as the lower block: "fresh if its Bf > 0, else salt". Inner: the thicknesses are in
// range.
#[tactic(auto, unfolding(crate::specs::Leakage::uppermost_of))]
pub fn uppermost(thickness: Fluids) -> usize
    requires { Thick thickness }
    ensures { result ≡ uppermost_of thickness }
{
    if 0 < thickness.fresh { FRESH } else { SALT }
}

// The fluid at a block's base, which is named for it as the upper block: "salt if its Bs > 0, else fresh". Inner: the thicknesses are in
// range.
#[tactic(auto, unfolding(crate::specs::Leakage::lowermost_of))]
pub fn lowermost(thickness: Fluids) -> usize
    requires { Thick thickness }
    ensures { result ≡ lowermost_of thickness }
{
    if 0 < thickness.salt { SALT } else { FRESH }
}

// A block's head in fresh water, ticks: "the fresh head", or "the fresh equivalent of the salt one" at a level.
// Inner: δ, heads and level are in range.
pub fn fresh_head(g: Grid, heads: Fluids, fluid: usize, level: i64) -> i64
    requires termed { Termed g }
    requires heads { Heads heads }
    requires level { Level level }
    ensures { result ≡ fresh_head_of g heads fluid level }
{
    if fluid == FRESH {
        heads.fresh
    } else {
        fresh_equivalent(g, heads.salt, level)
    }
}

// The head difference, lower less upper, ticks, where `low` is the fluid named for the lower block and `high` that for the upper: "Like
// fluids use their own heads. Unlike fluids use the fresh head and the fresh equivalent of the salt one at the lower block's top."
// Inner: δ, heads and level are in range.
fn difference(g: Grid, lower: Fluids, upper: Fluids, low: usize, high: usize, level: i64) -> i64
    requires termed { Termed g }
    requires heads { Heads lower }
    requires heads_2 { Heads upper }
    requires low_le_salt { low ≤ salt }
    requires high_le_salt { high ≤ salt }
    requires level { Level level }
    ensures { result ≡ difference_of g lower upper low high level }
{
    if low == high {
        in_fluid(lower, low) - in_fluid(upper, high)
    } else {
        fresh_head(g, lower, low, level) - fresh_head(g, upper, high, level)
    }
}

// The leakage from a lower to an upper block, litres a day, `conductance` being in litres a day for each metre of head difference and `level`, in
// ticks, the lower block's top: "None leaves a block with both thicknesses 0." Inner: all numbers are in range.
pub fn leakage(g: Grid, conductance: i64, lower: LeakageSide, upper: LeakageSide, level: i64) -> i64
    requires termed { Termed g }
    requires fact { In (pos 0) (pos most_conductance) conductance }
    requires leakage_side_in { LeakageSideIn lower }
    requires leakage_side_in_2 { LeakageSideIn upper }
    requires level { Level level }
    ensures { result ≡ leakage_of g conductance lower upper level }
{
    let low = uppermost(lower.thickness);
    let high = lowermost(upper.thickness);
    let flow = litres(
        conductance,
        difference(g, lower.heads, upper.heads, low, high, level),
    );
    leaving(together(lower.thickness), together(upper.thickness), flow)
}
