// Recharge, rivers and seas (document 01, "Leakage, river and sea").
ghost use Rattle.std.specs.Prelude.{◌≡◌, pos, ◌≤ℤ◌};
ghost use Rattle.whole.specs.Inner.{In};
ghost use Rattle.grid.specs.Inner.{Termed};
ghost use Rattle.slots.specs.Inner.{Ends};
ghost use Rattle.block.specs.Inner.{Thick, most_area};
ghost use Rattle.flow.specs.Litres.{most_conductance, over_area_of};
ghost use Rattle.flow.specs.Boundary.{below_top, recharge_of, boundary_head_of, exchange_of, exchanged_as, gain_of, boundary_of};

use super::leakage::{fresh_head, uppermost};
use super::litres::{litres, over_area};
use block::density::sea_head;
use block::geometry::{aquifer_top, has_water_table};
use block::units::{FRESH, SALT};
use block::{Fluids, new_heads};
use grid::Grid;
use slots::Block;
use slots::rules::{is_open, is_sea};

// "In the top layer with flag 1 and Φf below the aquifer top". Inner: the slots are within their ends.
#[tactic(auto, unfolding(crate::specs::Boundary::below_top))]
fn below_top(g: Grid, block: Block, top: bool) -> bool
    requires { Ends block }
    ensures { result ≡ below_top g block top }
{
    has_water_table(g, top) && block.new_fresh < aquifer_top(block)
}

// What recharge brings to a block in a fluid, litres a day, by its area in m²: "recharge enters as fresh water". Inner: slots and area are in range.
#[tactic(auto, unfolding(crate::specs::Boundary::recharge_of))]
pub fn recharge(g: Grid, block: Block, top: bool, area: i64, fluid: usize) -> i64
    requires ends { Ends block }
    requires fact { In (pos 0) (pos most_area) area }
    ensures { result ≡ recharge_of g block top area fluid }
{
    if fluid == FRESH && below_top(g, block, top) {
        over_area(block.recharge, area)
    } else {
        0
    }
}

// "The boundary head is the stage; for a sea it is the depth .. divided by δ", ticks. Inner: terms and slots are in range.
#[tactic(auto, unfolding(crate::specs::Boundary::boundary_head_of))]
fn boundary_head(g: Grid, block: Block) -> i64
    requires termed { Termed g }
    requires ends { Ends block }
    ensures { result ≡ boundary_head_of g block }
{
    if is_sea(block) {
        sea_head(g, block.level)
    } else {
        block.level
    }
}

// What a river or a sea brings to a block whose upper fluid is `upper`, litres a day, negative where it takes, by the block's area in m².
// Inner: the numbers are in range and the conductance is not refused with 10.
fn exchange(g: Grid, block: Block, area: i64, upper: usize) -> i64
    requires termed { Termed g }
    requires ends { Ends block }
    requires fact { In (pos 0) (pos most_area) area }
    requires area_bound { over_area_of block.boundary_leakance area ≤ℤ pos most_conductance }
    ensures { result ≡ exchange_of g block area upper }
{
    let through = over_area(block.boundary_leakance, area);
    let own = fresh_head(g, new_heads(block), upper, aquifer_top(block));
    litres(through, boundary_head(g, block) - own)
}

// The fluid that an exchange of so many litres a day counts in, for a block whose upper fluid is `upper`: "inflow through a sea boundary always enters the
// block's salt balance ..; outflow stays the uppermost fluid". Inner: the slots are within their ends.
#[tactic(auto, unfolding(crate::specs::Boundary::exchanged_as))]
fn exchanged_as(block: Block, upper: usize, flow: i64) -> usize
    requires { Ends block }
    ensures { result ≡ exchanged_as block upper flow }
{
    if is_sea(block) && 0 < flow {
        SALT
    } else {
        upper
    }
}

// What of an exchange counts for a block in a fluid, litres a day. Inner: the slots are within their ends.
#[tactic(auto, unfolding(crate::specs::Boundary::gain_of))]
fn gain(block: Block, upper: usize, fluid: usize, flow: i64) -> i64
    requires { Ends block }
    ensures { result ≡ gain_of block upper fluid flow }
{
    if exchanged_as(block, upper, flow) == fluid {
        flow
    } else {
        0
    }
}

// What a block gains in a fluid through its river or sea, litres a day, by its area in m² and the thickness of each fluid in ticks.
// Inner: the numbers are in range and the conductance is not refused with 10.
#[tactic(auto, unfolding(crate::specs::Boundary::boundary_of))]
pub fn boundary(g: Grid, block: Block, top: bool, area: i64, thickness: Fluids, fluid: usize) -> i64
    requires termed { Termed g }
    requires ends { Ends block }
    requires fact { In (pos 0) (pos most_area) area }
    requires area_bound { over_area_of block.boundary_leakance area ≤ℤ pos most_conductance }
    requires thick { Thick thickness }
    ensures { result ≡ boundary_of g block top area thickness fluid }
{
    if is_open(block) && !below_top(g, block, top) {
        let upper = uppermost(thickness);
        gain(block, upper, fluid, exchange(g, block, area, upper))
    } else {
        0
    }
}
