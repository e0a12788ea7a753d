// From conductance and head difference to litres a day. Every lateral, leakage and boundary flow goes through `litres`, and every flow
// between two blocks through `leaving`.
ghost use Rattle.std.specs.Prelude.{◌≡◌, pos};
ghost use Rattle.whole.specs.Inner.{In, Abs};
ghost use Rattle.block.specs.Inner.{most_area};
ghost use Rattle.flow.specs.Litres.{litres_of, leaving_of, over_area_of, most_conductance};
ghost use Rattle.flow.specs.Inner.{most_difference, most_rate};

use block::units::TICKS;
use whole::{floor_div, round_div};

// "Flow = cut(C·(difference of that fluid's heads)/4,096) litres/day", with W-206 "rounded to the nearest litre, halves away from zero";
// the conductance in litres a day for each metre of head difference, the difference in ticks. Inner: both are in range.
pub fn litres(conductance: i64, difference: i64) -> i64
    requires fact { In (pos 0) (pos most_conductance) conductance }
    requires abs { Abs most_difference difference }
    ensures { result ≡ litres_of conductance difference }
{
    round_div(conductance * difference, TICKS)
}

// A flow from the low to the high side, or nothing where the block that it would leave holds none: `low` and `high` are the thicknesses
// of what flows, in ticks.
#[tactic(auto, unfolding(crate::specs::Litres::leaving_of))]
pub fn leaving(low: i64, high: i64, flow: i64) -> i64
    ensures { result ≡ leaving_of low high flow }
{
    let left = if 0 < flow { low } else { high };
    if 0 < left { flow } else { 0 }
}

// "floor(leakance·area/1,000)" and "floor(rate·area/1,000)", of 10^-6 a day or µm/day and m²: litres a day for each metre of
// head difference, or litres a day. Inner: both are in range.
pub fn over_area(rate: i64, area: i64) -> i64
    requires fact { In (pos 0) (pos most_rate) rate }
    requires fact_2 { In (pos 0) (pos most_area) area }
    ensures { result ≡ over_area_of rate area }
{
    floor_div(rate * area, 1_000)
}
