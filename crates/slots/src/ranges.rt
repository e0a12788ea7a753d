// The one table of ends: "The lower and upper end for each slot stand in one fixed table."
ghost use Rattle.std.specs.Prelude.{◌≡◌, ◌≤◌, length};
ghost use Rattle.slots.specs.Ranges.{range_of, ends_hold};

use super::units::{
    MOST_K, MOST_KIND, MOST_LEAKANCE, MOST_LEVEL, MOST_POROSITY, MOST_PUMPAGE, MOST_RECHARGE,
    MOST_SCREEN, MOST_THICKNESS, SLOTS_EACH,
};
use whole::ranges::{Range, in_range};

// Bases, heads and stages or floors, ticks.
const LEVELS: Range = Range {
    lower: -MOST_LEVEL,
    upper: MOST_LEVEL,
};

// Screen bottoms and tops, ticks.
const SCREENS: Range = Range {
    lower: -MOST_LEVEL,
    upper: MOST_SCREEN,
};

// The leakance to the block above and the boundary's, 10^-6 a day.
const LEAKANCES: Range = Range {
    lower: 0,
    upper: MOST_LEAKANCE,
};

// "The lower and upper end for each slot stand in one fixed table", in the slots' order.
const RANGES: [Range; SLOTS_EACH] = [
    // K, mm/day
    Range {
        lower: 0,
        upper: MOST_K,
    },
    // base
    LEVELS,
    // thickness, ticks
    Range {
        lower: 1,
        upper: MOST_THICKNESS,
    },
    // porosity, per mille
    Range {
        lower: 1,
        upper: MOST_POROSITY,
    },
    // leakance to the block above
    LEAKANCES,
    // recharge, µm/day
    Range {
        lower: 0,
        upper: MOST_RECHARGE,
    },
    // pumpage, litres a day
    Range {
        lower: -MOST_PUMPAGE,
        upper: MOST_PUMPAGE,
    },
    // screen bottom and top
    SCREENS,
    SCREENS,
    // boundary kind
    Range {
        lower: 0,
        upper: MOST_KIND,
    },
    // stage or floor
    LEVELS,
    // boundary leakance
    LEAKANCES,
    // old fresh, old salt, new fresh and new salt head
    LEVELS,
    LEVELS,
    LEVELS,
    LEVELS,
];

// The ends of a slot, counted from 0; 0 and 0 where there is no such slot.
#[tactic(auto, unfolding(crate::specs::Ranges::range_of))]
pub fn range_of(slot: usize) -> Range
    ensures { result ≡ range_of slot }
{
    RANGES
        .get(slot)
        .copied()
        .unwrap_or(Range { lower: 0, upper: 0 })
}

// Whether each of the sixteen lies within the ends of its slot. Inner: there are so many.
pub fn ends_hold(part: &[i64]) -> bool
    requires { 16 ≤ length part.now }
    ensures { result ≡ ends_hold part.now }
{
    for (value, range) in part[..SLOTS_EACH].iter().zip(RANGES.iter()) {
        if !in_range(*range, *value) {
            return false;
        }
    }
    true
}
