// Wells (document 01, "Leakage, river and sea"): how a screen stands in the two waters, and what it takes of each.
ghost use Rattle.std.specs.Prelude.{◌≡◌};
ghost use Rattle.block.specs.Inner.{Level, Levelled, Thick};
ghost use Rattle.slots.specs.Inner.{Ends};
ghost use Rattle.block.specs.Wells.{length_within, lengths_of, is_dry, shares_of};

use super::geometry::Levels;
use super::{Fluids, together};
use slots::Block;
use whole::{cut_div, greatest, least};

// The length in ticks that a block's screen has between two levels; 0 where it has none. Inner: the slots and levels are in range.
fn length_within(block: Block, low: i64, high: i64) -> i64
    requires ends { Ends block }
    requires level { Level low }
    requires level_2 { Level high }
    ensures { result ≡ length_within block low high }
{
    greatest(
        0,
        least(block.screen_top, high) - greatest(block.screen_bottom, low),
    )
}

// "the screen's lengths inside fresh [Z, U] and salt [base, Z]", ticks. Inner: the slots and levels are in range.
pub fn screen_lengths(block: Block, levels: Levels) -> Fluids
    requires ends { Ends block }
    requires levelled { Levelled levels }
    ensures { result ≡ lengths_of block levels }
{
    Fluids {
        fresh: length_within(block, levels.interface, levels.top),
        salt: length_within(block, levels.base, levels.interface),
    }
}

// "Pumpage other than 0 with wetted length 0 is a dry well." Inner: the slots and lengths are in range.
#[tactic(auto, unfolding(crate::specs::Wells::is_dry))]
pub fn is_dry(block: Block, lengths: Fluids) -> bool
    requires ends { Ends block }
    requires thick { Thick lengths }
    ensures { result ≡ is_dry block lengths }
{
    block.pumpage != 0 && together(lengths) == 0
}

// "Fresh share = cut(pumpage·fresh length/wetted length), salt the remainder", litres a day; none of a screen that is nowhere wet.
// Inner: the slots and lengths are in range.
pub fn shares(block: Block, lengths: Fluids) -> Fluids
    requires ends { Ends block }
    requires thick { Thick lengths }
    ensures { result ≡ shares_of block lengths }
{
    let wetted = together(lengths);
    if 0 < wetted {
        let fresh = cut_div(block.pumpage * lengths.fresh, wetted);
        Fluids {
            fresh,
            salt: block.pumpage - fresh,
        }
    } else {
        Fluids { fresh: 0, salt: 0 }
    }
}
