// The rules that a block's slots follow beyond their ends: inactive or active, screens, layer, boundary.
ghost use Rattle.std.specs.Prelude.{◌≡◌, ◌≤◌, ◌+ℤ◌, pos, length};
ghost use Rattle.whole.specs.Inner.{In};
ghost use Rattle.slots.specs.Rules.{all_zero, screen_within, screens_hold, layer_holds, is_open, is_kind, is_sea, open_holds, boundary_holds, rules_hold, slots_hold};
ghost use Rattle.slots.specs.Units.{most_kind};
ghost use Rattle.slots.specs.Inner.{Ends};

use super::ranges::ends_hold;
use super::units::SLOTS_EACH;
use super::{Block, slots_at};
use whole::both_zero;
use whole::ranges::{Range, all_within, in_range};

// 0 alone.
const ZERO: Range = Range { lower: 0, upper: 0 };

// The kinds that exchange water: 1 river, 2 sea.
pub const OPEN_KINDS: Range = Range { lower: 1, upper: 2 };

// "An inactive block has all 16 zero." Inner: there are so many.
#[tactic(auto, unfolding(crate::specs::Rules::all_zero))]
fn all_zero(part: &[i64]) -> bool
    requires { 16 ≤ length part.now }
    ensures { result ≡ all_zero part.now }
{
    all_within(part, SLOTS_EACH, ZERO)
}

// "base ≤ bottom < top ≤ aquifer top", in ticks. Inner: the slots are within their ends.
#[tactic(auto, using(crate::proofs::SlotsLaws::screen_told))]
fn screen_within(block: Block) -> bool
    requires { Ends block }
    ensures { result ≡ screen_within block.base block.screen_bottom block.screen_top (block.base +ℤ block.thickness) }
{
    block.base <= block.screen_bottom
        && block.screen_bottom < block.screen_top
        && block.screen_top <= block.base + block.thickness
}

// "base ≤ bottom < top ≤ aquifer top; both 0 if pumpage is 0". Inner: the slots are within their ends.
#[tactic(auto, unfolding(crate::specs::Rules::screens_hold))]
fn screens_hold(block: Block) -> bool
    requires { Ends block }
    ensures { result ≡ screens_hold block }
{
    if block.pumpage == 0 {
        both_zero(block.screen_bottom, block.screen_top)
    } else {
        screen_within(block)
    }
}

// Leakance is "0 in the top layer", recharge "0 below the top layer". Inner: the slots are within their ends.
#[tactic(auto, unfolding(crate::specs::Rules::layer_holds))]
fn layer_holds(block: Block, top: bool) -> bool
    requires { Ends block }
    ensures { result ≡ layer_holds block top }
{
    if top {
        block.leakance == 0
    } else {
        block.recharge == 0
    }
}

// A river's or a sea's two slots: the leakance is not 0, and a sea's floor not above 0.
#[tactic(auto, using(crate::proofs::SlotsLaws::open_told))]
fn open_holds(block: Block) -> bool
    requires { Ends block }
    ensures { result ≡ open_holds block.kind block.level block.boundary_leakance }
{
    1 <= block.boundary_leakance && (block.kind <= 1 || block.level <= 0)
}

// Whether a block exchanges water with a river or a sea. Inner: the slots are within their ends.
pub fn is_open(block: Block) -> bool
    requires { Ends block }
    ensures { result ≡ is_open block }
{
    in_range(OPEN_KINDS, block.kind)
}

// Whether a block is of a kind. Inner: the slots and the kind are within their ends.
#[tactic(auto, using(crate::proofs::SlotsLaws::kinds_alike))]
pub fn is_kind(block: Block, kind: i64) -> bool
    requires ends { Ends block }
    requires fact { In (pos 0) (pos most_kind) kind }
    ensures { result ≡ is_kind block kind }
{
    block.kind == kind
}

// Whether a block exchanges water with a sea. Inner: the slots are within their ends.
pub fn is_sea(block: Block) -> bool
    requires { Ends block }
    ensures { result ≡ is_sea block }
{
    is_kind(block, 2)
}

// "Kinds 1 and 2 occur only in the top layer." "Kinds other than 1 and 2 have zero in their two boundary slots."
// Inner: the slots are within their ends.
#[tactic(auto, unfolding(crate::specs::Rules::boundary_holds))]
fn boundary_holds(block: Block, top: bool) -> bool
    requires { Ends block }
    ensures { result ≡ boundary_holds block top }
{
    if is_open(block) {
        top && open_holds(block)
    } else {
        both_zero(block.level, block.boundary_leakance)
    }
}

// "a block's remaining slot rules (screens, kind, layer)". Inner: the slots are within their ends.
#[tactic(auto, unfolding(crate::specs::Rules::rules_hold))]
fn rules_hold(block: Block, top: bool) -> bool
    requires { Ends block }
    ensures { result ≡ rules_hold block top }
{
    screens_hold(block) && layer_holds(block, top) && boundary_holds(block, top)
}

// Whether a block's slots stand, in the top layer or below it: an inactive block all zero, an active one within its ends and by the
// rules. Inner: there are sixteen.
#[tactic(auto, using(crate::proofs::SlotsLaws::slots_told))]
pub fn slots_hold(part: &[i64], top: bool) -> bool
    requires { 16 ≤ length part.now }
    ensures { result ≡ slots_hold part.now top }
{
    if 0 < part[0] {
        ends_hold(part) && rules_hold(slots_at(part), top)
    } else {
        all_zero(part)
    }
}
