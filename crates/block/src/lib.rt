// One block (document 01, "One block"; its wells are in "Leakage, river and sea"): the rules that read the weights of the waters, the levels
// and thicknesses of both fluids, storage, and wells. Old and new heads go through the same functions.
#![tactic(auto)]

pub mod density;
pub mod geometry;
pub mod storage;
pub mod units;
pub mod wells;

ghost use Rattle.std.specs.Prelude.{◌≡◌};
ghost use Rattle.block.specs.Fluids.{in_fluid, together_of, old_heads, new_heads};
ghost use Rattle.block.specs.Inner.{Thick};

use slots::Block;
use units::FRESH;

// A number for each fluid: heads, thicknesses or lengths in ticks, shares of a well or balances in litres a day.
#[derive(Clone, Copy)]
pub struct Fluids {
    pub fresh: i64,
    pub salt: i64,
}

// The number for a fluid: 0 fresh, 1 salt.
pub fn in_fluid(both: Fluids, fluid: usize) -> i64
    ensures { result ≡ in_fluid both fluid }
{
    if fluid == FRESH {
        both.fresh
    } else {
        both.salt
    }
}

// Both numbers together: the saturated thickness of two thicknesses, the wetted length of two lengths, ticks. Inner: they are in range.
pub fn together(both: Fluids) -> i64
    requires { Thick both }
    ensures { result ≡ together_of both }
{
    both.fresh + both.salt
}

// The heads at the start of the time step, ticks.
pub fn old_heads(block: Block) -> Fluids
    ensures { result ≡ old_heads block }
{
    Fluids {
        fresh: block.old_fresh,
        salt: block.old_salt,
    }
}

// The proposed heads, ticks.
pub fn new_heads(block: Block) -> Fluids
    ensures { result ≡ new_heads block }
{
    Fluids {
        fresh: block.new_fresh,
        salt: block.new_salt,
    }
}
