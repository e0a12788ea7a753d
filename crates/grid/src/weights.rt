// What the waters of a case weigh, as a pair of weights (document 02, W-209): every rule that reads them reads this pair.
ghost use Rattle.std.specs.Prelude.{◌≡◌};
ghost use Rattle.grid.specs.Inner.{Termed};
ghost use Rattle.grid.specs.Weights.{weights_of};

use super::Grid;

// The weights of the two waters, both in one unit.
#[derive(Clone, Copy, Debug, PartialEq, Eq)]
pub struct Weights {
    pub fresh: i64,
    pub salt: i64,
}

// The two weights in grams a litre where δ is 0; otherwise "A whole δ is the pair δ and δ+1". Inner: the record is in range.
#[tactic(auto, unfolding(crate::specs::Weights::weights_of))]
pub fn weights_of(g: Grid) -> Weights
    requires { Termed g }
    ensures { result ≡ weights_of g }
{
    if g.delta == 0 {
        Weights {
            fresh: g.fresh_weight,
            salt: g.salt_weight,
        }
    } else {
        Weights {
            fresh: g.delta,
            salt: g.delta + 1,
        }
    }
}
