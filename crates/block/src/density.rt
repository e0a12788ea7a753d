// The four rules that read what the waters weigh (document 01, "One block", "A lateral face", "Leakage, river and sea"; document 02, W-209),
// each once, over a pair of weights. No other rule reads δ or the weights; grid's judging.rt asks their ranges.
ghost use Rattle.std.specs.Prelude.{◌≡◌, pos};
ghost use Rattle.whole.specs.Inner.{In, Abs};
ghost use Rattle.grid.specs.Inner.{Termed};
ghost use Rattle.slots.specs.Units.{most_k, most_level};
ghost use Rattle.block.specs.Inner.{Heads, Level};
ghost use Rattle.block.specs.Density.{interface_of, salt_k_of, fresh_equivalent_of, sea_head_of};

use super::Fluids;
use grid::Grid;
use grid::weights::weights_of;
use whole::floor_div;

// Level of the interface in ticks, not held: "floor((salt·Φs - fresh·Φf)/(salt - fresh))". Inner: the record and heads are in range.
pub fn interface(g: Grid, heads: Fluids) -> i64
    requires termed { Termed g }
    requires heads { Heads heads }
    ensures { result ≡ interface_of g heads }
{
    let w = weights_of(g);
    floor_div(
        w.salt * heads.salt - w.fresh * heads.fresh,
        w.salt - w.fresh,
    )
}

// "the salt K is floor(K·salt/fresh)", mm/day. Inner: the record and K are in range.
pub fn salt_k(g: Grid, k: i64) -> i64
    requires termed { Termed g }
    requires fact { In (pos 0) (pos most_k) k }
    ensures { result ≡ salt_k_of g k }
{
    let w = weights_of(g);
    floor_div(k * w.salt, w.fresh)
}

// "the fresh equivalent is floor((salt·Φs - (salt - fresh)·z)/fresh)", of a salt head at level z, ticks. Inner: the record, head and level are in range.
pub fn fresh_equivalent(g: Grid, salt_head: i64, level: i64) -> i64
    requires termed { Termed g }
    requires abs { Abs most_level salt_head }
    requires level { Level level }
    ensures { result ≡ fresh_equivalent_of g salt_head level }
{
    let w = weights_of(g);
    floor_div(w.salt * salt_head - (w.salt - w.fresh) * level, w.fresh)
}

// A sea's head, ticks: "its depth times (salt - fresh), divided by fresh, with floor". Inner: the record and the floor are in range.
pub fn sea_head(g: Grid, floor: i64) -> i64
    requires termed { Termed g }
    requires abs { Abs most_level floor }
    ensures { result ≡ sea_head_of g floor }
{
    let w = weights_of(g);
    floor_div(-floor * (w.salt - w.fresh), w.fresh)
}
