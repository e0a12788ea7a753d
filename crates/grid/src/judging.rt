// What the record of a case is refused with: 3 for its counts, 4 for its terms (document 01, "Refusal numbers").
ghost use Rattle.std.specs.Prelude.{◌≡◌};
ghost use Rattle.grid.specs.Judging.{count_within, counts_hold, density_holds, pair_holds, terms_hold};

use super::Grid;
use super::units::{
    LEAST_APART, LEAST_FRESH_WEIGHT, LEAST_SALT_WEIGHT, MOST_ACROSS, MOST_BLOCKS, MOST_DELTA,
    MOST_FRESH_WEIGHT, MOST_LAYERS, MOST_SALT_WEIGHT, MOST_STEP, MOST_TOLERANCE,
};
use whole::both_zero;
use whole::ranges::{Range, in_range};

// δ, whole.
const DELTAS: Range = Range {
    lower: 1,
    upper: MOST_DELTA,
};

// Weights of fresh water, grams a litre.
const FRESH_WEIGHTS: Range = Range {
    lower: LEAST_FRESH_WEIGHT,
    upper: MOST_FRESH_WEIGHT,
};

// Weights of salt water, grams a litre.
const SALT_WEIGHTS: Range = Range {
    lower: LEAST_SALT_WEIGHT,
    upper: MOST_SALT_WEIGHT,
};

// Time steps, days.
const STEPS: Range = Range {
    lower: 1,
    upper: MOST_STEP,
};

// Tolerances, litres a day.
const TOLERANCES: Range = Range {
    lower: 0,
    upper: MOST_TOLERANCE,
};

// A count from 1 to the most.
fn count_within(n: usize, most: usize) -> bool
    ensures { result ≡ count_within n most }
{
    (1..=most).contains(&n)
}

// 3: "a count or the block total is out of range". The total is worked out only of counts that are in range.
#[tactic(auto, unfolding(crate::specs::Judging::counts_hold))]
pub fn counts_hold(g: Grid) -> bool
    ensures { result ≡ counts_hold g }
{
    count_within(g.columns, MOST_ACROSS)
        && count_within(g.rows, MOST_ACROSS)
        && count_within(g.layers, MOST_LAYERS)
        && g.columns * g.rows * g.layers <= MOST_BLOCKS
}

// Two weights, grams a litre: "fresh weight 990..=1,010 and salt weight 1,011..=1,050, at least 5 apart". They are subtracted only where they are in range.
#[tactic(auto, using(crate::proofs::JudgingLaws::apart_fits, whole::proofs::RangeLaws::read_back), unfolding(crate::specs::Judging::pair_holds))]
fn pair_holds(fresh: i64, salt: i64) -> bool
    ensures { result ≡ pair_holds fresh salt }
{
    in_range(FRESH_WEIGHTS, fresh) && in_range(SALT_WEIGHTS, salt) && LEAST_APART <= salt - fresh
}

// 4, of what the waters weigh: a δ of 0 with two weights, or a whole δ with none.
#[tactic(auto, unfolding(crate::specs::Judging::density_holds))]
pub fn density_holds(g: Grid) -> bool
    ensures { result ≡ density_holds g }
{
    if g.delta == 0 {
        pair_holds(g.fresh_weight, g.salt_weight)
    } else {
        in_range(DELTAS, g.delta) && both_zero(g.fresh_weight, g.salt_weight)
    }
}

// 4: "δ, flag, step or tolerance is out of range", and the weights "judged right after δ".
#[tactic(auto, unfolding(crate::specs::Judging::terms_hold))]
pub fn terms_hold(g: Grid) -> bool
    ensures { result ≡ terms_hold g }
{
    density_holds(g) && g.flag <= 1 && in_range(STEPS, g.step) && in_range(TOLERANCES, g.tolerance)
}
