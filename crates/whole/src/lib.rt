// Whole numbers: floor, cut, a rounded quotient, the lesser, the greater, a number that is held between two (document 01, "Units and ranges").
#![tactic(auto)]

pub mod lent;
pub mod nearest;
pub mod ranges;

ghost use Rattle.std.specs.Prelude.{◌≡◌, ◌&&◌, pos, ◌≤ℤ◌};
ghost use Rattle.whole.specs.Inner.{In, Abs, most_rounded};
ghost use Rattle.whole.specs.Whole.{floor_of, cut_of, rounded_of, is_zero, min_ℤ, max_ℤ, clamp_of};

// "Floor means toward minus infinity": a / d. Inner: the divisor is 1 or more.
pub fn floor_div(a: i64, d: i64) -> i64
    requires { pos 1 ≤ℤ d }
    ensures { result ≡ floor_of a d }
{
    a.div_euclid(d)
}

// "cut means toward zero": a / d. Inner: the divisor is 1 or more.
pub fn cut_div(a: i64, d: i64) -> i64
    requires { pos 1 ≤ℤ d }
    ensures { result ≡ cut_of a d }
{
    a / d
}

// "rounded to the nearest litre, halves away from zero" (document 02, W-206): a / d. Inner: the divisor is 1 or more, and neither is
// above 2⁶² without sign.
pub fn round_div(a: i64, d: i64) -> i64
    requires abs { Abs most_rounded a }
    requires fact { In (pos 1) (pos most_rounded) d }
    ensures { result ≡ rounded_of a d }
{
    let half = d / 2;
    if a < 0 {
        (a - half) / d
    } else {
        (a + half) / d
    }
}

// Whether a number is 0.
#[tactic(auto, using(crate::proofs::RangeLaws::zero_bits))]
pub fn is_zero(a: i64) -> bool
    ensures { result ≡ is_zero a }
{
    a == 0
}

// Whether both numbers are 0.
pub fn both_zero(a: i64, b: i64) -> bool
    ensures { result ≡ (is_zero a && is_zero b) }
{
    is_zero(a) && is_zero(b)
}

// The lesser of the two.
#[tactic(auto, using(crate::proofs::OrderLaws::least_is))]
pub fn least(a: i64, b: i64) -> i64
    ensures { result ≡ min_ℤ a b }
{
    a.min(b)
}

// The greater of the two.
#[tactic(auto, using(crate::proofs::OrderLaws::greatest_is))]
pub fn greatest(a: i64, b: i64) -> i64
    ensures { result ≡ max_ℤ a b }
{
    a.max(b)
}

// x held between low and high: x itself, or the end that it passes; low where the two are the wrong way round.
#[tactic(auto, using(crate::proofs::OrderLaws::clamp_is))]
pub fn clamp(x: i64, low: i64, high: i64) -> i64
    ensures { result ≡ clamp_of low high x }
{
    low.max(x.min(high))
}
