// Metres (document 01, "Metres"): a tick, 1/4,096 m, is shown as a double, and a double is taken in as a tick.
#![tactic(auto)]

pub mod boundary;
mod nearest;

ghost use Rattle.std.specs.Prelude.{◌≡◌, pos, ◌≤ℤ◌};
ghost use Rattle.whole.specs.Inner.{Abs};
ghost use Rattle.slots.specs.Units.{most_level};
ghost use Rattle.metres.specs.Metres.{most_shown, metres_of, shown_in, shown_of, taken_in, taken_of};

use nearest::{FAR, exponent_of, tick_of};
use slices::refusal::Refusal;
use slots::units::MOST_LEVEL;
use whole::ranges::{Range, in_range};

// Ticks, 2⁵³ - 1 either way: a double holds each of these in metres.
const MOST_SHOWN: i64 = 9_007_199_254_740_991;

// Ticks that are shown.
const SHOWN: Range = Range {
    lower: -MOST_SHOWN,
    upper: MOST_SHOWN,
};

// A tick in metres, "as an exact double". Inner: it is below 2⁵³ without sign.
#[tactic(auto, using(crate::proofs::ShownLaws::metres_is))]
pub fn metres_of(tick: i64) -> f64
    requires { Abs most_shown tick }
    ensures { result ≡ metres_of tick }
{
    tick as f64 / 4096.0
}

// "A tick value is shown in metres as an exact double". Ticks of 2⁵³ and more, either way, are refused with 12: not all of them have one.
#[tactic(auto, unfolding(crate::specs::Metres::shown_of))]
pub fn show(tick: i64) -> Result<f64, Refusal>
    ensures { shown_in result ≡ shown_of tick }
{
    if in_range(SHOWN, tick) {
        Ok(metres_of(tick))
    } else {
        Err(Refusal::Double)
    }
}

// The tick of a double in metres, or 12 where it has none, or one below -4,194,304 or above `most`, ticks. Inner: `most` is at most
// 4,194,304.
#[tactic(auto, using(crate::proofs::AnswersLaws::refused_nan, crate::proofs::AnswersLaws::refused_far, crate::proofs::AnswersLaws::taken_in, crate::proofs::AnswersLaws::refused_outside))]
fn take_up_to(metres: f64, most: i64) -> Result<i64, Refusal>
    requires { most ≤ℤ pos most_level }
    ensures { taken_in result ≡ taken_of most metres }
{
    // What is no number is asked first: the language defines the bits of a number only.
    if metres.is_nan() || FAR <= exponent_of(metres.to_bits()) {
        return Err(Refusal::Double);
    }
    let tick = tick_of(metres.to_bits());
    let taken = Range {
        lower: -MOST_LEVEL,
        upper: most,
    };
    if in_range(taken, tick) {
        Ok(tick)
    } else {
        Err(Refusal::Double)
    }
}

// "A double becomes the nearest tick, halves to the even one": of a head, a base or a stage in metres. It is refused with 12 where it is no
// number, infinite, or its tick outside ±4,194,304.
pub fn take_in(metres: f64) -> Result<i64, Refusal>
    ensures { taken_in result ≡ taken_of (pos most_level) metres }
{
    take_up_to(metres, MOST_LEVEL)
}
