// "A double becomes the nearest tick, halves to the even one": from the bits of the double, a sign, an exponent's field of 11 bits and 52 digits.
ghost use Rattle.std.specs.Prelude.{◌≡◌, ◌<◌};
ghost use Rattle.std.specs.Float.{binary64};
ghost use Rattle.std.specs.Float.Ieee.{of_bits};
ghost use Rattle.metres.specs.Metres.{tick_of, ticks_in};
ghost use Rattle.metres.specs.Inner.{field_of, digits_of, far};

use whole::nearest::nearest;

// From this exponent's field on a double has 2,048 m, 8,388,608 ticks, or more without sign, or it is infinite or no number.
pub const FAR: u64 = 1034;

// Up to this exponent's field a double has less than half a tick without sign.
const NEAR: u64 = 1009;

// The exponent's field of a double's bits.
pub fn exponent_of(bits: u64) -> u64
    ensures { result ≡ field_of bits }
{
    (bits >> 52) & 0x7ff
}

// The digits of a double's bits, with the leading one that the bits leave out.
fn digits_of(bits: u64) -> u64
    ensures { result ≡ digits_of bits }
{
    (bits & 0xf_ffff_ffff_ffff) | 0x10_0000_0000_0000
}

// How many ticks a double has, to the nearest, without sign. Inner: its exponent's field is below FAR.
#[tactic(auto, using(crate::proofs::TakenLaws::size_near, crate::proofs::TakenLaws::unit_most, crate::proofs::TakenLaws::size_told))]
fn ticks_in(bits: u64) -> u64
    requires { field_of bits < far }
    ensures { result ≡ ticks_in (of_bits binary64 bits) }
{
    let exponent = exponent_of(bits);
    if exponent <= NEAR {
        return 0;
    }
    // The double has digits / 2^(1,063 - exponent) ticks.
    nearest(digits_of(bits), 1u64 << (1063 - exponent))
}

// The nearest tick of a double. Inner: its exponent's field is below FAR.
#[tactic(auto, using(crate::proofs::TakenLaws::size_most, crate::proofs::TakenLaws::tick_below, crate::proofs::TakenLaws::tick_above))]
pub fn tick_of(bits: u64) -> i64
    requires { field_of bits < far }
    ensures { result ≡ tick_of (of_bits binary64 bits) }
{
    let size = ticks_in(bits) as i64;
    if bits >= 0x8000_0000_0000_0000 {
        -size
    } else {
        size
    }
}
