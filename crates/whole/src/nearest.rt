// A quotient to the nearest whole number (document 01, "Metres"): "halves to the even one".
ghost use Rattle.std.specs.Prelude.{◌≡◌, ◌+◌, ◌≤◌, ◌<◌, ◌^◌, ◌%◌};
ghost use Rattle.std.specs.Float.Ieee.Nearest.{closest};

// The even one of a number and the next. Inner: the number is below 2⁵³.
fn to_even(whole: u64) -> u64
    requires { whole < 2 ^ 53 }
    ensures { result ≡ whole + whole % 2 }
{
    if whole % 2 == 0 { whole } else { whole + 1 }
}

// digits / unit to the nearest whole number, "halves to the even one". Inner: digits are below 2⁵³, and unit is from 1 to 2⁵³.
pub fn nearest(digits: u64, unit: u64) -> u64
    requires digits_bound { digits < 2 ^ 53 }
    requires unit_nonzero { 0 < unit }
    requires unit_bound { unit ≤ 2 ^ 53 }
    ensures { result ≡ closest digits unit }
{
    let whole = digits / unit;
    let twice = digits % unit * 2;
    if twice < unit {
        whole
    } else if twice == unit {
        to_even(whole)
    } else {
        whole + 1
    }
}
