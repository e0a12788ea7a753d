// Ranges with both ends within (document 01, "Units and ranges").
ghost use Rattle.std.specs.Prelude.{◌≡◌, ◌≤◌, length};
ghost use Rattle.whole.specs.Ranges.{in_range, all_within};

// A lower and an upper end, both within.
#[derive(Clone, Copy, Debug, PartialEq, Eq)]
pub struct Range {
    pub lower: i64,
    pub upper: i64,
}

// Whether a number lies within its ends.
#[tactic(auto, unfolding(crate::specs::Ranges::in_range))]
pub fn in_range(range: Range, value: i64) -> bool
    ensures { result ≡ in_range range value }
{
    range.lower <= value && value <= range.upper
}

// Whether the first `count` of some numbers all lie within one pair of ends. Inner: there are so many.
pub fn all_within(values: &[i64], count: usize, range: Range) -> bool
    requires { count ≤ length values.now }
    ensures { result ≡ all_within range values.now count }
{
    for value in &values[..count] {
        if !in_range(range, *value) {
            return false;
        }
    }
    true
}
