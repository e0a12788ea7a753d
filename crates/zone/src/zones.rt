// "A zone is a mark 0 or 1 per block."
ghost use Rattle.std.specs.Prelude.{◌≡◌, ◌+◌, ◌*◌, ◌≤◌, ◌<◌, length};
ghost use Rattle.zone.specs.Zones.{marked_of, in_zone};

use slots::is_active;

// Whether a block is marked. Inner: the marks reach so far.
#[tactic(auto, unfolding(crate::specs::Zones::marked_of))]
pub fn is_marked(marks: &[i64], block: usize) -> bool
    requires { block < length marks.now }
    ensures { result ≡ marked_of marks.now block }
{
    0 < marks[block]
}

// Whether a block is marked and active. Inner: slots and marks reach so far.
#[tactic(auto, unfolding(crate::specs::Zones::in_zone))]
pub fn in_zone(slots: &[i64], marks: &[i64], block: usize) -> bool
    requires block_in_bounds { 16 * block + 16 ≤ length slots.now }
    requires block_in_bounds_2 { block < length marks.now }
    ensures { result ≡ in_zone slots.now (marked_of marks.now) block }
{
    is_marked(marks, block) && is_active(slots, block)
}
