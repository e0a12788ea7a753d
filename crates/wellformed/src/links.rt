// Which blocks are joined (document 01, "A lateral face" and "Leakage, river and sea"): neighbours, "both active".
ghost use Rattle.std.specs.Prelude.{◌≡◌, ◌*◌, ◌≤◌, ◌<◌, length};
ghost use Rattle.grid.specs.Inner.{Counted};
ghost use Rattle.grid.specs.Place.{blocks_of, place_of};
ghost use Rattle.wellformed.specs.Links.{live_of};

use grid::Grid;
use grid::place::{Place, has_next, stride};
use slots::is_active;

// Whether a block is joined to the next one along an axis. Inner: the block is inside, at its place, and the slots reach so far.
#[tactic(auto, using(grid::proofs::PlaceLaws::next_told), unfolding(crate::specs::Links::live_of))]
pub fn is_live(g: Grid, slots: &[i64], block: usize, place: Place, axis: usize) -> bool
    requires counted { Counted g }
    requires g_in_bounds { 16 * blocks_of g ≤ length slots.now }
    requires block_bound { block < blocks_of g }
    requires place_value { place ≡ place_of g block }
    ensures { result ≡ live_of g slots.now axis block }
{
    has_next(g, place, axis)
        && (is_active(slots, block) && is_active(slots, block + stride(g, axis)))
}
