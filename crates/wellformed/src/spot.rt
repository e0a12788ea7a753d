// A block at its place, in a case that 3, 7, 4, 5 and 6 do not refuse.
ghost use Rattle.std.specs.Prelude.{◌≡◌, ◌<◌};
ghost use Rattle.grid.specs.Place.{blocks_of, place_of};

use grid::place::Place;
use slices::JudgedCase;

// A block of a case, counted from 0, with its place.
#[derive(Clone, Copy)]
pub struct Spot<'a> {
    pub judged: JudgedCase<'a>,
    pub block: usize,
    pub place: Place,
    pub ghost inside: { block < blocks_of judged.case.grid },
    pub ghost placed: { place ≡ place_of judged.case.grid block },
}
