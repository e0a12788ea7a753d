// Where a block lies, and its links: "Blocks are numbered from 1, by layer, then row, then column." In code and definitions a
// block is its number less 1. A link leads along one of three axes, 0 to the next column, 1 to the next row, 2 to the block above.
ghost use Rattle.std.specs.Prelude.{◌≡◌, true, ◌+◌, ◌<◌};
ghost use Rattle.grid.specs.Place.{blocks_of, place_of, top_of, coordinate_of, extent_of, stride_of, has_next, has_previous, neighbour_of, behind_of};
ghost use Rattle.grid.specs.Inner.{earlier_of, Counted};

use super::Grid;
use super::units::ABOVE;

// Column, row and layer, each counted from 0; layer 0 is the deepest.
#[derive(Clone, Copy, Debug, PartialEq, Eq)]
pub struct Place {
    pub column: usize,
    pub row: usize,
    pub layer: usize,
}

// How many blocks the grid has. Inner: the counts are in range.
pub fn blocks(g: Grid) -> usize
    requires { Counted g }
    ensures { result ≡ blocks_of g }
{
    g.columns * g.rows * g.layers
}

// The place of a block. Inner: the counts are in range.
#[tactic(auto, unfolding(crate::specs::Place::place_of))]
pub fn place_of(g: Grid, block: usize) -> Place
    requires { Counted g }
    ensures { result ≡ place_of g block }
{
    let line = block / g.columns;
    Place {
        column: block % g.columns,
        row: line % g.rows,
        layer: line / g.rows,
    }
}

// Whether a block lies in the top layer. Inner: the counts are in range and the block is inside.
#[tactic(auto, using(crate::proofs::PlaceLaws::top_outside))]
pub fn is_top(g: Grid, block: usize) -> bool
    requires counted { Counted g }
    requires block_bound { block < blocks_of g }
    ensures { result ≡ top_of g block }
{
    blocks(g) <= block + stride(g, ABOVE)
}

// The column, the row or the layer, by the axis.
fn coordinate(place: Place, axis: usize) -> usize
    ensures { result ≡ coordinate_of place axis }
{
    match axis {
        0 => place.column,
        1 => place.row,
        _ => place.layer,
    }
}

// How many columns, rows or layers there are, by the axis.
fn extent(g: Grid, axis: usize) -> usize
    ensures { result ≡ extent_of g axis }
{
    match axis {
        0 => g.columns,
        1 => g.rows,
        _ => g.layers,
    }
}

// How far on in block order the next block along the axis stands. Inner: the counts are in range.
pub fn stride(g: Grid, axis: usize) -> usize
    requires { Counted g }
    ensures { result ≡ stride_of g axis }
{
    match axis {
        0 => 1,
        1 => g.columns,
        _ => g.columns * g.rows,
    }
}

// Whether a block follows this one along the axis.
#[tactic(auto, unfolding(crate::specs::Place::has_next))]
pub fn has_next(g: Grid, place: Place, axis: usize) -> bool
    ensures { result ≡ has_next g place axis }
{
    let at = coordinate(place, axis);
    let most = extent(g, axis);
    at < most && at + 1 < most
}

// Whether a block comes before this one along the axis.
#[tactic(auto, unfolding(crate::specs::Place::has_previous))]
pub fn has_previous(place: Place, axis: usize) -> bool
    ensures { result ≡ has_previous place axis }
{
    0 < coordinate(place, axis)
}

// The place one step back along the axis. Inner: a block comes before this one.
#[tactic(auto, unfolding(crate::specs::Place::has_previous))]
pub fn earlier(place: Place, axis: usize) -> Place
    requires { has_previous place axis ≡ true }
    ensures { result ≡ earlier_of place axis }
{
    match axis {
        0 => Place {
            column: place.column - 1,
            ..place
        },
        1 => Place {
            row: place.row - 1,
            ..place
        },
        _ => Place {
            layer: place.layer - 1,
            ..place
        },
    }
}

// The block across the link that leads on from this one along the axis, or across the link that ends in it; none where that link is not there.
// Inner: the counts are in range and the block is inside.
#[tactic(auto, using(crate::proofs::PlaceLaws::next_inside, crate::proofs::PlaceLaws::previous_low), unfolding(crate::specs::Place::neighbour_of, crate::specs::Place::next_of, crate::specs::Place::previous_of))]
pub fn across(g: Grid, block: usize, axis: usize, on: bool) -> Option<usize>
    requires counted { Counted g }
    requires block_bound { block < blocks_of g }
    ensures { result ≡ neighbour_of g axis block on }
{
    let place = place_of(g, block);
    if on {
        has_next(g, place, axis).then(|| block + stride(g, axis))
    } else {
        has_previous(place, axis).then(|| block - stride(g, axis))
    }
}

// "let p be the block on a's other side": the block behind the low or the high side of the link that leads on from this block.
// Inner: the counts are in range and both ends are inside.
#[tactic(auto, unfolding(crate::specs::Place::behind_of))]
pub fn behind(g: Grid, block: usize, axis: usize, low: bool) -> Option<usize>
    requires counted { Counted g }
    requires axis_bound { block + stride_of g axis < blocks_of g }
    ensures { result ≡ behind_of g axis block low }
{
    if low {
        across(g, block, axis, false)
    } else {
        across(g, block + stride(g, axis), axis, true)
    }
}
