// What links give to a zone's edge and converted lines, litres a day: the three links that lead on from a block.
ghost use Rattle.std.specs.Prelude.{◌≡◌, ◌+◌, ◌≤◌, ◌<◌, length};
ghost use Rattle.grid.specs.Inner.{Counted};
ghost use Rattle.grid.specs.Place.{blocks_of, place_of, stride_of};
ghost use Rattle.grid.specs.Units.{above};
ghost use Rattle.slices.specs.Slices.{case_of};
ghost use Rattle.wellformed.specs.Inner.{WellFormed};
ghost use Rattle.books.specs.Inner.{Watered};
ghost use Rattle.books.specs.Bookkeeping.{books_of, brought_of};
ghost use Rattle.zone.specs.Zones.{marked_of};
ghost use Rattle.zone.specs.Inner.{at_edge};
ghost use Rattle.zone.specs.Exchange.{edge_of, edges_of, converted_at};

use super::zones::is_marked;
use books::links::brought;
use grid::Grid;
use grid::place::{Place, has_next, stride};
use grid::units::ABOVE;
use whole::greatest;

// What crosses the zone's edge by the links that lead on from a block, each way, litres a day.
#[derive(Clone, Copy)]
pub struct Crossing {
    pub inflow: i64,
    pub outflow: i64,
}

// Whether a link has "one side marked". Inner: the counts are in range and the marks reach to both sides.
#[tactic(auto, unfolding(crate::specs::Inner::at_edge))]
fn at_edge(g: Grid, marks: &[i64], block: usize, axis: usize) -> bool
    requires counted { Counted g }
    requires axis_in_bounds { block + stride_of g axis < length marks.now }
    ensures { result ≡ at_edge g (marked_of marks.now) axis block }
{
    let high = is_marked(marks, block + stride(g, axis));
    if is_marked(marks, block) { !high } else { high }
}

// What a link with one side marked brings to that side as a fluid, litres a day; 0 by any other link. Inner: the case is well formed, the row
// holds its thicknesses, the marks reach over the grid, and the block is inside, at its place.
fn edge(
    g: Grid,
    columns: &[i64],
    rows: &[i64],
    slots: &[i64],
    waters: &[i64],
    marks: &[i64],
    block: usize,
    place: Place,
    axis: usize,
    fluid: usize,
) -> i64
    requires well_formed { WellFormed (case_of g columns.now rows.now slots.now) }
    requires watered { Watered g slots.now waters.now }
    requires g_in_bounds { blocks_of g ≤ length marks.now }
    requires block_bound { block < blocks_of g }
    requires place_value { place ≡ place_of g block }
    requires axis_le_above { axis ≤ above }
    ensures { result ≡ edge_of g (books_of (case_of g columns.now rows.now slots.now) fluid) (marked_of marks.now) axis block }
{
    if has_next(g, place, axis) {
        if at_edge(g, marks, block, axis) {
            let low = is_marked(marks, block);
            return brought(
                g, columns, rows, slots, waters, block, place, axis, fluid, low,
            );
        }
    }
    0
}

// What crosses the zone's edge by the three links that lead on from a block, as a fluid, face by face, litres a day. Inner: the case is well
// formed, the row holds its thicknesses, the marks reach over the grid, and the block is inside, at its place.
pub fn edges(
    g: Grid,
    columns: &[i64],
    rows: &[i64],
    slots: &[i64],
    waters: &[i64],
    marks: &[i64],
    block: usize,
    place: Place,
    fluid: usize,
) -> Crossing
    requires well_formed { WellFormed (case_of g columns.now rows.now slots.now) }
    requires watered { Watered g slots.now waters.now }
    requires g_in_bounds { blocks_of g ≤ length marks.now }
    requires block_bound { block < blocks_of g }
    requires place_value { place ≡ place_of g block }
    ensures { result ≡ edges_of g (books_of (case_of g columns.now rows.now slots.now) fluid) (marked_of marks.now) block }
{
    let mut inflow: i64 = 0;
    let mut outflow: i64 = 0;
    for axis in 0..3 {
        let gain = edge(
            g, columns, rows, slots, waters, marks, block, place, axis, fluid,
        );
        inflow = inflow + greatest(0, gain);
        outflow = outflow + greatest(0, -gain);
    }
    Crossing { inflow, outflow }
}

// What the leakage between a block and the one above brings to one of the two as a fluid, litres a day. Inner: the case is well formed, the
// row holds its thicknesses, and the block is inside, at its place.
fn by_leakage(
    g: Grid,
    columns: &[i64],
    rows: &[i64],
    slots: &[i64],
    waters: &[i64],
    block: usize,
    place: Place,
    fluid: usize,
    low: bool,
) -> i64
    requires well_formed { WellFormed (case_of g columns.now rows.now slots.now) }
    requires watered { Watered g slots.now waters.now }
    requires block_bound { block < blocks_of g }
    requires place_value { place ≡ place_of g block }
    ensures { result ≡ brought_of (books_of (case_of g columns.now rows.now slots.now) fluid) low above block }
{
    brought(
        g, columns, rows, slots, waters, block, place, ABOVE, fluid, low,
    )
}

// "the net gain of that fluid over marked pairs joined by leakage that changes fluid", of the pair of a block and the one above, litres a day.
// Leakage that changes nothing takes from the one what it gives to the other. Inner: the case is well formed, the row holds its thicknesses,
// the marks reach over the grid, and the block is inside, at its place.
pub fn converted(
    g: Grid,
    columns: &[i64],
    rows: &[i64],
    slots: &[i64],
    waters: &[i64],
    marks: &[i64],
    block: usize,
    place: Place,
    fluid: usize,
) -> i64
    requires well_formed { WellFormed (case_of g columns.now rows.now slots.now) }
    requires watered { Watered g slots.now waters.now }
    requires g_in_bounds { blocks_of g ≤ length marks.now }
    requires block_bound { block < blocks_of g }
    requires place_value { place ≡ place_of g block }
    ensures { result ≡ converted_at g (books_of (case_of g columns.now rows.now slots.now) fluid) (marked_of marks.now) block }
{
    if has_next(g, place, ABOVE) {
        if is_marked(marks, block) {
            if is_marked(marks, block + stride(g, ABOVE)) {
                let below = by_leakage(g, columns, rows, slots, waters, block, place, fluid, true);
                return below
                    + by_leakage(g, columns, rows, slots, waters, block, place, fluid, false);
            }
        }
    }
    0
}
