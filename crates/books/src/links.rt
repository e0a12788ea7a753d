// What a link carries, litres a day: a lateral face each fluid by itself, leakage one flow that counts as the fluid named for either side
// (document 01, "A lateral face", "Leakage, river and sea").
ghost use Rattle.std.specs.Prelude.{◌≡◌, true, ◌+◌, ◌≤◌, ◌<◌};
ghost use Rattle.grid.specs.Place.{behind_of, blocks_of, place_of, stride_of};
ghost use Rattle.grid.specs.Units.{above, next_row};
ghost use Rattle.slices.specs.Slices.{case_of};
ghost use Rattle.wellformed.specs.Links.{active_of, live_of};
ghost use Rattle.wellformed.specs.Inner.{WellFormed};
ghost use Rattle.books.specs.Inner.{Slotted, Watered};
ghost use Rattle.books.specs.Links.{
  side_of,
  behind_at,
  tip_behind_of,
  lateral_at,
  leakage_at,
  carried_of,
  named_of,
  counts_of,
};
ghost use Rattle.books.specs.Bookkeeping.{books_of, brought_of};

use super::rows::pair;
use block::geometry::{aquifer_top, k_in};
use block::{in_fluid, new_heads};
use flow::lateral::{Behind, Side, lateral};
use flow::leakage::{LeakageSide, leakage, lowermost, uppermost};
use flow::litres::over_area;
use grid::Grid;
use grid::place::{Place, behind, place_of, stride};
use grid::units::ABOVE;
use slots::load;
use wellformed::links::is_live;
use wellformed::widths::{along, area, face};

// Where no block stands behind a tip: its thickness is 0.
const NOBODY: Behind = Behind {
    width: 0,
    thickness: 0,
};

// K (mm/day), thickness and head (ticks) of a fluid in an active block. Inner: the slots are in range, the row holds their thicknesses, and
// the block is inside.
fn side(g: Grid, slots: &[i64], waters: &[i64], block: usize, fluid: usize) -> Side
    requires slotted { Slotted g slots.now }
    requires watered { Watered g slots.now waters.now }
    requires block_bound { block < blocks_of g }
    requires block_value { active_of slots.now block ≡ true }
    ensures { result ≡ side_of g slots.now fluid block }
{
    let own = load(slots, block);
    Side {
        k: k_in(g, own, fluid),
        thickness: in_fluid(pair(waters, block), fluid),
        head: in_fluid(new_heads(own), fluid),
    }
}

// The block behind the low or the high side of a link, away from the face. Inner: the case is well formed, the row holds its thicknesses, and
// both sides are inside.
fn behind_side(
    g: Grid,
    columns: &[i64],
    rows: &[i64],
    slots: &[i64],
    waters: &[i64],
    block: usize,
    axis: usize,
    fluid: usize,
    low: bool,
) -> Behind
    requires well_formed { WellFormed (case_of g columns.now rows.now slots.now) }
    requires watered { Watered g slots.now waters.now }
    requires axis_bound { block + stride_of g axis < blocks_of g }
    ensures { result ≡ behind_at (case_of g columns.now rows.now slots.now) fluid axis (behind_of g axis block low) }
{
    let found = behind(g, block, axis, low);
    match found {
        Some(p) => Behind {
            width: along(columns, rows, place_of(g, p), axis),
            thickness: in_fluid(pair(waters, p), fluid),
        },
        None => NOBODY,
    }
}

// "Only block a holds it: let p be the block on a's other side." `low` and `high` are the fluid's thicknesses on the two sides, ticks; p is
// looked for only at a tip. Inner: the case is well formed, the row holds its thicknesses, and both sides are inside.
fn tip_behind(
    g: Grid,
    columns: &[i64],
    rows: &[i64],
    slots: &[i64],
    waters: &[i64],
    block: usize,
    axis: usize,
    fluid: usize,
    low: i64,
    high: i64,
) -> Behind
    requires well_formed { WellFormed (case_of g columns.now rows.now slots.now) }
    requires watered { Watered g slots.now waters.now }
    requires axis_bound { block + stride_of g axis < blocks_of g }
    ensures { result ≡ tip_behind_of (case_of g columns.now rows.now slots.now) fluid axis block low high }
{
    if 0 < low {
        if 0 < high {
            return NOBODY;
        }
        return behind_side(g, columns, rows, slots, waters, block, axis, fluid, true);
    }
    if 0 < high {
        return behind_side(g, columns, rows, slots, waters, block, axis, fluid, false);
    }
    NOBODY
}

// The flow of a fluid through the face to the next column or row, litres a day, positive towards it. Inner: the case is well formed, the row
// holds its thicknesses, and the link is live, at its place.
fn lateral_flow(
    g: Grid,
    columns: &[i64],
    rows: &[i64],
    slots: &[i64],
    waters: &[i64],
    block: usize,
    place: Place,
    axis: usize,
    fluid: usize,
) -> i64
    requires well_formed { WellFormed (case_of g columns.now rows.now slots.now) }
    requires watered { Watered g slots.now waters.now }
    requires block_bound { block < blocks_of g }
    requires place_value { place ≡ place_of g block }
    requires axis_le_next_row { axis ≤ next_row }
    requires block_value { live_of g slots.now axis block ≡ true }
    ensures { result ≡ lateral_at (case_of g columns.now rows.now slots.now) fluid axis block }
{
    let a = side(g, slots, waters, block, fluid);
    let b = side(g, slots, waters, block + stride(g, axis), fluid);
    let p = tip_behind(
        g,
        columns,
        rows,
        slots,
        waters,
        block,
        axis,
        fluid,
        a.thickness,
        b.thickness,
    );
    lateral(face(columns, rows, place, axis), a, b, p)
}

// The leakage to the block above, litres a day. Inner: the case is well formed, the row holds its thicknesses, and the link is live, at its
// place.
fn leakage_flow(
    g: Grid,
    columns: &[i64],
    rows: &[i64],
    slots: &[i64],
    waters: &[i64],
    block: usize,
    place: Place,
) -> i64
    requires well_formed { WellFormed (case_of g columns.now rows.now slots.now) }
    requires watered { Watered g slots.now waters.now }
    requires block_bound { block < blocks_of g }
    requires place_value { place ≡ place_of g block }
    requires block_value { live_of g slots.now above block ≡ true }
    ensures { result ≡ leakage_at (case_of g columns.now rows.now slots.now) block }
{
    let own = load(slots, block);
    let conductance = over_area(own.leakance, area(columns, rows, place));
    let upper = block + stride(g, ABOVE);
    let below = LeakageSide {
        heads: new_heads(own),
        thickness: pair(waters, block),
    };
    let above = LeakageSide {
        heads: new_heads(load(slots, upper)),
        thickness: pair(waters, upper),
    };
    leakage(g, conductance, below, above, aquifer_top(own))
}

// What a live link carries as a fluid, litres a day, positive from its low to its high side. Inner: the case is well formed, the row holds its
// thicknesses, and the link is live, at its place.
fn carried(
    g: Grid,
    columns: &[i64],
    rows: &[i64],
    slots: &[i64],
    waters: &[i64],
    block: usize,
    place: Place,
    axis: usize,
    fluid: usize,
) -> i64
    requires well_formed { WellFormed (case_of g columns.now rows.now slots.now) }
    requires watered { Watered g slots.now waters.now }
    requires block_bound { block < blocks_of g }
    requires place_value { place ≡ place_of g block }
    requires axis_le_above { axis ≤ above }
    requires block_value { live_of g slots.now axis block ≡ true }
    ensures { result ≡ carried_of (case_of g columns.now rows.now slots.now) fluid axis block }
{
    if axis < ABOVE {
        return lateral_flow(g, columns, rows, slots, waters, block, place, axis, fluid);
    }
    leakage_flow(g, columns, rows, slots, waters, block, place)
}

// "Fluid of the lower block: fresh if its Bf > 0, else salt. Fluid of the upper: salt if its Bs > 0, else fresh." Inner: the slots are in
// range, the row holds their thicknesses, and both blocks are inside.
fn named(g: Grid, slots: &[i64], waters: &[i64], block: usize, low: bool) -> usize
    requires slotted { Slotted g slots.now }
    requires watered { Watered g slots.now waters.now }
    requires above_bound { block + stride_of g above < blocks_of g }
    ensures { result ≡ named_of g slots.now block low }
{
    if low {
        return uppermost(pair(waters, block));
    }
    lowermost(pair(waters, block + stride(g, ABOVE)))
}

// Whether what a link carries counts as a fluid on its low or its high side. Inner: the slots are in range, the row holds their thicknesses,
// and both sides are inside.
fn counts(
    g: Grid,
    slots: &[i64],
    waters: &[i64],
    block: usize,
    axis: usize,
    fluid: usize,
    low: bool,
) -> bool
    requires slotted { Slotted g slots.now }
    requires watered { Watered g slots.now waters.now }
    requires axis_bound { block + stride_of g axis < blocks_of g }
    requires axis_le_above { axis ≤ above }
    ensures { result ≡ counts_of g slots.now fluid axis block low }
{
    if axis < ABOVE {
        return true;
    }
    named(g, slots, waters, block, low) == fluid
}

// What the link that leads on from a block brings to its low or its high side as a fluid, litres a day. A flow is worked out only where it
// counts. Inner: the case is well formed, the row holds its thicknesses, and the block is inside, at its place.
pub fn brought(
    g: Grid,
    columns: &[i64],
    rows: &[i64],
    slots: &[i64],
    waters: &[i64],
    block: usize,
    place: Place,
    axis: usize,
    fluid: usize,
    low: bool,
) -> i64
    requires well_formed { WellFormed (case_of g columns.now rows.now slots.now) }
    requires watered { Watered g slots.now waters.now }
    requires block_bound { block < blocks_of g }
    requires place_value { place ≡ place_of g block }
    requires axis_le_above { axis ≤ above }
    ensures { result ≡ brought_of (books_of (case_of g columns.now rows.now slots.now) fluid) low axis block }
{
    if is_live(g, slots, block, place, axis) {
        if counts(g, slots, waters, block, axis, fluid, low) {
            let flow = carried(g, columns, rows, slots, waters, block, place, axis, fluid);
            if low {
                return -flow;
            }
            return flow;
        }
    }
    0
}
