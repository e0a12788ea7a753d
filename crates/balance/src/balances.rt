// The balance of a block in a fluid, litres a day: "all inflow less outflow, plus recharge, plus boundary, less wells, less storage rate".
ghost use Rattle.std.specs.Prelude.{◌≡◌, true, false, ◌*◌, ◌≤◌, ◌<◌, length};
ghost use Rattle.whole.specs.Sum.{back};
ghost use Rattle.grid.specs.Place.{blocks_of, place_of, stride_of};
ghost use Rattle.grid.specs.Units.{above};
ghost use Rattle.slices.specs.Slices.{case_of};
ghost use Rattle.wellformed.specs.Links.{active_of};
ghost use Rattle.wellformed.specs.Inner.{WellFormed};
ghost use Rattle.books.specs.Inner.{Watered, filled_of};
ghost use Rattle.books.specs.Bookkeeping.{books_of, brought_of};
ghost use Rattle.balance.specs.Balance.{through_of, flows_of, balance_in, balances_of};

use block::Fluids;
use block::units::{FRESH, SALT};
use books::links::brought;
use books::own::own_terms;
use books::rows::put;
use grid::Grid;
use grid::place::{Place, blocks, earlier, has_previous, place_of, stride};
use slots::is_active;

// What the link of an axis that ends in a block brings to it as a fluid, litres a day. Inner: the case is well formed, the row holds its
// thicknesses, and the block is inside, at its place.
fn ending(
    g: Grid,
    columns: &[i64],
    rows: &[i64],
    slots: &[i64],
    waters: &[i64],
    block: usize,
    place: Place,
    axis: usize,
    fluid: usize,
) -> i64
    requires well_formed { WellFormed (case_of g columns.now rows.now slots.now) }
    requires watered { Watered g slots.now waters.now }
    requires block_bound { block < blocks_of g }
    requires place_value { place ≡ place_of g block }
    requires axis_le_above { axis ≤ above }
    ensures { result ≡ back (stride_of g axis) (brought_of (books_of (case_of g columns.now rows.now slots.now) fluid) false axis) block }
{
    if has_previous(place, axis) {
        let low = block - stride(g, axis);
        return brought(
            g,
            columns,
            rows,
            slots,
            waters,
            low,
            earlier(place, axis),
            axis,
            fluid,
            false,
        );
    }
    0
}

// Inflow less outflow of a block along an axis as a fluid, litres a day: by the link that leads on from it and by the one that ends in it.
// Inner: the case is well formed, the row holds its thicknesses, and the block is inside, at its place.
fn through(
    g: Grid,
    columns: &[i64],
    rows: &[i64],
    slots: &[i64],
    waters: &[i64],
    block: usize,
    place: Place,
    axis: usize,
    fluid: usize,
) -> i64
    requires well_formed { WellFormed (case_of g columns.now rows.now slots.now) }
    requires watered { Watered g slots.now waters.now }
    requires block_bound { block < blocks_of g }
    requires place_value { place ≡ place_of g block }
    requires axis_le_above { axis ≤ above }
    ensures { result ≡ through_of g (books_of (case_of g columns.now rows.now slots.now) fluid) axis block }
{
    let leading = brought(
        g, columns, rows, slots, waters, block, place, axis, fluid, true,
    );
    leading + ending(g, columns, rows, slots, waters, block, place, axis, fluid)
}

// "all inflow less outflow" of a block in a fluid, litres a day, along the three axes. Inner: the case is well formed, the row holds its thicknesses, and the block
// is inside, at its place.
fn flows(
    g: Grid,
    columns: &[i64],
    rows: &[i64],
    slots: &[i64],
    waters: &[i64],
    block: usize,
    place: Place,
    fluid: usize,
) -> i64
    requires well_formed { WellFormed (case_of g columns.now rows.now slots.now) }
    requires watered { Watered g slots.now waters.now }
    requires block_bound { block < blocks_of g }
    requires place_value { place ≡ place_of g block }
    ensures { result ≡ flows_of g (books_of (case_of g columns.now rows.now slots.now) fluid) block }
{
    let mut net: i64 = 0;
    for axis in 0..3 {
        net = net + through(g, columns, rows, slots, waters, block, place, axis, fluid);
    }
    net
}

// The balance of a block in a fluid, litres a day, from its own three links, the three that end in it and its own terms. Inner: the case is
// well formed, the row holds its thicknesses, and the block is inside and active, at its place.
pub fn balance(
    g: Grid,
    columns: &[i64],
    rows: &[i64],
    slots: &[i64],
    waters: &[i64],
    block: usize,
    place: Place,
    fluid: usize,
) -> i64
    requires well_formed { WellFormed (case_of g columns.now rows.now slots.now) }
    requires watered { Watered g slots.now waters.now }
    requires block_bound { block < blocks_of g }
    requires place_value { place ≡ place_of g block }
    requires block_value { active_of slots.now block ≡ true }
    ensures { result ≡ balance_in g (books_of (case_of g columns.now rows.now slots.now) fluid) block }
{
    let net = flows(g, columns, rows, slots, waters, block, place, fluid);
    let own = own_terms(g, columns, rows, slots, waters, block, place, fluid);
    net + own.recharge + own.boundary - own.pumped - own.storage
}

// Both balances of a block, litres a day; 0 for an inactive one. Inner: the case is well formed, the row holds its thicknesses, and the block
// is inside.
fn balances_of(
    g: Grid,
    columns: &[i64],
    rows: &[i64],
    slots: &[i64],
    waters: &[i64],
    block: usize,
) -> Fluids
    requires well_formed { WellFormed (case_of g columns.now rows.now slots.now) }
    requires watered { Watered g slots.now waters.now }
    requires block_bound { block < blocks_of g }
    ensures { result ≡ balances_of (case_of g columns.now rows.now slots.now) block }
{
    if is_active(slots, block) {
        let place = place_of(g, block);
        return Fluids {
            fresh: balance(g, columns, rows, slots, waters, block, place, FRESH),
            salt: balance(g, columns, rows, slots, waters, block, place, SALT),
        };
    }
    Fluids { fresh: 0, salt: 0 }
}

// Puts both balances of every block into a row, litres a day. Inner: the case is well formed, the one row holds its thicknesses and the other
// has room.
pub fn fill_balances(
    g: Grid,
    columns: &[i64],
    rows: &[i64],
    slots: &[i64],
    waters: &[i64],
    row: &mut [i64],
)
    requires well_formed { WellFormed (case_of g columns.now rows.now slots.now) }
    requires watered { Watered g slots.now waters.now }
    requires g_in_bounds { 2 * blocks_of g ≤ length row.old }
    ensures { row.new ≡ filled_of (blocks_of g) (balances_of (case_of g columns.now rows.now slots.now)) row.old }
{
    let total = blocks(g);
    for block in 0..total {
        let both = balances_of(g, columns, rows, slots, waters, block);
        put(row, block, both);
    }
}
