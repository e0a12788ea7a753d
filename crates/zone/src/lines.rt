// The nine lines of a fluid, litres a day: "storage, edge in, edge out, converted, wells, recharge, boundary, supply, error".
ghost use Rattle.std.specs.Prelude.{◌≡◌, ◌<◌};
ghost use Rattle.grid.specs.Place.{blocks_of};
ghost use Rattle.slices.specs.Slices.{case_of};
ghost use Rattle.books.specs.Bookkeeping.{books_of};
ghost use Rattle.zone.specs.Zones.{marked_of};
ghost use Rattle.zone.specs.Inner.{terms_of, Ready};

use super::exchange::{converted, edges};
use super::holdings::{own_in_zone, settle};
use grid::Grid;
use grid::place::place_of;

// A number for each of the nine lines, litres a day.
#[derive(Clone, Copy)]
pub struct Lines {
    pub storage: i64,
    pub edge_in: i64,
    pub edge_out: i64,
    pub converted: i64,
    // Negative where pumped.
    pub wells: i64,
    pub recharge: i64,
    pub boundary: i64,
    pub supply: i64,
    pub error: i64,
}

// What a block, with the three links that lead on from it, gives to each line of a fluid, litres a day. Inner: the case is well formed, the rows
// hold its thicknesses and its balances, the marks reach over the grid, the block is inside, and the fluid is one of the two.
pub fn terms(
    g: Grid,
    columns: &[i64],
    rows: &[i64],
    slots: &[i64],
    waters: &[i64],
    balances: &[i64],
    marks: &[i64],
    block: usize,
    fluid: usize,
) -> Lines
    requires ready { Ready (case_of g columns.now rows.now slots.now) waters.now balances.now marks.now }
    requires block_bound { block < blocks_of g }
    requires fluid_bound { fluid < 2 }
    ensures { result ≡ terms_of g slots.now (books_of (case_of g columns.now rows.now slots.now) fluid) (marked_of marks.now) block }
{
    let place = place_of(g, block);
    let edge = edges(g, columns, rows, slots, waters, marks, block, place, fluid);
    let own = own_in_zone(g, columns, rows, slots, waters, marks, block, place, fluid);
    let rest = settle(g, slots, balances, marks, block, fluid);
    Lines {
        storage: own.storage,
        edge_in: edge.inflow,
        edge_out: edge.outflow,
        converted: converted(g, columns, rows, slots, waters, marks, block, place, fluid),
        wells: -own.pumped,
        recharge: own.recharge,
        boundary: own.boundary,
        supply: rest.supply,
        error: rest.error,
    }
}
