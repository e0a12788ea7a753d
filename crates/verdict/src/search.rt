// The places that a code counts: the first, how many, and the largest balance at a free place (document 01, "Balance, verdict, table").
ghost use Rattle.std.specs.Prelude.{◌≡◌};
ghost use Rattle.grid.specs.Place.{blocks_of};
ghost use Rattle.books.specs.Inner.{Slotted, Watered, pair_of};
ghost use Rattle.balance.specs.Inner.{Bounded};
ghost use Rattle.verdict.specs.Ruling.{first_place, count_of, largest_of};

use super::places::{counted_at, free_size};
use grid::Grid;
use grid::place::blocks;

// "The search names the first failing block": the first place that a code counts, counted from 1, two places to a block; 0 where it counts
// none. Inner: slots and balances are in range, and the row holds their thicknesses.
pub fn first_place(g: Grid, slots: &[i64], waters: &[i64], balances: &[i64], code: u64) -> usize
    requires slotted { Slotted g slots.now }
    requires watered { Watered g slots.now waters.now }
    requires bounded { Bounded (blocks_of g) balances.now }
    ensures { result ≡ first_place g slots.now (pair_of balances.now) code }
{
    let total = blocks(g);
    let mut found = 0;
    'search: for block in 0..total {
        for fluid in 0..2 {
            if counted_at(g, slots, waters, balances, code, block, fluid) {
                found = 2 * block + fluid + 1;
                break 'search;
            }
        }
    }
    found
}

// "how many places fail", or are moved, or are dry wells. Inner: slots and balances are in range, and the row holds their thicknesses.
pub fn count_places(g: Grid, slots: &[i64], waters: &[i64], balances: &[i64], code: u64) -> usize
    requires slotted { Slotted g slots.now }
    requires watered { Watered g slots.now waters.now }
    requires bounded { Bounded (blocks_of g) balances.now }
    ensures { result ≡ count_of g slots.now (pair_of balances.now) code }
{
    let mut count = 0;
    for place in 0..2 * blocks(g) {
        if counted_at(g, slots, waters, balances, code, place / 2, place % 2) {
            count += 1;
        }
    }
    count
}

// "the largest balance without sign among free places", litres a day. Inner: slots and balances are in range.
pub fn largest(g: Grid, slots: &[i64], balances: &[i64]) -> i64
    requires slotted { Slotted g slots.now }
    requires bounded { Bounded (blocks_of g) balances.now }
    ensures { result ≡ largest_of g slots.now (pair_of balances.now) }
{
    let mut most: i64 = 0;
    for place in 0..2 * blocks(g) {
        most = most.max(free_size(g, slots, balances, place));
    }
    most
}
