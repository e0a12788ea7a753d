// The grid of a case: its record with what that is refused with, 3 and 4, what its waters weigh, and where its blocks lie and which links join
// them (document 01, "Units and ranges" and "Refusal numbers"; document 02, W-209).
#![tactic(auto)]

pub mod judging;
pub mod place;
pub mod units;
pub mod weights;

// The record of a case. It may hold any numbers: `judging` says which are refused.
#[derive(Clone, Copy, Debug, PartialEq, Eq)]
pub struct Grid {
    // How many columns, rows and layers the grid has.
    pub columns: usize,
    pub rows: usize,
    pub layers: usize,
    // δ, whole; 0 where the two weights are given in its place.
    pub delta: i64,
    // Weights of fresh and of salt water, grams a litre; both 0 beside a whole δ.
    pub fresh_weight: i64,
    pub salt_weight: i64,
    // 1 where the top layer has a water table, otherwise 0.
    pub flag: u64,
    // The time step in days.
    pub step: i64,
    // Litres a day.
    pub tolerance: i64,
}

// How many of the record's numbers are counts, how many say what the waters weigh, and how many are terms. specs/Record.antt has the same names and
// numbers.
pub const COUNTS: usize = 3;

pub const DENSITY: usize = 3;

pub const TERMS: usize = 3;

// How many numbers the record has: columns, rows, layers, δ, fresh weight, salt weight, flag, step, tolerance.
pub const RECORD_NUMBERS: usize = COUNTS + DENSITY + TERMS;

// The record beside a refusal.
pub const NO_GRID: Grid = Grid {
    columns: 0,
    rows: 0,
    layers: 0,
    delta: 0,
    fresh_weight: 0,
    salt_weight: 0,
    flag: 0,
    step: 0,
    tolerance: 0,
};
