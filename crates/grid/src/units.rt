// The limits of a case's record (document 01, "Units and ranges"), each by name. specs/Units.antt has the same names and numbers.

// Columns and rows, each.
pub const MOST_ACROSS: usize = 64;

// Layers.
pub const MOST_LAYERS: usize = 8;

// Blocks in all layers together.
pub const MOST_BLOCKS: usize = 512;

// δ, whole.
pub const MOST_DELTA: i64 = 100;

// Weights of the two waters, grams a litre, and how far they are apart (document 02, W-209).
pub const LEAST_FRESH_WEIGHT: i64 = 990;

pub const MOST_FRESH_WEIGHT: i64 = 1_010;

pub const LEAST_SALT_WEIGHT: i64 = 1_011;

pub const MOST_SALT_WEIGHT: i64 = 1_050;

pub const LEAST_APART: i64 = 5;

// Days.
pub const MOST_STEP: i64 = 36_525;
// Litres a day.
pub const MOST_TOLERANCE: i64 = 1_000_000_000;

// The three axes along which a block is linked to the next one.
pub const NEXT_COLUMN: usize = 0;

pub const NEXT_ROW: usize = 1;

pub const ABOVE: usize = 2;
