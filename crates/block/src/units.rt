// The tick (document 01, "Units and ranges") and the numbers of the two fluids. specs/Units.antt has the tick, specs/Fluids.antt the fluids.

// Ticks to a metre: "A tick is 1/4,096 m."
pub const TICKS: i64 = 4_096;

// The two fluids, by number.
pub const FRESH: usize = 0;

pub const SALT: usize = 1;
