// The limits of a block's slots (document 01, "Units and ranges"), each by name. specs/Units.antt has the same names and numbers.

// Slots of a block.
pub const SLOTS_EACH: usize = 16;
// mm/day.
pub const MOST_K: i64 = 1_000_000;
// Ticks: a base, a head, a stage or a floor, up or down from sea level.
pub const MOST_LEVEL: i64 = 4_194_304;
// Ticks.
pub const MOST_THICKNESS: i64 = 4_194_304;
// Per mille.
pub const MOST_POROSITY: i64 = 1_000;
// 10^-6 a day: the leakance to the block above and the boundary's.
pub const MOST_LEAKANCE: i64 = 1_000_000;
// µm/day.
pub const MOST_RECHARGE: i64 = 1_000_000;
// Litres a day, taken out or put in.
pub const MOST_PUMPAGE: i64 = 1_073_741_824;
// Ticks: the highest aquifer top.
pub const MOST_SCREEN: i64 = 8_388_608;

// The last boundary kind: "5 both fixed".
pub const MOST_KIND: i64 = 5;
