// Verdict codes (document 01, "Balance, verdict, table").

// "21 if any fixed head moved from old to new".
pub const MOVED: u64 = 21;

// "22 if any well is dry".
pub const DRY: u64 = 22;

// "23 fresh, 24 salt", by the first failing place; places that fail are counted "23 and 24 together".
pub const FAILING: u64 = 23;
