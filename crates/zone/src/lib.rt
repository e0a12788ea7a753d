// What one block of a zone, with the links that lead on from it, gives to each line of the zone's table (document 01, "Balance, verdict,
// table").
#![tactic(auto)]

pub mod exchange;
pub mod holdings;
pub mod lines;
pub mod zones;
