// The books of a case in one fluid: what every link carries and what every block has of its own, litres a day (document 01, "A lateral
// face", "Leakage, river and sea", "One block"). The link of an axis that leads on from a block joins it, the low side, to the next block along
// the axis, the high side.
#![tactic(auto)]

pub mod links;
pub mod own;
pub mod rows;
pub mod waters;
