// Flows between blocks and across a block's own boundary, litres a day (document 01, "A lateral face", "Leakage, river and sea").
#![tactic(auto)]

pub mod boundary;
pub mod lateral;
pub mod leakage;
pub mod litres;
