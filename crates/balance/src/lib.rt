// Balances of a case's blocks in each fluid, litres a day (document 01, "Balance, verdict, table").
#![tactic(auto)]

pub mod balances;
