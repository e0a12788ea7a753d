// How far a head reaches (document 02, W-207): definitions and theorems alone, no function.
#![tactic(auto)]
