//! What the swap of a task makes of the number of leaves.
#![tactic(auto)]

pub mod laws;
