//! Where nobody else's swap took effect since a look-up began, what a task has read still stands, so that it does not come to begin
//! again.
#![tactic(auto)]

pub mod laws;
