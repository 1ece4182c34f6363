//! In a round in which nobody else's swap took effect, a call's own swap that makes no change lowers the stage of its key.
#![tactic(auto)]

pub mod laws;
