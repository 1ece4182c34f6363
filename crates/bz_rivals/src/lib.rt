//! The rivals of a worker that steps alone: the other workers that have a swap under way without an effect.
#![tactic(auto)]

pub mod laws;
