//! The memory of the swap as tasks see it: what a read answers, and what the acts of all workers are to each of them.
#![tactic(auto)]

pub mod laws;
