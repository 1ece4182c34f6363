//! A search by halving among the sorted records of a node, of which some may not be visible: where it looks, and what it costs.
#![tactic(auto)]

mod probe;

pub use probe::{Probe, halved};
