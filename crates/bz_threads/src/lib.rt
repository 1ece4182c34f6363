//! Runs on threads: each worker's calls by a thread of its own, over one index.
#![tactic(auto)]

mod batch;
mod batches;
mod running;

pub use bz_index::{Gate, NoGate};
pub use running::{ThreadsEnd, run_threads};
