//! The recovery of a memory after a power cut, by worker 0 alone: every word outside the descriptors is resolved and made
//! durable, then every descriptor made free, and then each node slot that the tree reaches is held, and no other.
#![tactic(auto)]

pub mod laws;
mod recover;
mod walk;

pub use recover::Recover;
pub use walk::Walk;
