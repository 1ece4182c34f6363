//! The freeze of a leaf: one swap of its status, after which nothing of the leaf changes any more.
#![tactic(auto)]

mod freeze;
pub mod laws;
mod phase;

pub use freeze::Freeze;
