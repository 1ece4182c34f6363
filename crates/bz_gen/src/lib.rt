//! A generated workload: the script that a seed gives.
#![tactic(auto)]

mod calls;
mod draws;
pub mod laws;
mod names;
mod workload;

pub use workload::{MOST_CALLS, generate};
