//! The program: all that it does between its source and its sink.
#![tactic(auto)]

mod answer;
mod dump;
mod faults;
mod items;
mod load;
mod open;
mod outcome;
mod program;
mod queue;
mod threads;
mod trace;
mod turns;

pub use answer::{Answer, Waiting, top_without_threads};
pub use bz_threads::{Gate, NoGate};
pub use outcome::Outcome;
pub use program::top;
