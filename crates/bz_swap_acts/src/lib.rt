//! One act of a worker over the memory's words: what the swap's machine does at a place, done to the memory.
#![tactic(auto)]

mod acted;
mod descriptor;
mod entry;
mod help;
mod places;
mod prepare;
mod reading;
mod tags;
mod values;
mod verdicts;
mod words;

pub use acted::{Act, Acted};
pub use places::act;
