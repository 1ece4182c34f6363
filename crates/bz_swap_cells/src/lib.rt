//! The words of a simulated memory by what they mean: kinds of word outside the descriptors, and descriptors by
//! their status and their words.
#![tactic(auto)]

mod address;
mod cells;
mod counts;
mod meaning;
mod raw;
mod tables;

pub use address::{field_at, swap_at};
pub use cells::Cells;
pub use meaning::word_of_status;
