//! Journals as JSON Lines.
#![tactic(auto)]

mod error;
mod read;
mod read_marks;
#[cfg(test)]
mod tests;
mod write;

pub use error::{JsonError, ReadError};
pub use read::read_journal;
pub use write::write_journal;
