//! A queue in a ring of cells: what the words of a memory mean as a list, what its journal keeps, and when that journal is
//! right.
#![tactic(auto)]

mod calls;
mod flat;
mod journal;
pub mod laws;
mod marks;
mod ring;
#[cfg(test)]
mod tests;

pub use calls::{QCall, QReply};
pub use journal::QJournal;
pub use marks::QMark;
pub use ring::{HEAD_AT, QUEUE_FORMAT, Ring, TAIL_AT, fresh};
