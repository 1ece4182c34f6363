//! The insert of a record into a leaf: its place is reserved, its words are stored and become durable, and then it is made
//! visible.
#![tactic(auto)]

mod insert;
mod phase;

pub use insert::Insert;
