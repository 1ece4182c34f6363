//! One node's words as a slotted page: its records, its rules, and what each swap on it changes.
#![tactic(auto)]

mod entries;
mod fault;
mod filling;
mod front;
mod keys;
pub mod laws;
mod metas;
mod order;
mod place;
mod records;

pub use bz_node::NodeImage;
pub use fault::node_fault;
pub use place::Place;
