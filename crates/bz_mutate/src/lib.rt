//! The changes of a record that a leaf has: its delete, by one swap, and its update, by two.
#![tactic(auto)]

mod delete;
mod delete_phase;
mod update;
mod update_phase;

pub use delete::Delete;
pub use update::Update;
