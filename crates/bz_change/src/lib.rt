//! The swap of a queue's call: which words it changes, and what its effect makes of the list; and what all other acts leave.
#![tactic(auto)]

pub mod laws;
mod replies;
mod swap;

pub use replies::{change_reply, counter_at, none_reply, suits};
pub use swap::entries;
