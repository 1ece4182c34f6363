//! One key looked up in a leaf, as it was at one moment.
#![tactic(auto)]

mod find;
mod front;
mod phase;
mod search;

pub use find::Find;
