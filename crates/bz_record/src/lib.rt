//! A record of a leaf: the words that are stored for it, and the swaps by which it comes, changes and goes.
#![tactic(auto)]

mod found_record;
pub mod laws;
mod new_record;
mod record_swap;

pub use found_record::FoundRecord;
pub use new_record::NewRecord;
pub use record_swap::RecordSwap;
