//! A persistent compare-and-swap of one to four words, atomic and durable whatever is evicted and whenever the power
//! fails.
#![tactic(auto)]

mod access;
mod allowance;
mod begin;
mod cut;
mod entry_list;
mod eviction;
pub mod laws;
mod phase;
mod power;
mod progress;
mod raw;
mod role;
mod starts;
mod step;

pub use access::Access;
pub use bz_swap_acts::Act;
pub use bz_swap_machine::Done;
pub use entry_list::EntryList;
pub use phase::Phase;
pub use progress::{NoSwap, Progress};
