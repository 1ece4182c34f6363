//! What each restructuring of the tree does once it is planned: the guard is loaded once more, slots are taken, the words of fresh
//! nodes are stored there and flushed, and one swap is made.
#![tactic(auto)]

mod acts;
mod guard;
mod phase;
mod seen;

pub use acts::{flush_at, store_at};
pub use guard::{Begun, look};
pub use phase::WritePhase;
pub use seen::{is_read, word_in};
