//! The words of the index: kinds of word, status, metadata and header words, and the entries of a swap.
#![tactic(auto)]

mod entry;
mod field;
mod header;
mod kind;
pub mod laws;
mod meta;
mod status;

pub use entry::Entry;
pub use header::Header;
pub use kind::{WordKind, kind_of, word_of};
pub use meta::{Extent, Meta};
pub use status::Status;
