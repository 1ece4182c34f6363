//! The leaf that is made of two neighbours, and their parent with the one in place of both.
#![tactic(auto)]

mod front;
pub mod laws;
mod leaf;
mod parent;
mod record_list;
mod records;
mod words;

pub use front::{level_of, low_fence};
pub use leaf::joined_leaf;
pub use parent::{ParentJoin, parent_joined};
