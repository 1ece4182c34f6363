//! The contract of every operation on the tree: a task says its next act, is told what came of it, and is proved by itself,
//! over a memory in which other workers take any lawful step between two of its acts.
#![tactic(auto)]

pub mod laws;
mod path;
mod task;
mod todo;
mod view;

pub use bz_content::laws as content_laws;
pub use bz_swap::EntryList;
pub use path::{Link, Path};
pub use task::Task;
pub use todo::{Outcome, Seen, Todo};
pub use view::{Found, KeyView, LeafView};
