//! Scripts of a queue: what the program is asked to do with one, and the one reader of their text.
#![tactic(auto)]

mod forms;
mod item;
pub mod laws;
mod order;
mod read;

pub use item::{QItem, QPlan, QScript};
pub use read::read_queue_script;
