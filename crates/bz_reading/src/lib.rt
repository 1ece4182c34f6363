//! Lines of a journal that are read: the first one, and that of a mark.
#![tactic(auto)]

mod calls_in;
mod error;
mod head_in;
mod marks_in;
mod numbers_in;
mod pages_in;
mod read_lines;

pub use error::LineFault;
pub use marks_in::mark_in;
pub use pages_in::page_in;
pub use read_lines::{read_head, value_of};
