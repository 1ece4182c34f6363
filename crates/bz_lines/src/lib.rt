//! The lines of a journal: one for each mark, and the first one.
#![tactic(auto)]

mod call_lines;
mod compose;
mod head_line;
mod mark_lines;
mod reply_lines;
mod texts;

pub use compose::{head_text, mark_text};
