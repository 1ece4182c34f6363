//! The journal: every begin, act, effect and end, in the order in which they happened.
#![tactic(auto)]

mod compact;
mod journal;
mod marks;
mod page_list;
mod power;

pub use journal::Journal;
pub use marks::Mark;
pub use power::Power;
