//! The report of a queue's journal.
#![tactic(auto)]

mod count;
mod ended;
mod lines;
mod open;
mod order;
mod report;

pub use ended::QEnded;
pub use report::write_queue_report;
