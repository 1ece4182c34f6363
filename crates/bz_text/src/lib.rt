//! The report of a journal, and the summary of a workload.
#![tactic(auto)]

mod counts;
mod ended;
mod keys;
pub mod laws;
mod lines;
mod open;
mod order;
mod report;
mod summary;
mod summing;

pub use counts::Counts;
pub use ended::EndedCall;
pub use lines::{put, put_fate, put_name, put_number};
pub use report::{TextError, write_report};
pub use summary::write_summary;
