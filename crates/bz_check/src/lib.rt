//! A judge of journals: which rule a journal breaks, and at which moment first.
#![tactic(auto)]

mod asks;
mod counter;
mod judge;
pub mod laws;
mod pairs;
mod pass;
mod replay;
mod replies;
mod settle;
mod sights;
mod table;
mod verdict;

pub use pass::Pass;
pub use verdict::{JudgeRule, Verdict, first};
