//! A simulated persistent memory: words in the caches, and words that outlive a power cut.
#![tactic(auto)]

mod asks;
pub mod laws;
mod line;
mod pm;
mod settle;
#[cfg(test)]
mod tests;

pub use pm::Pm;
