//! A queue's script: read, run, and told.
#![tactic(auto)]

mod fault;
mod run;
#[cfg(test)]
mod tests;

pub use fault::QueueFault;
pub use run::run_queue;
