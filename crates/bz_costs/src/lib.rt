//! What a call may still cost a worker that steps alone: of a task, of a stretch in which nobody disturbs it, and in all.
#![tactic(auto)]

pub mod laws;
