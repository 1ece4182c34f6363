//! What the lines of a script ask for.
use crate::turn_list::TurnList;
use bz_call::Call;

/// How the calls that wait are run.
#[derive(Drop)]
pub enum Plan {
    /// One worker after another, from 1 up, each one's calls to their end.
    Alone,

    /// By a list of turns.
    List(TurnList),

    /// By the draws of the generator from a seed.
    Turns(u64),

    /// Each worker's by a thread of its own, whatever the order in which their acts come.
    Threads,
}

/// What a line after the first asks for.
#[derive(Drop)]
pub enum Item {
    /// Queues a call for a worker, 1 to 64.
    Queue(u8, Call),

    /// Arms a cut of the power before a fence of the next run or power on, counted from 1. Where the seed is not 0, words that
    /// are not durable yet are evicted before it by the draws from the seed.
    Arm { flush: u32, seed: u64 },

    /// Runs the calls that wait.
    Run(Plan),

    /// Turns the power on, after a cut if it is on.
    Power,
}
