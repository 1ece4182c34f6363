//! What the lines of a queue's script ask for.
use bz_ring::QCall;
use bz_script::{CutPlan, TurnList};

/// How the calls that wait are run.
#[derive(Drop)]
pub enum QPlan {
    /// One worker after another, from 1 up, each one's calls to their end.
    Alone,

    /// By a list of turns.
    List(TurnList),
}

/// What a line after the first asks for.
#[derive(Drop)]
pub enum QItem {
    /// Queues a call for a worker, 1 to 64.
    Queue(u8, QCall),

    /// Arms a cut of the power in the next run or power on.
    Arm(CutPlan),

    /// Runs the calls that wait.
    Run(QPlan),

    /// Turns the power on, after a cut if it is on.
    Power,
}

/// What the lines of a script ask for.
#[derive(Drop)]
pub struct QScript {
    /// How many cells the memory has, 1 to 4096.
    pub capacity: u32,

    /// How many descriptors of swaps the memory has, 1 to 65536.
    pub swaps: u32,

    /// One item for each line after the first.
    pub items: Vec<QItem>,
}
