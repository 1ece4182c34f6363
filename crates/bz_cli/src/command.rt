//! What a command line asks for.
use bz_layout::MAX_MARKS;

/// The limit on marks of `run`, `dump`, `load`, `trace` and `queue` where the words do not say one.
pub const RUN_MARKS: u32 = 4_194_304;

/// The limit on marks of `work` where the words do not say one: the greatest.
pub const WORK_MARKS: u32 = MAX_MARKS;

/// The commands.
#[derive(Clone, Copy, Debug, PartialEq, Eq)]
pub enum Command {
    /// Runs the script that the source gives, and reports.
    Run,
    /// Runs it, and writes the image of the durable words that it leaves.
    Dump,
    /// Goes on from the image that the source gives before its script.
    Load,
    /// Runs the script that the source gives, and writes its journal as JSON Lines.
    Trace,
    /// Runs the script of a queue that the source gives, and reports.
    Queue,
    /// Runs the workload of a seed, of so many calls of so many workers.
    Work { seed: u64, calls: u32, workers: u32 },
}

/// A command, and the limit on marks of the world or the queue that it opens.
#[derive(Clone, Copy, PartialEq, Eq)]
pub struct CommandLine {
    pub command: Command,
    pub marks: u32,
}
