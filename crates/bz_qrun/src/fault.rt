//! Why a queue's script was not done.
use bz_queue::QLimit;
use bz_script::ScriptRule;

/// Why a script was not read, run or told to its end.
#[derive(Clone, Copy, Debug, PartialEq, Eq)]
pub enum QueueFault {
    /// The first line that breaks a rule, counted from 1, and the first rule that it breaks.
    Line { line: u32, rule: ScriptRule },

    /// A limit of the journal was met, and one more was needed. The report tells what was before.
    Limit(QLimit),

    /// The sink has failed; it has taken a part of the report.
    Write,

    /// Want of memory; the sink has taken nothing.
    Memory,
}
