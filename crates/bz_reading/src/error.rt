//! What can go wrong.

/// Why a line was not read.
#[derive(Clone, Copy)]
pub enum LineFault {
    /// It is no line that may stand there.
    Broken,

    /// Want of memory.
    Memory,
}
