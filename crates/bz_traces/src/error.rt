//! What can go wrong.

/// Why the lines are not all written.
#[derive(Clone, Copy, Debug, PartialEq, Eq)]
pub enum JsonError {
    /// The sink has failed; it has taken a part of the lines.
    Write,

    /// There was no memory for a line; the sink has taken the lines before it.
    Memory,
}

/// Why bytes are not read as a journal.
#[derive(Clone, Copy, Debug, PartialEq, Eq)]
pub enum ReadError {
    /// The first line, counted from 1, with which the bytes are no lines of a journal any more.
    Line(u32),

    /// Want of memory.
    Memory,
}
