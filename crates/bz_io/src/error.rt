//! What can go wrong at a source or a sink.
use std::error::Error;
use std::fmt;

/// One read or one write failed, and moved no byte.
#[derive(Clone, Copy, Debug, PartialEq, Eq)]
pub struct Failed;

impl fmt::Display for Failed {
    ghost use Rattle.std.specs.Prelude.{Some, codes};

    ghost output = { λ _. Some (codes "read or write failed") };

    fn fmt<W: fmt::Write>(&self, f: &mut fmt::Formatter<W>) -> fmt::Result {
        write!(f, "read or write failed")
    }
}

impl Error for Failed {}

/// Why not all bytes of a source are there.
#[derive(Clone, Copy, Debug, PartialEq, Eq)]
pub enum ReadFault {
    /// A read failed.
    Failed,
    /// The source gave one byte more than was allowed.
    TooLong,
    /// An allocation was refused.
    Memory,
}

impl fmt::Display for ReadFault {
    ghost use Rattle.std.specs.Prelude.{Some};
    ghost use Rattle.bz_io.specs.Texts.{read_fault_text};

    ghost output = { λ fault. Some (read_fault_text fault) };

    fn fmt<W: fmt::Write>(&self, f: &mut fmt::Formatter<W>) -> fmt::Result {
        match self {
            ReadFault::Failed => write!(f, "read failed"),
            ReadFault::TooLong => write!(f, "input too long"),
            ReadFault::Memory => write!(f, "want of memory"),
        }
    }
}

impl Error for ReadFault {}
