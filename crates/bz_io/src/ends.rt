//! Where bytes come from and where they go.
ghost use Rattle.std.specs.Prelude.{◌<◌, ℕ, List, Option, length, IfOk};
ghost use Rattle.std.specs.Io.{ReadsAtMost, WritesAtMost};
ghost use Rattle.std.specs.Io.KnownBytes.{ReadConsumes, WriteAppends};
ghost use Rattle.bz_io.specs.Faults.{HasCause};

use crate::error::Failed;

/// Where bytes come from.
pub trait Source {
    // The bytes that reads will still give, where the source tells them.
    ghost left: { Self → Option (List ℕ) };

    // How often a call has failed; at 2^64 - 1 the count stands still.
    ghost faults: { Self → ℕ };

    /// Gives some bytes at the front of `into`; for a non-empty `into`, 0 is the end of input.
    /// What stands in `into` past the count, or after a failure, is left open.
    fn read(&mut self, into: &mut [u8]) -> Result<usize, Failed>
        ensures bound { ReadsAtMost result into.new }
        ensures bytes { ReadConsumes (left self.old) (left self.new) result into.new }
        ensures cause { HasCause (faults self.old) (faults self.new) result };
}

/// Where bytes go.
pub trait Sink {
    // The bytes that the sink has taken, where it tells them.
    ghost held: { Self → Option (List ℕ) };

    // How often a call has failed; at 2^64 - 1 the count stands still.
    ghost faults: { Self → ℕ };

    /// Takes some bytes from the front of `from`, at least one if there is one.
    fn write(&mut self, from: &[u8]) -> Result<usize, Failed>
        ensures bound { WritesAtMost result from.now }
        ensures some { IfOk result (λ count. 0 < length from.now → 0 < count) }
        ensures bytes { WriteAppends (held self.old) (held self.new) result from.now }
        ensures cause { HasCause (faults self.old) (faults self.new) result };
}
