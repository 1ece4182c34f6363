//! The trusted edge: std's readers and writers as sources and sinks.
ghost use Rattle.std.specs.Prelude.{◌≡◌, ◌<◌, None, length, IfOk, OnOk, OnErr};
ghost use Rattle.std.specs.Io.{ReadsAtMost, WritesAtMost};
ghost use Rattle.std.specs.Io.KnownBytes.{ReadConsumes, WriteAppends};
ghost use Rattle.bz_io.specs.Faults.{HasCause, next_count};

use crate::ends::{Sink, Source};
use crate::error::Failed;
use std::io::{Read, Write};
use std::marker::Model;

/// A source over any reader. As a `Source` it tells nothing of bytes.
#[derive(Drop)]
pub struct RealSource<R: Read> {
    inner: R,
    faults: u64,
}

impl<R: Read> Model for RealSource<R> {
    ghost use Rattle.bz_io.specs.Real.{Real};

    ghost Value = { Real };

    ghost view = { λ s. record { faults = s.faults; inner = R.remaining s.inner } };
}

impl<R: Read> RealSource<R> {
    pub fn of(inner: R) -> RealSource<R>
        ensures { result ≡ record { faults = 0; inner = R.remaining inner } }
    {
        RealSource { inner, faults: 0 }
    }
}

impl<R: Read> Source for RealSource<R> {
    ghost left = { λ _. None };

    ghost faults = { λ s. s.faults };

    /// One read of the reader; any error of it is a fault.
    fn read(&mut self, into: &mut [u8]) -> Result<usize, Failed>
        ensures bound { ReadsAtMost result into.new }
        ensures bytes { ReadConsumes None None result into.new }
        ensures cause { HasCause self.old.faults self.new.faults result }
        // where the reader tells what it has left, that is what came
        ensures passed { ReadConsumes self.old.inner self.new.inner result into.new }
        ensures ok { OnOk result (self.new.faults ≡ self.old.faults) }
        ensures failed { OnErr result (self.new.faults ≡ next_count self.old.faults) }
    {
        match self.inner.read(into) {
            Ok(count) => Ok(count),
            Err(_) => {
                self.faults = self.faults.saturating_add(1);
                Err(Failed)
            }
        }
    }
}

/// A sink over any writer. As a `Sink` it tells nothing of bytes.
#[derive(Drop)]
pub struct RealSink<W: Write> {
    inner: W,
    faults: u64,
}

impl<W: Write> Model for RealSink<W> {
    ghost use Rattle.bz_io.specs.Real.{Real};

    ghost Value = { Real };

    ghost view = { λ s. record { faults = s.faults; inner = W.contents s.inner } };
}

impl<W: Write> RealSink<W> {
    pub fn of(inner: W) -> RealSink<W>
        ensures { result ≡ record { faults = 0; inner = W.contents inner } }
    {
        RealSink { inner, faults: 0 }
    }
}

impl<W: Write> Sink for RealSink<W> {
    ghost held = { λ _. None };

    ghost faults = { λ s. s.faults };

    /// One write to the writer. Any error of it is a fault, and so is a piece that it refuses:
    /// where it takes none of some bytes.
    fn write(&mut self, from: &[u8]) -> Result<usize, Failed>
        ensures bound { WritesAtMost result from.now }
        ensures some { IfOk result (λ count. 0 < length from.now → 0 < count) }
        ensures bytes { WriteAppends None None result from.now }
        ensures cause { HasCause self.old.faults self.new.faults result }
        // where the writer tells what it holds, that is what it took
        ensures passed { WriteAppends self.old.inner self.new.inner result from.now }
        ensures ok { OnOk result (self.new.faults ≡ self.old.faults) }
        ensures failed { OnErr result (self.new.faults ≡ next_count self.old.faults) }
    {
        match self.inner.write(from) {
            Ok(count) if count > 0 || from.is_empty() => Ok(count),
            _ => {
                self.faults = self.faults.saturating_add(1);
                Err(Failed)
            }
        }
    }
}
