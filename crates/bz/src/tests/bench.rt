//! Runs of the program in tests.
use bz_io::{MemSink, MemSource, Sink, Source};
use bz_top::{Gate, NoGate, top};
use std::alloc::Global;
use std::fmt::{Debug, Display};
use std::process::Abort;
use std::sync::Wait;
use std::test::Fail;
use std::thread::Threads;

/// It is so.
pub(crate) fn holds(rt: &impl Abort, told: bool) {
    assert!(rt; told);
}

/// Two values are the same.
pub(crate) fn same<T: PartialEq + Debug + Drop>(rt: &impl Abort, got: T, want: T) {
    assert_eq!(rt; got, want);
}

/// The same, and where.
pub(crate) fn same_at<T: PartialEq + Debug + Drop>(
    rt: &impl Abort,
    got: T,
    want: T,
    at: impl Display + Drop,
) {
    assert_eq!(rt; got, want, "at {at}");
}

/// The status of a run of `bz` on these words, with this between the acts of its threads.
pub(crate) fn gated<R: Threads + Wait + Sync, S: Source, K: Sink, G: Gate + Sync>(
    rt: &R,
    alloc: Global,
    words: &[&str],
    source: &mut S,
    sink: &mut K,
    gate: &G,
) -> u8 {
    let outcome = top(rt, alloc, words, source, sink, gate);
    outcome.status
}

/// The status of a run of `bz` on these words.
pub(crate) fn status<R: Threads + Wait + Sync, S: Source, K: Sink>(
    rt: &R,
    alloc: Global,
    words: &[&str],
    source: &mut S,
    sink: &mut K,
) -> u8 {
    gated(rt, alloc, words, source, sink, &NoGate)
}

/// A run on these words and an input prints an output and ends with a status.
pub(crate) fn expect_run<R: Threads + Wait + Abort + Sync>(
    rt: &R,
    alloc: Global,
    words: &[&str],
    input: &[u8],
    output: &[u8],
    want: u8,
) -> Result<(), Fail> {
    let mut source = MemSource::of(alloc, input)?;
    let mut sink = MemSink::open(alloc, 65536)?;
    let got = status(rt, alloc, words, &mut source, &mut sink);
    same(rt, got, want);
    same(rt, sink.bytes(), output);
    Ok(())
}
