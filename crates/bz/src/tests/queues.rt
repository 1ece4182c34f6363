//! Scripts of queues.
use super::bench::{expect_run, holds, same, same_at, status};
use bz_io::{FailSink, FailSource, MemSink, MemSource};
use std::alloc::Global;
use std::process::Abort;
use std::sync::Wait;
use std::test::Fail;
use std::thread::Threads;

// How many bytes a source gives or a sink takes in a call.
const PIECE: usize = 16;

const SMALL: &[u8] =
    b"memory 2 64\nw 1 put 5\nw 1 put 6\nw 1 put 7\nw 1 take\nw 1 take\nw 1 take\nrun alone\n";

const SMALL_REPORT: &[u8] =
    b"w1.1 put 5 = put\nw1.2 put 6 = put\nw1.3 put 7 = full\nw1.4 take = taken 5\nw1.5 take = taken 6\nw1.6 take = empty\n";

#[test]
fn a_queue_of_two_cells(rt: HostRuntime) -> Result<(), Fail> {
    let alloc = rt.alloc();
    expect_run(&rt, alloc, &["queue"], SMALL, SMALL_REPORT, 0)?;
    expect_run(
        &rt,
        alloc,
        &["queue", "--marks", "33554432"],
        SMALL,
        SMALL_REPORT,
        0,
    )?;
    expect_run(
        &rt,
        alloc,
        &["queue"],
        b"memory 2 1\nw 1 put 5\nw 1 put 6\nw 1 take\nrun alone\n",
        b"w1.1 put 5 = put\nw1.2 put 6 = spent\nw1.3 take = spent\n",
        0,
    )?;
    expect_run(&rt, alloc, &["queue"], b"memory 1 1\n", b"", 0)
}

#[test]
fn lines_and_words_that_are_refused(rt: HostRuntime) -> Result<(), Fail> {
    let alloc = rt.alloc();
    let queue = ["queue"];
    expect_run(
        &rt,
        alloc,
        &queue,
        b"memory 4097 1\n",
        b"fault: line 1: bad number\n",
        3,
    )?;
    expect_run(
        &rt,
        alloc,
        &queue,
        b"memory 1 1\nrun turns 1\n",
        b"fault: line 2: unknown word\n",
        3,
    )?;
    expect_run(
        &rt,
        alloc,
        &queue,
        b"memory 1 1\nw 1 put 1152921504606846976\n",
        b"fault: line 2: bad number\n",
        3,
    )?;
    expect_run(
        &rt,
        alloc,
        &["queue", "--marks", "1023"],
        SMALL,
        b"fault: usage\n",
        2,
    )?;
    expect_run(&rt, alloc, &["queue", "now"], SMALL, b"fault: usage\n", 2)
}

// The source fails at this call.
fn expect_read_fault<R: Threads + Wait + Abort + Sync>(
    rt: &R,
    alloc: Global,
    call: u64,
) -> Result<(), Fail> {
    let mut source = FailSource::of(alloc, SMALL, PIECE, &[call])?;
    let mut sink = MemSink::open(alloc, 100)?;
    let got = status(rt, alloc, &["queue"], &mut source, &mut sink);
    same_at(rt, got, 1, call);
    same_at(rt, sink.bytes(), b"fault: read\n".as_slice(), call);
    Ok(())
}

// What a sink has taken of an output that fails at this call.
fn taken_before(output: &[u8], call: u64) -> &[u8] {
    let taken = match call {
        1..7 => (16 * (call - 1)) as usize,
        _ => output.len(),
    };
    &output[..taken.min(output.len())]
}

// The sink fails at this call, and has what it took before.
fn expect_write_fault<R: Threads + Wait + Abort + Sync>(
    rt: &R,
    alloc: Global,
    call: u64,
) -> Result<(), Fail> {
    let mut source = MemSource::of(alloc, SMALL)?;
    let mut sink = FailSink::open(alloc, 4_096, PIECE, &[call])?;
    let got = status(rt, alloc, &["queue"], &mut source, &mut sink);
    same_at(rt, got, 4, call);
    same_at(rt, sink.bytes(), taken_before(SMALL_REPORT, call), call);
    Ok(())
}

#[test]
fn a_source_and_a_sink_of_a_queue_fail_at_each_call(rt: HostRuntime) -> Result<(), Fail> {
    let alloc = rt.alloc();
    for call in 1..6u64 {
        expect_read_fault(&rt, alloc, call)?;
    }
    for call in 1..7u64 {
        expect_write_fault(&rt, alloc, call)?;
    }
    Ok(())
}

#[test]
fn a_limit_of_a_queue(rt: HostRuntime) -> Result<(), Fail> {
    let alloc = rt.alloc();
    let mut script = String::from_str(alloc, "memory 4 64\n")?;
    let mut report = String::new(alloc);
    for before in 0..40u32 {
        let number = before + 1;
        script.push_str(if before % 2 == 0 {
            "w 1 put 3\n"
        } else {
            "w 1 take\n"
        })?;
        let line = if before % 2 == 0 {
            format!(in alloc; "w1.{number} put 3 = put\n")?
        } else {
            format!(in alloc; "w1.{number} take = taken 3\n")?
        };
        report.push_str(&line)?;
    }
    script.push_str("run alone\n")?;
    let mut source = MemSource::of(alloc, script.as_bytes())?;
    let mut sink = MemSink::open(alloc, 4_096)?;
    let got = status(
        &rt,
        alloc,
        &["queue", "--marks", "1024"],
        &mut source,
        &mut sink,
    );
    same(&rt, got, 5);
    holds(&rt, sink.bytes().ends_with(b"\nfault: limit marks\n"));
    let length = sink.bytes().len();
    let told = length.saturating_sub(b"fault: limit marks\n".len());
    holds(
        &rt,
        report
            .as_bytes()
            .starts_with(&sink.bytes()[..told.min(length)]),
    );
    Ok(())
}
