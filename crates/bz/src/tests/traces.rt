//! `trace`: the journal as JSON Lines.
use super::bench::{expect_run, holds, same, status};
use bz_io::{MemSink, MemSource};
use std::alloc::Global;
use std::process::Abort;
use std::sync::Wait;
use std::test::Fail;
use std::thread::Threads;

// The trace of a script begins with these lines and ends with that one.
fn expect_trace<R: Threads + Wait + Abort + Sync>(
    rt: &R,
    alloc: Global,
    script: &[u8],
    first: &str,
    last: &str,
) -> Result<(), Fail> {
    let mut source = MemSource::of(alloc, script)?;
    let mut sink = MemSink::open(alloc, 65536)?;
    let got = status(rt, alloc, &["trace"], &mut source, &mut sink);
    same(rt, got, 0);
    holds(rt, sink.bytes().starts_with(first.as_bytes()));
    holds(rt, sink.bytes().ends_with(last.as_bytes()));
    Ok(())
}

#[test]
fn a_trace_tells_the_memory_and_then_each_mark(rt: HostRuntime) -> Result<(), Fail> {
    let empty = b"{\"format\":2,\"nodes\":1,\"start\":[[0,2],[1,1],[3,1],[4,1]],\"swaps\":1}\n";
    expect_run(&rt, rt.alloc(), &["trace"], b"memory 1 1\n", empty, 0)?;
    expect_trace(
        &rt,
        rt.alloc(),
        b"memory 16 64\nw 1 insert a 1\nw 1 get a\nrun alone\n",
        "{\"format\":2,\"nodes\":16,\"start\":[[0,2],[1,1],[3,16],[4,64]],\"swaps\":64}\n{\"call\":[\"insert\",\"a\",\"1\"],\"mark\":\"begin\",\"n\":1,\"w\":1}\n{\"a\":2,\"mark\":\"load\",\"v\":0,\"w\":1}\n",
        "\"mark\":\"end\",\"n\":2,\"reply\":[\"value\",\"1\"],\"w\":1}\n",
    )?;
    expect_trace(
        &rt,
        rt.alloc(),
        b"memory 1 1\npower\n",
        "{\"format\":2,\"nodes\":1,\"start\":[[0,2],[1,1],[3,1],[4,1]],\"swaps\":1}\n{\"mark\":\"cut\"}\n{\"mark\":\"on\"}\n",
        "{\"mark\":\"ready\"}\n",
    )
}

#[test]
fn a_trace_that_meets_a_limit_is_its_fault_line_alone(rt: HostRuntime) -> Result<(), Fail> {
    let mut script = String::new(rt.alloc());
    script.push_str("memory 1 8\n")?;
    for _ in 0..200u32 {
        script.push_str("w 1 get a\n")?;
    }
    script.push_str("run alone\n")?;
    let words = ["trace", "--marks", "1024"];
    expect_run(
        &rt,
        rt.alloc(),
        &words,
        script.as_bytes(),
        b"fault: limit marks\n",
        5,
    )
}
