//! A source and a sink that fail at each of their calls, over eighty keys rising.
use super::bench::{same, same_at, status};
use bz_io::{FailSink, FailSource, MemSink, MemSource};
use std::alloc::Global;
use std::process::Abort;
use std::sync::Wait;
use std::test::Fail;
use std::thread::Threads;

// How many bytes a source gives or a sink takes in a call.
const PIECE: usize = 64;

// Eighty inserts in the order of their keys, the last of which splits the root leaf, and what they print.
fn rising(alloc: Global) -> Result<(String, String), Fail> {
    let mut input = format!(in alloc; "memory 16 256\n")?;
    let mut output = String::new(alloc);
    for before in 0..80u32 {
        let number = before + 1;
        input.push_str(&format!(in alloc; "w 1 insert k{number:02} v\n")?)?;
        output.push_str(&format!(in alloc; "w1.{number} insert k{number:02} v = inserted\n")?)?;
    }
    input.push_str("run alone\n")?;
    Ok((input, output))
}

// The source fails at this call.
fn expect_read_fault<R: Threads + Wait + Abort + Sync>(
    rt: &R,
    alloc: Global,
    input: &[u8],
    call: u64,
) -> Result<(), Fail> {
    let mut source = FailSource::of(alloc, input, PIECE, &[call])?;
    let mut sink = MemSink::open(alloc, 100)?;
    let got = status(rt, alloc, &["run"], &mut source, &mut sink);
    same_at(rt, got, 1, call);
    same_at(rt, sink.bytes(), b"fault: read\n".as_slice(), call);
    Ok(())
}

// What a sink has taken of an output that fails at this call.
fn taken_before(output: &[u8], call: u64) -> &[u8] {
    let taken = match call {
        1..39 => (64 * (call - 1)) as usize,
        _ => output.len(),
    };
    &output[..taken.min(output.len())]
}

// The sink fails at this call, and has what it took before.
fn expect_write_fault<R: Threads + Wait + Abort + Sync>(
    rt: &R,
    alloc: Global,
    input: &[u8],
    output: &[u8],
    call: u64,
) -> Result<(), Fail> {
    let mut source = MemSource::of(alloc, input)?;
    let mut sink = FailSink::open(alloc, 4_096, PIECE, &[call])?;
    let got = status(rt, alloc, &["run"], &mut source, &mut sink);
    same_at(rt, got, 4, call);
    same_at(rt, sink.bytes(), taken_before(output, call), call);
    Ok(())
}

#[test]
fn a_source_and_a_sink_fail_at_each_call(rt: HostRuntime) -> Result<(), Fail> {
    let (input, output) = rising(rt.alloc())?;
    same(&rt, (input.len(), output.len()), (1_384, 2_391));
    // twenty-two reads give all of the input, and the next one its end
    for call in 1..24u64 {
        expect_read_fault(&rt, rt.alloc(), input.as_bytes(), call)?;
    }
    // thirty-eight writes take all of the output
    for call in 1..39u64 {
        let (input, output) = (input.as_bytes(), output.as_bytes());
        expect_write_fault(&rt, rt.alloc(), input, output, call)?;
    }
    Ok(())
}
