//! Scripts of queues and their reports.
ghost use Rattle.std.specs.Prelude.{◌<◌};

use crate::{QueueFault, run_queue};
use bz_io::{FailSink, MemSink, Sink};
use bz_queue::{QLimit, QueueWorld};
use bz_script::{SCRIPT_BYTES, ScriptRule};
use std::alloc::Global;
use std::process::Abort;

const MARKS: u32 = 4_194_304;

// Runs a script, which is no longer than one may be.
fn run<R: Abort, K: Sink>(
    rt: &R,
    alloc: Global,
    script: &[u8],
    sink: &mut K,
) -> (Option<QueueWorld>, Result<(), QueueFault>) {
    assert!(rt; script.len() <= SCRIPT_BYTES);
    run_queue(alloc, script, MARKS, sink)
}

// Has this report, and is done.
fn tells(rt: &impl Abort, alloc: Global, script: &[u8], report: &[u8]) {
    let mut sink = MemSink::open(alloc, 4096).expect(rt, "a sink");
    let (queue, answer) = run(rt, alloc, script, &mut sink);
    assert!(rt; queue.is_some());
    assert!(rt; answer == Ok(()));
    assert!(rt; sink.bytes() == report);
}

// Breaks this rule in this line, and has no report.
fn breaks(rt: &impl Abort, alloc: Global, script: &[u8], line: u32, rule: ScriptRule) {
    let mut sink = MemSink::open(alloc, 4096).expect(rt, "a sink");
    let (queue, answer) = run(rt, alloc, script, &mut sink);
    assert!(rt; queue.is_none());
    assert!(rt; answer == Err(QueueFault::Line { line, rule }));
    assert!(rt; sink.bytes().is_empty());
}

#[test]
fn a_ring_of_two(rt: HostRuntime) {
    tells(
        &rt,
        rt.alloc(),
        b"memory 2 64\nw 1 put 5\nw 1 put 6\nw 1 put 7\nw 1 take\nw 1 take\nw 1 take\nrun alone\n",
        b"w1.1 put 5 = put\nw1.2 put 6 = put\nw1.3 put 7 = full\nw1.4 take = taken 5\nw1.5 take = taken 6\nw1.6 take = empty\n",
    );
}

#[test]
fn one_descriptor(rt: HostRuntime) {
    tells(
        &rt,
        rt.alloc(),
        b"memory 2 1\nw 1 put 5\nw 1 put 6\nw 1 take\nrun alone\n",
        b"w1.1 put 5 = put\nw1.2 put 6 = spent\nw1.3 take = spent\n",
    );
}

#[test]
fn turns_by_a_list(rt: HostRuntime) {
    tells(
        &rt,
        rt.alloc(),
        b"memory 2 64\nw 1 put 5\nw 2 take\nrun list 1*3 2*20 1*60\n",
        b"w2.1 take = empty\nw1.1 put 5 = put\n",
    );
}

#[test]
fn lines_that_break_rules(rt: HostRuntime) {
    let alloc = rt.alloc();
    breaks(&rt, alloc, b"", 1, ScriptRule::NoMemoryLine);
    breaks(&rt, alloc, b"memory 2 64", 1, ScriptRule::NoEnd);
    breaks(&rt, alloc, b"memory 0 64\n", 1, ScriptRule::Number);
    breaks(&rt, alloc, b"memory 4097 64\n", 1, ScriptRule::Number);
    breaks(&rt, alloc, b"memory 2 65537\n", 1, ScriptRule::Number);
    breaks(&rt, alloc, b"memory 2\n", 1, ScriptRule::Words);
    breaks(
        &rt,
        alloc,
        b"memory 2 64\nw 1 put 1152921504606846976\n",
        2,
        ScriptRule::Number,
    );
    breaks(
        &rt,
        alloc,
        b"memory 2 64\nw 65 put 1\n",
        2,
        ScriptRule::Worker,
    );
    breaks(&rt, alloc, b"memory 2 64\nw 1 put\n", 2, ScriptRule::Words);
    breaks(
        &rt,
        alloc,
        b"memory 2 64\nw 1 take 1\n",
        2,
        ScriptRule::Words,
    );
    breaks(
        &rt,
        alloc,
        b"memory 2 64\nw 1 insert a 1\n",
        2,
        ScriptRule::Unknown,
    );
    breaks(
        &rt,
        alloc,
        b"memory 2 64\nrun turns 1\n",
        2,
        ScriptRule::Unknown,
    );
    breaks(
        &rt,
        alloc,
        b"memory 2 64\nrun threads\n",
        2,
        ScriptRule::Unknown,
    );
    breaks(
        &rt,
        alloc,
        b"memory 2 64\nrun list 1*0\n",
        2,
        ScriptRule::Number,
    );
    breaks(&rt, alloc, b"memory 2 64\ncut 0 0\n", 2, ScriptRule::Number);
    breaks(
        &rt,
        alloc,
        b"memory 2 64\ncut 1 0\ncut 1 0\n",
        3,
        ScriptRule::Order,
    );
    breaks(
        &rt,
        alloc,
        b"memory 2 64\ncut 1 0\nrun alone\nrun alone\n",
        4,
        ScriptRule::Order,
    );
    breaks(
        &rt,
        alloc,
        b"memory 2 64\nmemory 2 64\n",
        2,
        ScriptRule::Order,
    );
}

#[test]
fn the_greatest_item(rt: HostRuntime) {
    tells(
        &rt,
        rt.alloc(),
        b"memory 1 64\nw 64 put 1152921504606846975\nw 64 take\nrun alone\n",
        b"w64.1 put 1152921504606846975 = put\nw64.2 take = taken 1152921504606846975\n",
    );
}

const LOST: &[u8] = b"w1.1 put 5 = lost\npower cut\npower on 0 items\nw1.2 take = empty\n";

const KEPT: &[u8] = b"w1.1 put 5 = kept\npower cut\npower on 1 items\nw1.2 take = taken 5\n";

const PUT: &[u8] = b"w1.1 put 5 = put\npower cut\npower on 1 items\nw1.2 take = taken 5\n";

fn is(found: &[u8], text: &[u8]) -> bool {
    found == text
}

// How a put ends that is cut before its fence with this number, and what is there after it.
fn cut_put(rt: &impl Abort, alloc: Global, fence: u32, seed: u32) -> u32
    ensures { result < 4 }
{
    let script = format!(in alloc;
        "memory 2 64\nw 1 put 5\ncut {fence} {seed}\nrun alone\npower\nw 1 take\nrun alone\n"
    ).expect(rt, "a script");
    let mut sink = MemSink::open(alloc, 4096).expect(rt, "a sink");
    let (queue, answer) = run(rt, alloc, script.as_bytes(), &mut sink);
    assert!(rt; queue.is_some());
    assert!(rt; answer == Ok(()));
    if is(sink.bytes(), LOST) {
        return 1;
    }
    if is(sink.bytes(), KEPT) {
        return 2;
    }
    assert!(rt; is(sink.bytes(), PUT));
    3
}

#[test]
fn a_put_is_cut_before_each_fence(rt: HostRuntime) {
    let alloc = rt.alloc();
    let mut last = 1;
    let mut seen = [false; 4];
    for fence in 1..41u32 {
        let outcome = cut_put(&rt, alloc, fence, 0);
        assert!(rt; outcome >= last);
        last = outcome;
        seen[outcome as usize] = true;
    }
    assert!(rt; seen[1]);
    assert!(rt; seen[2]);
    assert!(rt; seen[3]);
}

#[test]
fn cuts_with_evictions(rt: HostRuntime) {
    let alloc = rt.alloc();
    for fence in 1..7u32 {
        for seed in 1..21u32 {
            cut_put(&rt, alloc, fence, seed);
        }
    }
}

const LEFT: &[u8] =
    b"w1.1 put 5 = put\nw1.2 take = lost\npower cut\npower on 1 items\nw1.3 take = taken 5\n";

const GONE: &[u8] =
    b"w1.1 put 5 = put\nw1.2 take = kept\npower cut\npower on 0 items\nw1.3 take = empty\n";

const TAKEN: &[u8] =
    b"w1.1 put 5 = put\nw1.2 take = taken 5\npower cut\npower on 0 items\nw1.3 take = empty\n";

// How a take ends that is cut before its fence with this number, and what is there after it.
fn cut_take(rt: &impl Abort, alloc: Global, fence: u32, seed: u32) -> u32
    ensures { result < 4 }
{
    let script = format!(in alloc;
        "memory 2 64\nw 1 put 5\nrun alone\nw 1 take\ncut {fence} {seed}\nrun alone\npower\nw 1 take\nrun alone\n"
    ).expect(rt, "a script");
    let mut sink = MemSink::open(alloc, 4096).expect(rt, "a sink");
    let (queue, answer) = run(rt, alloc, script.as_bytes(), &mut sink);
    assert!(rt; queue.is_some());
    assert!(rt; answer == Ok(()));
    if is(sink.bytes(), LEFT) {
        return 1;
    }
    if is(sink.bytes(), GONE) {
        return 2;
    }
    assert!(rt; is(sink.bytes(), TAKEN));
    3
}

#[test]
fn a_take_is_cut_before_each_fence(rt: HostRuntime) {
    let alloc = rt.alloc();
    let mut last = 1;
    let mut seen = [false; 4];
    for fence in 1..41u32 {
        let outcome = cut_take(&rt, alloc, fence, 0);
        assert!(rt; outcome >= last);
        last = outcome;
        seen[outcome as usize] = true;
    }
    assert!(rt; seen[1]);
    assert!(rt; seen[2]);
    assert!(rt; seen[3]);
}

#[test]
fn takes_cut_with_evictions(rt: HostRuntime) {
    let alloc = rt.alloc();
    for fence in 1..7u32 {
        for seed in 1..21u32 {
            cut_take(&rt, alloc, fence, seed);
        }
    }
}

// A put that is cut before a fence, and then its recovery before a fence: the take finds the item where the put was kept.
fn cut_twice(rt: &impl Abort, alloc: Global, fence: u32, again: u32) {
    let script = format!(in alloc;
        "memory 2 8\nw 1 put 5\ncut {fence} 0\nrun alone\ncut {again} 0\npower\npower\nw 1 take\nrun alone\n"
    ).expect(rt, "a script");
    let mut sink = MemSink::open(alloc, 4096).expect(rt, "a sink");
    let (queue, answer) = run(rt, alloc, script.as_bytes(), &mut sink);
    assert!(rt; queue.is_some());
    assert!(rt; answer == Ok(()));
    let lost = sink.bytes().starts_with(b"w1.1 put 5 = lost\n");
    assert!(rt; sink.bytes().ends_with(b"w1.2 take = empty\n") == lost);
    assert!(rt; sink.bytes().ends_with(b"w1.2 take = taken 5\n") == !lost);
}

#[test]
fn a_recovery_is_cut_before_each_fence(rt: HostRuntime) {
    let alloc = rt.alloc();
    for fence in 1..7u32 {
        for again in 1..9u32 {
            cut_twice(&rt, alloc, fence, again);
        }
    }
}

#[test]
fn a_limit_of_marks(rt: HostRuntime) {
    let alloc = rt.alloc();
    let mut sink = MemSink::open(alloc, 4096).expect(&rt, "a sink");
    let script = b"memory 4096 64\nw 1 put 5\nrun alone\npower\nw 1 take\nrun alone\n";
    let (queue, answer) = run_queue(alloc, script, 1024, &mut sink);
    assert!(rt; queue.is_some());
    assert!(rt; answer == Err(QueueFault::Limit(QLimit::Marks)));
    let report: &[u8] = b"w1.1 put 5 = put\npower cut\npower on 1 items\n";
    assert!(rt; is(sink.bytes(), report));
}

#[test]
fn a_sink_that_fails(rt: HostRuntime) {
    let alloc = rt.alloc();
    let mut sink = FailSink::open(alloc, 4096, 4, &[2]).expect(&rt, "a sink");
    let (queue, answer) = run_queue(
        alloc,
        b"memory 2 64\nw 1 put 5\nrun alone\n",
        MARKS,
        &mut sink,
    );
    assert!(rt; queue.is_some());
    assert!(rt; answer == Err(QueueFault::Write));
    assert!(rt; b"w1.1 put 5 = put\n".starts_with(sink.bytes()));
}
