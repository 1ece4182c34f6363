//! Scripts that cut the power, and turn it on again.
use super::bench::{holds, same, status};
use bz_io::{MemSink, MemSource};
use std::alloc::Global;
use std::process::Abort;
use std::sync::Wait;
use std::test::Fail;
use std::thread::Threads;

// The report of a script, which has to be run to its end.
fn report<R: Threads + Wait + Abort + Sync>(
    rt: &R,
    alloc: Global,
    script: &str,
    sink: &mut MemSink,
) -> Result<(), Fail> {
    let mut source = MemSource::of(alloc, script.as_bytes())?;
    let got = status(rt, alloc, &["run"], &mut source, sink);
    same(rt, got, 0);
    Ok(())
}

// It prints one of these outputs.
fn expect_one_of<R: Threads + Wait + Abort + Sync>(
    rt: &R,
    alloc: Global,
    script: &str,
    outputs: &[&str],
) -> Result<(), Fail> {
    let mut sink = MemSink::open(alloc, 65536)?;
    report(rt, alloc, script, &mut sink)?;
    let mut found = false;
    for output in outputs {
        if sink.bytes() == output.as_bytes() {
            found = true;
        }
    }
    holds(rt, found);
    Ok(())
}

const LOST: &str = "w1.1 insert a 1 = lost\npower cut\npower on 0 pairs\nw1.2 get a = missing\n";

const KEPT: &str = "w1.1 insert a 1 = kept\npower cut\npower on 1 pairs\nw1.2 get a = value 1\n";

const INSERTED: &str =
    "w1.1 insert a 1 = inserted\npower cut\npower on 1 pairs\nw1.2 get a = value 1\n";

#[test]
fn an_insert_is_cut_before_each_of_its_fences(rt: HostRuntime) -> Result<(), Fail> {
    let alloc = rt.alloc();
    let first = "memory 16 64\nw 1 insert a 1\ncut 1 0\nrun alone\npower\nw 1 get a\nrun alone\n";
    expect_one_of(&rt, alloc, first, &[LOST])?;
    for fence in 2..61u32 {
        let script = format!(in alloc;
            "memory 16 64\nw 1 insert a 1\ncut {fence} 0\nrun alone\npower\nw 1 get a\nrun alone\n"
        )?;
        expect_one_of(&rt, alloc, &script, &[LOST, KEPT, INSERTED])?;
    }
    Ok(())
}

// The same reports with the recovery cut, too.
const LOST_TWICE: &str =
    "w1.1 insert a 1 = lost\npower cut\npower on 0 pairs\npower cut\npower on 0 pairs\nw1.2 get a = missing\n";

const KEPT_TWICE: &str =
    "w1.1 insert a 1 = kept\npower cut\npower on 1 pairs\npower cut\npower on 1 pairs\nw1.2 get a = value 1\n";

const INSERTED_TWICE: &str =
    "w1.1 insert a 1 = inserted\npower cut\npower on 1 pairs\npower cut\npower on 1 pairs\nw1.2 get a = value 1\n";

#[test]
fn its_recovery_is_cut_before_each_of_its_fences(rt: HostRuntime) -> Result<(), Fail> {
    let alloc = rt.alloc();
    for fence in 1..20u32 {
        for again in 1..21u32 {
            let script = format!(in alloc;
                "memory 16 64\nw 1 insert a 1\ncut {fence} 0\nrun alone\ncut {again} 0\npower\npower\nw 1 get a\nrun alone\n"
            )?;
            expect_one_of(
                &rt,
                alloc,
                &script,
                &[LOST_TWICE, KEPT_TWICE, INSERTED_TWICE],
            )?;
        }
    }
    Ok(())
}

#[test]
fn what_a_read_has_told_is_not_lost(rt: HostRuntime) -> Result<(), Fail> {
    let alloc = rt.alloc();
    for acts in 1..201u32 {
        let script = format!(in alloc;
            "memory 16 64\nw 1 insert a 1\nw 2 get a\nrun list 1*{acts} 2*4000\npower\n"
        )?;
        expect_one_of(
            &rt,
            alloc,
            &script,
            &[
                "w2.1 get a = missing\nw1.1 insert a 1 = lost\npower cut\npower on 0 pairs\n",
                "w2.1 get a = missing\nw1.1 insert a 1 = kept\npower cut\npower on 1 pairs\n",
                "w2.1 get a = value 1\nw1.1 insert a 1 = kept\npower cut\npower on 1 pairs\n",
                "w1.1 insert a 1 = inserted\nw2.1 get a = value 1\npower cut\npower on 1 pairs\n",
            ],
        )?;
    }
    Ok(())
}

#[test]
fn an_armed_cut_alone_drops_the_calls_that_wait(rt: HostRuntime) -> Result<(), Fail> {
    let alloc = rt.alloc();
    for (script, output) in [
        // the second call of worker 1 has not begun, and keeps its number free
        (
            "memory 16 64\nw 1 insert a 1\nw 1 insert b 2\ncut 1 0\nrun alone\npower\nw 1 get b\nrun alone\n",
            "w1.1 insert a 1 = lost\npower cut\npower on 0 pairs\nw1.2 get b = missing\n",
        ),
        (
            "memory 16 64\nw 1 insert a 1\npower\nrun alone\n",
            "power cut\npower on 0 pairs\nw1.1 insert a 1 = inserted\n",
        ),
        // fences are counted from 1 in each run
        (
            "memory 16 64\nw 1 insert a 1\nrun alone\nw 1 insert b 2\ncut 1 0\nrun alone\npower\n",
            "w1.1 insert a 1 = inserted\nw1.2 insert b 2 = lost\npower cut\npower on 1 pairs\n",
        ),
        // a cut that no fence meets, and one that no line uses
        (
            "memory 16 64\nw 1 get a\ncut 1 0\nrun alone\npower\nrun alone\ncut 1 0\n",
            "w1.1 get a = missing\npower cut\npower on 0 pairs\n",
        ),
    ] {
        expect_one_of(&rt, alloc, script, &[output])?;
    }
    Ok(())
}

#[test]
fn eight_workers_are_cut_with_evictions(rt: HostRuntime) -> Result<(), Fail> {
    let alloc = rt.alloc();
    for seed in 1..51u32 {
        let script = format!(in alloc;
            "memory 64 1024\nw 1 insert a 1\nw 2 insert b 1\nw 3 insert c 1\nw 4 upsert a 2\nw 5 delete b\nw 6 insert d 1\nw 7 page a\nw 8 update a 3\ncut {seed} {seed}\nrun turns {seed}\npower\nw 1 page a\nrun alone\n"
        )?;
        let mut sink = MemSink::open(alloc, 65536)?;
        report(&rt, alloc, &script, &mut sink)?;
    }
    Ok(())
}
