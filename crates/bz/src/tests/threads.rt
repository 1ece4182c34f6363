//! Scripts that run on threads.
use super::bench::{gated, holds, same, same_at, status};
use bz_io::{MemSink, MemSource};
use bz_top::{Gate, NoGate};
use std::alloc::Global;
use std::process::Abort;
use std::sync::Wait;
use std::sync::atomic::{AtomicU32, Ordering};
use std::test::Fail;
use std::thread::{Threads, yield_now};

// How often a thread looks at a flag before it gives up, so that a test ends that cannot pass.
const LOOKS: u32 = 1_000_000_000;

// What a script prints, which has to end with this status.
fn report<R: Threads + Wait + Abort + Sync, G: Gate + Sync>(
    rt: &R,
    alloc: Global,
    script: &str,
    want: u8,
    gate: &G,
) -> Result<String, Fail> {
    let mut source = MemSource::of(alloc, script.as_bytes())?;
    let mut sink = MemSink::open(alloc, 400_000)?;
    let words = ["run", "--marks=4000000"];
    let got = gated(rt, alloc, words.as_slice(), &mut source, &mut sink, gate);
    same(rt, got, want);
    Ok(std::str::from_utf8(sink.bytes())?.to_string(alloc)?)
}

// How many lines end so.
fn count(text: &str, end: &str) -> usize {
    text.lines().filter(|line| line.ends_with(end)).count()
}

// Holds worker 2 after its first act until worker 1 has made an act, and worker 1 after its first act until the call of
// worker 2 has ended. So whole calls one after the other do not pass, whatever their order.
#[derive(Drop)]
struct Crossing {
    begun: AtomicU32,
    ended: AtomicU32,
    given_up: AtomicU32,
}

impl Crossing {
    fn wait_for(&self, flag: &AtomicU32) {
        for _ in 0..LOOKS {
            if flag.load(Ordering::SeqCst) > 0 {
                return;
            }
            yield_now();
        }
        self.given_up.store(1, Ordering::SeqCst);
    }
}

impl Gate for Crossing {
    fn between<R: Wait>(&self, _rt: &R, worker: u8, steps: u32) {
        match (worker, steps) {
            (1, 1) => {
                self.begun.store(1, Ordering::SeqCst);
                self.wait_for(&self.ended);
            }
            (2, 1) => self.wait_for(&self.begun),
            (2, 0) => self.ended.store(1, Ordering::SeqCst),
            _ => {}
        }
    }
}

#[test]
fn calls_of_threads_overlap(rt: HostRuntime) -> Result<(), Fail> {
    let gate = Crossing {
        begun: AtomicU32::new(0),
        ended: AtomicU32::new(0),
        given_up: AtomicU32::new(0),
    };
    let script =
        "memory 64 1024\nw 1 insert a 1\nw 2 insert b 2\nw 3 insert c 3\nw 4 insert d 4\nrun threads\n";
    let text = report(&rt, rt.alloc(), script, 0, &gate)?;
    same(&rt, gate.given_up.load(Ordering::SeqCst), 0);
    same(&rt, text.lines().count(), 4);
    for line in [
        "w1.1 insert a 1 = inserted",
        "w2.1 insert b 2 = inserted",
        "w3.1 insert c 3 = inserted",
        "w4.1 insert d 4 = inserted",
    ] {
        same_at(&rt, count(&text, line), 1, line);
    }
    Ok(())
}

// Of each of two workers how many acts of its present call the gate was told of, and of how many ends of its calls; and whether
// it was told out of turn: of another worker, of a number of acts that is not the next one, or of an act after the end.
#[derive(Drop)]
struct Turns {
    acts: [AtomicU32; 3],
    ends: [AtomicU32; 3],
    wrong: AtomicU32,
}

impl Turns {
    fn new() -> Turns {
        Turns {
            acts: Default::default(),
            ends: Default::default(),
            wrong: AtomicU32::new(0),
        }
    }

    fn is_next(&self, worker: u8, steps: u32) -> bool {
        let place = usize::from(worker);
        let (Some(acts), Some(ends)) = (self.acts.get(place), self.ends.get(place)) else {
            return false;
        };
        if steps == 0 {
            return ends.fetch_add(1, Ordering::SeqCst) == 0;
        }
        let before = acts.swap(steps, Ordering::SeqCst);
        ends.load(Ordering::SeqCst) == 0 && (steps == 1 || steps == before.saturating_add(1))
    }

    fn ended(&self, worker: usize) -> u32 {
        match self.ends.get(worker) {
            Some(ends) => ends.load(Ordering::SeqCst),
            None => 0,
        }
    }
}

impl Gate for Turns {
    fn between<R: Wait>(&self, _rt: &R, worker: u8, steps: u32) {
        if !self.is_next(worker, steps) {
            self.wrong.store(1, Ordering::SeqCst);
        }
    }
}

#[test]
fn the_gate_is_told_of_each_worker_with_calls(rt: HostRuntime) -> Result<(), Fail> {
    let gate = Turns::new();
    let script = "memory 16 64\nw 1 insert a 1\nw 1 get a\nw 2 get b\nrun threads\n";
    let text = report(&rt, rt.alloc(), script, 0, &gate)?;
    same(&rt, text.lines().count(), 3);
    same(&rt, gate.wrong.load(Ordering::SeqCst), 0);
    same(&rt, gate.ended(0), 0);
    same(&rt, gate.ended(1), 1);
    same(&rt, gate.ended(2), 1);
    Ok(())
}

#[test]
fn sixty_four_workers_make_a_hundred_calls_each(rt: HostRuntime) -> Result<(), Fail> {
    let mut script = String::new(rt.alloc());
    script.push_str("memory 16 64\nw 1 insert a 1\n")?;
    for worker in 1..65u32 {
        let line = format!(in rt.alloc(); "w {worker} get a\n")?;
        for _ in 0..100u32 {
            script.push_str(&line)?;
        }
    }
    script.push_str("run threads\n")?;
    let text = report(&rt, rt.alloc(), &script, 0, &NoGate)?;
    same(&rt, text.lines().count(), 6_401);
    same(&rt, count(&text, " = inserted"), 1);
    let found = count(&text, " = value 1");
    same(&rt, found.saturating_add(count(&text, " = missing")), 6_400);
    Ok(())
}

// It prints one of these reports.
fn expect_one_of<R: Threads + Wait + Abort + Sync>(
    rt: &R,
    alloc: Global,
    script: &str,
    want: u8,
    reports: &[&str],
) -> Result<(), Fail> {
    let text = report(rt, alloc, script, want, &NoGate)?;
    let mut found = false;
    for one in reports {
        if text.as_bytes() == one.as_bytes() {
            found = true;
        }
    }
    holds(rt, found);
    Ok(())
}

#[test]
fn threads_come_after_other_runs_and_before_them(rt: HostRuntime) -> Result<(), Fail> {
    for (script, want, reports) in [
        // the calls that a list left open are ended first, the lower worker's before the other's
        (
            "memory 16 64\nw 1 insert a 1\nw 2 insert b 2\nrun list 2*3 1*5\nw 1 get b\nw 2 get a\nrun threads\n",
            0,
            [
                "w1.1 insert a 1 = inserted\nw2.1 insert b 2 = inserted\nw1.2 get b = value 2\nw2.2 get a = value 1\n",
                "w1.1 insert a 1 = inserted\nw2.1 insert b 2 = inserted\nw2.2 get a = value 1\nw1.2 get b = value 2\n",
            ],
        ),
        // threads, then alone, then power, then threads
        (
            "memory 16 64\nw 1 insert a 1\nrun threads\nw 2 get a\nrun alone\npower\nw 1 get a\nw 2 insert b 2\nrun threads\n",
            0,
            [
                "w1.1 insert a 1 = inserted\nw2.1 get a = value 1\npower cut\npower on 1 pairs\nw1.2 get a = value 1\nw2.2 insert b 2 = inserted\n",
                "w1.1 insert a 1 = inserted\nw2.1 get a = value 1\npower cut\npower on 1 pairs\nw2.2 insert b 2 = inserted\nw1.2 get a = value 1\n",
            ],
        ),
        // a run that finds no call
        ("memory 16 64\nrun threads\n", 0, ["", ""]),
        (
            "memory 16 64\ncut 1 0\nrun threads\n",
            3,
            ["fault: line 3: wrong order\n", ""],
        ),
        (
            "memory 16 64\ncut 1 0\nrun alone\nrun threads\n",
            3,
            ["fault: line 4: wrong order\n", ""],
        ),
        (
            "memory 16 64\nrun threads 1\n",
            3,
            ["fault: line 2: wrong number of words\n", ""],
        ),
    ] {
        expect_one_of(&rt, rt.alloc(), script, want, reports.as_slice())?;
    }
    Ok(())
}

// What a command writes, which has to end with status 0.
fn written<R: Threads + Wait + Sync + Abort>(
    rt: &R,
    alloc: Global,
    word: &str,
    input: &[u8],
) -> Result<Vec<u8>, Fail> {
    let mut source = MemSource::of(alloc, input)?;
    let mut sink = MemSink::open(alloc, 41_108)?;
    let got = status(rt, alloc, &[word], &mut source, &mut sink);
    same_at(rt, got, 0, word);
    Ok(Vec::from_slice(alloc, sink.bytes())?)
}

#[test]
fn threads_run_over_an_image(rt: HostRuntime) -> Result<(), Fail> {
    let script = "memory 16 64\nw 1 insert a 1\nw 2 insert b 2\nrun threads\n";
    let mut input = written(&rt, rt.alloc(), "dump", script.as_bytes())?;
    input.extend_from_slice(
        b"memory 16 64\nw 1 get a\nrun threads\npower\nw 2 get b\nrun threads\n",
    )?;
    let text = written(&rt, rt.alloc(), "load", &input)?;
    same(
        &rt,
        std::str::from_utf8(&text)?,
        "power on 2 pairs\nw1.1 get a = value 1\npower cut\npower on 2 pairs\nw2.1 get b = value 2\n",
    );
    Ok(())
}
