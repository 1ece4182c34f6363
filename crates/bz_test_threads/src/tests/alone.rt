//! An index on one thread, from its opening to its close.
ghost use Rattle.std.specs.Prelude.{◌≡◌, ◌<◌};
ghost use Rattle.bz_index.specs.Passes.{origin_in, worker_of, IsEventOfFirst, IsPassOf};

use super::bench::{Said, close, join_back, key, open, payload, recover, same, short, split_off};
use bz_call::Call;
use bz_index::{Gate, Index, IndexPass, NoGate};
use bz_key::PageBuf;
use bz_layout::Config;
use bz_mark::Mark;
use bz_world::{Applied, Event, World};
use std::process::Abort;
use std::sync::Wait;
use std::sync::atomic::{AtomicU32, Ordering};
use std::test::*;

const TWO_WORKERS: Config = Config {
    nodes: 4,
    swaps: 32,
    workers: 2,
    marks: 1 << 16,
    calls: 16,
    pages: 2,
};

// A call of the pass's worker is answered so.
fn answers<R: Abort + Wait>(
    rt: &R,
    index: &Index,
    pass: &mut IndexPass,
    page: &mut PageBuf,
    call: Call,
    said: Said,
)
    requires { IsPassOf index.now pass.old × (0 < worker_of pass.old) }
    ensures { IsPassOf index.now pass.new × (0 < worker_of pass.new) }
{
    let answer = index.call(rt, pass, call, page, &NoGate);
    same(rt, short(&answer), said);
}

// An event is answered so.
fn applies<R: Abort + Wait>(
    rt: &R,
    index: &Index,
    first: &mut IndexPass,
    event: Event,
    applied: Applied,
)
    requires pass { IsPassOf index.now first.old × (worker_of first.old ≡ 0) }
    requires event { IsEventOfFirst event }
    ensures { IsPassOf index.now first.new × (worker_of first.new ≡ 0) }
{
    same(rt, index.apply(rt, first, event), applied);
}

// How many marks of a world are Begins, and how many Ends.
fn calls_of(world: &World) -> (u32, u32) {
    let journal = world.journal();
    let (mut begun, mut ended) = (0u32, 0u32);
    for i in 0..journal.length() {
        match journal.mark(i) {
            Mark::Begin { .. } => begun = begun.saturating_add(1),
            Mark::End { .. } => ended = ended.saturating_add(1),
            _ => {}
        }
    }
    (begun, ended)
}

// Calls of the pass's worker, one after the other, are answered so.
fn answers_all<R: Abort + Wait>(
    rt: &R,
    index: &Index,
    pass: &mut IndexPass,
    page: &mut PageBuf,
    asked: &[(Call, Said)],
)
    requires { IsPassOf index.now pass.old × (0 < worker_of pass.old) }
    ensures { IsPassOf index.now pass.new × (0 < worker_of pass.new) }
{
    for (call, said) in asked {
        answers(rt, index, pass, page, *call, *said);
    }
}

// What one worker inserts the other finds.
fn meet<R: Abort + Wait>(
    rt: &R,
    index: &Index,
    one: &mut IndexPass,
    two: &mut IndexPass,
    page: &mut PageBuf,
)
    requires one { IsPassOf index.now one.old × (0 < worker_of one.old) }
    requires two { IsPassOf index.now two.old × (0 < worker_of two.old) }
    ensures one { IsPassOf index.now one.new × (0 < worker_of one.new) }
    ensures two { IsPassOf index.now two.new × (0 < worker_of two.new) }
{
    let (a, b) = (key(rt, b"a"), key(rt, b"b"));
    let (x, y) = (payload(rt, b"x"), payload(rt, b"y"));
    let puts = [
        (Call::Insert(a, y), Said::Exists),
        (Call::Insert(b, y), Said::Inserted),
    ];
    let asks = [
        (Call::Get(b), Said::Value(y)),
        (Call::Page(a), Said::Page(0)),
    ];
    answers_all(
        rt,
        index,
        one,
        page,
        &[(Call::Insert(a, x), Said::Inserted)],
    );
    answers_all(rt, index, two, page, &puts);
    answers_all(rt, index, one, page, &asks);
    same(rt, page.pairs(), &[(a, x), (b, y)][..]);
}

// The passes of both workers are split off, and come back.
fn of_two<R: Abort + Wait>(rt: &R, index: &Index, first: &mut IndexPass, page: &mut PageBuf)
    requires first { IsPassOf index.now first.old × (worker_of first.old ≡ 0) }
    requires workers { (origin_in index.now).config.workers ≡ 2 }
    ensures { IsPassOf index.now first.new × (worker_of first.new ≡ 0) }
{
    let mut one = split_off(rt, index, first, 1);
    let mut two = split_off(rt, index, first, 2);
    meet(rt, index, &mut one, &mut two, page);
    join_back(rt, index, first, two);
    join_back(rt, index, first, one);
}

// The world once an index is closed has so many Begins and Ends.
fn has_made<R: Abort>(rt: &R, index: Index, first: IndexPass, calls: (u32, u32))
    requires { IsPassOf index first × (worker_of first ≡ 0) }
{
    let world = close(rt, index, first);
    same(rt, calls_of(&world), calls);
}

#[test]
fn calls_of_two_workers_are_answered_by_one_map(rt: HostRuntime) -> Result<(), Fail> {
    let mut page = PageBuf::open(rt.alloc())?;
    let (index, mut first) = open(rt.alloc(), &TWO_WORKERS)?;
    of_two(&rt, &index, &mut first, &mut page);
    has_made(&rt, index, first, (5, 5));
    Ok(())
}

// After an event a get of the key `a` is answered so.
fn answers_after<R: Abort + Wait>(
    rt: &R,
    index: &Index,
    first: &mut IndexPass,
    one: &mut IndexPass,
    page: &mut PageBuf,
    event: (Event, Applied),
    said: Said,
)
    requires event { IsEventOfFirst event.0 }
    requires first { IsPassOf index.now first.old × (worker_of first.old ≡ 0) }
    requires one { IsPassOf index.now one.old × (0 < worker_of one.old) }
    ensures first { IsPassOf index.now first.new × (worker_of first.new ≡ 0) }
    ensures one { IsPassOf index.now one.new × (0 < worker_of one.new) }
{
    applies(rt, index, first, event.0, event.1);
    answers(rt, index, one, page, Call::Get(key(rt, b"a")), said);
}

// A get of the key `a` is answered so where the power was cut and where it came on.
fn refuses<R: Abort + Wait>(
    rt: &R,
    index: &Index,
    first: &mut IndexPass,
    one: &mut IndexPass,
    page: &mut PageBuf,
)
    requires first { IsPassOf index.now first.old × (worker_of first.old ≡ 0) }
    requires one { IsPassOf index.now one.old × (0 < worker_of one.old) }
    ensures first { IsPassOf index.now first.new × (worker_of first.new ≡ 0) }
    ensures one { IsPassOf index.now one.new × (0 < worker_of one.new) }
{
    let cut = (Event::Cut, Applied::Cut);
    answers_after(rt, index, first, one, page, cut, Said::Off);
    let on = (Event::On, Applied::On);
    answers_after(rt, index, first, one, page, on, Said::Recovering);
}

// A worker's insert is found again once the power was cut and the memory recovered.
fn over_a_cut<R: Abort + Wait>(
    rt: &R,
    index: &Index,
    first: &mut IndexPass,
    one: &mut IndexPass,
    page: &mut PageBuf,
)
    requires first { IsPassOf index.now first.old × (worker_of first.old ≡ 0) }
    requires one { IsPassOf index.now one.old × (0 < worker_of one.old) }
    ensures first { IsPassOf index.now first.new × (worker_of first.new ≡ 0) }
    ensures one { IsPassOf index.now one.new × (0 < worker_of one.new) }
{
    let (a, x) = (key(rt, b"a"), payload(rt, b"x"));
    answers(rt, index, one, page, Call::Insert(a, x), Said::Inserted);
    refuses(rt, index, first, one, page);
    recover(rt, index, first);
    answers(rt, index, one, page, Call::Get(a), Said::Value(x));
}

// The pass of worker 1 is split off, and comes back.
fn of_one<R: Abort + Wait>(rt: &R, index: &Index, first: &mut IndexPass, page: &mut PageBuf)
    requires first { IsPassOf index.now first.old × (worker_of first.old ≡ 0) }
    requires workers { (origin_in index.now).config.workers ≡ 2 }
    ensures { IsPassOf index.now first.new × (worker_of first.new ≡ 0) }
{
    let mut one = split_off(rt, index, first, 1);
    over_a_cut(rt, index, first, &mut one, page);
    join_back(rt, index, first, one);
}

#[test]
fn a_call_is_answered_off_after_a_cut_and_again_after_a_recovery(
    rt: HostRuntime,
) -> Result<(), Fail> {
    let mut page = PageBuf::open(rt.alloc())?;
    let (index, mut first) = open(rt.alloc(), &TWO_WORKERS)?;
    of_one(&rt, &index, &mut first, &mut page);
    has_made(&rt, index, first, (2, 2));
    Ok(())
}

// How often the gate was told, and whether once of another worker than 1, or of another number of acts than one more than before.
#[derive(Drop)]
struct Counts {
    told: AtomicU32,
    wrong: AtomicU32,
}

impl Gate for Counts {
    fn between<R: Wait>(&self, _rt: &R, worker: u8, steps: u32) {
        let before = self.told.fetch_add(1, Ordering::SeqCst);
        if worker != 1 || steps != before.saturating_add(1) {
            self.wrong.store(1, Ordering::SeqCst);
        }
    }
}

// A page of worker 1, with a gate between its acts.
fn with_gate<R: Abort + Wait>(
    rt: &R,
    index: &Index,
    first: &mut IndexPass,
    page: &mut PageBuf,
    gate: &Counts,
)
    requires first { IsPassOf index.now first.old × (worker_of first.old ≡ 0) }
    requires workers { (origin_in index.now).config.workers ≡ 2 }
    ensures { IsPassOf index.now first.new × (worker_of first.new ≡ 0) }
{
    let mut one = split_off(rt, index, first, 1);
    let answer = index.call(rt, &mut one, Call::Page(key(rt, b"a")), page, gate);
    same(rt, short(&answer), Said::Page(0));
    join_back(rt, index, first, one);
}

// The world once an index is closed has so many marks.
fn has_marks<R: Abort>(rt: &R, index: Index, first: IndexPass, marks: u32)
    requires { IsPassOf index first × (worker_of first ≡ 0) }
{
    let world = close(rt, index, first);
    same(rt, world.journal().length(), marks);
}

#[test]
fn the_gate_comes_between_the_acts_of_a_call(rt: HostRuntime) -> Result<(), Fail> {
    let mut page = PageBuf::open(rt.alloc())?;
    let (index, mut first) = open(rt.alloc(), &TWO_WORKERS)?;
    let gate = Counts {
        told: AtomicU32::new(0),
        wrong: AtomicU32::new(0),
    };
    with_gate(&rt, &index, &mut first, &mut page, &gate);
    same(&rt, gate.wrong.load(Ordering::SeqCst), 0);
    // A Begin, the acts, and an End: it was told after each act but the last, and not before the first.
    let acts = gate.told.load(Ordering::SeqCst).saturating_add(1);
    has_marks(&rt, index, first, acts.saturating_add(2));
    Ok(())
}
