//! A storage engine over an index: it opens one, begins a worker, inserts and gets, finds after a power cut what it was
//! answered, and closes. docs/LIBRARY.md shows this code.
ghost use Rattle.std.specs.Prelude.{◌≡◌, ◌<◌, ℕ, IfOk};
ghost use Rattle.bz_index.specs.Calls.{IsAnswered};
ghost use Rattle.bz_index.specs.Passes.{origin_in, worker_of, seen_by, IsFree, IsPassOf};

use super::bench::{close, same};
use bz_call::{Call, Reply};
use bz_index::{Answer, Index, IndexPass, NoGate};
use bz_key::{Key, PageBuf, Payload};
use bz_layout::Config;
use bz_oom::Memory;
use bz_world::{Applied, Event, OpenError, Power, World};
use std::alloc::Global;
use std::process::Abort;
use std::sync::Wait;
use std::test::*;

const CONFIG: Config = Config {
    nodes: 64,
    swaps: 1_024,
    workers: 8,
    marks: 1 << 17,
    calls: 1_024,
    pages: 64,
};

fn open_engine(alloc: Global, config: &Config) -> Result<(Index, IndexPass), OpenError>
    ensures { IfOk result (λ r. IsPassOf r.0 r.1 × (worker_of r.1 ≡ 0) × ((w : ℕ) → 0 < w → IsFree r.1 w) × ((origin_in r.0).config.workers ≡ config.now.workers)) }
{
    let world = World::open(alloc, config)?;
    match Index::open(alloc, world) {
        Ok(opened) => Ok(opened),
        Err((_world, Memory)) => Err(OpenError::Memory),
    }
}

fn insert<R: Wait>(
    rt: &R,
    index: &Index,
    pass: &mut IndexPass,
    page: &mut PageBuf,
    pair: (Key, Payload),
) -> Answer
    requires { IsPassOf index.now pass.old × (0 < worker_of pass.old) }
    ensures pass { IsPassOf index.now pass.new × (worker_of pass.new ≡ worker_of pass.old) }
    ensures answered { IsAnswered (origin_in index.now) (worker_of pass.old) (Call.Insert pair.0 pair.1) (seen_by pass.old) (seen_by pass.new) page.new result }
{
    index.call(rt, pass, Call::Insert(pair.0, pair.1), page, &NoGate)
}

fn get<R: Wait>(rt: &R, index: &Index, pass: &mut IndexPass, page: &mut PageBuf, key: Key) -> Answer
    requires { IsPassOf index.now pass.old × (0 < worker_of pass.old) }
    ensures pass { IsPassOf index.now pass.new × (worker_of pass.new ≡ worker_of pass.old) }
    ensures answered { IsAnswered (origin_in index.now) (worker_of pass.old) (Call.Get key) (seen_by pass.old) (seen_by pass.new) page.new result }
{
    index.call(rt, pass, Call::Get(key), page, &NoGate)
}

fn is_value(answer: &Answer, payload: &Payload) -> bool {
    match answer {
        Answer::Reply(Reply::Value(value)) => value == payload,
        _ => false,
    }
}

// Cuts the power, turns it on and recovers; the answer of the last event, Ready where it was made.
fn restart<R: Wait>(rt: &R, index: &Index, first: &mut IndexPass) -> Applied
    requires { IsPassOf index.now first.old × (worker_of first.old ≡ 0) }
    ensures { IsPassOf index.now first.new × (worker_of first.new ≡ 0) }
{
    index.apply(rt, first, Event::Cut);
    let mut applied = index.apply(rt, first, Event::On);
    for _ in rt.forever() {
        if applied != Applied::On && applied != Applied::Stepped {
            break;
        }
        applied = index.apply(rt, first, Event::Step(0));
    }
    applied
}

// A get of the pair's key finds its payload.
fn finds<R: Abort + Wait>(
    rt: &R,
    index: &Index,
    pass: &mut IndexPass,
    page: &mut PageBuf,
    pair: (Key, Payload),
)
    requires { IsPassOf index.now pass.old × (0 < worker_of pass.old) }
    ensures { IsPassOf index.now pass.new × (0 < worker_of pass.new) }
{
    let answer = get(rt, index, pass, page, pair.0);
    assert!(rt; is_value(&answer, &pair.1));
}

// What was inserted before a power cut is found before it and after it.
fn over_a_cut<R: Abort + Wait>(
    rt: &R,
    index: &Index,
    first: &mut IndexPass,
    pass: &mut IndexPass,
    page: &mut PageBuf,
    pair: (Key, Payload),
)
    requires first { IsPassOf index.now first.old × (worker_of first.old ≡ 0) }
    requires pass { IsPassOf index.now pass.old × (0 < worker_of pass.old) }
    ensures first { IsPassOf index.now first.new × (worker_of first.new ≡ 0) }
    ensures pass { IsPassOf index.now pass.new × (0 < worker_of pass.new) }
{
    let answer = insert(rt, index, pass, page, pair);
    assert!(rt; matches!(answer, Answer::Reply(Reply::Inserted)));
    finds(rt, index, pass, page, pair);
    same(rt, restart(rt, index, first), Applied::Ready);
    finds(rt, index, pass, page, pair);
}

#[test]
fn a_storage_engine_finds_after_a_power_cut_what_it_was_answered(
    rt: HostRuntime,
) -> Result<(), Fail> {
    let pair = (Key::of(b"user:1001/name")?, Payload::of(b"Ada")?);
    let mut page = PageBuf::open(rt.alloc())?;
    let (index, mut first) = open_engine(rt.alloc(), &CONFIG)?;

    let mut pass = index.split(&mut first, 1);
    over_a_cut(&rt, &index, &mut first, &mut pass, &mut page, pair);
    index.join(&mut first, pass);

    let world = close(&rt, index, first);
    assert!(rt; matches!(world.power(), Power::On));
    Ok(())
}
