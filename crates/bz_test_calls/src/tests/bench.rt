//! A world of a few workers, and what its calls answered.

use bz_call::{Call, Reply, Spent};
use bz_key::{Key, Payload};
use bz_layout::Config;
use bz_mark::Mark;
use bz_world::{Applied, Begun, Event, OpenError, Power, World};
use std::alloc::Global;
use std::fmt::{Debug, Display};
use std::process::Abort;

/// What a call answered.
#[derive(Clone, Copy, Debug, PartialEq, Eq)]
pub(crate) enum Answer {
    Inserted,
    Exists,
    Deleted(Payload),
    Updated(Payload),
    Missing,
    Value(Payload),
    /// The page's number, and whether a next one begins anywhere.
    Page(u32, bool),
    FullNodes,
    FullSwaps,
    FullHeight,
}

/// It is so.
pub(crate) fn holds(rt: &impl Abort, told: bool) {
    assert!(rt; told);
}

/// Two values are the same.
pub(crate) fn same<T: PartialEq + Debug + Drop>(rt: &impl Abort, got: T, want: T) {
    assert_eq!(rt; got, want);
}

/// The same, and where.
pub(crate) fn same_at<T: PartialEq + Debug + Drop>(
    rt: &impl Abort,
    got: T,
    want: T,
    at: impl Display + Drop,
) {
    assert_eq!(rt; got, want, "at {at}");
}

/// A key of these bytes.
pub(crate) fn key(rt: &impl Abort, bytes: &[u8]) -> Key {
    Key::of(bytes).expect(rt, "a key")
}

/// A payload of these bytes.
pub(crate) fn payload(rt: &impl Abort, bytes: &[u8]) -> Payload {
    Payload::of(bytes).expect(rt, "a payload")
}

/// The key `k` and two digits.
pub(crate) fn numbered(rt: &impl Abort, number: u8) -> Key {
    key(rt, &[b'k', b'0' + number / 10 % 10, b'0' + number % 10])
}

/// What a reply says.
pub(crate) fn answer_of(reply: &Reply) -> Answer {
    match reply {
        Reply::Inserted => Answer::Inserted,
        Reply::Exists => Answer::Exists,
        Reply::Deleted(old) => Answer::Deleted(*old),
        Reply::Updated(old) => Answer::Updated(*old),
        Reply::Missing => Answer::Missing,
        Reply::Value(value) => Answer::Value(*value),
        Reply::Page { page, next } => Answer::Page(*page, next.is_some()),
        Reply::Full(Spent::Nodes) => Answer::FullNodes,
        Reply::Full(Spent::Swaps) => Answer::FullSwaps,
        Reply::Full(Spent::Height) => Answer::FullHeight,
    }
}

/// A world of this many nodes, swaps and workers, with much room in its journal.
pub(crate) fn open(
    alloc: Global,
    nodes: u32,
    swaps: u32,
    workers: u32,
) -> Result<World, OpenError> {
    let config = Config {
        nodes,
        swaps,
        workers,
        marks: 1 << 18,
        calls: 1_024,
        pages: 64,
    };
    World::open(alloc, &config)
}

/// What is done with a fresh world of this many nodes, swaps and workers, and what it answers.
pub(crate) fn in_world<A: Abort, T, F: FnOnce(&mut World) -> T>(
    rt: &A,
    alloc: Global,
    nodes: u32,
    swaps: u32,
    workers: u32,
    done: F,
) -> T
    requires { F.IsAlwaysCallable done }
{
    let mut world = open(alloc, nodes, swaps, workers).expect(rt, "a world");
    done(&mut world)
}

/// The same with a world of these numbers.
pub(crate) fn in_world_of<A: Abort, T, F: FnOnce(&mut World) -> T>(
    rt: &A,
    alloc: Global,
    config: &Config,
    done: F,
) -> T
    requires { F.IsAlwaysCallable done }
{
    let mut world = World::open(alloc, config).expect(rt, "a world");
    done(&mut world)
}

/// The cached word at an address; 0 past the memory.
pub(crate) fn cached(world: &World, a: u32) -> u64 {
    if a < world.config().words() {
        world.cached(a)
    } else {
        0
    }
}

/// The durable word at an address; 0 past the memory.
pub(crate) fn durable(world: &World, a: u32) -> u64 {
    if a < world.config().words() {
        world.durable(a)
    } else {
        0
    }
}

/// The mark with this number; none past the last.
pub(crate) fn mark(world: &World, i: u32) -> Option<Mark> {
    let journal = world.journal();
    if i < journal.length() {
        Some(journal.mark(i))
    } else {
        None
    }
}

/// The last reply of the journal, where its last mark is an End.
pub(crate) fn last_answer(world: &World) -> Option<Answer> {
    let last = world.journal().length().saturating_sub(1);
    match mark(world, last) {
        Some(Mark::End { reply, .. }) => Some(answer_of(&reply)),
        _ => None,
    }
}

/// What the call with this number of a worker answered, if it has ended.
pub(crate) fn answered(world: &World, w: u8, n: u32) -> Option<Answer> {
    match world.reply(w, n) {
        Some(reply) => Some(answer_of(&reply)),
        None => None,
    }
}

/// Makes at most so many steps of a worker, until its call ends: how many were made, and what was answered.
pub(crate) fn steps(world: &mut World, w: u8, most: u32) -> (u32, Option<Answer>) {
    for made in 0..most {
        match world.apply(Event::Step(w)) {
            Applied::Stepped => {}
            Applied::Ended(_) => return (made.saturating_add(1), last_answer(world)),
            _ => return (made, None),
        }
    }
    (most, None)
}

/// Begins a call; whether it has begun.
pub(crate) fn begin(world: &mut World, w: u8, call: Call) -> bool {
    matches!(world.begin(w, call), Begun::Begun(_))
}

/// An event is answered so.
pub(crate) fn applies(rt: &impl Abort, world: &mut World, event: Event, applied: Applied) {
    assert_eq!(rt; world.apply(event), applied, "{event:?}");
}

/// Events, one after the other, are answered so.
pub(crate) fn applies_all(rt: &impl Abort, world: &mut World, events: &[(Event, Applied)]) {
    for (event, applied) in events {
        applies(rt, world, *event, *applied);
    }
}

/// What the power of a world is.
pub(crate) fn has_power(rt: &impl Abort, world: &World, power: Power) {
    same(rt, world.power(), power);
}

/// How many pairs a world has.
pub(crate) fn has_pairs(rt: &impl Abort, world: &World, pairs: u64) {
    same(rt, world.pairs(), pairs);
}

/// How many marks a journal has.
pub(crate) fn marks(world: &World) -> u32 {
    world.journal().length()
}

/// Makes a whole call, if it takes no more than 4,000 steps.
pub(crate) fn whole(world: &mut World, w: u8, call: Call) -> Option<Answer> {
    if !begin(world, w, call) {
        return None;
    }
    let (_, answer) = steps(world, w, 4_000);
    answer
}

/// A call of worker 1 is answered so.
pub(crate) fn answers(rt: &impl Abort, world: &mut World, call: Call, answer: Answer) {
    same(rt, whole(world, 1, call), Some(answer));
}

/// Calls of worker 1, one after the other, are answered so.
pub(crate) fn answers_all(rt: &impl Abort, world: &mut World, asked: &[(Call, Answer)]) {
    for (call, answer) in asked {
        answers(rt, world, *call, *answer);
    }
}
