//! An index over a fresh world, its passes, and what its calls are answered.
ghost use Rattle.std.specs.Prelude.{◌≡◌, ◌≢◌, ◌<◌, ◌≤◌, IfOk};
ghost use Rattle.bz_index.specs.Passes.{origin_in, worker_of, IsPassOf};

use bz_bus::PASSES;
use bz_call::Reply;
use bz_index::{Answer, Index, IndexPass};
use bz_key::{Key, Payload};
use bz_layout::Config;
use bz_oom::Memory;
use bz_world::{Applied, Event, LimitKind, OpenError, World};
use std::alloc::Global;
use std::fmt::{Debug, Display};
use std::process::Abort;
use std::sync::Wait;

/// It is so.
pub(crate) fn holds(rt: &impl Abort, told: bool) {
    assert!(rt; told);
}

/// Two values are the same.
pub(crate) fn same<T: PartialEq + Debug + Drop>(rt: &impl Abort, got: T, want: T) {
    assert_eq!(rt; got, want);
}

/// The same, and where.
pub(crate) fn same_at<T: PartialEq + Debug + Drop>(
    rt: &impl Abort,
    got: T,
    want: T,
    at: impl Display + Drop,
) {
    assert_eq!(rt; got, want, "at {at}");
}

/// A key of these bytes.
pub(crate) fn key(rt: &impl Abort, bytes: &[u8]) -> Key {
    Key::of(bytes).expect(rt, "a key")
}

/// A payload of these bytes.
pub(crate) fn payload(rt: &impl Abort, bytes: &[u8]) -> Payload {
    Payload::of(bytes).expect(rt, "a payload")
}

/// An index over a fresh world.
pub(crate) fn open(alloc: Global, config: &Config) -> Result<(Index, IndexPass), OpenError>
    ensures { IfOk result (λ r. IsPassOf r.0 r.1 × (worker_of r.1 ≡ 0) × ((origin_in r.0).config ≡ config.now)) }
{
    let world = World::open(alloc, config)?;
    match Index::open(alloc, world) {
        Ok(opened) => Ok(opened),
        Err((_, Memory)) => Err(OpenError::Memory),
    }
}

pub(crate) fn split_off<R: Abort>(
    rt: &R,
    index: &Index,
    first: &mut IndexPass,
    worker: u8,
) -> IndexPass
    requires first { IsPassOf index.now first.old × (worker_of first.old ≡ 0) }
    requires worker { (0 < worker) × (worker ≤ (origin_in index.now).config.workers) }
    ensures first { IsPassOf index.now first.new × (worker_of first.new ≡ 0) }
    ensures pass { IsPassOf index.now result × (worker_of result ≡ worker) }
{
    assert!(rt; first.free(worker));
    let pass = index.split(first, worker);
    assert!(rt; !first.free(worker) && pass.worker() == worker);
    pass
}

pub(crate) fn join_back<R: Abort>(rt: &R, index: &Index, first: &mut IndexPass, pass: IndexPass)
    requires first { IsPassOf index.now first.old × (worker_of first.old ≡ 0) }
    requires pass { IsPassOf index.now pass × (worker_of pass ≢ 0) }
    ensures { IsPassOf index.now first.new × (worker_of first.new ≡ 0) }
{
    let worker = pass.worker();
    index.join(first, pass);
    assert!(rt; first.free(worker));
}

/// The world, once every worker is free.
pub(crate) fn close<R: Abort>(rt: &R, index: Index, first: IndexPass) -> World
    requires { IsPassOf index first × (worker_of first ≡ 0) }
{
    for worker in 1..PASSES as u8 {
        assert!(rt; first.free(worker));
    }
    index.close(first)
}

/// Worker 0 recovers the memory.
pub(crate) fn recover<R: Abort + Wait>(rt: &R, index: &Index, first: &mut IndexPass)
    requires { IsPassOf index.now first.old × (worker_of first.old ≡ 0) }
    ensures { IsPassOf index.now first.new × (worker_of first.new ≡ 0) }
{
    for step in 0..1u32 << 20 {
        let applied = index.apply(rt, first, Event::Step(0));
        if applied != Applied::Stepped {
            same_at(rt, applied, Applied::Ready, step);
            return;
        }
    }
    assert!(rt; false, "the recovery has not ended");
}

/// What a call was answered.
#[derive(Clone, Copy, Debug, PartialEq, Eq)]
pub(crate) enum Said {
    /// The call was not made.
    Nothing,
    Inserted,
    Exists,
    Missing,
    Value(Payload),
    /// The page's number.
    Page(u32),
    Off,
    Recovering,
    /// No room for marks, for calls, for pages.
    Marks,
    Calls,
    Pages,
    Other,
}

/// What a reply says.
pub(crate) fn said_by(reply: &Reply) -> Said {
    match reply {
        Reply::Inserted => Said::Inserted,
        Reply::Exists => Said::Exists,
        Reply::Missing => Said::Missing,
        Reply::Value(value) => Said::Value(*value),
        Reply::Page { page, .. } => Said::Page(*page),
        _ => Said::Other,
    }
}

/// What an answer says.
pub(crate) fn short(answer: &Answer) -> Said {
    match answer {
        Answer::Reply(reply) => said_by(reply),
        Answer::Off => Said::Off,
        Answer::Recovering => Said::Recovering,
        Answer::Limit(LimitKind::Marks) => Said::Marks,
        Answer::Limit(LimitKind::Calls) => Said::Calls,
        Answer::Limit(LimitKind::Pages) => Said::Pages,
    }
}
