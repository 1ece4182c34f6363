//! A plain list beside a journal: each reply is that of the list at its moment.

use super::bench::holds;
use bz_mark::Mark;
use bz_queue::{QCall, QMark, QReply, QueueWorld};
use std::alloc::Global;
use std::process::Abort;

// An open call, and the moment before its effect.
#[derive(Clone, Copy)]
struct Opened {
    call: QCall,
    begun: u32,
    effect: Option<u32>,
}

// The end of a call: the moment that its reply is of, and how many marks stood before it.
#[derive(Clone, Copy)]
struct Ended {
    reply: QReply,
    at: u32,
    end: u32,
}

// How many items the list had at a moment, and which was the first, or 0.
#[derive(Clone, Copy)]
struct Moment {
    size: usize,
    first: u64,
}

// The list, what it was at each moment, and the open call of each worker.
#[derive(Drop)]
struct Replay {
    capacity: usize,
    items: Vec<u64>,
    moments: Vec<Moment>,
    opened: Vec<Option<Opened>>,
}

fn new_replay(rt: &impl Abort, alloc: Global, capacity: u32) -> Replay {
    let mut opened: Vec<Option<Opened>> = Vec::new(alloc);
    for _ in 0..65u32 {
        opened.push(None).expect(rt, "memory");
    }
    Replay {
        capacity: capacity as usize,
        items: Vec::new(alloc),
        moments: Vec::new(alloc),
        opened,
    }
}

// What the list is now.
fn moment_of(items: &[u64]) -> Moment {
    let first = match items.first() {
        Some(item) => *item,
        None => 0,
    };
    Moment {
        size: items.len(),
        first,
    }
}

// The open call of a worker.
fn opened_by(rt: &impl Abort, replay: &Replay, w: u8) -> Opened {
    assert!(rt; (w as usize) < replay.opened.len());
    replay.opened[w as usize].expect(rt, "an open call")
}

// The worker's call is this one, or none.
fn put_down(rt: &impl Abort, replay: &mut Replay, w: u8, opened: Option<Opened>) {
    assert!(rt; (w as usize) < replay.opened.len());
    replay.opened[w as usize] = opened;
}

// The effect of a call on the list.
fn make(rt: &impl Abort, replay: &mut Replay, call: QCall) {
    match call {
        QCall::Put(item) => {
            holds(rt, replay.items.len() < replay.capacity);
            replay.items.push(item).expect(rt, "memory");
        }
        QCall::Take => {
            assert!(rt; !replay.items.is_empty());
            replay.items.remove(0);
        }
    }
}

// Whether a call with this effect may reply so, where the list was so at the reply's moment.
fn is_right(opened: Opened, ended: Ended, list: Moment, capacity: usize) -> bool {
    match (ended.reply, opened.effect, opened.call) {
        (QReply::Put, Some(effect), QCall::Put(_)) => effect == ended.at && list.size < capacity,
        (QReply::Taken(item), Some(effect), QCall::Take) => {
            effect == ended.at && list.size > 0 && list.first == item
        }
        (QReply::Full, None, QCall::Put(_)) => list.size == capacity,
        (QReply::Empty, None, QCall::Take) => list.size == 0,
        (QReply::Spent, None, _) => ended.at == ended.end,
        _ => false,
    }
}

// The reply is that of the list at its moment, which is one of the call.
fn judge(rt: &impl Abort, replay: &Replay, opened: Opened, ended: Ended) {
    holds(rt, opened.begun < ended.at && ended.at <= ended.end);
    assert!(rt; (ended.at as usize) < replay.moments.len());
    let list = replay.moments[ended.at as usize];
    holds(rt, is_right(opened, ended, list, replay.capacity));
}

// No call is open after a power cut.
fn forget(rt: &impl Abort, replay: &mut Replay) {
    for w in 0..65u8 {
        put_down(rt, replay, w, None);
    }
}

// One mark more, before which there were so many.
fn hear(rt: &impl Abort, replay: &mut Replay, mark: QMark, now: u32) {
    let moment = moment_of(&replay.items);
    replay.moments.push(moment).expect(rt, "memory");
    match mark {
        QMark::Begin { w, call, .. } => {
            let opened = Opened {
                call,
                begun: now,
                effect: None,
            };
            put_down(rt, replay, w, Some(opened));
        }
        QMark::Effect { w, .. } => {
            let opened = opened_by(rt, replay, w);
            holds(rt, opened.effect.is_none());
            let effect = Some(now);
            put_down(rt, replay, w, Some(Opened { effect, ..opened }));
            make(rt, replay, opened.call);
        }
        QMark::End { w, reply, at, .. } => {
            let opened = opened_by(rt, replay, w);
            let end = now;
            judge(rt, replay, opened, Ended { reply, at, end });
            put_down(rt, replay, w, None);
        }
        QMark::Memory(Mark::Cut) => forget(rt, replay),
        QMark::Memory(_) => {}
    }
}

/// The whole journal beside a plain list: how many items are left.
pub(super) fn replayed(rt: &impl Abort, alloc: Global, queue: &QueueWorld, capacity: u32) -> usize {
    let mut beside = new_replay(rt, alloc, capacity);
    for i in 0..queue.length() {
        hear(rt, &mut beside, queue.mark(i), i);
    }
    beside.items.len()
}
