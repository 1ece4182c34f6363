//! Power cuts, after every number of acts of a call, recoveries that are cut again, and the slots that are free afterwards.

use super::bench::{
    Answer, answered, applies, applies_all, begin, has_pairs, has_power, holds, in_world, numbered,
    open, payload, same, steps, whole,
};
use super::decode::decode;
use super::map::count;
use super::reader::Reader;
use bz_call::Call;
use bz_world::{Applied, Begun, Event, Power, World};
use std::alloc::Global;
use std::process::Abort;

// The calls that are cut: the root leaf has k1 before.
fn call_of(rt: &impl Abort, kind: u32) -> Call {
    let (k, l) = (numbered(rt, 0), numbered(rt, 1));
    match kind {
        0 => Call::Insert(k, payload(rt, b"n")),
        1 => Call::Update(l, payload(rt, b"nn")),
        _ => Call::Delete(l),
    }
}

// Each word becomes durable by itself.
fn evict_all(world: &mut World) {
    for a in 0..world.config().words() {
        world.apply(Event::Evict(a));
    }
}

// The power fails, and comes on again.
fn restart(rt: &impl Abort, world: &mut World) {
    applies(rt, world, Event::Cut, Applied::Cut);
    has_power(rt, world, Power::Off);
    applies(rt, world, Event::On, Applied::On);
    has_power(rt, world, Power::Recovering);
}

// At most so many steps of the recovery; whether it has ended.
fn recover(world: &mut World, most: u32) -> bool {
    for _ in 0..most {
        match world.apply(Event::Step(0)) {
            Applied::Stepped => {}
            Applied::Ready => return true,
            _ => return false,
        }
    }
    false
}

// The reader explains the journal, and the durable words are its map, of so many pairs.
fn agrees(rt: &impl Abort, alloc: Global, world: &World) {
    let mut reader = Reader::open(alloc).expect(rt, "a reader");
    holds(rt, reader.read_on(world).expect(rt, "room for the maps"));
    same(rt, decode(world), Some(reader.map()));
    has_pairs(rt, world, u64::from(count(&reader.map())));
}

// One key comes, and so many acts of a call of this kind. Whether the call has ended.
fn begun(rt: &impl Abort, world: &mut World, kind: u32, acts: u32) -> bool {
    let had = Call::Insert(numbered(rt, 1), payload(rt, b"o"));
    same(rt, whole(world, 2, had), Some(Answer::Inserted));
    holds(rt, begin(world, 1, call_of(rt, kind)));
    let (_, answer) = steps(world, 1, acts);
    answer.is_some()
}

// The recovery goes to its end, and agrees.
fn recovers(rt: &impl Abort, alloc: Global, world: &mut World) {
    holds(rt, recover(world, 4_000));
    has_power(rt, world, Power::On);
    agrees(rt, alloc, world);
}

// Worker 1 makes its second call; the first one has a reply where it had ended.
fn gets_then(rt: &impl Abort, world: &mut World, ended: bool) {
    let got = whole(world, 1, Call::Get(numbered(rt, 1)));
    holds(rt, got.is_some());
    same(rt, answered(world, 1, 2), got);
    same(rt, answered(world, 1, 1).is_some(), ended);
}

// The power fails, comes on again, and the memory is recovered, in which a call had ended or not.
fn is_cut(rt: &impl Abort, alloc: Global, world: &mut World, ended: bool) {
    restart(rt, world);
    agrees(rt, alloc, world);
    recovers(rt, alloc, world);
    gets_then(rt, world, ended);
    agrees(rt, alloc, world);
}

// A call of this kind is cut after so many acts. Whether it had ended.
fn cut_after(rt: &impl Abort, alloc: Global, kind: u32, acts: u32, evicts: bool) -> bool {
    in_world(rt, alloc, 4, 16, 2, |world| {
        let ended = begun(rt, world, kind, acts);
        if evicts {
            evict_all(world);
        }
        is_cut(rt, alloc, world, ended);
        ended
    })
}

// It is cut after every number of acts, up to its last one: how many these are.
fn cut_at_will(rt: &impl Abort, alloc: Global, kind: u32, evicts: bool) -> u32 {
    for acts in 0..4_000 {
        if cut_after(rt, alloc, kind, acts, evicts) {
            return acts;
        }
    }
    4_000
}

#[test]
fn a_call_that_is_cut_is_whole_or_nothing(rt: HostRuntime) {
    for kind in 0..3 {
        let acts = cut_at_will(&rt, rt.alloc(), kind, false);
        holds(&rt, acts >= 30 && acts < 200);
        same(&rt, cut_at_will(&rt, rt.alloc(), kind, true), acts);
    }
}

// The power fails and comes on again, and the recovery goes to its end.
fn is_recovered(rt: &impl Abort, alloc: Global, world: &mut World) {
    restart(rt, world);
    agrees(rt, alloc, world);
    holds(rt, recover(world, 4_000));
    agrees(rt, alloc, world);
}

// The power fails and comes on again, and the recovery makes so many acts. Whether it had ended.
fn recovers_for(rt: &impl Abort, alloc: Global, world: &mut World, more: u32) -> bool {
    restart(rt, world);
    let ended = recover(world, more);
    evict_all(world);
    agrees(rt, alloc, world);
    ended
}

// A call of this kind is cut after so many acts, and its recovery after so many more. Whether that had ended.
fn cut_again(rt: &impl Abort, alloc: Global, kind: u32, acts: u32, more: u32) -> bool {
    in_world(rt, alloc, 4, 16, 2, |world| {
        begun(rt, world, kind, acts);
        let ended = recovers_for(rt, alloc, world, more);
        is_recovered(rt, alloc, world);
        ended
    })
}

// It is cut after every number of acts, up to its last one: how many these are.
fn recovery_cut_at_will(rt: &impl Abort, alloc: Global, kind: u32, acts: u32) -> u32 {
    for more in 0..4_000 {
        if cut_again(rt, alloc, kind, acts, more) {
            return more;
        }
    }
    4_000
}

#[test]
fn a_recovery_that_is_cut_begins_anew(rt: HostRuntime) {
    for kind in 0..3 {
        let acts = recovery_cut_at_will(&rt, rt.alloc(), kind, 56);
        holds(&rt, acts >= 1_000 && acts < 2_000);
    }
}

// Updates of a key, one after the other, until no slot is left for a copy: how many were made.
fn updates(rt: &impl Abort, world: &mut World, update: &Call) -> u32 {
    for made in 0..400 {
        match whole(world, 1, *update) {
            Some(Answer::Updated(_)) => {}
            answer => {
                same(rt, answer, Some(Answer::FullNodes));
                return made;
            }
        }
    }
    400
}

// So many updates of a key are made until no slot is left; then the power fails, and the recovery goes to its end.
fn used_up(rt: &impl Abort, world: &mut World, update: &Call, made: u32) {
    same(rt, updates(rt, world, update), made);
    restart(rt, world);
    holds(rt, recover(world, 4_000));
}

// A key comes, and takes two slots, and then one of them again.
fn use_up(rt: &impl Abort, world: &mut World) {
    let (k, v) = (numbered(rt, 0), payload(rt, b"v"));
    same(
        rt,
        whole(world, 1, Call::Insert(k, v)),
        Some(Answer::Inserted),
    );
    let update = Call::Update(k, v);
    for made in [234, 117, 117] {
        used_up(rt, world, &update, made);
    }
}

#[test]
fn slots_that_the_tree_does_not_reach_serve_again(rt: HostRuntime) {
    in_world(&rt, rt.alloc(), 2, 512, 1, |world| {
        use_up(&rt, world);
        agrees(&rt, rt.alloc(), world);
    });
}

// An insert or a delete of one of five keys, cut after some of its acts, at times with all words evicted, and the recovery.
fn cut_and_recover(rt: &impl Abort, world: &mut World, number: u8) {
    let k = numbered(rt, number % 5);
    let call = match number % 3 {
        2 => Call::Delete(k),
        _ => Call::Insert(k, payload(rt, b"n")),
    };
    holds(rt, begin(world, 1, call));
    steps(world, 1, u32::from(number));
    if number % 4 == 0 {
        evict_all(world);
    }
    restart(rt, world);
    holds(rt, recover(world, 4_000));
}

fn cut_often(rt: &impl Abort, world: &mut World) {
    for number in 0..100 {
        cut_and_recover(rt, world, number);
    }
}

#[test]
fn a_hundred_power_cuts_in_one_journal(rt: HostRuntime) {
    in_world(&rt, rt.alloc(), 4, 16, 1, |world| {
        cut_often(&rt, world);
        agrees(&rt, rt.alloc(), world);
    });
}

// The open call of a worker has this number.
fn has_open(rt: &impl Abort, world: &World, w: u8, number: Option<u32>) {
    same(rt, world.open_call(w), number);
}

// A call that begins is open until a cut.
fn opens(rt: &impl Abort, world: &mut World) {
    begins(rt, world, Begun::Begun(1));
    has_open(rt, world, 1, Some(1));
    has_open(rt, world, 2, None);
    restart(rt, world);
    has_open(rt, world, 1, None);
}

#[test]
fn an_open_call_has_its_number_until_a_cut(rt: HostRuntime) {
    in_world(&rt, rt.alloc(), 1, 1, 2, |world| opens(&rt, world));
}

// A begin of worker 1 is answered so.
fn begins(rt: &impl Abort, world: &mut World, begun: Begun) {
    same(rt, world.begin(1, Call::Get(numbered(rt, 0))), begun);
}

// While the power is off nothing happens, until it comes on.
fn refuses_off(rt: &impl Abort, world: &mut World) {
    let events = [
        (Event::Step(1), Applied::Off),
        (Event::Evict(0), Applied::Off),
        (Event::Cut, Applied::Off),
        (Event::On, Applied::On),
    ];
    begins(rt, world, Begun::Off);
    applies_all(rt, world, &events);
}

// While it recovers only worker 0 steps.
fn refuses_recovering(rt: &impl Abort, world: &mut World) {
    let events = [
        (Event::Step(1), Applied::Recovering),
        (Event::Evict(0), Applied::Evicted),
    ];
    applies(rt, world, Event::On, Applied::Powered);
    begins(rt, world, Begun::Recovering);
    applies_all(rt, world, &events);
}

// A call begins, and the power fails.
fn is_cut_off(rt: &impl Abort, world: &mut World) {
    applies(rt, world, Event::On, Applied::Powered);
    begins(rt, world, Begun::Begun(1));
    applies(rt, world, Event::Cut, Applied::Cut);
}

// Once the recovery has ended the next call begins.
fn begins_again(rt: &impl Abort, world: &mut World) {
    holds(rt, recover(world, 4_000));
    applies(rt, world, Event::Step(1), Applied::Idle);
    begins(rt, world, Begun::Begun(2));
}

#[test]
fn the_power_is_told_in_each_refusal(rt: HostRuntime) {
    in_world(&rt, rt.alloc(), 4, 16, 2, |world| {
        is_cut_off(&rt, world);
        refuses_off(&rt, world);
        refuses_recovering(&rt, world);
        begins_again(&rt, world);
    });
}
