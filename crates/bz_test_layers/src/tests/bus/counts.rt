//! What threads have left of a log.
ghost use Rattle.std.specs.Prelude.{◌≡◌, ◌<◌, ◌≤◌, IfOk};
ghost use Rattle.bz_bus.specs.Passes.{IsPassOf, IsFree, number_of, passes_of};

use super::log::{Log, Note};
use super::threads::add_all;
use crate::tests::bench::{holds, same};
use bz_bus::{Bus, Chronicle, PASSES, Pass};
use bz_oom::Memory;
use std::alloc::Global;
use std::process::Abort;
use std::sync::Wait;
use std::test::*;
use std::thread::Threads;

const MANY: u32 = 500;

pub fn open<T: Chronicle + Drop>(
    alloc: Global,
    value: T,
    passes: u32,
) -> Result<(Bus<T>, Pass<T>), Memory>
    requires { (1 ≤ passes) × (passes ≤ PASSES) }
    ensures { IfOk result (λ r. IsPassOf r.0 r.1 × (number_of r.1 ≡ 0) × (passes_of r.0 ≡ passes)) }
{
    match Bus::open(alloc, value, passes) {
        Ok(opened) => Ok(opened),
        Err((_, refused)) => Err(refused),
    }
}

pub fn split_off<T: Chronicle, R: Abort>(
    rt: &R,
    bus: &Bus<T>,
    first: &mut Pass<T>,
    number: u32,
) -> Pass<T>
    requires pass { IsPassOf bus.now first.old × (number_of first.old ≡ 0) }
    requires number { number < passes_of bus.now }
    ensures first { IsPassOf bus.now first.new × (number_of first.new ≡ 0) }
    ensures pass { IsPassOf bus.now result × (number_of result ≡ number) }
{
    assert!(rt; first.free(number));
    let pass = bus.split(first, number);
    assert!(rt; !first.free(number));
    pass
}

pub fn join_back<T: Chronicle, R: Abort>(rt: &R, bus: &Bus<T>, first: &mut Pass<T>, pass: Pass<T>)
    requires first { IsPassOf bus.now first.old × (number_of first.old ≡ 0) }
    requires pass { IsPassOf bus.now pass }
    ensures { IsPassOf bus.now first.new × (number_of first.new ≡ 0) }
{
    let number = pass.number();
    bus.join(first, pass);
    assert!(rt; first.free(number));
}

pub fn close<T: Chronicle, R: Abort>(rt: &R, bus: Bus<T>, first: Pass<T>) -> T
    requires { IsPassOf bus first × (number_of first ≡ 0) }
{
    for number in 1..PASSES as u32 {
        assert!(rt; first.free(number));
    }
    bus.close(first)
}

// A note is the next one of its pass.
fn count_note<R: Abort>(rt: &R, next: &mut [u32; PASSES], note: &Note) {
    let by = note.by as usize;
    assert!(rt; by < PASSES);
    same(rt, note.count, next[by]);
    next[by] = next[by].wrapping_add(1);
}

// How many notes of a log each pass has added, in their order.
fn counts<R: Abort>(rt: &R, log: &Log) -> [u32; PASSES] {
    let mut next = [0u32; PASSES];
    for note in &log.notes {
        count_note(rt, &mut next, note);
    }
    next
}

// Each of the passes from 1 up to `passes` has added its notes once, in their order.
fn expect_notes<R: Abort>(rt: &R, log: &Log, passes: usize, many: u32) {
    for (number, count) in counts(rt, log).iter().enumerate() {
        let adds = 0 < number && number <= passes;
        same(rt, *count, if adds { many } else { 0 });
    }
}

// The log after as many threads have added their notes.
fn added_by<R: Abort + Threads + Wait + Sync>(
    rt: &R,
    alloc: Global,
    threads: u32,
) -> Result<Log, Memory>
    requires { threads < PASSES }
{
    let log = Log::open(alloc, 7, (threads * MANY) as usize)?;
    let (bus, mut first) = open(alloc, log, threads + 1)?;
    let mut passes = Vec::with_capacity(alloc, threads as usize)?;
    for number in 0..threads {
        passes.push(split_off(rt, &bus, &mut first, number + 1))?;
    }
    let mut passes = add_all(rt, &bus, passes, MANY)?;
    while let Some(pass) = passes.pop() {
        join_back(rt, &bus, &mut first, pass);
    }
    Ok(close(rt, bus, first))
}

#[test]
fn two_threads_add_each_note_once_and_in_order(rt: HostRuntime) -> Result<(), Fail> {
    let log = added_by(&rt, rt.alloc(), 2)?;
    expect_notes(&rt, &log, 2, MANY);
    Ok(())
}

#[test]
fn eight_threads_add_each_note_once_and_in_order(rt: HostRuntime) -> Result<(), Fail> {
    let log = added_by(&rt, rt.alloc(), 8)?;
    expect_notes(&rt, &log, 8, MANY);
    Ok(())
}

#[test]
fn sixty_four_threads_add_each_note_once_and_in_order(rt: HostRuntime) -> Result<(), Fail> {
    let log = added_by(&rt, rt.alloc(), 64)?;
    expect_notes(&rt, &log, 64, MANY);
    Ok(())
}

// Of three passes one is dropped, and the others come back in another order.
fn come_back<R: Abort>(rt: &R, bus: &Bus<Log>, first: &mut Pass<Log>)
    requires pass { IsPassOf bus.now first.old × (number_of first.old ≡ 0) }
    requires room { passes_of bus.now ≡ 4 }
{
    let one = split_off(rt, bus, first, 1);
    let two = split_off(rt, bus, first, 2);
    drop(split_off(rt, bus, first, 3));
    join_back(rt, bus, first, two);
    join_back(rt, bus, first, one);
    holds(rt, !first.free(3));
    let one = split_off(rt, bus, first, 1);
    join_back(rt, bus, first, one);
    holds(rt, first.free(1) && first.free(2) && !first.free(3));
}

#[test]
fn a_dropped_pass_keeps_its_number_and_others_come_back(rt: HostRuntime) {
    let log = Log::open(rt.alloc(), 7, 0).expect(&rt, "a log");
    let (bus, mut first) = open(rt.alloc(), log, 4).expect(&rt, "a bus");
    come_back(&rt, &bus, &mut first);
}

#[test]
fn a_refused_bus_gives_its_value_back(rt: HostRuntime) {
    let log = Log::open(rt.alloc(), 7, 0).expect(&rt, "a log");
    let log = match Bus::open(rt.alloc(), log, 1) {
        Ok((bus, first)) => close(&rt, bus, first),
        Err((log, Memory)) => log,
    };
    same(&rt, log.name, 7);
}
