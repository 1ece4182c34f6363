//! Threads that meet the limits of the journal.

use super::bench::{holds, same};
use super::reader::{NONE, Tally, read};
use super::stages::Until;
use super::threads::{Case, Kind, Part, Told, expect, run};
use bz_layout::Config;
use bz_world::World;
use std::alloc::Global;
use std::process::Abort;
use std::sync::Wait;
use std::thread::Threads;

const FOUR: Config = Config {
    nodes: 64,
    swaps: 1_024,
    workers: 4,
    marks: 1 << 17,
    calls: 1_024,
    pages: 64,
};

fn of_four(config: Config, parts: &[Part; 1]) -> Case<'_> {
    Case {
        config,
        workers: &[1, 2, 3, 4],
        one: parts,
        others: parts,
        deeds: &[],
        hold: None,
    }
}

fn calls(kind: Kind, many: u32) -> Part {
    Part {
        kind,
        many,
        after: Until::Now,
    }
}

fn ten_inserts() -> [Part; 1] {
    [calls(Kind::Own, 10)]
}

// So many calls of four threads begin, where so many may.
fn begins<R: Abort + Threads + Wait + Sync>(rt: &R, alloc: Global, most: u32) {
    let config = Config {
        calls: most,
        ..FOUR
    };
    let tally = Tally {
        inserted: most,
        no_calls: 40u32.saturating_sub(most),
        ..NONE
    };
    expect(rt, alloc, &of_four(config, &ten_inserts()), &tally);
}

#[test]
fn as_many_calls_of_four_threads_begin_as_may(rt: HostRuntime) {
    for most in [1, 7, 25] {
        begins(&rt, rt.alloc(), most);
    }
}

fn three_pages() -> [Part; 1] {
    [calls(Kind::Page, 3)]
}

// So many pages of four threads begin, where so many may.
fn pages<R: Abort + Threads + Wait + Sync>(rt: &R, alloc: Global, most: u32) {
    let config = Config {
        pages: most,
        ..FOUR
    };
    let tally = Tally {
        pages: most,
        no_pages: 12u32.saturating_sub(most),
        ..NONE
    };
    expect(rt, alloc, &of_four(config, &three_pages()), &tally);
}

#[test]
fn as_many_pages_of_four_threads_begin_as_may(rt: HostRuntime) {
    for most in [0, 1, 5] {
        pages(&rt, rt.alloc(), most);
    }
}

fn many_inserts() -> [Part; 1] {
    [calls(Kind::Own, 64)]
}

// The journal has no more room, and each insert was answered before that or told of it.
fn is_full(rt: &impl Abort, alloc: Global, world: &World, told: &[Told], marks: u32) {
    let tally = read(rt, alloc, world, told);
    // Each insert makes 81 acts at least.
    holds(rt, tally.inserted <= marks / 81);
    same(rt, tally.inserted.saturating_add(tally.no_marks), 4 * 64);
    holds(rt, world.journal().room() < 3);
}

// Four threads make inserts until a journal of so many marks is full.
fn fills<R: Abort + Threads + Wait + Sync>(rt: &R, alloc: Global, marks: u32) {
    let config = Config { marks, ..FOUR };
    let (world, told) = run(rt, alloc, &of_four(config, &many_inserts()));
    is_full(rt, alloc, &world, &told, marks);
}

#[test]
fn a_journal_that_is_full_ends_the_calls_of_all_threads(rt: HostRuntime) {
    for marks in [1_024, 1_500, 3_000] {
        fills(&rt, rt.alloc(), marks);
    }
}
