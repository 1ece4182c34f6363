//! Threads that insert keys of their own and keys that are the same for all, and a thread that asks for pages beside them.

use super::bench::{holds, same};
use super::reader::{NONE, Tally, read};
use super::stages::Until;
use super::threads::{Case, Kind, Part, Told, expect, run};
use bz_layout::Config;
use bz_world::World;
use std::alloc::Global;
use std::process::Abort;
use std::sync::Wait;
use std::thread::Threads;

const NINE: Config = Config {
    nodes: 2_048,
    swaps: 32_768,
    workers: 9,
    marks: 1 << 21,
    calls: 1_024,
    pages: 64,
};

fn calls(kind: Kind, many: u32) -> Part {
    Part {
        kind,
        many,
        after: Until::Now,
    }
}

// Worker 1 has a page that is not all.
fn is_split(told: &Told) -> bool {
    match told.asked.last() {
        Some(asked) => told.worker == 1 && asked.page.pairs().len() <= 79,
        None => false,
    }
}

fn any_is_split(told: &[Told]) -> bool {
    told.iter().any(|one| is_split(one))
}

fn each() -> [Part; 4] {
    [
        calls(Kind::Own, 16),
        calls(Kind::GetOwn, 16),
        calls(Kind::Same, 8),
        calls(Kind::GetSame, 8),
    ]
}

const PAGE_AFTER: [Part; 1] = [Part {
    kind: Kind::Page,
    many: 1,
    after: Until::Answered(8 * 48),
}];

// All are told so, in a tree that was split.
fn are_inserted(rt: &impl Abort, alloc: Global, world: &World, told: &[Told]) {
    // Of a key that each inserts, one thread is told that it has inserted it, and every other that it was there.
    let tally = Tally {
        inserted: 8 * 16 + 8,
        exists: 7 * 8,
        values: 8 * 24,
        pages: 1,
        ..NONE
    };
    same(rt, read(rt, alloc, world, told), tally);
    // The page comes after all inserts, of 136 keys, and a leaf holds 79 of these records.
    holds(rt, any_is_split(told));
}

// These workers make each calls of their own and equal ones, but worker 1.
fn insert_all<R: Abort + Threads + Wait + Sync>(rt: &R, alloc: Global, workers: &[u8]) {
    let others = each();
    let case = Case {
        config: NINE,
        workers,
        one: &PAGE_AFTER,
        others: &others,
        deeds: &[],
        hold: None,
    };
    let (world, told) = run(rt, alloc, &case);
    are_inserted(rt, alloc, &world, &told);
}

#[test]
fn eight_threads_insert_keys_of_their_own_and_then_equal_ones(rt: HostRuntime) {
    for workers in [[1, 2, 3, 4, 5, 6, 7, 8, 9], [5, 9, 8, 3, 6, 2, 7, 4, 1]] {
        insert_all(&rt, rt.alloc(), &workers);
    }
}

fn few() -> [Part; 3] {
    [
        calls(Kind::Own, 2),
        calls(Kind::Same, 1),
        calls(Kind::Page, 1),
    ]
}

// Three workers make a few calls each, and come back in the reverse of this order.
fn come_back<R: Abort + Threads + Wait + Sync>(rt: &R, alloc: Global, workers: &[u8]) {
    let parts = few();
    let case = Case {
        config: NINE,
        workers,
        one: &parts,
        others: &parts,
        deeds: &[],
        hold: None,
    };
    let tally = Tally {
        inserted: 3 * 2 + 1,
        exists: 2,
        pages: 3,
        ..NONE
    };
    expect(rt, alloc, &case, &tally);
}

const ORDERS: [[u8; 3]; 6] = [
    [1, 2, 3],
    [1, 3, 2],
    [2, 1, 3],
    [2, 3, 1],
    [3, 1, 2],
    [3, 2, 1],
];

#[test]
fn passes_come_back_in_any_order(rt: HostRuntime) {
    for workers in ORDERS {
        come_back(&rt, rt.alloc(), &workers);
    }
}

fn many_pages() -> [Part; 1] {
    [calls(Kind::Page, 64)]
}

fn many_inserts() -> [Part; 1] {
    [calls(Kind::Own, 24)]
}

#[test]
fn a_page_beside_inserts_is_of_one_moment(rt: HostRuntime) {
    let (one, others) = (many_pages(), many_inserts());
    let case = Case {
        config: NINE,
        workers: &[1, 2, 3, 4],
        one: &one,
        others: &others,
        deeds: &[],
        hold: None,
    };
    let tally = Tally {
        inserted: 3 * 24,
        pages: 64,
        ..NONE
    };
    expect(&rt, rt.alloc(), &case, &tally);
}
