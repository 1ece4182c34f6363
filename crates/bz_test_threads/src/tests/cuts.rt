//! A power cut, and power on, while threads have calls open.

use super::bench::same;
use super::reader::{NONE, Tally};
use super::stages::{Hold, Until};
use super::threads::{Case, Deed, Kind, Part, expect, tell};
use bz_layout::Config;
use std::alloc::Global;
use std::process::Abort;
use std::sync::Wait;
use std::thread::Threads;

const FOUR: Config = Config {
    nodes: 256,
    swaps: 4_096,
    workers: 4,
    marks: 1 << 19,
    calls: 1_024,
    pages: 8,
};

fn calls(kind: Kind, many: u32, after: Until) -> Part {
    Part { kind, many, after }
}

// Each call that runs is held after its first act, a load, until the power was cut. One that begins then finds it off; one
// that begins once it is on finds the recovery under way.
fn held() -> [Part; 6] {
    [
        calls(Kind::Own, 1, Until::Now),
        calls(Kind::Own, 1, Until::Deeds(1)),
        calls(Kind::Own, 1, Until::Deeds(2)),
        calls(Kind::GetOwn, 8, Until::Deeds(3)),
        calls(Kind::Own, 8, Until::Now),
        calls(Kind::GetOwn, 8, Until::Now),
    ]
}

const ONCE: [(Deed, Until); 3] = [
    (Deed::Cut, Until::Held(4)),
    (Deed::On, Until::Answered(8)),
    (Deed::Recover, Until::Answered(12)),
];

// The calls of these workers are held, and the power is cut once.
fn cut_once<R: Abort + Threads + Wait + Sync>(rt: &R, alloc: Global, workers: &[u8]) {
    let parts = held();
    let hold = Some(Hold {
        worker: 0,
        acts: 1,
        until: Until::Deeds(1),
    });
    let tally = Tally {
        off: 8,
        recovering: 4,
        missing: 32,
        inserted: 32,
        values: 32,
        ..NONE
    };
    let case = Case {
        config: FOUR,
        workers,
        one: &parts,
        others: &parts,
        deeds: &ONCE,
        hold,
    };
    expect(rt, alloc, &case, &tally);
}

#[test]
fn calls_that_run_are_answered_off_and_those_that_begin_until_the_recovery_has_ended(
    rt: HostRuntime,
) {
    for workers in [[1, 2, 3, 4], [3, 1, 4, 2]] {
        cut_once(&rt, rt.alloc(), &workers);
    }
}

fn inserts_and_gets() -> [Part; 3] {
    [
        calls(Kind::Own, 24, Until::Now),
        calls(Kind::GetOwn, 24, Until::Deeds(6)),
        calls(Kind::GetSame, 8, Until::Now),
    ]
}

// Four threads make these calls while the power is cut twice, once so many were answered, and recovered.
fn cut_twice<R: Abort + Threads + Wait + Sync>(rt: &R, alloc: Global, answered: u32) -> Tally {
    let parts = inserts_and_gets();
    let deeds = [
        (Deed::Cut, Until::Answered(answered)),
        (Deed::On, Until::Now),
        (Deed::Recover, Until::Now),
        (Deed::Cut, Until::Answered(answered.saturating_add(20))),
        (Deed::On, Until::Now),
        (Deed::Recover, Until::Now),
    ];
    let case = Case {
        config: FOUR,
        workers: &[1, 2, 3, 4],
        one: &parts,
        others: &parts,
        deeds: &deeds,
        hold: None,
    };
    tell(rt, alloc, &case)
}

#[test]
fn a_cut_at_any_time_leaves_one_map(rt: HostRuntime) {
    for answered in [0u32, 1, 3, 10, 30] {
        let tally = cut_twice(&rt, rt.alloc(), answered);
        // After the last recovery each get is replied.
        same(&rt, tally.values.saturating_add(tally.missing), 4 * 32);
        same(&rt, tally.other, 0);
    }
}
