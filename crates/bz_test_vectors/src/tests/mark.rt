//! A journal filled to its room and read back.

use super::bench::same;
use bz_call::{Call, Reply};
use bz_key::{Key, PAGE_PAIRS, Payload};
use bz_mark::{Journal, Mark};
use std::alloc::Global;
use std::process::Abort;
use std::test::Fail;

// The kind, the worker or 0, and two numbers of a mark.
fn parts(mark: Mark) -> (&'static str, u8, u64, u64) {
    match mark {
        Mark::Begin { w, n, .. } => ("begin", w, n as u64, 0),
        Mark::End { w, n, at, .. } => ("end", w, n as u64, at as u64),
        Mark::Load { w, a, v } => ("load", w, a as u64, v),
        Mark::Store { w, a, v } => ("store", w, a as u64, v),
        Mark::Cas { w, a, found, .. } => ("cas", w, a as u64, found),
        Mark::Ask { w, line } => ("ask", w, line as u64, 0),
        Mark::Fence { w } => ("fence", w, 0, 0),
        Mark::Evict { a } => ("evict", 0, a as u64, 0),
        Mark::Cut => ("cut", 0, 0, 0),
        Mark::On => ("on", 0, 0, 0),
        Mark::Ready => ("ready", 0, 0, 0),
        Mark::Effect { w, n } => ("effect", w, n as u64, 0),
    }
}

// A journal with room for twelve marks, which has one of each kind.
fn filled(alloc: Global) -> Result<Journal, Fail> {
    let key = Key::of(b"a")?;
    let mut journal = Journal::open(alloc, &[7, 8], 12, 1, 0)?;
    journal.push(Mark::On);
    journal.push(Mark::Begin {
        w: 1,
        n: 1,
        call: Call::Get(key),
    });
    journal.push(Mark::Load { w: 1, a: 0, v: 7 });
    journal.push(Mark::Store {
        w: 1,
        a: 1,
        v: u64::MAX,
    });
    journal.push(Mark::Cas {
        w: 1,
        a: 0,
        old: 1,
        new: 2,
        found: 7,
    });
    journal.push(Mark::Ask { w: 2, line: 8 });
    journal.push(Mark::Fence { w: 2 });
    journal.push(Mark::Effect { w: 1, n: 1 });
    journal.push(Mark::End {
        w: 1,
        n: 1,
        reply: Reply::Missing,
        at: 3,
    });
    journal.push(Mark::Evict { a: 1 });
    journal.push(Mark::Cut);
    journal.push(Mark::Ready);
    Ok(journal)
}

// Its marks.
const PARTS: [(&str, u8, u64, u64); 12] = [
    ("on", 0, 0, 0),
    ("begin", 1, 1, 0),
    ("load", 1, 0, 7),
    ("store", 1, 1, u64::MAX),
    ("cas", 1, 0, 7),
    ("ask", 2, 8, 0),
    ("fence", 2, 0, 0),
    ("effect", 1, 1, 0),
    ("end", 1, 1, 3),
    ("evict", 0, 1, 0),
    ("cut", 0, 0, 0),
    ("ready", 0, 0, 0),
];

#[test]
fn takes_as_many_marks_as_its_room(rt: HostRuntime) -> Result<(), Fail> {
    let journal = filled(rt.alloc())?;
    same(&rt, journal.room(), 0);
    same(&rt, journal.length(), 12);
    for (i, want) in PARTS.iter().enumerate() {
        let i = i as u32;
        assert!(rt; i < journal.length());
        same(&rt, parts(journal.mark(i)), *want);
    }
    same(&rt, journal.start(), [7, 8].as_slice());
    Ok(())
}

#[test]
fn keeps_full_and_empty_pages(rt: HostRuntime) -> Result<(), Fail> {
    let pair = (Key::of(b"k01")?, Payload::of(b"v")?);
    let full = [pair; PAGE_PAIRS];
    let mut journal = Journal::open(rt.alloc(), &[], 0, 0, 2)?;
    same(&rt, journal.page_count(), 0);
    same(&rt, journal.add_page(&full), 0);
    same(&rt, journal.add_page(&[]), 1);
    same(&rt, journal.page_count(), 2);
    same(&rt, journal.page(0).len(), PAGE_PAIRS);
    same(&rt, journal.page(0), full.as_slice());
    same(&rt, journal.page(1).len(), 0);
    Ok(())
}
