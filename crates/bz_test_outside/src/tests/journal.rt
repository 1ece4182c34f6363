//! Journals over the image of a fresh memory, made mark by mark.
ghost use Rattle.std.specs.Prelude.{◌≡◌, ◌<◌, length};
ghost use Rattle.bz_judge.specs.Held.{IsImage};

use bz_call::{Call, Reply};
use bz_judge::check;
use bz_layout::Config;
use bz_mark::{Journal, Mark};
use std::alloc::Global;
use std::process::Abort;

// A memory of one node and one descriptor.
const SMALL: Config = Config {
    nodes: 1,
    swaps: 1,
    workers: 3,
    marks: 1024,
    calls: 16,
    pages: 1,
};

const WORDS: usize = 288;

pub(super) fn begin(w: u8, n: u32, call: Call) -> Mark {
    Mark::Begin { w, n, call }
}

pub(super) fn end(w: u8, n: u32, reply: Reply, at: u32) -> Mark {
    Mark::End { w, n, reply, at }
}

/// A journal over such a memory, with room for forty marks and a page.
pub(super) fn open(rt: &impl Abort, alloc: Global) -> Journal
    ensures image { IsImage result.start }
    ensures calls { result.limits.calls ≡ result.limits.marks }
    ensures page { length result.pages < result.limits.pages }
{
    let mut image = [0u64; WORDS];
    image[0] = 2;
    image[1] = 1;
    image[3] = 1;
    image[4] = 1;
    let journal = Journal::open(alloc, &image, 40, 40, 1).expect(rt, "a journal");
    match check(alloc, journal.start(), &SMALL) {
        Ok(_shape) => journal,
        Err(_) => panic!(rt; "the start is an image"),
    }
}

// Adds a mark, if there is a place for it.
#[tactic(auto, using(crate::proofs::Rooms::has_room))]
fn push(rt: &impl Abort, journal: &mut Journal, mark: Mark)
    requires image { IsImage journal.old.start }
    requires calls { journal.old.limits.calls ≡ journal.old.limits.marks }
    ensures image { IsImage journal.new.start }
    ensures calls { journal.new.limits.calls ≡ journal.new.limits.marks }
{
    assert!(rt; journal.room() > 0);
    journal.push(mark);
}

/// Adds these marks.
pub(super) fn push_all(rt: &impl Abort, journal: &mut Journal, marks: &[Mark])
    requires image { IsImage journal.old.start }
    requires calls { journal.old.limits.calls ≡ journal.old.limits.marks }
    ensures image { IsImage journal.new.start }
    ensures calls { journal.new.limits.calls ≡ journal.new.limits.marks }
{
    for mark in marks {
        push(rt, journal, *mark);
    }
}
