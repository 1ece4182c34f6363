//! The summary of a journal that has each kind of reply, and a call that took effect and has not ended.
ghost use Rattle.bz_judge.specs.Held.{IsImage};

use super::bench::{holds, same};
use super::journal::{begin, end, open, push_all};
use bz_call::{Call, Reply, Spent};
use bz_io::MemSink;
use bz_key::{Key, Payload};
use bz_mark::{Journal, Mark};
use bz_text::write_summary;
use std::alloc::Global;
use std::process::Abort;
use std::test::Fail;

const SUMMARY: &[u8] =
    b"work 9 calls 3 workers\ninserted 2 exists 1 deleted 1 updated 1 missing 1 value 0 page 1 full 1\npairs 2\n";

// The summary of a journal of nine calls of three workers is this.
fn sums_up(rt: &impl Abort, alloc: Global, journal: &Journal, want: &[u8])
    requires { IsImage journal.now.start }
{
    let mut sink = MemSink::open(alloc, 1000).expect(rt, "a sink");
    holds(rt, write_summary(alloc, journal, 9, 3, &mut sink).is_ok());
    same(rt, sink.bytes(), want);
}

// An insert and an upsert of two keys, and the same once more.
fn puts(a: Key, b: Key, one: Payload) -> [Mark; 11] {
    [
        begin(1, 1, Call::Insert(a, one)),
        begin(2, 1, Call::Upsert(b, one)),
        Mark::Effect { w: 1, n: 1 },
        end(1, 1, Reply::Inserted, 2),
        Mark::Effect { w: 2, n: 1 },
        end(2, 1, Reply::Inserted, 4),
        begin(1, 2, Call::Insert(a, one)),
        end(1, 2, Reply::Exists, 6),
        begin(2, 2, Call::Upsert(b, one)),
        Mark::Effect { w: 2, n: 2 },
        end(2, 2, Reply::Updated(one), 9),
    ]
}

// A delete of one of them, calls that do not find it, and a delete of the other that is refused.
fn others(a: Key, b: Key, one: Payload) -> [Mark; 9] {
    let (page, next) = (0, None);
    [
        begin(3, 1, Call::Delete(a)),
        Mark::Effect { w: 3, n: 1 },
        end(3, 1, Reply::Deleted(one), 12),
        begin(3, 2, Call::Get(a)),
        end(3, 2, Reply::Missing, 14),
        begin(3, 3, Call::Page(a)),
        end(3, 3, Reply::Page { page, next }, 16),
        begin(3, 4, Call::Delete(b)),
        end(3, 4, Reply::Full(Spent::Swaps), 19),
    ]
}

// Its pair is there, and its End is not.
fn open_to_the_end(c: Key, one: Payload) -> [Mark; 2] {
    [
        begin(1, 3, Call::Insert(c, one)),
        Mark::Effect { w: 1, n: 3 },
    ]
}

#[test]
fn counts_the_ends_and_the_pairs_that_are_left(rt: HostRuntime) -> Result<(), Fail> {
    let (a, b) = (Key::of(b"a")?, Key::of(b"b")?);
    let (c, one) = (Key::of(b"c")?, Payload::of(b"1")?);
    let mut journal = open(&rt, rt.alloc());
    push_all(&rt, &mut journal, &puts(a, b, one));
    push_all(&rt, &mut journal, &others(a, b, one));
    push_all(&rt, &mut journal, &open_to_the_end(c, one));
    sums_up(&rt, rt.alloc(), &journal, SUMMARY);
    Ok(())
}
