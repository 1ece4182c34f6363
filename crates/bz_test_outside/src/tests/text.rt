//! A journal whose calls end in another order than they took place, and one with power cuts.
ghost use Rattle.bz_judge.specs.Held.{IsImage};

use super::bench::{holds, same};
use super::journal::{begin, end, open, push_all};
use bz_call::{Call, Reply, Spent};
use bz_io::MemSink;
use bz_key::{Key, Payload};
use bz_mark::{Journal, Mark};
use bz_text::write_report;
use std::alloc::Global;
use std::process::Abort;
use std::test::Fail;

// The report of a journal is this.
fn reports(rt: &impl Abort, alloc: Global, journal: &Journal, want: &[u8])
    requires { IsImage journal.now.start }
{
    let mut sink = MemSink::open(alloc, 1000).expect(rt, "a sink");
    holds(rt, write_report(alloc, journal, &mut sink).is_ok());
    same(rt, sink.bytes(), want);
}

const REPORT: &[u8] =
    b"w2.1 get a = missing\nw1.1 insert a 1 = inserted\nw3.1 update a%20b % = full height\nw2.2 page a = page a=1 next b\nw3.2 upsert a 22 = updated 1\n";

// An insert, and a get that took place before it and ends after it.
fn crossing(a: Key, one: Payload) -> [Mark; 8] {
    [
        begin(1, 1, Call::Insert(a, one)),
        begin(2, 1, Call::Get(a)),
        Mark::Load { w: 2, a: 0, v: 0 },
        Mark::Evict { a: 0 },
        Mark::Fence { w: 1 },
        Mark::Effect { w: 1, n: 1 },
        end(1, 1, Reply::Inserted, 5),
        end(2, 1, Reply::Missing, 3),
    ]
}

// A call that is refused.
fn refused(key: Key, payload: Payload) -> [Mark; 2] {
    [
        begin(3, 1, Call::Update(key, payload)),
        end(3, 1, Reply::Full(Spent::Height), 9),
    ]
}

// A page that took place before an upsert and ends after it.
fn paged(a: Key, one: Payload, two: Payload, page: u32, next: Key) -> [Mark; 5] {
    let next = Some(next);
    [
        begin(2, 2, Call::Page(a)),
        // it is open to the end, and not printed
        begin(1, 2, Call::Delete(a)),
        begin(3, 2, Call::Upsert(a, two)),
        end(3, 2, Reply::Updated(one), 14),
        end(2, 2, Reply::Page { page, next }, 12),
    ]
}

#[test]
fn prints_the_ended_calls_in_the_order_of_their_moments(rt: HostRuntime) -> Result<(), Fail> {
    let (a, one) = (Key::of(b"a")?, Payload::of(b"1")?);
    let (escaped, none) = (Key::of(b"a b")?, Payload::of(b"")?);
    let (b, two) = (Key::of(b"b")?, Payload::of(b"22")?);
    let mut journal = open(&rt, rt.alloc());
    let page = journal.add_page(&[(a, one)]);
    push_all(&rt, &mut journal, &crossing(a, one));
    push_all(&rt, &mut journal, &refused(escaped, none));
    push_all(&rt, &mut journal, &paged(a, one, two, page, b));
    reports(&rt, rt.alloc(), &journal, REPORT);
    Ok(())
}

const CUT_REPORT: &[u8] =
    b"w3.1 get a = missing\nw1.1 insert a 1 = kept\nw2.1 insert b 1 = lost\npower cut\npower on 1 pairs\npower cut\npower on 1 pairs\nw1.2 delete a = deleted 1\n";

// Two calls that a power cut leaves open, of which one took effect. The memory is cut in its recovery too.
fn cut(a: Key, b: Key, one: Payload) -> [Mark; 10] {
    [
        begin(2, 1, Call::Insert(b, one)),
        begin(3, 1, Call::Get(a)),
        begin(1, 1, Call::Insert(a, one)),
        end(3, 1, Reply::Missing, 3),
        Mark::Effect { w: 1, n: 1 },
        Mark::Cut,
        Mark::On,
        Mark::Cut,
        Mark::On,
        Mark::Ready,
    ]
}

// A delete after it, and a get that is open to the end, and not printed.
fn after_it(a: Key, b: Key, one: Payload) -> [Mark; 4] {
    [
        begin(1, 2, Call::Delete(a)),
        Mark::Effect { w: 1, n: 2 },
        end(1, 2, Reply::Deleted(one), 11),
        begin(2, 2, Call::Get(b)),
    ]
}

#[test]
fn tells_what_each_cut_left(rt: HostRuntime) -> Result<(), Fail> {
    let (a, b, one) = (Key::of(b"a")?, Key::of(b"b")?, Payload::of(b"1")?);
    let mut journal = open(&rt, rt.alloc());
    push_all(&rt, &mut journal, &cut(a, b, one));
    push_all(&rt, &mut journal, &after_it(a, b, one));
    reports(&rt, rt.alloc(), &journal, CUT_REPORT);
    Ok(())
}
