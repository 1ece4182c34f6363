//! Journals.
ghost use Rattle.std.specs.Prelude.{◌≡◌, ◌<◌, ◌≤◌, ◌-◌, ◌+◌, [], ℕ, List, IfOk, length, slice_get, Some};

use crate::compact::{CompactMark, whole_mark};
use crate::marks::Mark;
use crate::page_list::PageList;
use bz_call::{Call, Reply};
use bz_key::{Key, PAGE_PAIRS, Payload};
use bz_oom::Memory;
use std::alloc::Global;
use std::marker::Model;

/// A journal, seen as its log. It takes no memory after its opening.
#[derive(Drop)]
pub struct Journal {
    start: Vec<u64>,
    marks: Vec<CompactMark>,
    calls: Vec<Call>,
    replies: Vec<Reply>,
    pages: PageList,
    most_marks: u32,
    most_calls: u32,
}

impl Model for Journal {
    ghost use Rattle.bz_mark.specs.Log.{Log};
    ghost use Rattle.bz_mark.specs.Tables.{past_of};
    ghost use Rattle.bz_mark.specs.Kept.{IsKept};

    ghost Value = { Log };

    ghost view = { λ j. record {
      start = j.start.items;
      past = past_of j.calls.items j.replies.items j.marks.items;
      pages = j.pages.pages;
      limits = record { marks = j.most_marks; calls = j.most_calls; pages = j.pages.most };
    } };

    ghost invariant = { IsKept };
}

impl Journal {
    ghost use Rattle.bz_mark.specs.Log.{Log, HasRoom, with_mark, with_page};
    ghost use Rattle.bz_mark.specs.Moments.{mark_at};
    ghost use Rattle.bz_mark.specs.Tables.{IsPlain, plain_mark};

    /// A journal with no mark and no page, which goes on from this image. There is room for `marks` marks,
    /// `calls` Begins, as many Ends, and `pages` pages.
    pub fn open(
        alloc: Global,
        start: &[u64],
        marks: u32,
        calls: u32,
        pages: u32,
    ) -> Result<Journal, Memory>
        ensures start { IfOk result (λ j. j.start ≡ start.now) }
        ensures past { IfOk result (λ j. j.past ≡ []) }
        ensures pages { IfOk result (λ j. j.pages ≡ []) }
        ensures limits { IfOk result (λ j. j.limits ≡ record { marks = marks; calls = calls; pages = pages }) }
    {
        Ok(Journal {
            start: Vec::from_slice(alloc, start)?,
            marks: Vec::with_capacity(alloc, marks as usize)?,
            calls: Vec::with_capacity(alloc, calls as usize)?,
            replies: Vec::with_capacity(alloc, calls as usize)?,
            pages: PageList::open(alloc, pages)?,
            most_marks: marks,
            most_calls: calls,
        })
    }

    /// Adds a mark.
    pub fn push(&mut self, mark: Mark)
        requires { HasRoom self.old mark }
        ensures { self.new ≡ with_mark self.old mark }
    {
        match mark {
            Mark::Begin { w, n, call } => self.push_begin(w, n, call),
            Mark::End { w, n, reply, at } => self.push_end(w, n, reply, at),
            Mark::Load { w, a, v } => self.push_plain(CompactMark::Load { w, a, v }),
            Mark::Store { w, a, v } => self.push_plain(CompactMark::Store { w, a, v }),
            Mark::Cas {
                w,
                a,
                old,
                new,
                found,
            } => self.push_plain(CompactMark::Cas {
                w,
                a,
                old,
                new,
                found,
            }),
            Mark::Ask { w, line } => self.push_plain(CompactMark::Ask { w, line }),
            Mark::Fence { w } => self.push_plain(CompactMark::Fence { w }),
            Mark::Evict { a } => self.push_plain(CompactMark::Evict { a }),
            Mark::Cut => self.push_plain(CompactMark::Cut),
            Mark::On => self.push_plain(CompactMark::On),
            Mark::Ready => self.push_plain(CompactMark::Ready),
            Mark::Effect { w, n } => self.push_plain(CompactMark::Effect { w, n }),
        }
    }

    fn push_begin(&mut self, w: u8, n: u32, call: Call)
        requires { HasRoom self.old (Mark.Begin w n call) }
        ensures { self.new ≡ with_mark self.old (Mark.Begin w n call) }
    {
        let place = self.calls.len() as u32;
        self.calls.push_reserved(call);
        self.marks.push_reserved(CompactMark::Begin { w, n, place });
    }

    fn push_end(&mut self, w: u8, n: u32, reply: Reply, at: u32)
        requires { HasRoom self.old (Mark.End w n reply at) }
        ensures { self.new ≡ with_mark self.old (Mark.End w n reply at) }
    {
        let place = self.replies.len() as u32;
        match self.replies.extend_from_slice(&[reply]) {
            Ok(()) => {}
            Err(_) => unreachable!(),
        }
        self.marks
            .push_reserved(CompactMark::End { w, n, place, at });
    }

    /// Adds a mark that needs no table.
    fn push_plain(&mut self, mark: CompactMark)
        requires plain { IsPlain mark }
        requires place { length self.old.past < self.old.limits.marks }
        ensures { self.new ≡ with_mark self.old (plain_mark mark) }
    {
        self.marks.push_reserved(mark);
    }

    /// How many marks there are.
    pub fn length(&self) -> u32
        ensures { result ≡ length self.now.past }
    {
        self.marks.len() as u32
    }

    /// How many more marks there is room for.
    pub fn room(&self) -> u32
        ensures { result + length self.now.past ≡ self.now.limits.marks }
    {
        self.most_marks - self.marks.len() as u32
    }

    /// The mark with this number, counted from 0.
    pub fn mark(&self, i: u32) -> Mark
        requires { i < length self.now.past }
        ensures { mark_at i self.now.past ≡ Some result }
    {
        let compact = self.marks[i as usize];
        whole_mark(&self.calls, &self.replies, compact)
    }

    /// Adds a page, and answers its number.
    pub fn add_page(&mut self, pairs: &[(Key, Payload)]) -> u32
        requires room { length self.old.pages < self.old.limits.pages }
        requires few { length pairs.now ≤ PAGE_PAIRS }
        ensures added { self.new ≡ with_page self.old pairs.now }
        ensures number { result ≡ length self.old.pages }
    {
        self.pages.push(pairs)
    }

    /// How many pages there are.
    pub fn page_count(&self) -> u32
        ensures { result ≡ length self.now.pages }
    {
        self.pages.count()
    }

    /// The pairs of the page with this number.
    pub fn page(&self, p: u32) -> &[(Key, Payload)]
        requires { p < length self.now.pages }
        ensures pairs { slice_get self.now.pages p ≡ Some result.now }
        ensures few { length result.now ≤ PAGE_PAIRS }
    {
        self.pages.page(p)
    }

    /// The image from which the journal goes on, kept whole.
    pub fn start(&self) -> &[u64]
        ensures { result.now ≡ self.now.start }
    {
        &self.start
    }
}
