//! The words of a memory, replayed mark by mark.
ghost use Rattle.std.specs.Prelude.{◌≡◌, ◌<◌, ◌+◌, ◌%◌, ◌*◌, ◌^◌, IfOk, OnOk, length, slice_get};
ghost use Rattle.bz_mark.specs.Laws.{IsOfMemory};
ghost use Rattle.bz_check.specs.Kept.{Kept as Words, IsSized, opened, with_store, with_ask, with_fence, with_eviction, with_cut, kept_after};

use crate::asks::{Asked, Asks};
use crate::settle::{forget, no_asks, restore, settle, settle_word, words_of};
use bz_mark::Mark;
use bz_oom::Memory;
use std::alloc::Global;
use std::marker::Model;

/// How many workers a mark may name.
pub(crate) const WORKERS: usize = 256;

/// The words after marks, with what fences and cuts need to know of the past. A moment is a number of marks.
#[derive(Drop)]
pub(crate) struct Replay {
    cached: Vec<u64>,
    durable: Vec<u64>,
    // for each word the moment from which its durable value dates, where that is later than the last cut
    since: Vec<u32>,
    // for each worker what it asked for
    asks: Vec<Asks>,
    // the addresses at which cached words may differ from durable ones: those of stores since the last cut
    stored: Vec<u32>,
    // the moment after the last cut
    cut: u32,
}

impl Model for Replay {
    ghost use Rattle.bz_check.specs.Kept.{Kept};

    ghost Value = { Kept };

    ghost view = { λ r. record { cached = r.cached.items; durable = r.durable.items; since = r.since.items; asks = r.asks.items; stored = r.stored.items; cut = r.cut } };
}

impl Replay {
    /// The words of a start image, before any mark.
    pub(crate) fn open(alloc: Global, start: &[u64]) -> Result<Replay, Memory>
        ensures { IfOk result (λ r. r ≡ opened start.now) }
    {
        let cached = Vec::from_slice(alloc, start)?;
        let durable = Vec::from_slice(alloc, start)?;
        let since = vec![in alloc; 0u32; start.len()]?;
        let asks = no_asks(alloc, WORKERS)?;
        Ok(Replay {
            cached,
            durable,
            since,
            asks,
            stored: Vec::new(alloc),
            cut: 0,
        })
    }

    /// The cached word at an address, if the memory has it.
    pub(crate) fn load(&self, a: u32) -> Option<u64>
        ensures { result ≡ slice_get self.now.cached a }
    {
        self.cached.get(a as usize).copied()
    }

    /// The durable words.
    pub(crate) fn durable(&self) -> &[u64]
        ensures { result.now ≡ self.now.durable }
    {
        &self.durable
    }

    fn store(&mut self, a: u32, v: u64) -> Result<(), Memory>
        requires { a < length self.old.cached }
        ensures { OnOk result (self.new ≡ with_store self.old a v) }
    {
        self.stored.push(a)?;
        self.cached[a as usize] = v;
        Ok(())
    }

    fn ask(&mut self, now: u32, w: u8, line: u32) -> Result<(), Memory>
        requires sized { IsSized self.old }
        requires line { line * 8 < length self.old.cached }
        ensures { OnOk result (self.new ≡ with_ask self.old now w line) }
    {
        let words = words_of(&self.cached, line as usize);
        self.asks[w as usize].push(Asked {
            line,
            moment: now,
            words,
        })?;
        Ok(())
    }

    fn fence(&mut self, w: u8)
        requires sized { IsSized self.old }
        ensures { self.new ≡ with_fence self.old w }
    {
        let asks = self.asks[w as usize].as_slice();
        settle(asks, &mut self.durable, &mut self.since);
        self.asks[w as usize].clear();
    }

    fn evict(&mut self, now: u32, a: u32)
        requires sized { IsSized self.old }
        requires within { a < length self.old.cached }
        ensures { self.new ≡ with_eviction self.old now a }
    {
        let word = self.cached[a as usize];
        settle_word(a as usize, now, word, &mut self.durable, &mut self.since);
    }

    fn cut(&mut self, now: u32)
        requires sized { IsSized self.old }
        requires few { now + 1 < 2 ^ 32 }
        ensures { self.new ≡ with_cut self.old now }
    {
        restore(&self.stored, &mut self.cached, &self.durable);
        forget(&mut self.asks);
        self.stored.clear();
        self.cut = now + 1;
    }

    /// Takes a mark, with so many marks before it.
    pub(crate) fn take(&mut self, now: u32, mark: &Mark) -> Result<(), Memory>
        requires sized { IsSized self.old }
        requires named { IsOfMemory (length self.old.cached) mark.now }
        requires few { now + 1 < 2 ^ 32 }
        ensures { OnOk result (self.new ≡ kept_after self.old now mark.now) }
    {
        match *mark {
            Mark::Store { w: _, a, v } => self.store(a, v),
            Mark::Cas {
                w: _,
                a,
                old,
                new,
                found,
            } => {
                if found == old {
                    self.store(a, new)
                } else {
                    Ok(())
                }
            }
            Mark::Ask { w, line } => self.ask(now, w, line),
            Mark::Fence { w } => {
                self.fence(w);
                Ok(())
            }
            Mark::Evict { a } => {
                self.evict(now, a);
                Ok(())
            }
            Mark::Cut => {
                self.cut(now);
                Ok(())
            }
            _ => Ok(()),
        }
    }
}
