//! What is counted of marks: descriptors that are taken, and pages.
ghost use Rattle.std.specs.Prelude.{◌≡◌, ◌<◌, ◌≤◌, ◌+◌, ◌^◌, IfOk, IfSome, length};
ghost use Rattle.bz_layout.specs.Config.{IsConfig};
ghost use Rattle.bz_check.specs.Counts.{no_counts, CountsWithin, taken_by, with_taken, with_reply, counts_after, standing_in};

use crate::table::Table;
use bz_call::Reply;
use bz_layout::{Config, SUPERBLOCK_WORDS, SWAP_STATUS_AT, SWAP_WORDS};
use bz_mark::Mark;
use bz_oom::Memory;
use std::alloc::Global;
use std::marker::Model;

/// The status of a swap that has begun.
const BEGUN: u64 = 1;

/// How things stand for an End: how many marks stand before it, which number the next page has, and whether descriptors are spent.
#[derive(Drop)]
pub(crate) struct Standing {
    pub(crate) moment: u32,
    pub(crate) page: u32,
    pub(crate) spent: bool,
}

/// What a judge counts. A descriptor is taken since the last On where a swap began in it after that.
#[derive(Drop)]
pub(crate) struct Counter {
    // for each descriptor the moment after the last store that began a swap in it, and 0 where none did
    begun: Vec<u32>,
    workers: u8,
    // the moment after the last On
    on: u32,
    // how many descriptors are taken since
    taken: u32,
    // how many Ends named a page
    pages: u32,
}

impl Model for Counter {
    ghost use Rattle.bz_check.specs.Counts.{Counted};

    ghost Value = { Counted };

    ghost view = { λ k. record { begun = k.begun.items; workers = k.workers; on = k.on; taken = k.taken; pages = k.pages } };
}

/// The descriptor in which a store begins a swap, if it is one of so many.
fn begins_in(swaps: usize, w: u8, a: u32, v: u64) -> Option<usize>
    ensures within { IfSome result (λ swap. swap < swaps) }
    ensures swap { result ≡ taken_by swaps w a v }
{
    if w == 0 || (v != BEGUN || a < SUPERBLOCK_WORDS) {
        return None;
    }
    let from = a - SUPERBLOCK_WORDS;
    let swap = (from / SWAP_WORDS) as usize;
    if from % SWAP_WORDS == SWAP_STATUS_AT && swap < swaps {
        Some(swap)
    } else {
        None
    }
}

impl Counter {
    /// Nothing is counted yet.
    pub(crate) fn open(alloc: Global, config: &Config) -> Result<Counter, Memory>
        requires { IsConfig config.now }
        ensures { IfOk result (λ k. k ≡ no_counts config.now) }
    {
        let begun = vec![in alloc; 0u32; config.swaps as usize]?;
        Ok(Counter {
            begun,
            workers: config.workers as u8,
            on: 0,
            taken: 0,
            pages: 0,
        })
    }

    fn store(&mut self, now: u32, w: u8, a: u32, v: u64)
        requires few { now + 1 < 2 ^ 32 }
        requires counted { CountsWithin now self.old }
        ensures { self.new ≡ with_taken self.old now (taken_by (length self.old.begun) w a v) }
    {
        let Some(swap) = begins_in(self.begun.len(), w, a, v) else {
            return;
        };
        if self.begun[swap] <= self.on {
            self.taken += 1;
        }
        self.begun[swap] = now + 1;
    }

    fn end(&mut self, now: u32, reply: &Reply)
        requires few { now + 1 < 2 ^ 32 }
        requires counted { CountsWithin now self.old }
        ensures { self.new ≡ with_reply self.old reply.now }
    {
        match *reply {
            Reply::Page { page: _, next: _ } => self.pages += 1,
            _ => {}
        }
    }

    /// Takes a mark, with so many marks before it.
    pub(crate) fn take(&mut self, now: u32, mark: &Mark)
        requires few { now + 1 < 2 ^ 32 }
        requires counted { CountsWithin now self.old }
        ensures { self.new ≡ counts_after self.old now mark.now }
    {
        match *mark {
            Mark::Store { w, a, v } => self.store(now, w, a, v),
            Mark::End {
                w: _,
                n: _,
                reply,
                at: _,
            } => self.end(now, &reply),
            Mark::On => {
                self.on = now + 1;
                self.taken = 0;
            }
            _ => {}
        }
    }

    /// How things stand for the End of a worker's call, with so many marks before it.
    pub(crate) fn standing(&self, table: &Table, now: u32, w: u8) -> Standing
        requires { length table.now.callers ≡ 256 }
        ensures { result ≡ standing_in self.now table.now now w }
    {
        let others = table.others(self.workers, w);
        let held = self.taken as usize + others as usize;
        Standing {
            moment: now,
            page: self.pages,
            spent: self.begun.len() <= held,
        }
    }
}
