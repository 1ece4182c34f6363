//! The simulated memory and its acts.

ghost use Rattle.std.specs.Prelude.{◌≡◌, ◌↔◌, ◌*◌, ◌%◌, ◌<◌, ◌^◌, IsTrue, length, slice_index, IfOk};
ghost use Rattle.bz_pm.specs.Words.{HoldsWords};
ghost use Rattle.bz_pm.specs.State.{IsState, asks_of};
ghost use Rattle.bz_pm.specs.After.{opened, acted, unacted, after_store, after_cas, after_ask, after_fence, after_eviction, after_power_cut};

use crate::asks::{Ask, Asks, LINES_ASKED, forget, no_asks};
use crate::line::words_of;
use crate::settle::settle;
use bz_oom::Memory;
use std::alloc::Global;
use std::marker::Model;

/// A memory of words, each below 2^64, that has a cached and a durable value for every word. Addresses
/// count words, a line is eight words, and address a lies in line a / 8. Acts are those of workers from 0 on. A moment is a
/// number of asks since the opening or the last power cut.
#[derive(Drop)]
pub struct Pm {
    cached: Vec<u64>,
    durable: Vec<u64>,
    // how many acts were made
    acts: u64,

    // how many asks were made
    count: u64,

    // for each word how many asks had been made when its durable value was the cached one
    since: Vec<u64>,

    // for each worker what it asked for since its last fence
    asks: Vec<Asks>,
}

impl Model for Pm {
    ghost use Rattle.bz_pm.specs.State.{Counted, IsState};

    ghost Value = { Counted };

    ghost view = { λ pm. record { state = record { words = record { cached = pm.cached.items; durable = pm.durable.items }; count = pm.count; since = pm.since.items; asks = pm.asks.items }; acts = pm.acts } };

    ghost invariant = { λ pm. IsState (record { words = record { cached = pm.cached.items; durable = pm.durable.items }; count = pm.count; since = pm.since.items; asks = pm.asks.items }) };
}

impl Pm {
    /// A memory whose cached and durable words are `start`, for workers from 0 to `workers`. The error is want of memory.
    pub fn open(alloc: Global, start: &[u64], workers: u32) -> Result<Pm, Memory>
        requires lines { length start.now % 8 ≡ 0 }
        requires size { length start.now < 2 ^ 32 }
        ensures { IfOk result (λ pm. pm ≡ unacted (opened start.now workers)) }
    {
        let cached = Vec::from_slice(alloc, start)?;
        let durable = Vec::from_slice(alloc, start)?;
        let since = vec![in alloc; 0u64; start.len()]?;
        let asks = no_asks(alloc, workers)?;
        Ok(Pm {
            cached,
            durable,
            acts: 0,
            count: 0,
            since,
            asks,
        })
    }

    /// The number of words.
    pub fn words(&self) -> u32
        ensures words { result ≡ length self.now.state.words.durable }
        ensures state { IsState self.now.state }
        ensures fit { HoldsWords self.now.state.words }
    {
        let cached = self.cached.as_slice();
        let durable = self.durable.as_slice();
        prove_eq!(cached.len(), durable.len());
        durable.len() as u32
    }

    /// The cached word at an address.
    pub fn load(&self, a: u32) -> u64
        requires { a < length self.now.state.words.cached }
        ensures { result ≡ slice_index self.now.state.words.cached a }
    {
        self.cached[a as usize]
    }

    /// Stores a word in the caches.
    pub fn store(&mut self, a: u32, v: u64)
        requires { a < length self.old.state.words.cached }
        ensures { self.new ≡ acted self.old (after_store self.old.state a v) }
    {
        self.cached[a as usize] = v;
        self.acts = self.acts.saturating_add(1);
    }

    /// Compares the cached word with `old` and stores `new` where it is that; the value found is answered.
    pub fn cas(&mut self, a: u32, old: u64, new: u64) -> u64
        requires { a < length self.old.state.words.cached }
        ensures found { result ≡ slice_index self.old.state.words.cached a }
        ensures after { self.new ≡ acted self.old (after_cas self.old.state a old new) }
    {
        let found = self.cached[a as usize];
        self.acts = self.acts.saturating_add(1);
        if found == old {
            self.cached[a as usize] = new;
        }
        found
    }

    /// Whether a worker from 0 to the last one may ask for one more line before its next fence.
    pub fn may_ask(&self, w: u8) -> bool
        ensures { IsTrue result ↔ ((w < length self.now.state.asks) × (length (asks_of self.now.state w) < 64)) }
    {
        (w as usize) < self.asks.len() && self.asks[w as usize].as_slice().len() < LINES_ASKED
    }

    /// How many asks were made since the opening or the last power cut; the count stops at its last value.
    pub fn asked(&self) -> u64
        ensures { result ≡ self.now.state.count }
    {
        self.count
    }

    /// Asks, for a worker, that the eight cached words of a line as they are now be durable after its next fence.
    pub fn ask(&mut self, w: u8, line: u32)
        requires worker { w < length self.old.state.asks }
        requires room { length (asks_of self.old.state w) < 64 }
        requires line { line * 8 < length self.old.state.words.cached }
        ensures { self.new ≡ acted self.old (after_ask self.old.state w line) }
    {
        let words = words_of(&self.cached, line as usize);
        let moment = self.count.saturating_add(1);
        self.asks[w as usize].put(Ask {
            line,
            moment,
            words,
        });
        self.count = moment;
        self.acts = self.acts.saturating_add(1);
    }

    /// Makes what a worker asked for durable, each word unless a later value of it is, and forgets what it asked for.
    pub fn fence(&mut self, w: u8)
        requires { w < length self.old.state.asks }
        ensures { self.new ≡ acted self.old (after_fence self.old.state w) }
    {
        let asks = self.asks[w as usize].as_slice();
        settle(asks, &mut self.durable, &mut self.since);
        self.asks[w as usize].clear();
        self.acts = self.acts.saturating_add(1);
    }

    /// Makes the cached word at an address durable. This is no act of a worker.
    pub fn evict(&mut self, a: u32)
        requires { a < length self.old.state.words.cached }
        ensures { self.new ≡ record self.old { state = after_eviction self.old.state a } }
    {
        self.durable[a as usize] = self.cached[a as usize];
        self.since[a as usize] = self.count;
    }

    /// Cuts the power: every cached word is lost, and the durable one stands in its place; what was asked for is forgotten.
    pub fn cut(&mut self)
        ensures { self.new ≡ unacted (after_power_cut self.old.state) }
    {
        self.cached.copy_from_slice(&self.durable);
        self.since.fill(0);
        forget(&mut self.asks);
        self.acts = 0;
        self.count = 0;
    }

    /// The durable word at an address.
    pub fn durable(&self, a: u32) -> u64
        requires { a < length self.now.state.words.cached }
        ensures { result ≡ slice_index self.now.state.words.durable a }
    {
        self.durable[a as usize]
    }
}
