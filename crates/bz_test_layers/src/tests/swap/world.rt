//! A memory of any size, which asks before each call whether it may come.

ghost use Rattle.std.specs.Prelude.{◌≡◌, ◌+◌, ◌*◌, ◌/◌, ◌%◌, ◌^◌, ◌<◌, ◌≤◌, ◌||◌, ℕ, All, true, false, length, get_or, slice_index, IfSome};
ghost use Rattle.bz_word.specs.declared.entry.Entry.{Entry};
ghost use Rattle.bz_layout.specs.Addresses.{swap_address};
ghost use Rattle.bz_swap.specs.Starts.{IsAddress, IsEntry, MayFlush, MayRecover, MayStore, MayWork};
ghost use Rattle.bz_swap.specs.SwapMemory.{Idle, doing_of, is_target};
ghost use Rattle.bz_swap.specs.Power.{MayRenew};

use bz_oom::Memory;
use bz_swap::{Access, EntryList, NoSwap, Phase, Progress};
use bz_word::Entry;
use std::alloc::Global;
use std::marker::Model;

const VALUES: u64 = 1 << 61;

#[derive(Drop)]
pub(crate) struct World {
    access: Access,
    // how many words there are, how many descriptors, and how many workers with worker 0
    words: u32,
    swaps: u32,
    count: u8,
    // whether a swap begun since the last cut and renewal names the address
    named: Vec<bool>,
    // whether a word was stored there by itself since the last renewal: what was not is settled outside a recovery time
    stored: Vec<bool>,
}

impl Model for World {
    ghost use Rattle.std.specs.Prelude.{◌≡◌, ◌≢◌, ◌<◌, ◌≤◌, ◌^◌, ℕ, false, length, get_or};
    ghost use Rattle.bz_layout.specs.Addresses.{swap_address};
    ghost use Rattle.bz_test_layers.specs.Settled.{AreSettled};
    ghost use Rattle.bz_swap.specs.SwapMemory.{SwapMemory, Storing, doing_of, is_named};

    ghost Value = { SwapMemory };

    ghost view = { λ w. w.access };

    // no worker is between the start of a store and the store
    ghost invariant = { λ w. (w.swaps ≤ 2 ^ 16) × (w.count ≤ 65) × (0 < w.count) × (swap_address w.swaps ≤ w.words) × (length w.access.cached ≡ w.words) × (length w.access.durable ≡ w.words) × (length w.access.workers ≡ w.count) × (w.access.swaps ≡ w.swaps) × (length w.named.items ≡ w.words) × ((a : ℕ) → get_or w.named.items a false ≡ is_named w.access a) × ((u a v : ℕ) → doing_of w.access u ≢ Storing a v) × (length w.stored.items ≡ w.words) × AreSettled w.access w.stored.items };
}

// The list of these entries, of which there are one to four in the order of their targets.
fn list_of(entries: &[Entry]) -> Option<EntryList>
    ensures { IfSome result (λ list. list ≡ entries.now) }
{
    match entries {
        [a] => Some(EntryList::one(*a)),
        [a, b] if a.target < b.target => Some(EntryList::one(*a).with(*b)),
        [a, b, c] if a.target < b.target && b.target < c.target => {
            Some(EntryList::one(*a).with(*b).with(*c))
        }
        [a, b, c, d] if a.target < b.target && b.target < c.target && c.target < d.target => {
            Some(EntryList::one(*a).with(*b).with(*c).with(*d))
        }
        _ => None,
    }
}

// Marks the target of each of these entries.
fn mark(named: &mut Vec<bool>, entries: &[Entry])
    requires { All (λ (e : Entry). e.target < length named.old.items) entries.now }
    ensures size { length named.new.items ≡ length named.old.items }
    ensures each { (a : ℕ) → get_or named.new.items a false ≡ (get_or named.old.items a false || is_target entries.now a) }
{
    for entry in entries {
        named[entry.target as usize] = true;
    }
}

impl World {
    /// A memory of these words, for workers from 0 to `workers`.
    pub(crate) fn open(
        alloc: Global,
        start: &[u64],
        swaps: u32,
        workers: u8,
    ) -> Result<World, Memory>
        requires lines { length start.now % 8 ≡ 0 }
        requires size { length start.now < 2 ^ 32 }
        requires some { 1 ≤ swaps }
        requires numbered { swaps ≤ 2 ^ 16 }
        requires room { 16 + 16 * swaps ≤ length start.now }
        requires workers { (1 ≤ workers) × (workers ≤ 64) }
    {
        let named = vec![in alloc; false; start.len()]?;
        let stored = vec![in alloc; false; start.len()]?;
        let access = Access::open(alloc, start, swaps, workers as u32)?;
        Ok(World {
            access,
            words: start.len() as u32,
            swaps,
            count: workers + 1,
            named,
            stored,
        })
    }

    pub(crate) fn phase(&self) -> Phase {
        self.access.phase()
    }

    /// The first address after the descriptors.
    pub(crate) fn first(&self) -> u32 {
        16 + 16 * self.swaps
    }

    /// How many descriptors there are.
    pub(crate) fn swaps(&self) -> u32 {
        self.swaps
    }

    /// How many words there are.
    pub(crate) fn words(&self) -> u32 {
        self.words
    }

    /// The durable word at an address; 0 past the memory.
    pub(crate) fn durable(&self, a: u32) -> u64 {
        if a < self.words {
            self.access.durable(a)
        } else {
            0
        }
    }

    /// The cached word at an address; 0 past the memory.
    pub(crate) fn cached(&self, a: u32) -> u64 {
        if a < self.words {
            self.access.cached(a)
        } else {
            0
        }
    }

    /// Whether a worker does nothing.
    pub(crate) fn idle(&self, w: u8) -> bool {
        w >= self.count || self.access.idle(w)
    }

    /// How many more steps a worker makes at most while it steps alone.
    pub(crate) fn left(&self, w: u8) -> u32 {
        self.access.left(w)
    }

    // Whether an address lies outside the descriptors, within the memory.
    fn is_address(&self, a: u32) -> bool
        ensures { result ≡ true → IsAddress self.now a }
    {
        a < self.words && (a < 16 || a >= 16 + 16 * self.swaps)
    }

    // Whether a swap may have this entry.
    fn fits(&self, entry: Entry) -> bool
        ensures { result ≡ true → IsEntry self.now entry }
    {
        let a = entry.target;
        if !self.is_address(a) || entry.expected >= VALUES || entry.new >= VALUES {
            return false;
        }
        self.access.phase() != Phase::Recovering
            && (self.named[a as usize] || !self.stored[a as usize])
    }

    // Whether a swap may have these entries.
    fn fit(&self, entries: &[Entry]) -> bool
        ensures { result ≡ true → All (IsEntry self.now) entries.now }
    {
        for entry in entries {
            if !self.fits(*entry) {
                return false;
            }
        }
        true
    }

    // Whether a worker may start something.
    fn may_work(&self, w: u8) -> bool
        ensures { result ≡ true → MayWork self.now w }
    {
        w >= 1 && w < self.count && self.access.idle(w) && self.access.phase() != Phase::Recovering
    }

    /// Begins a swap of a list of these entries; none where it may not come.
    pub(crate) fn start(
        &mut self,
        w: u8,
        list: EntryList,
        entries: &[Entry],
    ) -> Option<Result<u16, NoSwap>>
        requires { list ≡ entries.now }
    {
        if !self.may_work(w) || !self.fit(entries) {
            return None;
        }
        let Ok(swap) = self.access.start_swap(w, list) else {
            return Some(Err(NoSwap));
        };
        mark(&mut self.named, entries);
        Some(Ok(swap))
    }

    /// Begins a swap of one to four entries in the order of their targets; none where it may not come.
    pub(crate) fn begin(&mut self, w: u8, entries: &[Entry]) -> Option<Result<u16, NoSwap>> {
        match list_of(entries) {
            Some(list) => self.start(w, list, entries),
            None => None,
        }
    }

    /// Begins a read of an address outside the descriptors; false where it may not come.
    pub(crate) fn begin_read(&mut self, w: u8, a: u32) -> bool {
        let may = self.is_address(a) && self.may_work(w);
        if may {
            self.access.start_read(w, a);
        }
        may
    }

    /// Makes a step of a worker; none where it is idle.
    pub(crate) fn step(&mut self, w: u8) -> Option<Progress> {
        if w >= self.count || self.access.idle(w) || self.access.steps() >= 1 << 36 {
            return None;
        }
        Some(self.access.step(w))
    }

    /// Evicts a word, and tells whether a swap took effect with it.
    pub(crate) fn evict(&mut self, a: u32) -> Option<u16> {
        if a < self.words {
            self.access.evict(a)
        } else {
            None
        }
    }

    pub(crate) fn cut(&mut self) {
        self.access.cut();
        self.named.fill(false);
    }

    // Whether worker 0 may start something.
    fn may_recover(&self) -> bool
        ensures { result ≡ true → MayRecover self.now }
    {
        self.access.idle(0) && self.access.phase() != Phase::Running
    }

    // Whether a worker may store this word.
    fn may_store(&self, w: u8, a: u32, v: u64) -> bool
        ensures { result ≡ true → MayStore self.now w a v }
    {
        if w == 0 {
            return a < self.words && self.may_recover();
        }
        self.is_address(a) && !self.named[a as usize] && v < VALUES && self.may_work(w)
    }

    /// Stores a private word, or by worker 0 in a recovery time any word; none where that may not come.
    pub(crate) fn store(&mut self, w: u8, a: u32, v: u64) -> Option<Progress> {
        if w >= self.count || self.access.steps() >= 1 << 36 || !self.may_store(w, a, v) {
            return None;
        }
        self.stored[a as usize] = true;
        self.access.start_store(w, a, v);
        Some(self.access.step(w))
    }

    // Whether a worker may flush the line of an address.
    fn may_flush(&self, w: u8, a: u32) -> bool
        ensures { result ≡ true → MayFlush self.now w (a / 8) }
    {
        if w == 0 {
            return a < self.words && self.may_recover();
        }
        self.is_address(a) && self.may_work(w)
    }

    /// Begins to flush the line of an address: asks for it. The worker's next step is the fence. None where that may not
    /// come.
    pub(crate) fn flush(&mut self, w: u8, a: u32) -> Option<Progress> {
        if w >= self.count || self.access.steps() >= 1 << 36 || !self.may_flush(w, a) {
            return None;
        }
        self.access.start_flush(w, a / 8);
        Some(self.access.step(w))
    }

    // Whether each word is plain, and the same in the caches and in the memory itself.
    fn is_plain(&self) -> bool
        ensures { result ≡ true → (a : ℕ) → a < length self.now.cached → (slice_index self.now.cached a ≡ slice_index self.now.durable a) × (slice_index self.now.durable a < 2 ^ 61) }
    {
        for a in 0..self.words {
            let word = self.access.durable(a);
            if word >= VALUES || word != self.access.cached(a) {
                return false;
            }
        }
        true
    }

    // Whether each worker does nothing.
    fn are_idle(&self) -> bool
        ensures { result ≡ true → (w : ℕ) → w < length self.now.workers → doing_of self.now w ≡ Idle }
    {
        for w in 0..self.count {
            if !self.access.idle(w) {
                return false;
            }
        }
        true
    }

    // Whether each descriptor is free.
    fn are_free(&self) -> bool
        ensures { result ≡ true → (s : ℕ) → s < self.now.swaps → slice_index self.now.durable (swap_address s) ≡ 0 }
    {
        for s in 0..self.swaps {
            if self.access.durable(16 + 16 * s) != 0 {
                return false;
            }
        }
        true
    }

    // Whether the descriptors may be given back.
    fn may_renew(&self) -> bool
        ensures { result ≡ true → MayRenew self.now }
    {
        let _access = &self.access;
        if !self.are_idle() || !self.are_free() {
            return false;
        }
        self.is_plain()
    }

    /// Gives the descriptors back; false where that may not come.
    pub(crate) fn renew(&mut self) -> bool {
        let may = self.may_renew();
        if may {
            self.access.renew();
            self.named.fill(false);
            self.stored.fill(false);
        }
        may
    }
}
