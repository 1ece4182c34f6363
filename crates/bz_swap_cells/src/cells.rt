//! The typed memory and its acts.

ghost use Rattle.std.specs.Prelude.{◌≡◌, ◌≢◌, ◌==◌, ◌/◌, ◌+◌, ◌*◌, ◌<◌, ◌≤◌, ◌%◌, ◌^◌, false, [], length, replicate, slice_index, IfOk};
ghost use Rattle.bz_word.specs.Kinds.{IsKind, word};
ghost use Rattle.bz_layout.specs.Addresses.{swap_address};
ghost use Rattle.bz_pm.specs.Acts.{stored, compared};
ghost use Rattle.bz_pm.specs.After.{after_eviction, after_ask, after_fence};
ghost use Rattle.bz_swap_machine.specs.Changes.{with_word, with_copies, with_status, with_durable_status, with_field, with_durable_fields, line_of, head_of, tail_of, with_ask, fenced};
ghost use Rattle.bz_swap_cells.specs.Store.{Beside, HasRoom, IsStore, IsOutside, MayAsk, SameShape, typed, store_words, with_words, store_state, with_state, status_word, kind_at, status_at, descriptor_word_at, field_address, field_count};

use crate::address::{field_at, swap_at};
use crate::meaning::{kind_in, status_in, word_of_status};
use bz_layout::LINE_WORDS;
use bz_oom::Memory;
use bz_pm::Pm;
use bz_swap_machine::SwapStatus;
use bz_word::{WordKind, word_of};
use std::alloc::Global;
use std::marker::Model;

/// The memory of the machine. Outside a recovery time its words outside the descriptors are words of a kind, and
/// its descriptors each have a status.
#[derive(Drop)]
pub struct Cells {
    pub(crate) pm: Pm,
    pub(crate) swaps: u32,
    pub(crate) next_tags: Vec<u64>,
    pub(crate) missed: Vec<bool>,
    pub(crate) taken: u32,
}

impl Model for Cells {
    ghost use Rattle.bz_swap_cells.specs.Store.{Store, HasRoom};

    ghost Value = { Store };

    ghost view = { λ c. record { cached = c.pm.state.words.cached; durable = c.pm.state.words.durable; past = record { count = c.pm.state.count; since = c.pm.state.since; asks = c.pm.state.asks }; swaps = c.swaps; next_tags = c.next_tags.items; missed = c.missed.items; taken = c.taken } };

    ghost invariant = { λ c. HasRoom (record { cached = c.pm.state.words.cached; durable = c.pm.state.words.durable; past = record { count = c.pm.state.count; since = c.pm.state.since; asks = c.pm.state.asks }; swaps = c.swaps; next_tags = c.next_tags.items; missed = c.missed.items; taken = c.taken }) };
}

impl Cells {
    /// Cells whose cached and durable words are these, for workers from 0 to `workers`. No descriptor is taken.
    /// The error is want of memory.
    pub fn open(alloc: Global, start: &[u64], swaps: u32, workers: u8) -> Result<Cells, Memory>
        requires lines { length start.now % 8 ≡ 0 }
        requires size { length start.now < 2 ^ 32 }
        requires numbered { swaps ≤ 2 ^ 16 }
        requires room { swap_address swaps ≤ length start.now }
        ensures words { IfOk result (λ cells. cells ≡ record { cached = start.now; durable = start.now; past = record { count = 0; since = replicate (length start.now) 0; asks = replicate (workers + 1) [] }; swaps = swaps; next_tags = replicate (workers + 1) 0; missed = replicate swaps false; taken = 0 }) }
        ensures room { IfOk result HasRoom }
    {
        let pm = Pm::open(alloc, start, u32::from(workers))?;
        let next_tags = vec![in alloc; 0u64; workers as usize + 1]?;
        let missed = vec![in alloc; false; swaps as usize]?;
        Ok(Cells {
            pm,
            swaps,
            next_tags,
            missed,
            taken: 0,
        })
    }

    /// What stands at an address outside the descriptors.
    pub fn load_word(&self, a: u32) -> WordKind
        requires typed { IsStore self.now }
        requires outside { IsOutside self.now.swaps a }
        requires within { a < length self.now.cached }
        ensures found { result ≡ kind_at self.now.swaps self.now.cached a }
        ensures is_kind { IsKind result }
    {
        kind_in(self.pm.load(a))
    }

    /// Stores a word outside the descriptors.
    pub fn store_word(&mut self, a: u32, new: WordKind)
        requires typed { IsStore self.old }
        requires outside { IsOutside self.old.swaps a }
        requires within { a < length self.old.cached }
        requires new_kind { IsKind new }
        ensures words { self.new ≡ with_words self.old (stored (store_words self.old) a (word new)) }
        ensures changed { (b : Beside) → typed self.new b ≡ with_word (typed self.old b) a new }
        ensures typed { IsStore self.new }
        ensures shape { SameShape self.old self.new }
    {
        self.pm.store(a, word_of(new));
    }

    /// Puts the new word where the old one stands, and says what stood.
    pub fn cas_word(&mut self, a: u32, old: WordKind, new: WordKind) -> WordKind
        requires typed { IsStore self.old }
        requires outside { IsOutside self.old.swaps a }
        requires within { a < length self.old.cached }
        requires old_kind { IsKind old }
        requires new_kind { IsKind new }
        ensures words { self.new ≡ with_words self.old (compared (store_words self.old) a (word old) (word new)) }
        ensures found { result ≡ kind_at self.old.swaps self.old.cached a }
        ensures is_kind { IsKind result }
        ensures changed { result ≡ old → (b : Beside) → typed self.new b ≡ with_word (typed self.old b) a new }
        ensures unchanged { result ≢ old → self.new ≡ self.old }
        ensures typed { IsStore self.new }
        ensures shape { SameShape self.old self.new }
    {
        let found = self.pm.cas(a, word_of(old), word_of(new));
        kind_in(found)
    }

    /// A descriptor's status.
    pub fn load_status(&self, swap: u16) -> SwapStatus
        requires typed { IsStore self.now }
        requires descriptor { swap < self.now.swaps }
        ensures { result ≡ status_at self.now.swaps self.now.cached swap }
    {
        status_in(self.pm.load(swap_at(swap)))
    }

    /// A descriptor's status as the durable words have it. This is no act.
    pub fn durable_status(&self, swap: u16) -> SwapStatus
        requires { swap < self.now.swaps }
        ensures { result ≡ status_at self.now.swaps self.now.durable swap }
    {
        status_in(self.pm.durable(swap_at(swap)))
    }

    /// Stores a descriptor's status.
    pub fn store_status(&mut self, swap: u16, new: SwapStatus)
        requires typed { IsStore self.old }
        requires descriptor { swap < self.old.swaps }
        ensures words { self.new ≡ with_words self.old (stored (store_words self.old) (swap_address swap) (status_word new)) }
        ensures changed { (b : Beside) → typed self.new b ≡ with_status (typed self.old b) swap new }
        ensures typed { IsStore self.new }
        ensures shape { SameShape self.old self.new }
    {
        self.pm.store(swap_at(swap), word_of_status(new));
    }

    /// Puts the new status where the old one stands, and says what stood.
    pub fn cas_status(&mut self, swap: u16, old: SwapStatus, new: SwapStatus) -> SwapStatus
        requires typed { IsStore self.old }
        requires descriptor { swap < self.old.swaps }
        ensures words { self.new ≡ with_words self.old (compared (store_words self.old) (swap_address swap) (status_word old) (status_word new)) }
        ensures found { result ≡ status_at self.old.swaps self.old.cached swap }
        ensures changed { result ≡ old → (b : Beside) → typed self.new b ≡ with_status (typed self.old b) swap new }
        ensures unchanged { result ≢ old → self.new ≡ self.old }
        ensures typed { IsStore self.new }
        ensures shape { SameShape self.old self.new }
    {
        let found = self
            .pm
            .cas(swap_at(swap), word_of_status(old), word_of_status(new));
        status_in(found)
    }

    /// A word of a descriptor, counted from the number of entries.
    pub fn load_field(&self, swap: u16, number: u8) -> u64
        requires descriptor { swap < self.now.swaps }
        requires number { number < field_count }
        ensures { result ≡ descriptor_word_at self.now.swaps self.now.cached swap number }
    {
        self.pm.load(field_at(swap, number))
    }

    /// Stores a word of a descriptor, counted from the number of entries.
    pub fn store_field(&mut self, swap: u16, number: u8, value: u64)
        requires typed { IsStore self.old }
        requires descriptor { swap < self.old.swaps }
        requires number { number < field_count }
        ensures words { self.new ≡ with_words self.old (stored (store_words self.old) (field_address swap number) value) }
        ensures changed { (b : Beside) → typed self.new b ≡ with_field (typed self.old b) swap number value }
        ensures typed { IsStore self.new }
        ensures shape { SameShape self.old self.new }
    {
        self.pm.store(field_at(swap, number), value);
    }

    /// Asks, for a worker, for the line of a word outside the descriptors.
    pub fn ask_word(&mut self, w: u8, a: u32)
        requires typed { IsStore self.old }
        requires asker { MayAsk self.old w }
        requires outside { IsOutside self.old.swaps a }
        requires within { a < length self.old.cached }
        ensures words { self.new ≡ with_state self.old (after_ask (store_state self.old) w (a / 8)) }
        ensures changed { (b : Beside) → typed self.new b ≡ with_ask (typed self.old b) w (line_of a) }
        ensures typed { IsStore self.new }
        ensures shape { SameShape self.old self.new }
    {
        self.pm.ask(w, a / LINE_WORDS);
    }

    /// Asks, for a worker, for the first line of a descriptor, which holds its status.
    pub fn ask_head(&mut self, w: u8, swap: u16)
        requires typed { IsStore self.old }
        requires asker { MayAsk self.old w }
        requires descriptor { swap < self.old.swaps }
        ensures words { self.new ≡ with_state self.old (after_ask (store_state self.old) w (swap_address swap / 8)) }
        ensures changed { (b : Beside) → typed self.new b ≡ with_ask (typed self.old b) w (head_of swap) }
        ensures typed { IsStore self.new }
        ensures shape { SameShape self.old self.new }
    {
        self.pm.ask(w, swap_at(swap) / LINE_WORDS);
    }

    /// Asks, for a worker, for the second line of a descriptor.
    pub fn ask_tail(&mut self, w: u8, swap: u16)
        requires typed { IsStore self.old }
        requires asker { MayAsk self.old w }
        requires descriptor { swap < self.old.swaps }
        ensures words { self.new ≡ with_state self.old (after_ask (store_state self.old) w (swap_address swap / 8 + 1)) }
        ensures changed { (b : Beside) → typed self.new b ≡ with_ask (typed self.old b) w (tail_of swap) }
        ensures typed { IsStore self.new }
        ensures shape { SameShape self.old self.new }
    {
        self.pm.ask(w, swap_at(swap) / LINE_WORDS + 1);
    }

    /// Makes what a worker asked for durable, each word unless a later value of it is.
    pub fn fence(&mut self, w: u8)
        requires typed { IsStore self.old }
        requires worker { w < length self.old.next_tags }
        ensures words { self.new ≡ with_state self.old (after_fence (store_state self.old) w) }
        ensures changed { (b : Beside) → typed self.new b ≡ fenced (typed self.old b) w }
        ensures typed { IsStore self.new }
        ensures shape { SameShape self.old self.new }
    {
        self.pm.fence(w);
    }

    /// Makes a word outside the descriptors durable.
    pub fn evict_word(&mut self, a: u32)
        requires typed { IsStore self.old }
        requires outside { IsOutside self.old.swaps a }
        requires within { a < length self.old.cached }
        ensures words { self.new ≡ with_state self.old (after_eviction (store_state self.old) a) }
        ensures changed { (b : Beside) → typed self.new b ≡ with_copies (typed self.old b) (λ c. c == a) }
        ensures typed { IsStore self.new }
        ensures shape { SameShape self.old self.new }
    {
        self.pm.evict(a);
    }

    /// Makes a descriptor's status durable.
    pub fn evict_status(&mut self, swap: u16)
        requires typed { IsStore self.old }
        requires descriptor { swap < self.old.swaps }
        ensures words { self.new ≡ with_state self.old (after_eviction (store_state self.old) (swap_address swap)) }
        ensures changed { (b : Beside) → typed self.new b ≡ with_durable_status (typed self.old b) swap }
        ensures typed { IsStore self.new }
        ensures shape { SameShape self.old self.new }
    {
        self.pm.evict(swap_at(swap));
    }

    /// Makes a word of a descriptor durable, counted from the number of entries.
    pub fn evict_field(&mut self, swap: u16, number: u8)
        requires typed { IsStore self.old }
        requires descriptor { swap < self.old.swaps }
        requires number { number < field_count }
        ensures words { self.new ≡ with_state self.old (after_eviction (store_state self.old) (field_address swap number)) }
        ensures changed { (b : Beside) → typed self.new b ≡ with_durable_fields (typed self.old b) swap (λ k. k == number) }
        ensures typed { IsStore self.new }
        ensures shape { SameShape self.old self.new }
    {
        self.pm.evict(field_at(swap, number));
    }
}
