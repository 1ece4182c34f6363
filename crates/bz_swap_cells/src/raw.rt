//! Acts on words as they are, whatever they mean.

use crate::cells::Cells;

impl Cells {
    ghost use Rattle.std.specs.Prelude.{◌≡◌, ◌*◌, ◌<◌, length, slice_index};
    ghost use Rattle.bz_pm.specs.Acts.{stored};
    ghost use Rattle.bz_pm.specs.After.{after_ask, after_fence, after_eviction, after_power_cut};
    ghost use Rattle.bz_swap_cells.specs.Store.{HasRoom, MayAsk, store_words, with_words, store_state, with_state};

    /// The cached word at an address.
    pub fn load(&self, a: u32) -> u64
        requires { a < length self.now.cached }
        ensures { result ≡ slice_index self.now.cached a }
    {
        self.pm.load(a)
    }

    /// The durable word at an address.
    pub fn durable(&self, a: u32) -> u64
        requires { a < length self.now.cached }
        ensures { result ≡ slice_index self.now.durable a }
    {
        self.pm.durable(a)
    }

    /// Stores a word.
    pub fn store(&mut self, a: u32, value: u64)
        requires { a < length self.old.cached }
        ensures words { self.new ≡ with_words self.old (stored (store_words self.old) a value) }
        ensures room { HasRoom self.new }
    {
        self.pm.store(a, value);
    }

    /// Asks, for a worker, for a line.
    pub fn ask(&mut self, w: u8, line: u32)
        requires asker { MayAsk self.old w }
        requires within { line * 8 < length self.old.cached }
        ensures words { self.new ≡ with_state self.old (after_ask (store_state self.old) w line) }
        ensures room { HasRoom self.new }
    {
        self.pm.ask(w, line);
    }

    /// Makes what a worker asked for durable, each word unless a later value of it is.
    pub fn settle(&mut self, w: u8)
        requires { w < length self.old.next_tags }
        ensures words { self.new ≡ with_state self.old (after_fence (store_state self.old) w) }
        ensures room { HasRoom self.new }
    {
        self.pm.fence(w);
    }

    /// Makes a word durable.
    pub fn evict(&mut self, a: u32)
        requires { a < length self.old.cached }
        ensures words { self.new ≡ with_state self.old (after_eviction (store_state self.old) a) }
        ensures room { HasRoom self.new }
    {
        self.pm.evict(a);
    }

    /// Cuts the power: the durable words are all that is left.
    pub fn cut(&mut self)
        ensures words { self.new ≡ with_state self.old (after_power_cut (store_state self.old)) }
        ensures room { HasRoom self.new }
    {
        self.pm.cut();
    }
}
