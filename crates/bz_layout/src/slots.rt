ghost use Rattle.std.specs.Prelude.{◌≡◌, ℕ, ◌+◌, ◌<◌, ◌≤◌, ◌↔◌, ◌∷◌, ◌++◌, length, take, drop, slice_index_or, IsTrue, IfOk, true, false};
ghost use Rattle.std.specs.Bool.{OnTrue, OnFalse};
ghost use Rattle.bz_layout.specs.Slots.{all_free, without, IsInOrder};
ghost use Rattle.bz_layout.specs.Table.{free_places, NoneFreeBelow};
ghost use Rattle.bz_layout.specs.declared.limits.TheConstants.{MAX_NODES};

use bz_oom::Memory;
use std::alloc::Global;
use std::marker::Model;

/// Which node slots are free.
#[derive(Debug, Drop)]
pub struct Slots {
    is_free: Vec<bool>,
    left: u32,
    // no slot below this one is free, so that a call does not look at all slots again
    lowest: usize,
}

impl Model for Slots {
    ghost use Rattle.std.specs.Prelude.{◌≡◌, ◌≤◌, length};
    ghost use Rattle.bz_layout.specs.Slots.{FreeSlots};

    ghost Value = { FreeSlots };

    ghost use Rattle.bz_layout.specs.Table.{free_places, slots_of, NoneFreeBelow};
    ghost use Rattle.bz_layout.specs.declared.limits.TheConstants.{MAX_NODES};

    ghost view = { λ s. slots_of s.is_free.items };

    ghost invariant = { λ s. record {
      left : s.left ≡ length (free_places s.is_free.items);
      lowest : NoneFreeBelow s.lowest s.is_free.items;
      nodes : length s.is_free.items ≤ MAX_NODES;
    } };
}

impl Slots {
    /// Every slot is free. This is the one call that takes memory.
    pub fn open(alloc: Global, nodes: u32) -> Result<Slots, Memory>
        requires { (1 ≤ nodes) × (nodes ≤ MAX_NODES) }
        ensures { IfOk result (λ slots. slots ≡ all_free nodes) }
    {
        Ok(Slots {
            is_free: vec![in alloc; true; nodes as usize]?,
            left: nodes,
            lowest: 0,
        })
    }

    /// Makes every slot free.
    pub fn free_all(&mut self)
        ensures { self.new ≡ all_free self.old.nodes }
    {
        self.is_free.fill(true);
        self.left = self.is_free.len() as u32;
        self.lowest = 0;
    }

    /// Makes a slot not free.
    pub fn hold(&mut self, slot: u16)
        requires { slot < self.old.nodes }
        ensures { self.new ≡ record self.old { free = without slot self.old.free } }
    {
        let place = slot as usize;
        if self.is_free[place] {
            self.is_free[place] = false;
            self.left -= 1;
        }
    }

    /// How many slots are free.
    pub fn left(&self) -> u32
        ensures left { result ≡ length self.now.free }
        ensures ordered { IsInOrder self.now }
    {
        self.left
    }

    /// Takes the `k` lowest free slots, in rising order, into the first `k` places of `out`.
    pub fn take(&mut self, k: usize, out: &mut [u16; 3]) -> bool
        requires { (1 ≤ k) × (k ≤ 3) }
        ensures enough { IsTrue result ↔ (k ≤ length self.old.free) }
        ensures taken { OnTrue result (out.new ≡ take k self.old.free ++ drop k out.old) }
        ensures kept { OnTrue result (self.new ≡ record self.old { free = drop k self.old.free }) }
        ensures same_slots { OnFalse result (self.new ≡ self.old) }
        ensures same_out { OnFalse result (out.new ≡ out.old) }
        ensures ordered { IsInOrder self.old }
    {
        if (self.left as usize) < k {
            return false;
        }
        for place in 0..k {
            out[place] = self.take_lowest();
        }
        true
    }

    fn take_lowest(&mut self) -> u16
        requires { 0 < length self.old.free }
        ensures free { self.old.free ≡ result ∷ self.new.free }
        ensures nodes { self.new.nodes ≡ self.old.nodes }
    {
        let slot = lowest_free(&self.is_free, self.lowest);
        self.is_free[slot] = false;
        self.left -= 1;
        self.lowest = slot + 1;
        slot as u16
    }
}

// The lowest free slot, which is looked for from a place below which none is free.
fn lowest_free(is_free: &[bool], from: usize) -> usize
    requires some { 0 < length (free_places is_free.now) }
    requires none_below { NoneFreeBelow from is_free.now }
    ensures inside { result < length is_free.now }
    ensures free { slice_index_or is_free.now result false ≡ true }
    ensures lowest { NoneFreeBelow result is_free.now }
{
    let mut slot = from;
    while !is_free[slot] {
        slot += 1;
    }
    slot
}
