//! A buffer for the pairs of a page, with all its room taken at its opening.
ghost use Rattle.std.specs.Prelude.{◌≡◌, ◌<◌, ◌≤◌, ◌++◌, ◌∷◌, [], length, filter, IfOk};
ghost use Rattle.std.specs.Cmp.Lexicographic.{slice_cmp};
ghost use Rattle.std.specs.List.{insert};
ghost use Rattle.std.specs.Ordering.{nat_cmp, is_ge};

use crate::key::Key;
use crate::limits::PAGE_PAIRS;
use crate::payload::Payload;
use bz_oom::Memory;
use std::alloc::Global;
use std::marker::Model;

/// At most `PAGE_PAIRS` pairs, seen as their list.
#[derive(Drop)]
pub struct PageBuf {
    pairs: Vec<(Key, Payload)>,
}

impl Model for PageBuf {
    ghost use Rattle.std.specs.Prelude.{List, ℕ, ◌≤◌, length, vec_capacity};
    ghost use Rattle.bz_key.specs.Pages.{HasRoom};

    ghost Value = { List (List ℕ × List ℕ) };

    ghost view = { λ p. p.pairs.items };

    ghost invariant = { λ p. HasRoom (length p.pairs.items) (vec_capacity p.pairs) };
}

impl PageBuf {
    /// An empty buffer with room for all the pairs of a page.
    pub fn open(alloc: Global) -> Result<PageBuf, Memory>
        ensures { IfOk result (λ buffer. buffer ≡ []) }
    {
        let pairs: Vec<(Key, Payload)> = Vec::with_capacity(alloc, PAGE_PAIRS)?;
        Ok(PageBuf { pairs })
    }

    /// Takes all pairs out. The room stays.
    pub fn clear(&mut self)
        ensures { self.new ≡ [] }
    {
        self.pairs.clear();
    }

    /// Puts a pair at the end.
    pub fn push(&mut self, key: Key, payload: Payload)
        requires { length self.old < PAGE_PAIRS }
        ensures { self.new ≡ self.old ++ (key, payload) ∷ [] }
    {
        match self.pairs.extend_from_slice(&[(key, payload)]) {
            Ok(()) => {}
            Err(_) => unreachable!(),
        }
    }

    /// Puts a pair at a place, before the pair that was there.
    pub fn insert(&mut self, place: usize, key: Key, payload: Payload)
        requires room { length self.old < PAGE_PAIRS }
        requires within { place ≤ length self.old }
        ensures { self.new ≡ insert self.old place (key, payload) }
    {
        match self.pairs.insert(place, (key, payload)) {
            Ok(()) => {}
            Err(_) => unreachable!(),
        }
    }

    /// Takes out the pairs whose key is before this one. The others stay, in their order.
    pub fn drop_before(&mut self, key: &Key)
        ensures { self.new ≡ filter (λ pair. is_ge (slice_cmp nat_cmp pair.0 key.now)) self.old }
    {
        self.pairs.retain(|pair| pair.0 >= *key);
    }

    /// The pairs, in the order in which they came.
    pub fn pairs(&self) -> &[(Key, Payload)]
        ensures same { result.now ≡ self.now }
        ensures fits { length self.now ≤ PAGE_PAIRS }
    {
        &self.pairs
    }
}
