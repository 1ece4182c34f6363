//! What is kept beside the words: tag numbers, misses, taken descriptors.

ghost use Rattle.std.specs.Prelude.{◌≡◌};
ghost use Rattle.bz_swap_machine.specs.Machine.{is_succeeded};

use crate::cells::Cells;
use bz_swap_machine::{SwapStatus, Verdict};
use bz_word::WordKind;

// Whether a status says that the swap has succeeded.
fn has_succeeded(status: SwapStatus) -> bool
    ensures { result ≡ is_succeeded status }
{
    matches!(
        status,
        SwapStatus::Deciding(Verdict::Succeeded) | SwapStatus::Decided(Verdict::Succeeded)
    )
}

impl Cells {
    ghost use Rattle.std.specs.Prelude.{if◌then◌else◌, true, ◌≡◌, ◌≢◌, ◌<◌, ◌+◌, ◌^◌, false, length, get_or, slice_index, MatchOption};
    ghost use Rattle.bz_word.specs.Kinds.{word};
    ghost use Rattle.bz_word.specs.declared.kind.WordKind.TheVariants.{Value, Tag as tag};
    ghost use Rattle.bz_pm.specs.After.{after_cas};
    ghost use Rattle.bz_swap_machine.specs.Machine.{is_succeeded};
    ghost use Rattle.bz_swap_machine.specs.Changes.{with_tag, with_miss};
    ghost use Rattle.bz_swap_cells.specs.Store.{Beside, IsStore, IsOutside, MayTag, MayAsk, SameShape, typed, store_state, renewed_store, kind_at, status_at};

    /// The number of a worker's next tag.
    pub fn next_tag(&self, worker: u8) -> u64
        requires { worker < length self.now.next_tags }
        ensures { result ≡ slice_index self.now.next_tags worker }
    {
        self.next_tags[worker as usize]
    }

    /// Puts the worker's next tag where the expected value stands, and says what stood.
    pub fn cas_tag(&mut self, a: u32, expected: u64, swap: u16, entry: u8, worker: u8) -> WordKind
        requires typed { IsStore self.old }
        requires outside { IsOutside self.old.swaps a }
        requires within { a < length self.old.cached }
        requires expected { expected < 2 ^ 61 }
        requires entry { entry < 4 }
        requires worker { MayTag self.old worker }
        ensures words { store_state self.new ≡ after_cas (store_state self.old) a expected (word (tag swap entry worker (slice_index self.old.next_tags worker))) }
        ensures found { result ≡ kind_at self.old.swaps self.old.cached a }
        ensures changed { result ≡ Value expected → (b : Beside) → typed self.new b ≡ with_tag (typed self.old b) a swap entry worker }
        ensures unchanged { result ≢ Value expected → self.new ≡ self.old }
        ensures typed { IsStore self.new }
        ensures shape { SameShape self.old self.new }
    {
        let seq = self.next_tag(worker);
        let tag = WordKind::Tag {
            swap,
            entry,
            worker,
            seq,
        };
        let found = self.cas_word(a, WordKind::Value(expected), tag);
        if found == WordKind::Value(expected) {
            self.next_tags[worker as usize] = seq + 1;
        }
        found
    }

    /// Whether a swap is noted as missed.
    pub fn is_missed(&self, swap: u16) -> bool
        requires { swap < self.now.swaps }
        ensures { result ≡ get_or self.now.missed swap false }
    {
        self.missed[swap as usize]
    }

    /// Whether a swap has taken effect: its success is durable. This is no act.
    pub fn has_effect(&self, swap: u16) -> bool
        ensures { result ≡ is_succeeded (status_at self.now.swaps self.now.durable swap) }
    {
        u32::from(swap) < self.swaps && has_succeeded(self.durable_status(swap))
    }

    // The note that a miss leaves: a swap that has taken effect is not noted.
    fn note_after_miss(&self, swap: u16) -> bool
        requires { swap < self.now.swaps }
        ensures { result ≡ (if is_succeeded (status_at self.now.swaps self.now.durable swap) then get_or self.now.missed swap false else true) }
    {
        if self.has_effect(swap) {
            self.is_missed(swap)
        } else {
            true
        }
    }

    /// Notes a swap as missed, unless it has taken effect. This is no act.
    pub fn note_miss(&mut self, swap: u16)
        requires typed { IsStore self.old }
        requires descriptor { swap < self.old.swaps }
        ensures words { store_state self.new ≡ store_state self.old }
        ensures changed { (b : Beside) → typed self.new b ≡ with_miss (typed self.old b) swap }
        ensures typed { IsStore self.new }
        ensures shape { SameShape self.old self.new }
    {
        let noted = self.note_after_miss(swap);
        self.missed[swap as usize] = noted;
    }

    /// How many descriptors are taken.
    pub fn taken(&self) -> u32
        ensures { result ≡ self.now.taken }
    {
        self.taken
    }

    /// Takes the next descriptor, where one is left.
    pub fn take(&mut self) -> Option<u16>
        ensures { MatchOption result ((self.old.taken ≡ self.old.swaps) × (self.new ≡ self.old))
            (λ swap. (swap ≡ self.old.taken) × (self.old.taken < self.old.swaps) × (self.new ≡ record self.old { taken = self.old.taken + 1 })) }
    {
        if self.taken == self.swaps {
            return None;
        }
        let swap = self.taken as u16;
        self.taken += 1;
        Some(swap)
    }

    /// Whether a worker may ask for one more line before its next fence.
    pub fn may_ask(&self, w: u8) -> bool
        ensures { result ≡ true → MayAsk self.now w }
    {
        self.pm.may_ask(w) && self.pm.asked() < u64::MAX
    }

    /// Gives all descriptors back, and clears the notes and the tag numbers. The words stay, and what was asked for.
    pub fn renew(&mut self)
        ensures { self.new ≡ renewed_store self.old }
    {
        self.next_tags.fill(0);
        self.missed.fill(false);
        self.taken = 0;
    }
}
