//! Lists of entries that a swap may have.

use bz_swap_machine::DescriptorWords;
use bz_word::Entry;
use std::marker::Model;

/// One to four entries with different targets, in the rising order of their targets.
#[derive(Drop)]
pub struct EntryList {
    entries: [Entry; 4],
    count: usize,
}

impl Model for EntryList {
    ghost use Rattle.std.specs.Prelude.{◌≡◌, ◌≤◌, List, length, take};
    ghost use Rattle.bz_word.specs.declared.entry.Entry.{Entry};
    ghost use Rattle.bz_swap.specs.EntryLists.{IsEntryList};

    ghost Value = { List Entry };

    ghost view = { λ l. take l.count l.entries };

    ghost invariant = { λ l. (length l.entries ≡ 4) × (l.count ≤ 4) × IsEntryList (take l.count l.entries) };
}

impl EntryList {
    ghost use Rattle.std.specs.Prelude.{◌≡◌, ◌<◌, ◌*◌, ℕ, ◌∷◌, false, [], length, slice_index};
    ghost use Rattle.bz_swap_machine.specs.Machine.{entries_in};
    ghost use Rattle.bz_swap.specs.EntryLists.{IsEntryList, inserted};
    ghost use Rattle.bz_swap.specs.Inside.Parts.{entry_list};
    ghost use Rattle.bz_swap.specs.SwapMemory.{is_target};

    /// The list of one entry.
    pub fn one(a: Entry) -> EntryList
        ensures { result ≡ a ∷ [] }
    {
        EntryList {
            entries: [a; 4],
            count: 1,
        }
    }

    /// The list with one entry more.
    pub fn with(self, a: Entry) -> EntryList
        requires room { length self < 4 }
        requires new { is_target self a.target ≡ false }
        ensures { result ≡ inserted a self }
    {
        let mut entries = self.entries;
        let mut carried = a;
        for i in 0..self.count {
            let here = entries[i];
            if carried.target < here.target {
                entries[i] = carried;
                carried = here;
            }
        }
        entries[self.count] = carried;
        EntryList {
            entries,
            count: self.count + 1,
        }
    }

    /// How many entries there are: one to four, whose targets rise.
    pub fn count(&self) -> usize
        ensures count { result ≡ length self.now }
        ensures list { IsEntryList self.now }
    {
        self.count
    }

    // The words of a descriptor of these entries.
    pub(crate) fn words(&self) -> DescriptorWords
        ensures entries { IsEntryList self.now }
        ensures list { entry_list (entries_in (slice_index result.words)) ≡ self.now }
        ensures count { slice_index result.words 0 ≡ length self.now }
        ensures rest { (k : ℕ) → 3 * length self.now < k → slice_index result.words k ≡ 0 }
        ensures words { length result.words ≡ 13 }
    {
        let mut words = [0; 13];
        words[0] = self.count as u64;
        for i in 0..self.count {
            let entry = self.entries[i];
            words[3 * i + 1] = entry.target as u64;
            words[3 * i + 2] = entry.expected;
            words[3 * i + 3] = entry.new;
        }
        DescriptorWords { words }
    }
}
