//! The swap of a call.
ghost use Rattle.std.specs.Prelude.{◌≡◌, ◌+◌, ◌<◌, ◌^◌};
ghost use Rattle.bz_ring.specs.Fresh.{IsRing};
ghost use Rattle.bz_change.specs.Changes.{word_after as word_of, entries_of};

use crate::replies::counter_at;
use bz_ring::{QCall, Ring};
use bz_swap::EntryList;
use bz_word::Entry;

// What a call makes of its cell.
fn word_after(call: QCall) -> u64
    requires { word_of call < 2 ^ 64 }
    ensures { result ≡ word_of call }
{
    match call {
        QCall::Put(item) => item + 1,
        QCall::Take => 0,
    }
}

/// The entries of a call's swap, from this value of its counter on and this word in the cell. It changes both or none.
pub fn entries(ring: &Ring, call: QCall, counter: u64, word: u64) -> EntryList
    requires ring { IsRing ring.now }
    requires fits { word_of call < 2 ^ 64 }
    requires more { counter + 1 < 2 ^ 64 }
    ensures { result ≡ entries_of ring.now call counter word }
{
    let moves = Entry {
        target: counter_at(call),
        expected: counter,
        new: counter + 1,
    };
    let fills = Entry {
        target: ring.cell_at(counter),
        expected: word,
        new: word_after(call),
    };
    EntryList::one(moves).with(fills)
}
