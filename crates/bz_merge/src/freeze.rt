//! The swap that freezes a leaf.

ghost use Rattle.std.specs.Prelude.{◌≡◌, ◌<◌, ◌^◌, [], ◌∷◌};
ghost use Rattle.bz_freeze.specs.Facts.{entry_of};
ghost use Rattle.bz_layout.specs.Config.{IsConfig};
ghost use Rattle.bz_task.specs.Steps.{frozen_word};

use bz_layout::{Config, STATUS_AT};
use bz_swap::EntryList;
use bz_word::{Entry, Status};

/// The swap that freezes the leaf in a slot, whose status was read.
pub(crate) fn freeze_of(config: &Config, slot: u16, word: u64) -> EntryList
    requires config { IsConfig config.now }
    requires slot { slot < config.now.nodes }
    requires word { word < 2 ^ 61 }
    ensures { result ≡ entry_of config.now slot word ∷ [] }
{
    EntryList::one(Entry {
        target: config.node_at(slot as u32) + STATUS_AT,
        expected: word,
        new: frozen(word),
    })
}

// The status word of a node, frozen, with its next stamp.
fn frozen(word: u64) -> u64
    requires { word < 2 ^ 61 }
    ensures { result ≡ frozen_word word }
{
    bz_word::laws::statuses();
    let Some(old) = Status::unpack(word) else {
        return word;
    };
    let new = Status {
        frozen: true,
        stamp: old.stamp.wrapping_add(1),
        ..old
    };
    new.pack()
}
