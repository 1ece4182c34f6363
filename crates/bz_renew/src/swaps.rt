//! The swap of a renewal, and of one that freezes a node besides.

ghost use Rattle.std.specs.Prelude.{◌≡◌, ◌≢◌, ◌+◌, ◌<◌, ◌^◌, false, [], ◌∷◌};
ghost use Rattle.bz_layout.specs.Addresses.{node_address};
ghost use Rattle.bz_layout.specs.Config.{IsConfig};
ghost use Rattle.bz_task.specs.FromSwap.SwapMemory.{is_target};
ghost use Rattle.bz_task.specs.Steps.{next_stamp, frozen_word};
ghost use Rattle.bz_renew.specs.Freezings.{renewal_with};
ghost use Rattle.bz_renew.specs.Renewals.{restamped as restamped_word, renewal};

use bz_layout::{Config, STATUS_AT};
use bz_task::{EntryList, Link};
use bz_word::{Entry, Status};

/// The swap by which a link goes to another slot, and its guard gets the next stamp.
pub fn swap_of(link: &Link, to: u16) -> EntryList
    requires status { link.now.status < 2 ^ 61 }
    requires apart { link.now.link ≢ link.now.guard }
    ensures { result ≡ renewal link.now to }
{
    let guard = Entry {
        target: link.guard,
        expected: link.status,
        new: restamped(link.status),
    };
    EntryList::one(guard).with(Entry {
        target: link.link,
        expected: link.slot as u64 + 1,
        new: to as u64 + 1,
    })
}

/// The swap of a renewal that also freezes the node of a slot, whose status was read.
pub fn swap_freezing(config: &Config, link: &Link, to: u16, slot: u16, word: u64) -> EntryList
    requires config { IsConfig config.now }
    requires slot { slot < config.now.nodes }
    requires status { link.now.status < 2 ^ 61 }
    requires word { word < 2 ^ 61 }
    requires apart { link.now.link ≢ link.now.guard }
    requires new { is_target (renewal link.now to) (node_address config.now slot + STATUS_AT) ≡ false }
    ensures { result ≡ renewal_with config.now link.now to (record { slot = slot; status = word } ∷ []) }
{
    swap_of(link, to).with(Entry {
        target: config.node_at(slot as u32) + STATUS_AT,
        expected: word,
        new: frozen(word),
    })
}

// A node's status word, frozen, with the next stamp.
fn frozen(word: u64) -> u64
    requires { word < 2 ^ 61 }
    ensures { result ≡ frozen_word word }
{
    bz_word::laws::statuses();
    let Some(old) = Status::unpack(word) else {
        return word;
    };
    let new = Status {
        frozen: true,
        stamp: after(old.stamp),
        ..old
    };
    new.pack()
}

// A guard's word with the next stamp.
fn restamped(word: u64) -> u64
    requires { word < 2 ^ 61 }
    ensures { result ≡ restamped_word word }
{
    bz_word::laws::statuses();
    let Some(old) = Status::unpack(word) else {
        return word;
    };
    let new = Status {
        stamp: after(old.stamp),
        ..old
    };
    new.pack()
}

// The stamp after the next change.
fn after(stamp: u32) -> u32
    ensures { result ≡ next_stamp stamp }
{
    stamp.wrapping_add(1)
}
