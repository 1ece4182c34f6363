//! The swap of a renewal that freezes two nodes besides.

ghost use Rattle.std.specs.Prelude.{◌≡◌, ◌≢◌, ◌+◌, ◌<◌, ◌^◌, false, [], ◌∷◌};
ghost use Rattle.bz_layout.specs.Addresses.{node_address};
ghost use Rattle.bz_layout.specs.Config.{IsConfig};
ghost use Rattle.bz_task.specs.FromSwap.SwapMemory.{is_target};
ghost use Rattle.bz_task.specs.Steps.{next_stamp, frozen_word};
ghost use Rattle.bz_renew.specs.Freezings.{Freezing, renewal_with};
ghost use Rattle.bz_renew.specs.Renewals.{renewal};

use bz_layout::{Config, STATUS_AT};
use bz_renew::swap_freezing;
use bz_task::{EntryList, Link};
use bz_word::{Entry, Status};

/// The swap by which a link goes to another slot, and its guard gets the next stamp, and the nodes of the slots to which two links
/// lead are frozen, whose statuses were read: that of the first link's as the guard of the second, and that of the second's last.
pub fn swap_freezing_two(
    config: &Config,
    upper: &Link,
    to: u16,
    middle: &Link,
    word: u64,
) -> EntryList
    requires config { IsConfig config.now }
    requires upper_slot { upper.now.slot < config.now.nodes }
    requires slot { middle.now.slot < config.now.nodes }
    requires status { upper.now.status < 2 ^ 61 }
    requires parent { middle.now.status < 2 ^ 61 }
    requires word { word < 2 ^ 61 }
    requires apart { upper.now.link ≢ upper.now.guard }
    requires upper_new { is_target (renewal upper.now to) (node_address config.now upper.now.slot + STATUS_AT) ≡ false }
    requires new { is_target (renewal_with config.now upper.now to (record { slot = upper.now.slot; status = middle.now.status } ∷ [])) (node_address config.now middle.now.slot + STATUS_AT) ≡ false }
    ensures { result ≡ renewal_with config.now upper.now to (record { slot = middle.now.slot; status = word } ∷ record { slot = upper.now.slot; status = middle.now.status } ∷ []) }
{
    swap_freezing(config, upper, to, upper.slot, middle.status).with(Entry {
        target: config.node_at(middle.slot as u32) + STATUS_AT,
        expected: word,
        new: frozen(word),
    })
}

// A node's status word, frozen, with the next stamp.
fn frozen(word: u64) -> u64
    requires { word < 2 ^ 61 }
    ensures { result ≡ frozen_word word }
{
    bz_word::laws::statuses();
    let Some(old) = Status::unpack(word) else {
        return word;
    };
    let new = Status {
        frozen: true,
        stamp: after(old.stamp),
        ..old
    };
    new.pack()
}

// The stamp after the next change.
fn after(stamp: u32) -> u32
    ensures { result ≡ next_stamp stamp }
{
    stamp.wrapping_add(1)
}
