//! The swap that turns the root pointer without its guard and freezes three nodes.

ghost use Rattle.std.specs.Prelude.{◌≡◌, ◌<◌, ◌^◌, [], ◌∷◌, slice_index};
ghost use Rattle.bz_layout.specs.Config.{IsConfig};
ghost use Rattle.bz_task.specs.Steps.{next_stamp, frozen_word};
ghost use Rattle.bz_renew.specs.Freezings.{freezing_entry};
ghost use Rattle.bz_inner.specs.Neighbours.{AreApart};
ghost use Rattle.bz_inner.specs.Relinks.{relink_with, root_entry};

use bz_layout::{Config, ROOT_AT, STATUS_AT};
use bz_node::NodeImage;
use bz_renew::is_whole;
use bz_task::EntryList;
use bz_word::{Entry, Status};

/// A node that is frozen, and its status as it was read.
#[derive(Clone, Copy, Drop)]
pub(crate) struct Held {
    pub slot: u16,
    pub status: u64,
}

/// The node in a slot, with its status as it was read.
pub(crate) fn held_at(slot: u16, read: &NodeImage) -> Held
    ensures slot { result.slot ≡ slot }
    ensures status { result.status ≡ slice_index read.now.0 0 }
{
    is_whole(read);
    Held {
        slot,
        status: read.0[STATUS_AT as usize],
    }
}

// The entry of a node that is frozen.
fn freezing(config: &Config, held: Held) -> Entry
    requires config { IsConfig config.now }
    requires slot { held.slot < config.now.nodes }
    requires status { held.status < 2 ^ 61 }
    ensures { result ≡ freezing_entry config.now (record { slot = held.slot; status = held.status }) }
{
    Entry {
        target: config.node_at(held.slot as u32) + STATUS_AT,
        expected: held.status,
        new: frozen(held.status),
    }
}

/// The swap by which the root pointer goes from the root to another slot, and the root and two nodes are frozen.
pub(crate) fn relink(config: &Config, root: Held, to: u16, left: Held, right: Held) -> EntryList
    requires config { IsConfig config.now }
    requires root { (root.slot < config.now.nodes) × (root.status < 2 ^ 61) }
    requires left { (left.slot < config.now.nodes) × (left.status < 2 ^ 61) }
    requires right { (right.slot < config.now.nodes) × (right.status < 2 ^ 61) }
    requires apart { AreApart left.slot right.slot root.slot }
    ensures { result ≡ relink_with config.now root.slot to (record { slot = left.slot; status = left.status } ∷ record { slot = right.slot; status = right.status } ∷ record { slot = root.slot; status = root.status } ∷ []) }
{
    let turn = Entry {
        target: ROOT_AT,
        expected: root.slot as u64 + 1,
        new: to as u64 + 1,
    };
    EntryList::one(turn)
        .with(freezing(config, root))
        .with(freezing(config, right))
        .with(freezing(config, left))
}

// A node's status word, frozen, with the next stamp.
fn frozen(word: u64) -> u64
    requires { word < 2 ^ 61 }
    ensures { result ≡ frozen_word word }
{
    bz_word::laws::statuses();
    let Some(old) = Status::unpack(word) else {
        return word;
    };
    let new = Status {
        frozen: true,
        stamp: after(old.stamp),
        ..old
    };
    new.pack()
}

// The stamp after the next change.
fn after(stamp: u32) -> u32
    ensures { result ≡ next_stamp stamp }
{
    stamp.wrapping_add(1)
}
