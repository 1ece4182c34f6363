//! Whether a leaf has room for the change of a call.
ghost use Rattle.std.specs.Prelude.{◌≡◌, ◌+◌, ◌<◌, ◌≤◌, ◌^◌, true, false};
ghost use Rattle.bz_layout.specs.declared.thresholds.TheConstants.{LEAF_RECORD_WORDS, RECORD_WORDS};
ghost use Rattle.bz_solo.specs.Errands.{words_asked};
ghost use Rattle.bz_record.specs.Records.{words_for, HasRoom, LacksRoom};
ghost use Rattle.bz_world.specs.Inside.Room.{LacksRoomFor, HasRoomFor};

use bz_call::Call;
use bz_key::{Key, Payload};
use bz_record::NewRecord;
use bz_task::LeafView;

// Whether it has none for a record of this key and payload.
fn lacks_words(view: &LeafView, key: Key, payload: Payload) -> bool
    requires plain { view.now.status < 2 ^ 61 }
    ensures none { result ≡ true → LacksRoom view.now.status (words_for key payload) }
    ensures room { result ≡ false → HasRoom view.now.status (words_for key payload) }
{
    let record = NewRecord {
        slot: view.slot,
        status: view.status,
        key,
        payload,
    };
    !record.has_room()
}

/// Whether a leaf that was viewed is frozen, or has no room for what a call puts there.
pub(crate) fn lacks_room(call: &Call, view: &LeafView) -> bool
    requires plain { view.now.status < 2 ^ 61 }
    ensures none { result ≡ true → LacksRoomFor call.now view.now.status }
    ensures room { result ≡ false → HasRoomFor call.now view.now.status }
{
    match call {
        Call::Insert(key, payload) | Call::Update(key, payload) | Call::Upsert(key, payload) => {
            lacks_words(view, *key, *payload)
        }
        Call::Delete(_) => view.is_frozen(),
        Call::Get(_) | Call::Page(_) => false,
    }
}

// A record of a key and a payload has few words.
fn has_few_words(key: Key, payload: Payload)
    ensures { words_for key payload ≤ RECORD_WORDS }
{
    let record = NewRecord {
        slot: 0,
        status: 0,
        key,
        payload,
    };
    let _words = record.size();
}

/// A call asks its leaf for no more words than a record may have, and one more. This does nothing.
pub(crate) fn asks_little(call: &Call)
    ensures { words_asked call.now ≤ LEAF_RECORD_WORDS + 1 }
{
    match call {
        Call::Insert(key, payload) | Call::Update(key, payload) | Call::Upsert(key, payload) => {
            has_few_words(*key, *payload)
        }
        Call::Delete(_) | Call::Get(_) | Call::Page(_) => {}
    }
}
