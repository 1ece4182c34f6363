//! Where a leaf that is split is cut.

ghost use Rattle.std.specs.Prelude.{◌≡◌, ◌+◌, ◌≤◌, length};
ghost use Rattle.bz_node.specs.Records.{pair_entry};
ghost use Rattle.bz_halves.specs.Halves.{record_words, IsCut};

use bz_key::{Key, Payload};
use bz_layout::{LEAF_RECORD_WORDS, SHARED_WORDS};

// The words that a record takes in a leaf: its metadata word, and those of its key and payload.
fn record_words(pair: &(Key, Payload)) -> u32
    ensures words { result ≡ 1 + length (pair_entry pair.now).words }
    ensures few { result ≤ LEAF_RECORD_WORDS }
{
    bz_key::laws::packing_is_small();
    let _key = pair.0.bytes();
    let _payload = pair.1.bytes();
    1 + (pair.0.words() + pair.1.words()) as u32
}

/// How many of the records go to the left half, in one pass: the fewest whose words, doubled, are at least those of all, `live`.
pub fn cut_of(records: &[(Key, Payload)], live: u32) -> usize
    requires live { live ≡ record_words records.now }
    requires room { live ≤ SHARED_WORDS }
    ensures cut { IsCut records.now result }
    ensures within { result ≤ length records.now }
{
    let mut words = 0;
    for (i, record) in records.iter().enumerate() {
        if live <= 2 * words {
            return i;
        }
        words += record_words(record);
    }
    records.len()
}
