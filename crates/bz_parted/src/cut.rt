//! Where an inner node that is split is cut.

ghost use Rattle.std.specs.Prelude.{◌≡◌, ◌+◌, ◌≤◌, length};
ghost use Rattle.bz_layout.specs.declared.sizes.TheConstants.{SHARED_WORDS};
ghost use Rattle.bz_layout.specs.declared.thresholds.TheConstants.{INNER_RECORD_WORDS};
ghost use Rattle.bz_node.specs.Reading.{IsReadableInner, children_in, count_in};
ghost use Rattle.bz_node.specs.Records.{child_entry};
ghost use Rattle.bz_parted.specs.Parting.{child_words, IsParting};

use bz_node::{Child, NodeImage};

// The words that a child takes: its metadata word, those of its key, if it has one, and its pointer.
fn child_words(child: &Child) -> u32
    ensures words { result ≡ 1 + length (child_entry child.now).words }
    ensures few { result ≤ INNER_RECORD_WORDS }
{
    bz_key::laws::packing_is_small();
    match child.low {
        Some(key) => {
            let _key = key.bytes();
            2 + key.words() as u32
        }
        None => 2,
    }
}

/// How many of the children go to the left half, in one pass: the fewest whose words, doubled, are at least those of all, `words`.
pub fn cut_of(old: &NodeImage, words: u32) -> u32
    requires readable { IsReadableInner old.now.0 }
    requires words { words ≡ child_words (children_in old.now.0) }
    requires room { words ≤ SHARED_WORDS }
    ensures cut { IsParting (children_in old.now.0) result }
    ensures within { result ≤ count_in old.now.0 }
{
    let mut left = 0;
    let count = old.child_count();
    for j in 0..count {
        if words <= 2 * left {
            return j;
        }
        left += child_words(&old.child(j));
    }
    count
}
