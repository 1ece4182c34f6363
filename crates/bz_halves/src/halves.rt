//! The two leaves into which one is split.

ghost use Rattle.std.specs.Prelude.{◌≡◌, ◌≤◌};
ghost use Rattle.bz_node.specs.Records.{leaf_words, IsLeafList};
ghost use Rattle.bz_halves.specs.Halves.{record_words};
ghost use Rattle.bz_halves.specs.Laws.{IsSplitLeaf};
ghost use Rattle.bz_halves.specs.Made.{AreHalvesOf};

use crate::cut::cut_of;
use crate::laws::leaves_part_in_halves;
use bz_key::{Key, Payload};
use bz_layout::SPLIT_ABOVE;
use bz_node::{NodeImage, leaf};

/// Two leaves, and the first key of the right one, which parts them.
#[derive(Drop)]
pub struct Halves {
    pub left: NodeImage,
    pub right: NodeImage,
    pub separator: Key,
}

// The leaf of records that have room in it.
fn leaf_of(records: &[(Key, Payload)], low: Option<Key>, high: Option<Key>) -> NodeImage
    requires leaf { IsLeafList records.now low high }
    requires room { record_words records.now ≤ SPLIT_ABOVE }
    ensures { result.0 ≡ leaf_words records.now low high }
{
    match leaf(records, low, high) {
        Some(image) => image,
        None => unreachable!(),
    }
}

/// The halves of a leaf with so many live words, told by its records in the order of their keys and by its fences.
pub fn halves_of(
    records: &[(Key, Payload)],
    low: Option<Key>,
    high: Option<Key>,
    live: u32,
) -> Halves
    requires leaf { IsSplitLeaf records.now low high }
    requires live { live ≡ record_words records.now }
    ensures { AreHalvesOf records.now low high result }
{
    leaves_part_in_halves();
    let cut = cut_of(records, live);
    let separator = records[cut].0;
    Halves {
        left: leaf_of(&records[..cut], low, Some(separator)),
        right: leaf_of(&records[cut..], Some(separator), high),
        separator,
    }
}
