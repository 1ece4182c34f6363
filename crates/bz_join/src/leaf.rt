//! The leaf that has the records of two.

ghost use Rattle.std.specs.Prelude.{◌≡◌, ◌+◌, ◌≤◌, ◌++◌, length};
ghost use Rattle.bz_renew.specs.FromPage.Pages.{IsLeafByItself};
ghost use Rattle.bz_renew.specs.Sorted.{IsSortedLeaf};
ghost use Rattle.bz_join.specs.Leaves.{MayJoin, IsOneOf};

use crate::front::low_fence;
use crate::laws::neighbours_join;
use crate::record_list::RecordList;
use crate::records::records_of;
use bz_key::{Key, PAGE_PAIRS, Payload};
use bz_node::{NodeImage, leaf};
use bz_renew::is_whole;
use bz_slotted::laws as slotted;

// The visible records of a leaf, in the order of their keys, and its fences.
#[derive(Drop)]
struct SortedLeaf {
    records: RecordList,
    low: Option<Key>,
    high: Option<Key>,
}

fn sorted(image: &NodeImage) -> SortedLeaf
    requires { IsLeafByItself image.now.0 }
    ensures { IsSortedLeaf image.now.0 result.records result.low result.high }
{
    is_whole(image);
    bz_renew::ordered_pairs_are_found();
    SortedLeaf {
        records: records_of(&image.0),
        low: low_fence(image),
        high: image.high(),
    }
}

// Puts records after others, where all have room.
fn append(records: &mut RecordList, more: &[(Key, Payload)])
    requires { length records.old + length more.now ≤ PAGE_PAIRS }
    ensures { records.new ≡ records.old ++ more.now }
{
    for (key, payload) in more {
        let end = records.pairs().len();
        records.insert(end, *key, *payload);
    }
}

/// The leaf of the records of two neighbours, which have room in one.
pub fn joined_leaf(left: &NodeImage, right: &NodeImage) -> NodeImage
    requires { MayJoin left.now.0 right.now.0 }
    ensures { IsOneOf left.now.0 right.now.0 result.0 }
{
    neighbours_join();
    slotted::leaf_rules_are_facts();
    let mut both = sorted(left);
    let more = sorted(right);
    append(&mut both.records, more.records.pairs());
    match leaf(both.records.pairs(), both.low, more.high) {
        Some(image) => {
            is_whole(&image);
            image
        }
        None => unreachable!(),
    }
}
