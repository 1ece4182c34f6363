//! The two halves of an inner node that was read.

ghost use Rattle.std.specs.Prelude.{◌≡◌, ◌+◌, ◌<◌, ◌^◌, slice_index};
ghost use Rattle.bz_word.specs.Statuses.{status};
ghost use Rattle.bz_branch.specs.Parts.{IsFullNode, ArePartsOfNode};

use crate::front::{level_of, low_fence};
use bz_layout::STATUS_AT;
use bz_node::NodeImage;
use bz_parted::{InnerHalves, halves_of};
use bz_renew::is_whole;
use bz_word::Status;

// The words of metadata and block that the status counts.
fn counted_words(read: &NodeImage) -> u32
    requires { slice_index read.now.0 0 < 2 ^ 61 }
    ensures { result ≡ (status (slice_index read.now.0 0)).count + (status (slice_index read.now.0 0)).block }
{
    bz_word::laws::statuses();
    match Status::unpack(read.0[STATUS_AT as usize]) {
        Some(status) => status.count + status.block,
        None => unreachable!(),
    }
}

/// The halves of an inner node above its limit, told by its words.
pub fn parts_of(read: &NodeImage) -> InnerHalves
    requires { IsFullNode read.now.0 }
    ensures { ArePartsOfNode read.now.0 result.left.0 result.right.0 result.separator }
{
    is_whole(read);
    let low = low_fence(read);
    let high = read.high();
    let level = level_of(read);
    let halves = halves_of(read, low, high, level, counted_words(read));
    is_whole(&halves.left);
    is_whole(&halves.right);
    halves
}
