//! How many words two neighbours take with the key that parts them.

ghost use Rattle.std.specs.Prelude.{◌≡◌, ◌<◌, ◌^◌};
ghost use Rattle.bz_node.specs.Reading.{children_in};
ghost use Rattle.bz_parted.specs.Parting.{child_words};
ghost use Rattle.bz_united.specs.Uniting.{words_of_both};
ghost use Rattle.bz_inner.specs.JoinFacts.{HasSeparator, IsCounted};
ghost use Rattle.bz_inner.specs.Joinings.{sep_of};

use bz_key::Key;
use bz_layout::STATUS_AT;
use bz_node::NodeImage;
use bz_renew::is_whole;
use bz_word::Status;

/// The key between two children, the first of them at this place.
pub(crate) fn separator_at(above: &NodeImage, place: u32) -> Key
    requires { HasSeparator above.now.0 place }
    ensures { result ≡ sep_of above.now.0 place }
{
    match above.child(place + 1).low {
        Some(key) => key,
        None => unreachable!(),
    }
}

// The words of an inner node, as its status counts them.
fn counted(read: &NodeImage) -> u32
    requires { IsCounted read.now.0 }
    ensures words { result ≡ child_words (children_in read.now.0) }
    ensures small { result < 2 ^ 16 }
{
    bz_word::laws::statuses();
    is_whole(read);
    match Status::unpack(read.0[STATUS_AT as usize]) {
        Some(status) => status.count + status.block,
        None => unreachable!(),
    }
}

/// The words that the two and the key take, whichever of the two is the left one.
pub(crate) fn weight_of(one: &NodeImage, other: &NodeImage, key: &Key) -> u32
    requires one { IsCounted one.now.0 }
    requires other { IsCounted other.now.0 }
    ensures { result ≡ words_of_both (children_in one.now.0) (children_in other.now.0) key.now }
{
    bz_key::laws::packing_is_small();
    let _key = key.bytes();
    counted(one) + counted(other) + key.words() as u32
}
