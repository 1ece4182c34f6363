//! What is read of a leaf that is made anew: its visible records alone, in the order of their keys, and its fences.

ghost use Rattle.std.specs.Prelude.{◌≡◌, ◌+◌, ◌<◌, ◌≤◌, ◌^◌, ℕ, List, Option, None, length};
ghost use Rattle.bz_layout.specs.declared.sizes.TheConstants.{NODE_WORDS};
ghost use Rattle.bz_key.specs.Packing.{packed_len, unpacked_key};
ghost use Rattle.bz_node.specs.Reading.{part};
ghost use Rattle.bz_page.specs.Pages.{IsLeafByItself};
ghost use Rattle.bz_slotted.specs.ReadingLaws.{node_of};
ghost use Rattle.bz_slotted.specs.Rules.{node_fault};
ghost use Rattle.bz_renew.specs.Sorted.{IsSortedLeaf};

use bz_key::{Key, PageBuf};
use bz_layout::{BYTES_IN_WORD, HEADER_AT, LOW_FENCE_AT};
use bz_node::NodeImage;
use bz_slotted::laws as slotted;
use bz_word::Header;

/// The fences of a leaf: none where its keys have no beginning, or no end.
#[derive(Clone, Copy, Drop)]
pub struct Fences {
    pub low: Option<Key>,
    pub high: Option<Key>,
}

/// An image has all the words of a node. Does nothing.
pub fn is_whole(image: &NodeImage)
    ensures { length image.now.0 ≡ NODE_WORDS }
{
    let _words = image.0;
}

// The key of so many bytes that stands at a place, if there is one.
fn key_at(words: &[u64], at: u32, len: u32) -> Option<Key>
    requires within { at + packed_len len ≤ length words.now }
    requires small { len < 2 ^ 8 }
    ensures { result ≡ unpacked_key len (part words.now at (packed_len len)) }
{
    let start = at as usize;
    let end = start + len.div_ceil(BYTES_IN_WORD) as usize;
    Key::from_words(len as usize, &words[start..end])
}

// The low fence of a leaf, which no key of it is before: none where its keys have no beginning.
fn low_of(image: &NodeImage) -> Option<Key>
    ensures { (nodes : ℕ) (low high : Option (List ℕ)) → node_fault nodes (node_of image.now.0) (node_of image.now.0) 0 low high ≡ None → result ≡ low }
{
    is_whole(image);
    slotted::leaf_rules_are_facts();
    bz_word::laws::headers();
    let words = &image.0;
    match Header::unpack(words[HEADER_AT as usize]) {
        Some(header) => key_at(words, LOW_FENCE_AT, header.low),
        None => None,
    }
}

/// Leaves the visible records of a leaf in `page`, in the order of their keys.
pub fn sort_records(image: &NodeImage, page: &mut PageBuf) -> Fences
    requires { IsLeafByItself image.now.0 }
    ensures { IsSortedLeaf image.now.0 page.new result.low result.high }
{
    is_whole(image);
    slotted::leaf_rules_are_facts();
    slotted::live_words_fit();
    slotted::whole_leaves_are_readable();
    slotted::high_fences_are_read();
    bz_page::laws::ordered_pairs_are_found();
    image.records(page);
    Fences {
        low: low_of(image),
        high: image.high(),
    }
}
