//! The words of a node.
ghost use Rattle.std.specs.Prelude.{◌≡◌, ◌<◌};
ghost use Rattle.bz_node.specs.Reading.{IsReadable, IsReadableInner, IsReadableLeaf, AreInKeyOrder, HasHighFence, count_in, live_in, pairs_in, child_in, high_in};

use crate::child::Child;
use crate::ordering::collect_records;
use crate::reading::{child_of, count_of, high_of, live_words_of};
use bz_key::{Key, PageBuf};
use bz_layout::NODE_WORDS;

/// The words of one node, at the places that they have in its slot.
#[derive(Clone, Copy, Debug, PartialEq, Eq)]
pub struct NodeImage(pub [u64; NODE_WORDS as usize]);

impl NodeImage {
    /// The words that the visible records of a leaf take, with their metadata words.
    pub fn live_words(&self) -> u32
        requires { IsReadable self.now.0 }
        ensures { result ≡ live_in self.now.0 }
    {
        live_words_of(&self.0)
    }

    /// Fills `out` with the visible records of a leaf, in the order of their keys, in place of what it held.
    pub fn records(&self, out: &mut PageBuf)
        requires { IsReadableLeaf self.now.0 }
        ensures { AreInKeyOrder (pairs_in self.now.0) out.new }
    {
        collect_records(&self.0, out);
    }

    /// The high fence of a node, which no key of it reaches: none where its keys have no end.
    pub fn high(&self) -> Option<Key>
        requires { HasHighFence self.now.0 }
        ensures { result ≡ high_in self.now.0 }
    {
        high_of(&self.0)
    }

    /// How many children an inner node has.
    pub fn child_count(&self) -> u32
        requires { IsReadableInner self.now.0 }
        ensures { result ≡ count_in self.now.0 }
    {
        count_of(&self.0)
    }

    /// The child at a place of an inner node, the first at 0.
    pub fn child(&self, i: u32) -> Child
        requires readable { IsReadableInner self.now.0 }
        requires within { i < count_in self.now.0 }
        ensures { result ≡ child_in self.now.0 i }
    {
        child_of(&self.0, i)
    }
}
