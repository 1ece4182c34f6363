//! The form of an image file: the places of its head, and its length.
ghost use Rattle.std.specs.Prelude.{◌≡◌};
ghost use Rattle.bz_image.specs.Form.{word_count, file_length};

use bz_layout::{NODE_WORDS, SUPERBLOCK_WORDS, SWAP_WORDS};

/// The bytes with which each image begins.
pub(crate) const MAGIC: [u8; 8] = [b'B', b'Z', b'I', b'M', b'A', b'G', b'E', b'\n'];

/// The version of the form.
pub const VERSION: u32 = 2;

/// The first byte of the version.
pub(crate) const VERSION_AT: usize = 8;

/// The first byte of the number of node slots.
pub(crate) const NODES_AT: usize = 12;

/// The first byte of the number of descriptors.
pub(crate) const SWAPS_AT: usize = 16;

/// The bytes of the head, behind which the words begin.
pub const HEAD_BYTES: usize = 20;

/// The bytes of a word.
pub const WORD_BYTES: usize = 8;

/// The words of a memory with so many node slots and descriptors.
pub(crate) fn count_words(nodes: u32, swaps: u32) -> usize
    ensures { result ≡ word_count nodes swaps }
{
    let swap_words = SWAP_WORDS as usize * swaps as usize;
    let node_words = NODE_WORDS as usize * nodes as usize;
    SUPERBLOCK_WORDS as usize + swap_words + node_words
}

/// The bytes of an image of a memory with so many node slots and descriptors.
pub fn image_bytes(nodes: u32, swaps: u32) -> usize
    ensures { result ≡ file_length nodes swaps }
{
    HEAD_BYTES + WORD_BYTES * count_words(nodes, swaps)
}
