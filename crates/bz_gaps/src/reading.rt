//! The words with which the reading of a node begins.

ghost use Rattle.std.specs.Prelude.{◌≡◌, ℕ, ◌<◌, length, slice_index};
ghost use Rattle.bz_layout.specs.declared.sizes.TheConstants.{NODE_WORDS};

use bz_layout::NODE_WORDS;
use bz_node::NodeImage;

/// The words of a node of which the status alone was read: all others are 0.
pub fn first_word(status: u64) -> NodeImage
    ensures first { slice_index result.0 0 ≡ status }
    ensures size { length result.0 ≡ NODE_WORDS }
    ensures blank { (i : ℕ) → 0 < i → slice_index result.0 i ≡ 0 }
{
    let mut words = [0; NODE_WORDS as usize];
    words[0] = status;
    NodeImage(words)
}
