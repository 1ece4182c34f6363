//! Which words of a node are read: those that are not free, as its status and its header tell.

ghost use Rattle.std.specs.Prelude.{◌≡◌, ℕ, ◌+◌, ◌<◌, ◌≤◌, slice_index};
ghost use Rattle.bz_layout.specs.declared.sizes.TheConstants.{NODE_WORDS, HEADER_AT, STATUS_AT, FENCE_WORDS, META_AT};
ghost use Rattle.bz_slotted.specs.ReadingLaws.{node_of};
ghost use Rattle.bz_word.specs.Headers.{header};
ghost use Rattle.bz_word.specs.Statuses.{status};
ghost use Rattle.bz_gaps.specs.FreeWords.{IsFree, IsOfNoFence};

use bz_layout::{
    FENCE_WORDS, HEADER_AT, HIGH_FENCE_AT, LOW_FENCE_AT, META_AT, NODE_WORDS, STATUS_AT,
};
use bz_node::NodeImage;
use bz_word::{Header, Status};

/// The next place after this one whose word is not free, by the status and the header that were read; the number of words where
/// there is none.
pub fn next_place(image: &NodeImage, place: u32) -> u32
    requires { place < NODE_WORDS }
    ensures after { place < result }
    ensures within { result ≤ NODE_WORDS }
    ensures skipped { (i : ℕ) → place < i → i < result → IsFree (node_of image.now.0) i }
{
    let header = image.0[HEADER_AT as usize];
    let low = past_fence(low_len(header), LOW_FENCE_AT, place + 1);
    let high = past_fence(high_len(header), HIGH_FENCE_AT, low);
    past_records(image.0[STATUS_AT as usize], high)
}

// How many bytes the low fence has; where the word is no header, it is taken to be there.
fn low_len(word: u64) -> u32
    ensures { result ≡ 0 → (header word).low ≡ 0 }
{
    bz_word::laws::headers();
    match Header::unpack(word) {
        Some(header) => header.low,
        None => 1,
    }
}

// The same of the high fence.
fn high_len(word: u64) -> u32
    ensures { result ≡ 0 → (header word).high ≡ 0 }
{
    bz_word::laws::headers();
    match Header::unpack(word) {
        Some(header) => header.high,
        None => 1,
    }
}

// A place; or the one behind a fence, where that begins there and is absent.
fn past_fence(len: u32, at: u32, place: u32) -> u32
    requires fence { at + FENCE_WORDS ≤ NODE_WORDS }
    requires place { place ≤ NODE_WORDS }
    ensures from { place ≤ result }
    ensures within { result ≤ NODE_WORDS }
    ensures skipped { (i : ℕ) → place ≤ i → i < result → IsOfNoFence at len i }
{
    if len == 0 && place == at {
        at + FENCE_WORDS
    } else {
        place
    }
}

// A place; or the first one of the block, where it is behind the metadata words in use.
fn past_records(word: u64, place: u32) -> u32
    requires { place ≤ NODE_WORDS }
    ensures from { place ≤ result }
    ensures within { result ≤ NODE_WORDS }
    ensures skipped { (i : ℕ) → place ≤ i → i < result → (META_AT + (status word).count ≤ i) × (i + (status word).block < NODE_WORDS) }
{
    bz_word::laws::statuses();
    match Status::unpack(word) {
        Some(status) => past_gap(status.count, status.block, place),
        None => place,
    }
}

// The same by how many metadata words are in use, and how many words the block has.
fn past_gap(count: u32, block: u32, place: u32) -> u32
    requires { place ≤ NODE_WORDS }
    ensures from { place ≤ result }
    ensures within { result ≤ NODE_WORDS }
    ensures skipped { (i : ℕ) → place ≤ i → i < result → (META_AT + count ≤ i) × (i + block < NODE_WORDS) }
{
    let block_at = NODE_WORDS.saturating_sub(block);
    if META_AT <= place && count <= place - META_AT && place < block_at {
        block_at
    } else {
        place
    }
}
