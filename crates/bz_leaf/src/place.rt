//! Which words of a leaf are in use.

ghost use Rattle.std.specs.Prelude.{◌≡◌, ℕ, ◌^◌, ◌<◌, ◌≤◌, true, false};
ghost use Rattle.bz_word.specs.Statuses.{status};
ghost use Rattle.bz_leaf.specs.Facts.{is_used};

use bz_layout::{META_AT, NODE_WORDS};
use bz_word::Status;

// The status of a plain word.
fn status_of(word: u64) -> Status
    requires { word < 2 ^ 61 }
    ensures { result ≡ status word }
{
    bz_word::laws::statuses();
    match Status::unpack(word) {
        Some(status) => status,
        None => Status {
            frozen: false,
            count: 0,
            block: 0,
            dead: 0,
            stamp: 0,
        },
    }
}

/// Whether a node with this status is frozen.
pub(crate) fn is_frozen(word: u64) -> bool
    requires { word < 2 ^ 61 }
    ensures { result ≡ (status word).frozen }
{
    status_of(word).frozen
}

/// The next word in use after a place, of a leaf with this status; the number of its words where there is none.
pub(crate) fn next_place(word: u64, place: usize) -> usize
    requires word { word < 2 ^ 61 }
    requires place { place < NODE_WORDS }
    ensures after { place < result }
    ensures within { result ≤ NODE_WORDS }
    ensures used { result < NODE_WORDS → is_used word result ≡ true }
    ensures skipped { (i : ℕ) → place < i → i < result → is_used word i ≡ false }
{
    let status = status_of(word);
    let next = place + 1;
    if next < META_AT as usize + status.count as usize {
        return next;
    }
    let block_at = NODE_WORDS.saturating_sub(status.block) as usize;
    if next < block_at { block_at } else { next }
}
