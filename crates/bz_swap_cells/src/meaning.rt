//! What a word means, where it is known to mean something.

ghost use Rattle.std.specs.Prelude.{◌≡◌};
ghost use Rattle.bz_word.specs.Kinds.{IsKind, IsWord, word as word_for};
ghost use Rattle.bz_swap_cells.specs.Store.{IsStatusWord, status_of, status_word};

use bz_swap_machine::{SwapStatus, Verdict};
use bz_word::{WordKind, kind_of};

const FREE: u64 = 0;

const UNDECIDED: u64 = 1;

const SUCCEEDED: u64 = 2;

const FAILED: u64 = 3;

const DIRTY_BIT: u64 = 1 << 63;

// The kind of a word that has one.
pub(crate) fn kind_in(word: u64) -> WordKind
    requires { IsWord word }
    ensures is_kind { IsKind result }
    ensures word { word_for result ≡ word }
{
    match kind_of(word) {
        Some(kind) => kind,
        None => WordKind::Value(0),
    }
}

/// The word of a status.
pub fn word_of_status(status: SwapStatus) -> u64
    ensures { result ≡ status_word status }
{
    match status {
        SwapStatus::Free => FREE,
        SwapStatus::Undecided => UNDECIDED,
        SwapStatus::Deciding(Verdict::Succeeded) => DIRTY_BIT + SUCCEEDED,
        SwapStatus::Deciding(Verdict::Failed) => DIRTY_BIT + FAILED,
        SwapStatus::Decided(Verdict::Succeeded) => SUCCEEDED,
        SwapStatus::Decided(Verdict::Failed) => FAILED,
    }
}

// The status of a word; of a number that is no status's word, free.
pub(crate) fn status_in(word: u64) -> SwapStatus
    ensures { result ≡ status_of word }
{
    if word == UNDECIDED {
        SwapStatus::Undecided
    } else if word == DIRTY_BIT + SUCCEEDED {
        SwapStatus::Deciding(Verdict::Succeeded)
    } else if word == DIRTY_BIT + FAILED {
        SwapStatus::Deciding(Verdict::Failed)
    } else if word == SUCCEEDED {
        SwapStatus::Decided(Verdict::Succeeded)
    } else if word == FAILED {
        SwapStatus::Decided(Verdict::Failed)
    } else {
        SwapStatus::Free
    }
}
