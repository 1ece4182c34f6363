//! The words of an image, and what those of a descriptor say.
ghost use Rattle.std.specs.Prelude.{◌≡◌, ◌+◌, ◌*◌, ◌<◌, ◌≤◌, ◌^◌, length, slice_index, IfSome};
ghost use Rattle.bz_content.specs.Resolving.{status_in, count_in, target_in, expected_in, value_in, entry_word as word_of_entry};
ghost use Rattle.bz_judge.specs.Inside.Kinds.{kind_read};
ghost use Rattle.bz_word.specs.Kinds.{IsKind};

use bz_layout::{
    ENTRIES_AT, ENTRY_WORDS, SUPERBLOCK_WORDS, SWAP_COUNT_AT, SWAP_STATUS_AT, SWAP_WORDS,
};
use bz_word::{WordKind, kind_of};

/// The word at an address, and 0 past the last one.
pub(crate) fn word(image: &[u64], a: u32) -> u64
    ensures { result ≡ slice_index image.now a }
{
    image.get(a as usize).copied().unwrap_or(0)
}

/// The kind of the word at an address, if it is of one.
pub(crate) fn kind_at(image: &[u64], a: u32) -> Option<WordKind>
    ensures kind { result ≡ kind_read (slice_index image.now a) }
    ensures lawful { IfSome result (λ kind. IsKind kind) }
{
    kind_of(word(image, a))
}

const DIRTY_BIT: u64 = 1 << 63;

/// A descriptor's status, without the dirty bit.
pub(crate) fn swap_status(image: &[u64], swap: u16) -> u64
    ensures { result ≡ status_in (slice_index image.now) swap }
{
    word(
        image,
        SUPERBLOCK_WORDS + SWAP_WORDS * u32::from(swap) + SWAP_STATUS_AT,
    ) % DIRTY_BIT
}

/// How many entries a descriptor has.
pub(crate) fn entry_count(image: &[u64], swap: u16) -> u64
    ensures { result ≡ count_in (slice_index image.now) swap }
{
    word(
        image,
        SUPERBLOCK_WORDS + SWAP_WORDS * u32::from(swap) + SWAP_COUNT_AT,
    )
}

// A word of an entry.
fn entry_word(image: &[u64], swap: u16, entry: u32, place: u32) -> u64
    requires entry { entry < 2 ^ 16 }
    requires place { place < 2 ^ 16 }
    ensures { result ≡ word_of_entry (slice_index image.now) swap entry place }
{
    word(
        image,
        SUPERBLOCK_WORDS
            + SWAP_WORDS * u32::from(swap)
            + (ENTRIES_AT + ENTRY_WORDS * entry)
            + place,
    )
}

/// The address that an entry is about.
pub(crate) fn target(image: &[u64], swap: u16, entry: u32) -> u64
    requires { entry < 2 ^ 16 }
    ensures { result ≡ target_in (slice_index image.now) swap entry }
{
    entry_word(image, swap, entry, 0)
}

/// The value that an entry expects.
pub(crate) fn expected(image: &[u64], swap: u16, entry: u32) -> u64
    requires { entry < 2 ^ 16 }
    ensures { result ≡ expected_in (slice_index image.now) swap entry }
{
    entry_word(image, swap, entry, 1)
}

/// The value that an entry puts in its place.
pub(crate) fn new_value(image: &[u64], swap: u16, entry: u32) -> u64
    requires { entry < 2 ^ 16 }
    ensures { result ≡ value_in (slice_index image.now) swap entry }
{
    entry_word(image, swap, entry, 2)
}
