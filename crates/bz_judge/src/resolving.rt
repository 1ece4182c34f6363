//! What a word of an image stands for.
ghost use Rattle.std.specs.Prelude.{◌≡◌, ◌+◌, ◌<◌, ◌≤◌, ◌^◌, length, slice_index, true};
ghost use Rattle.bz_content.specs.Resolving.{resolve as resolve_in, pointed as pointed_in, entry_for, count_in};
ghost use Rattle.bz_judge.specs.Inside.Kinds.{CanBeResolved, HasFewEntries};

use crate::words::{entry_count, expected, kind_at, new_value, swap_status, target};
use bz_word::WordKind;

// The first entry of a descriptor whose target is an address.
fn entry_of(image: &[u64], a: u32, swap: u16) -> u32
    requires { HasFewEntries (slice_index image.now) swap }
    ensures entry { result ≡ entry_for (slice_index image.now) swap a 0 (count_in (slice_index image.now) swap) }
    ensures small { result < 2 ^ 16 }
{
    let count = entry_count(image, swap) as u32;
    for i in 0..count {
        if target(image, swap, i) == u64::from(a) {
            return i;
        }
    }
    count
}

/// The status of a swap that has succeeded.
const SUCCEEDED: u64 = 2;

// What a pointer to a descriptor stands for at an address.
fn pointed(image: &[u64], a: u32, swap: u16) -> u64
    requires { HasFewEntries (slice_index image.now) swap }
    ensures { result ≡ pointed_in (slice_index image.now) a swap }
{
    let entry = entry_of(image, a, swap);
    if swap_status(image, swap) == SUCCEEDED {
        return new_value(image, swap, entry);
    }
    expected(image, swap, entry)
}

/// What the word at an address stands for.
pub(crate) fn resolve(image: &[u64], a: u32) -> u64
    requires { CanBeResolved (slice_index image.now) a }
    ensures { result ≡ resolve_in (slice_index image.now) a }
{
    match kind_at(image, a) {
        Some(WordKind::Value(value)) => value,
        Some(WordKind::Dirty(value)) => value,
        Some(WordKind::Swap(swap)) => pointed(image, a, swap),
        Some(WordKind::Tag { swap, entry, .. }) => expected(image, swap, u32::from(entry)),
        None => unreachable!(),
    }
}
