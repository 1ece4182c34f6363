//! Which words may stand where.
ghost use Rattle.std.specs.Prelude.{◌≡◌, ◌+◌, ◌<◌, ◌≤◌, ◌^◌, length, slice_index, true};
ghost use Rattle.bz_content.specs.Lawful.{is_value as value_test, is_begun as begun_test, is_named as named_test, is_in_descriptor as descriptor_test, is_fixed as fixed_test, is_lawful as lawful_test};
ghost use Rattle.bz_content.specs.Resolving.{count_in};
ghost use Rattle.bz_judge.specs.Inside.Kinds.{descriptor_word_test, values_test, other_target_test};
ghost use Rattle.bz_layout.specs.Config.{IsConfig};
ghost use Rattle.bz_slotted.specs.Tests.{every};
ghost use Rattle.bz_word.specs.Kinds.{IsKind};

use crate::words::{entry_count, expected, kind_at, new_value, swap_status, target, word};
use bz_layout::{
    Config, MAX_ENTRIES, ROOT_AT, ROOT_STATUS_AT, SUPERBLOCK_WORDS, SWAP_STATUS_AT, SWAP_WORDS,
};
use bz_word::WordKind;

/// What plain values stay below.
const VALUES: u64 = 1 << 61;

/// What a status stays below that is not dirty.
const DIRTY_BIT: u64 = 1 << 63;

/// The greatest status of a descriptor: failed.
const LAST_STATUS: u64 = 3;

// Whether a word is a plain value.
fn is_value(word: u64) -> bool
    ensures { result ≡ value_test word }
{
    word < VALUES
}

// Whether an entry leads from a value to a value.
fn has_values(image: &[u64], swap: u16, entry: u32) -> bool
    requires { entry < 2 ^ 16 }
    ensures { result ≡ values_test (slice_index image.now) swap entry }
{
    is_value(expected(image, swap, entry)) && is_value(new_value(image, swap, entry))
}

// Whether each of the first entries leads from a value to a value.
fn all_have_values(image: &[u64], swap: u16, count: u32) -> bool
    requires { count < 2 ^ 16 }
    ensures { result ≡ every count (values_test (slice_index image.now) swap) }
{
    for i in 0..count {
        if !has_values(image, swap, i) {
            return false;
        }
    }
    true
}

// Whether none of the first entries has this target.
fn none_names(image: &[u64], a: u32, swap: u16, count: u32) -> bool
    requires { count < 2 ^ 16 }
    ensures { result ≡ every count (other_target_test (slice_index image.now) a swap) }
{
    for i in 0..count {
        if target(image, swap, i) == u64::from(a) {
            return false;
        }
    }
    true
}

// Whether a descriptor has begun a swap of values.
fn is_begun(image: &[u64], config: &Config, swap: u16) -> bool
    ensures begun { result ≡ begun_test config.now (slice_index image.now) swap }
    ensures few { result ≡ true → count_in (slice_index image.now) swap ≤ MAX_ENTRIES }
{
    if u32::from(swap) >= config.swaps {
        return false;
    }
    if swap_status(image, swap) == 0 {
        return false;
    }
    let count = entry_count(image, swap);
    if count == 0 {
        return false;
    }
    if count > u64::from(MAX_ENTRIES) {
        return false;
    }
    all_have_values(image, swap, count as u32)
}

// Whether a word of this kind at an address is a value, or names an entry of a swap that has the address for its
// target.
fn is_named(image: &[u64], config: &Config, a: u32, kind: WordKind) -> bool
    requires { IsKind kind }
    ensures { result ≡ named_test config.now (slice_index image.now) a kind }
{
    match kind {
        WordKind::Value(_) => true,
        WordKind::Dirty(_) => true,
        WordKind::Swap(swap) => {
            if !is_begun(image, config, swap) {
                return false;
            }
            !none_names(image, a, swap, entry_count(image, swap) as u32)
        }
        WordKind::Tag { swap, entry, .. } => {
            if !is_begun(image, config, swap) {
                return false;
            }
            if u64::from(entry) >= entry_count(image, swap) {
                return false;
            }
            target(image, swap, u32::from(entry)) == u64::from(a)
        }
    }
}

// Whether the word at an address among the descriptors may stand there.
fn is_descriptor_word(image: &[u64], a: u32) -> bool
    requires { SUPERBLOCK_WORDS ≤ a }
    ensures { result ≡ descriptor_word_test (slice_index image.now) a }
{
    if (a - SUPERBLOCK_WORDS) % SWAP_WORDS == SWAP_STATUS_AT {
        return word(image, a) % DIRTY_BIT <= LAST_STATUS;
    }
    is_value(word(image, a))
}

// Whether an address is one of a descriptor.
fn is_in_descriptor(config: &Config, a: u32) -> bool
    requires { IsConfig config.now }
    ensures { result ≡ descriptor_test config.now a }
{
    SUPERBLOCK_WORDS <= a && a < SUPERBLOCK_WORDS + SWAP_WORDS * config.swaps
}

// Whether an address is one of the superblock, but not of the root's two words.
fn is_fixed(a: u32) -> bool
    ensures { result ≡ fixed_test a }
{
    if a == ROOT_AT {
        return false;
    }
    if a == ROOT_STATUS_AT {
        return false;
    }
    a < SUPERBLOCK_WORDS
}

/// Whether the word at an address may stand there.
pub(crate) fn is_lawful(image: &[u64], config: &Config, a: u32) -> bool
    requires { IsConfig config.now }
    ensures { result ≡ lawful_test config.now (slice_index image.now) a }
{
    let kind = match kind_at(image, a) {
        Some(kind) => kind,
        None => return false,
    };
    if is_in_descriptor(config, a) {
        return is_descriptor_word(image, a);
    }
    if is_fixed(a) {
        return is_value(word(image, a));
    }
    is_named(image, config, a, kind)
}
