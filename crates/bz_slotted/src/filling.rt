//! The rules of a node's status.
ghost use Rattle.std.specs.Prelude.{◌≡◌, ◌+◌, ◌*◌, ◌≤◌, ◌<◌, ◌^◌, length, true};
ghost use Rattle.bz_layout.specs.declared.sizes.TheConstants.{NODE_WORDS as WORDS, SHARED_WORDS as SHARED, STATUS_AT as STATUS, HEADER_AT as HEADER};
ghost use Rattle.bz_slotted.specs.Page.{page};
ghost use Rattle.bz_slotted.specs.ReadingLaws.{node_of};
ghost use Rattle.bz_slotted.specs.Records.{shown as words_shown, live_block as live_in};
ghost use Rattle.bz_slotted.specs.Rules.{free_test, filled_test, settled_test};
ghost use Rattle.bz_slotted.specs.Tests.{every};
ghost use Rattle.bz_word.specs.Headers.{header as header_in};
ghost use Rattle.bz_word.specs.Metas.{IsMeta};
ghost use Rattle.bz_word.specs.Statuses.{status as status_in, IsStatus};

use crate::metas::{is_visible, meta_of, weight};
use bz_layout::{HEADER_AT, META_AT, NODE_WORDS, SHARED_WORDS, STATUS_AT};
use bz_word::{Header, Meta, Status};

/// The fields of the status.
pub(crate) fn status_of(words: &[u64]) -> Status
    requires whole { length words.now ≡ WORDS }
    requires status { node_of words.now STATUS < 2 ^ 61 }
    ensures says { result ≡ status_in (node_of words.now STATUS) }
    ensures lawful { IsStatus result }
{
    match Status::unpack(words[STATUS_AT as usize]) {
        Some(status) => status,
        None => unreachable!(),
    }
}

/// The fields of the header.
pub(crate) fn header_of(words: &[u64]) -> Header
    requires whole { length words.now ≡ WORDS }
    requires header { node_of words.now HEADER < 2 ^ 32 }
    ensures { result ≡ header_in (node_of words.now HEADER) }
{
    match Header::unpack(words[HEADER_AT as usize]) {
        Some(header) => header,
        None => unreachable!(),
    }
}

// The block words of a record that is visible.
fn shown(meta: Meta) -> u32
    requires { IsMeta meta }
    ensures words { result ≡ words_shown meta }
    ensures small { result < 2 ^ 17 }
{
    if !is_visible(meta) {
        return 0;
    }
    weight(meta)
}

// The block words of the first records that are visible.
fn live_block(words: &[u64], count: u32) -> u32
    requires whole { length words.now ≡ WORDS }
    requires shared { count ≤ SHARED }
    ensures words { result ≡ live_in (page (node_of words.now)).meta count }
    ensures small { result ≤ 2 ^ 17 * count }
{
    let mut live = 0;
    for j in 0..count {
        live += shown(meta_of(words, j));
    }
    live
}

// Whether a word is 0 or in use.
fn is_free_or_used(words: &[u64], i: u32) -> bool
    requires whole { length words.now ≡ WORDS }
    requires status { node_of words.now STATUS < 2 ^ 61 }
    requires within { i < WORDS }
    ensures { result ≡ free_test (page (node_of words.now)) i }
{
    let status = status_of(words);
    if i < META_AT + status.count {
        return true;
    }
    if i + status.block >= NODE_WORDS {
        return true;
    }
    words[i as usize] == 0
}

// Whether each word between metadata and block is 0.
fn is_free_between(words: &[u64]) -> bool
    requires whole { length words.now ≡ WORDS }
    requires status { node_of words.now STATUS < 2 ^ 61 }
    ensures { result ≡ every WORDS (free_test (page (node_of words.now))) }
{
    for i in 0..NODE_WORDS {
        if !is_free_or_used(words, i) {
            return false;
        }
    }
    true
}

// Whether a status that unpacks agrees with metadata and block.
fn agrees(words: &[u64]) -> bool
    requires whole { length words.now ≡ WORDS }
    requires header { node_of words.now HEADER < 2 ^ 32 }
    requires status { node_of words.now STATUS < 2 ^ 61 }
    ensures { result ≡ filled_test (page (node_of words.now)) }
{
    let status = status_of(words);
    if status.count + status.block > SHARED_WORDS {
        return false;
    }
    if header_of(words).sorted > status.count {
        return false;
    }
    if !is_free_between(words) {
        return false;
    }
    status.dead + live_block(words, status.count) == status.block
}

/// Whether the status unpacks and agrees with metadata and block.
pub(crate) fn is_filled(words: &[u64]) -> bool
    requires whole { length words.now ≡ WORDS }
    requires header { node_of words.now HEADER < 2 ^ 32 }
    ensures { result ≡ filled_test (page (node_of words.now)) }
{
    match Status::unpack(words[STATUS_AT as usize]) {
        Some(_) => agrees(words),
        None => false,
    }
}

/// Whether an inner node is not frozen, not empty, with nothing dead and all sorted.
pub(crate) fn is_settled(words: &[u64]) -> bool
    requires whole { length words.now ≡ WORDS }
    requires header { node_of words.now HEADER < 2 ^ 32 }
    requires status { node_of words.now STATUS < 2 ^ 61 }
    ensures { result ≡ settled_test (page (node_of words.now)) }
{
    let status = status_of(words);
    if status.frozen {
        return false;
    }
    if status.count == 0 {
        return false;
    }
    if status.dead != 0 {
        return false;
    }
    header_of(words).sorted == status.count
}
