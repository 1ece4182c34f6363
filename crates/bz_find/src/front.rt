//! What status, header and metadata words of a leaf say, and which words a record takes.

ghost use Rattle.std.specs.Prelude.{◌≡◌, ◌≤◌, ◌<◌, ◌^◌};
ghost use Rattle.bz_key.specs.Packing.{packed_len};
ghost use Rattle.bz_layout.specs.declared.sizes.TheConstants.{SHARED_WORDS};
ghost use Rattle.bz_slotted.specs.Page.{visible, meta_of as said_of, extent_of as said_extent};
ghost use Rattle.bz_word.specs.Statuses.{status};
ghost use Rattle.bz_word.specs.Metas.{IsMeta};
ghost use Rattle.bz_find.specs.Words.{is_in_node, is_record, records_in, sorted_in};

use bz_key::{KEY_BYTES, PAYLOAD_BYTES};
use bz_layout::{BYTES_IN_WORD, NODE_WORDS, SHARED_WORDS};
use bz_word::{Extent, Header, Meta, Status};

// The status of a plain word.
fn status_of(word: u64) -> Status
    requires { word < 2 ^ 61 }
    ensures { result ≡ status word }
{
    bz_word::laws::statuses();
    match Status::unpack(word) {
        Some(status) => status,
        None => Status {
            frozen: false,
            count: 0,
            block: 0,
            dead: 0,
            stamp: 0,
        },
    }
}

/// Whether a node with this status is frozen.
pub(crate) fn is_frozen(word: u64) -> bool
    requires { word < 2 ^ 61 }
    ensures { result ≡ (status word).frozen }
{
    status_of(word).frozen
}

/// How many records a leaf with this status has, of which no more than a node's can be looked at.
pub(crate) fn count_of(word: u64) -> u32
    requires { word < 2 ^ 61 }
    ensures { result ≡ records_in word }
{
    status_of(word).count.min(SHARED_WORDS)
}

/// How many of so many records are sorted, by this header.
pub(crate) fn sorted_of(word: u64, count: u32) -> u32
    ensures sorted { result ≡ sorted_in word count }
    ensures few { result ≤ count }
{
    match Header::unpack(word) {
        Some(header) => header.sorted.min(count),
        None => 0,
    }
}

// What a metadata word says; one that does not unpack says as much as an unused one.
fn meta_of(word: u64) -> Meta
    ensures says { result ≡ said_of word }
    ensures lawful { IsMeta result }
{
    match Meta::unpack(word) {
        Some(meta) => meta,
        None => Meta::Unused,
    }
}

/// Where the record of a metadata word lies, and its lengths.
#[tactic(auto, unfolding(bz_slotted::specs::Page::extent_of))]
pub(crate) fn extent_of(word: u64) -> Extent
    ensures extent { result ≡ said_extent (said_of word) }
    ensures offset { result.offset < 2 ^ 28 }
    ensures key { result.key ≤ result.total }
    ensures total { result.total < 2 ^ 16 }
{
    match meta_of(word) {
        Meta::Unused => Extent {
            offset: 0,
            key: 0,
            total: 0,
        },
        Meta::Reserved(extent) => extent,
        Meta::Visible(extent) => extent,
        Meta::Deleted { key, total } => Extent {
            offset: 0,
            key,
            total,
        },
    }
}

/// How many words so many bytes take.
pub(crate) fn words_for(bytes: u32) -> u32
    requires { bytes < 2 ^ 16 }
    ensures words { result ≡ packed_len bytes }
    ensures small { result < 2 ^ 16 }
{
    bytes.div_ceil(BYTES_IN_WORD)
}

// Whether readers see the record of a metadata word.
#[tactic(auto, unfolding(bz_slotted::specs::Page::visible))]
fn is_visible(word: u64) -> bool
    ensures { result ≡ visible (said_of word) }
{
    match meta_of(word) {
        Meta::Visible(_) => true,
        Meta::Unused => false,
        Meta::Reserved(_) => false,
        Meta::Deleted { .. } => false,
    }
}

/// Whether a metadata word names a record that readers see, and that lies in the node as those of a leaf do. What is read while
/// the leaf changes may be anything.
pub(crate) fn is_leaf_record(word: u64) -> bool
    ensures { result ≡ is_record word }
{
    if is_visible(word) {
        lies_in_node(extent_of(word))
    } else {
        false
    }
}

// Whether a record has the lengths of a leaf's, and lies in the node.
fn lies_in_node(extent: Extent) -> bool
    requires offset { extent.offset < 2 ^ 28 }
    requires key { extent.key ≤ extent.total }
    requires total { extent.total < 2 ^ 16 }
    ensures { result ≡ is_in_node extent }
{
    let payload = extent.total - extent.key;
    if extent.key == 0 {
        return false;
    }
    if extent.key > KEY_BYTES as u32 {
        return false;
    }
    if payload > PAYLOAD_BYTES as u32 {
        return false;
    }
    extent.offset + words_for(extent.key) + words_for(payload) <= NODE_WORDS
}
