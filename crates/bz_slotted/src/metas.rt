//! What the metadata words of a node say.
ghost use Rattle.std.specs.Prelude.{◌≡◌, ◌+◌, ◌≤◌, ◌<◌, ◌^◌, length};
ghost use Rattle.bz_key.specs.Packing.{packed_len};
ghost use Rattle.bz_layout.specs.declared.sizes.TheConstants.{META_AT as META, NODE_WORDS as WORDS, SHARED_WORDS as SHARED};
ghost use Rattle.bz_slotted.specs.Page.{meta_of as meta_at, visible, held, used, extent_of as extent_in};
ghost use Rattle.bz_slotted.specs.ReadingLaws.{node_of};
ghost use Rattle.bz_slotted.specs.Records.{weight as words_held};
ghost use Rattle.bz_word.specs.Metas.{IsMeta};

use bz_layout::{BYTES_IN_WORD, META_AT};
use bz_word::{Extent, Meta};

/// How many words so many bytes take.
pub(crate) fn words_for(bytes: u32) -> u32
    requires { bytes < 2 ^ 16 }
    ensures words { result ≡ packed_len bytes }
    ensures small { result < 2 ^ 16 }
{
    bytes.div_ceil(BYTES_IN_WORD)
}

/// What the metadata word at a place says; one that does not unpack says as much as an unused one.
pub(crate) fn meta_of(words: &[u64], j: u32) -> Meta
    requires whole { length words.now ≡ WORDS }
    requires shared { j < SHARED }
    ensures says { result ≡ meta_at (node_of words.now (META + j)) }
    ensures lawful { IsMeta result }
{
    match Meta::unpack(words[(META_AT + j) as usize]) {
        Some(meta) => meta,
        None => Meta::Unused,
    }
}

/// Where the record lies, and its lengths.
#[tactic(auto, unfolding(crate::specs::Page::extent_of))]
pub(crate) fn extent_of(meta: Meta) -> Extent
    requires { IsMeta meta }
    ensures extent { result ≡ extent_in meta }
    ensures offset { result.offset < 2 ^ 28 }
    ensures key { result.key ≤ result.total }
    ensures total { result.total < 2 ^ 16 }
{
    match meta {
        Meta::Unused => Extent {
            offset: 0,
            key: 0,
            total: 0,
        },
        Meta::Reserved(extent) => extent,
        Meta::Visible(extent) => extent,
        Meta::Deleted { key, total } => Extent {
            offset: 0,
            key,
            total,
        },
    }
}

/// Whether readers see the record.
#[tactic(auto, unfolding(crate::specs::Page::visible))]
pub(crate) fn is_visible(meta: Meta) -> bool
    ensures { result ≡ visible meta }
{
    match meta {
        Meta::Visible(_) => true,
        Meta::Unused => false,
        Meta::Reserved(_) => false,
        Meta::Deleted { .. } => false,
    }
}

/// Whether the record holds words of the block.
#[tactic(auto, unfolding(crate::specs::Page::held))]
pub(crate) fn is_held(meta: Meta) -> bool
    ensures { result ≡ held meta }
{
    match meta {
        Meta::Reserved(_) => true,
        Meta::Visible(_) => true,
        Meta::Unused => false,
        Meta::Deleted { .. } => false,
    }
}

/// Whether a record has the place.
#[tactic(auto, unfolding(crate::specs::Page::used))]
pub(crate) fn is_used(meta: Meta) -> bool
    ensures { result ≡ used meta }
{
    match meta {
        Meta::Unused => false,
        Meta::Reserved(_) => true,
        Meta::Visible(_) => true,
        Meta::Deleted { .. } => true,
    }
}

/// The block words of a record.
pub(crate) fn weight(meta: Meta) -> u32
    requires { IsMeta meta }
    ensures words { result ≡ words_held meta }
    ensures small { result < 2 ^ 17 }
{
    let extent = extent_of(meta);
    words_for(extent.key) + words_for(extent.total - extent.key)
}
