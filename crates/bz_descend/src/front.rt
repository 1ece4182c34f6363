//! What header, status and metadata words of a node say.

ghost use Rattle.std.specs.Prelude.{◌≡◌, ◌<◌, ◌^◌};
ghost use Rattle.bz_key.specs.Packing.{packed_len};
ghost use Rattle.bz_slotted.specs.Page.{meta_of as said_of, extent_of as said_extent};
ghost use Rattle.bz_word.specs.Headers.{header};
ghost use Rattle.bz_word.specs.Statuses.{status};

use bz_layout::BYTES_IN_WORD;
use bz_word::{Extent, Header, Meta, Status};

/// The level of a node with this header.
pub(crate) fn level_of(word: u64) -> u32
    ensures { word < 2 ^ 32 → result ≡ (header word).level }
{
    bz_word::laws::headers();
    match Header::unpack(word) {
        Some(header) => header.level,
        None => 0,
    }
}

/// The status of a plain word.
pub(crate) fn status_of(word: u64) -> Status
    requires { word < 2 ^ 61 }
    ensures { result ≡ status word }
{
    bz_word::laws::statuses();
    match Status::unpack(word) {
        Some(status) => status,
        None => Status {
            frozen: false,
            count: 0,
            block: 0,
            dead: 0,
            stamp: 0,
        },
    }
}

// What a metadata word says; one that does not unpack says as much as an unused one.
fn meta_of(word: u64) -> Meta
    ensures { result ≡ said_of word }
{
    match Meta::unpack(word) {
        Some(meta) => meta,
        None => Meta::Unused,
    }
}

/// Where the record of a metadata word lies, and its lengths.
#[tactic(auto, unfolding(bz_slotted::specs::Page::extent_of))]
pub(crate) fn extent_of(word: u64) -> Extent
    ensures { result ≡ said_extent (said_of word) }
{
    match meta_of(word) {
        Meta::Unused => Extent {
            offset: 0,
            key: 0,
            total: 0,
        },
        Meta::Reserved(extent) => extent,
        Meta::Visible(extent) => extent,
        Meta::Deleted { key, total } => Extent {
            offset: 0,
            key,
            total,
        },
    }
}

/// How many words so many bytes take.
pub(crate) fn words_for(bytes: u32) -> u32
    requires { bytes < 2 ^ 16 }
    ensures words { result ≡ packed_len bytes }
    ensures small { result < 2 ^ 16 }
{
    bytes.div_ceil(BYTES_IN_WORD)
}
