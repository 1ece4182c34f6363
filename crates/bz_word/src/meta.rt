//! The metadata word of a record.

ghost use Rattle.std.specs.Prelude.{◌≡◌, ◌↔◌, IsSome, IfSome, Some};
ghost use Rattle.bz_word.specs.Metas.{meta_word, extent_word as extent_bits, IsExtent, IsMeta, IsMetaWord};
ghost use Rattle.bz_word.specs.declared.meta.Meta.{Meta};

use crate::field::field;

/// Where a record lies: its first word, counted from the node's start, and the lengths in bytes of its
/// key, and of its key and payload together.
#[derive(Clone, Copy, Debug, PartialEq, Eq)]
pub struct Extent {
    pub offset: u32,
    pub key: u32,
    pub total: u32,
}

/// What a metadata word says of its record.
#[derive(Clone, Copy, Debug, PartialEq, Eq)]
pub enum Meta {
    /// No record has this place yet.
    Unused,
    /// The record's place is taken; its bytes may not be there yet.
    Reserved(Extent),
    /// The record is in the node.
    Visible(Extent),
    /// The record was deleted; the lengths in bytes of its key, and of key and payload, are kept.
    Deleted { key: u32, total: u32 },
}

impl Meta {
    /// The metadata word.
    pub fn pack(&self) -> u64
        requires { IsMeta self.now }
        ensures { result ≡ meta_word self.now }
    {
        match *self {
            Meta::Unused => 0,
            Meta::Reserved(extent) => extent_word(extent),
            Meta::Visible(extent) => (1 << 60) + extent_word(extent),
            Meta::Deleted { key, total } => ((key as u64) << 16) + total as u64,
        }
    }

    /// What a metadata word says: nothing where a control bit is set, the key is longer than key and
    /// payload, or the visible bit is set with offset 0.
    pub fn unpack(word: u64) -> Option<Meta>
        ensures lawful { IsSome result ↔ IsMetaWord word }
        ensures word { IfSome result (λ meta. IsMeta meta × (meta_word meta ≡ word)) }
        ensures inverse { (meta : Meta) → IsMeta meta → meta_word meta ≡ word → result ≡ Some meta }
    {
        let offset = field(word, 32, 28) as u32;
        let key = field(word, 16, 16) as u32;
        let total = field(word, 0, 16) as u32;
        let extent = Extent { offset, key, total };
        match field(word, 60, 4) {
            _ if key > total => None,
            0 if word == 0 => Some(Meta::Unused),
            0 if offset == 0 => Some(Meta::Deleted { key, total }),
            0 => Some(Meta::Reserved(extent)),
            1 if offset != 0 => Some(Meta::Visible(extent)),
            _ => None,
        }
    }
}

// The fields of a record's extent, each at its place.
fn extent_word(extent: Extent) -> u64
    requires { IsExtent extent }
    ensures { result ≡ extent_bits extent }
{
    ((extent.offset as u64) << 32) + ((extent.key as u64) << 16) + extent.total as u64
}
