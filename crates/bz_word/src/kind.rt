//! The four kinds of word, told by three control bits.

ghost use Rattle.std.specs.Prelude.{◌≡◌, ◌↔◌, ◌/◌, ◌^◌, IsSome, IfSome, Some};
ghost use Rattle.bz_word.specs.Kinds.{word as word_for, IsKind, IsWord};
ghost use Rattle.bz_word.specs.declared.kind.WordKind.{WordKind};

use crate::field::field;

/// What a word of the memory stands for.
#[derive(Clone, Copy, Debug, PartialEq, Eq)]
pub enum WordKind {
    /// A plain value, below 2^61.
    Value(u64),
    /// A value, below 2^61, that may not have reached the memory yet.
    Dirty(u64),
    /// The number of the descriptor whose swap holds this word.
    Swap(u16),
    /// A claim on this word for one entry of a swap: entries are 0 to 3, workers 1 to 64, and a worker
    /// uses each `seq`, below 2^36, once.
    Tag {
        swap: u16,
        entry: u8,
        worker: u8,
        seq: u64,
    },
}

const DIRTY_BIT: u64 = 1 << 63;

const SWAP_BIT: u64 = 1 << 62;

const TAG_BIT: u64 = 1 << 61;

/// The word that stands for a kind.
pub fn word_of(kind: WordKind) -> u64
    requires { IsKind kind }
    ensures { result ≡ word_for kind }
{
    match kind {
        WordKind::Value(value) => value,
        WordKind::Dirty(value) => DIRTY_BIT + value,
        WordKind::Swap(swap) => SWAP_BIT + swap as u64,
        WordKind::Tag {
            swap,
            entry,
            worker,
            seq,
        } => TAG_BIT + (seq << 25) + ((worker as u64) << 18) + ((entry as u64) << 16) + swap as u64,
    }
}

/// The kind that a word stands for.
pub fn kind_of(word: u64) -> Option<WordKind>
    ensures lawful { IsSome result ↔ IsWord word }
    ensures word { IfSome result (λ kind. IsKind kind × (word_for kind ≡ word)) }
    ensures inverse { (kind : WordKind) → IsKind kind → word_for kind ≡ word → result ≡ Some kind }
{
    match field(word, 61, 3) {
        0 => Some(WordKind::Value(word)),
        4 => Some(WordKind::Dirty(word - DIRTY_BIT)),
        2 if field(word, 16, 45) == 0 => Some(WordKind::Swap(field(word, 0, 16) as u16)),
        1 => tag_of(word),
        _ => None,
    }
}

// The tag that a word with the tag bit alone stands for.
fn tag_of(word: u64) -> Option<WordKind>
    requires { word / 2 ^ 61 ≡ 1 }
    ensures lawful { IsSome result ↔ IsWord word }
    ensures word { IfSome result (λ kind. IsKind kind × (word_for kind ≡ word)) }
    ensures inverse { (kind : WordKind) → IsKind kind → word_for kind ≡ word → result ≡ Some kind }
{
    let worker = field(word, 18, 7);
    if worker == 0 || worker > 64 {
        return None;
    }
    Some(WordKind::Tag {
        swap: field(word, 0, 16) as u16,
        entry: field(word, 16, 2) as u8,
        worker: worker as u8,
        seq: field(word, 25, 36),
    })
}
