//! The header word of a node.

ghost use Rattle.std.specs.Prelude.{◌≡◌, ◌↔◌, IsSome, IfSome, Some};
ghost use Rattle.bz_word.specs.Headers.{header_word, IsHeader, IsHeaderWord};
ghost use Rattle.bz_word.specs.declared.header.Header.{Header};

use crate::field::field;

/// What a node is: its level (0 for a leaf), the lengths in bytes of its low and high fence (0 for none)
/// and how many of its metadata words are in key order.
#[derive(Clone, Copy, Debug, PartialEq, Eq)]
pub struct Header {
    pub level: u32,
    pub low: u32,
    pub high: u32,
    pub sorted: u32,
}

impl Header {
    /// The header word.
    pub fn pack(&self) -> u64
        requires { IsHeader self.now }
        ensures { result ≡ header_word self.now }
    {
        ((self.sorted as u64) << 24)
            + ((self.high as u64) << 16)
            + ((self.low as u64) << 8)
            + self.level as u64
    }

    /// The header of a header word: none where a bit of 32 to 63 is set.
    pub fn unpack(word: u64) -> Option<Header>
        ensures lawful { IsSome result ↔ IsHeaderWord word }
        ensures word { IfSome result (λ header. IsHeader header × (header_word header ≡ word)) }
        ensures inverse { (header : Header) → IsHeader header → header_word header ≡ word → result ≡ Some header }
    {
        if field(word, 32, 32) != 0 {
            return None;
        }
        Some(Header {
            level: field(word, 0, 8) as u32,
            low: field(word, 8, 8) as u32,
            high: field(word, 16, 8) as u32,
            sorted: field(word, 24, 8) as u32,
        })
    }
}
