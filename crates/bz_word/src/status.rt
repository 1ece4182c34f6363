//! The status word of a node.

ghost use Rattle.std.specs.Prelude.{◌≡◌, ◌↔◌, IsSome, IfSome, Some};
ghost use Rattle.bz_word.specs.Statuses.{status_word, IsStatus, IsStatusWord};
ghost use Rattle.bz_word.specs.declared.status.Status.{Status};

use crate::field::field;

/// How far a node is filled. `block` and `dead` count words of the node's block, `count` counts metadata
/// words in use; `stamp` is changed by every swap on the node.
#[derive(Clone, Copy, Debug, PartialEq, Eq)]
pub struct Status {
    pub frozen: bool,
    pub count: u32,
    pub block: u32,
    pub dead: u32,
    pub stamp: u32,
}

impl Status {
    /// The status word.
    pub fn pack(&self) -> u64
        requires { IsStatus self.now }
        ensures { result ≡ status_word self.now }
    {
        let frozen = if self.frozen { 1 << 60 } else { 0 };
        frozen
            + ((self.count as u64) << 52)
            + ((self.block as u64) << 42)
            + ((self.dead as u64) << 32)
            + self.stamp as u64
    }

    /// The status of a status word: none where a control bit is set.
    pub fn unpack(word: u64) -> Option<Status>
        ensures lawful { IsSome result ↔ IsStatusWord word }
        ensures word { IfSome result (λ status. IsStatus status × (status_word status ≡ word)) }
        ensures inverse { (status : Status) → IsStatus status → status_word status ≡ word → result ≡ Some status }
    {
        if field(word, 61, 3) != 0 {
            return None;
        }
        Some(Status {
            frozen: field(word, 60, 1) == 1,
            count: field(word, 52, 8) as u32,
            block: field(word, 42, 10) as u32,
            dead: field(word, 32, 10) as u32,
            stamp: field(word, 0, 32) as u32,
        })
    }
}
