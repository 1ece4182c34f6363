//! A leaf as a task has read it: whole, or what it says of one key.

ghost use Rattle.std.specs.Prelude.{◌≡◌, ◌<◌, ◌^◌};
ghost use Rattle.bz_word.specs.Statuses.{status};

use bz_call::Payload;
use bz_content::NodeImage;
use bz_word::Status;

/// The words of a leaf at one moment.
#[derive(Clone, Copy, PartialEq, Eq)]
pub struct LeafView {
    /// The leaf's slot.
    pub slot: u16,
    /// Its status at that moment.
    pub status: u64,
    /// Its words that are in use; the others are 0.
    pub image: NodeImage,
    /// The moment, a number of marks.
    pub at: u32,
}

impl LeafView {
    /// Whether the leaf was frozen.
    pub fn is_frozen(&self) -> bool
        requires { self.now.status < 2 ^ 61 }
        ensures { result ≡ (status self.now.status).frozen }
    {
        bz_word::laws::statuses();
        match Status::unpack(self.status) {
            Some(status) => status.frozen,
            None => false,
        }
    }
}

/// The record of a key in a leaf.
#[derive(Clone, Copy, Debug, PartialEq, Eq)]
pub struct Found {
    /// Which metadata word of the leaf is the record's, from 0 on.
    pub index: u32,
    /// That metadata word.
    pub meta: u64,
    /// The payload.
    pub payload: Payload,
}

/// What a leaf says of one key, at one moment.
#[derive(Clone, Copy, PartialEq, Eq)]
pub struct KeyView {
    /// The leaf's slot.
    pub slot: u16,
    /// Its status at that moment.
    pub status: u64,
    /// The key's record, if there is one.
    pub found: Option<Found>,
    /// The moment, a number of marks.
    pub at: u32,
}
