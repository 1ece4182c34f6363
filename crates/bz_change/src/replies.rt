//! What a call reads and replies.
ghost use Rattle.std.specs.Prelude.{◌≡◌, ◌↔◌, IsTrue};
ghost use Rattle.bz_change.specs.Changes.{counter_of, Suits, change_reply as change_of, none_reply as none_of};

use bz_ring::{HEAD_AT, QCall, QReply, TAIL_AT};

/// The address of a call's counter: the tail for a put, the head for a take.
pub fn counter_at(call: QCall) -> u32
    ensures { result ≡ counter_of call }
{
    match call {
        QCall::Put(_) => TAIL_AT,
        QCall::Take => HEAD_AT,
    }
}

/// Whether a cell with this word suits a call: an empty one for a put, and one with an item for a take.
pub fn suits(call: QCall, word: u64) -> bool
    ensures { IsTrue result ↔ Suits call word }
{
    match call {
        QCall::Put(_) => word == 0,
        QCall::Take => word != 0,
    }
}

/// The reply of a call that has changed the list: of a take, whose cell had this word.
pub fn change_reply(call: QCall, word: u64) -> QReply
    ensures { result ≡ change_of call word }
{
    match call {
        QCall::Put(_) => QReply::Put,
        QCall::Take => QReply::Taken(word.saturating_sub(1)),
    }
}

/// The reply of a call whose cell did not suit.
pub fn none_reply(call: QCall) -> QReply
    ensures { result ≡ none_of call }
{
    match call {
        QCall::Put(_) => QReply::Full,
        QCall::Take => QReply::Empty,
    }
}
