//! Calls of a queue and their replies.

/// A call. What it answers, and what it makes of the list, is `apply` of the specifications.
#[derive(Clone, Copy)]
pub enum QCall {
    /// Puts a number at the end of the list, where there is room.
    Put(u64),

    /// Takes the first item out of the list.
    Take,
}

/// The answer to a call.
#[derive(Clone, Copy)]
pub enum QReply {
    /// The number is in the list.
    Put,

    /// This item was the first, and is out of the list.
    Taken(u64),

    /// There was no item.
    Empty,

    /// There were as many items as may be.
    Full,

    /// No descriptor was left. Nothing has changed.
    Spent,
}
