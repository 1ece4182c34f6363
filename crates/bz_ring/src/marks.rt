//! Marks of a queue's journal.
use crate::calls::{QCall, QReply};
use bz_mark::Mark;

/// One thing that happened.
#[derive(Clone, Copy)]
pub enum QMark {
    /// The call with number `n` of worker `w` begins. Each worker counts its calls from 1.
    Begin {
        w: u8,
        n: u32,
        call: QCall,
    },

    /// The call ends. It is taken to have happened at the moment `at`, a number of marks of every kind.
    End {
        w: u8,
        n: u32,
        reply: QReply,
        at: u32,
    },

    /// The mark before made the success of this call durable.
    Effect {
        w: u8,
        n: u32,
    },

    /// What happened to the memory: an act, an eviction, a power cut, power on, or the end of recovery.
    Memory(Mark),
}
