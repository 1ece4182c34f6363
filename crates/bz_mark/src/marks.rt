//! Marks.
use bz_call::{Call, Reply};

/// One thing that happened. Workers are 0 to 64; worker 0 recovers. Addresses count words, lines are of
/// eight words.
#[derive(Clone, Copy)]
pub enum Mark {
    /// The call with number `n` of worker `w` begins. Each worker counts its calls from 1.
    Begin {
        w: u8,
        n: u32,
        call: Call,
    },

    /// The call ends. It is taken to have happened at the moment `at`, a number of marks.
    End {
        w: u8,
        n: u32,
        reply: Reply,
        at: u32,
    },

    /// A load of the word at `a`, which found `v`.
    Load {
        w: u8,
        a: u32,
        v: u64,
    },

    /// A store of `v`.
    Store {
        w: u8,
        a: u32,
        v: u64,
    },

    /// A compare-and-swap from `old` to `new` of a word that was `found`.
    Cas {
        w: u8,
        a: u32,
        old: u64,
        new: u64,
        found: u64,
    },

    /// The worker asks that a line, as it is in the caches now, be durable after its next fence.
    Ask {
        w: u8,
        line: u32,
    },

    /// A fence: what the worker asked for is durable, or something later is.
    Fence {
        w: u8,
    },

    /// A word became durable by itself.
    Evict {
        a: u32,
    },

    /// The power failed.
    Cut,

    /// The power came on. Recovery begins.
    On,

    /// The act before ended recovery.
    Ready,

    /// The fence or eviction before made the success of this call durable.
    Effect {
        w: u8,
        n: u32,
    },
}
