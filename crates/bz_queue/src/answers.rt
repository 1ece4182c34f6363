//! What is asked of a queue, and what it answers.

/// A limit of the journal.
#[derive(Clone, Copy, Debug, PartialEq, Eq)]
pub enum QLimit {
    Marks,
    Calls,
}

/// What may happen next.
#[derive(Clone, Copy, Debug, PartialEq, Eq)]
pub enum QEvent {
    /// The worker makes one memory act of its open call, or worker 0 one of the recovery.
    Step(u8),

    /// The cached word at an address becomes durable by itself.
    Evict(u32),

    /// The power fails: the caches are lost, and no call is open any more.
    Cut,

    /// The power comes on again: worker 0 recovers the memory by its next steps.
    On,
}

/// Why no queue was opened: the first number out of its range, or out of memory.
#[derive(Clone, Copy, Debug, PartialEq, Eq)]
pub enum QOpenError {
    Capacity,
    Swaps,
    Workers,
    Marks,
    Calls,
    Memory,
}

/// The answer to a begin. All but `Begun` are refusals, which leave the queue as it was.
#[derive(Clone, Copy, Debug, PartialEq, Eq)]
pub enum QBegun {
    /// The call has begun, with this number, counted from 1 for each worker.
    Begun(u32),

    /// There is no such worker.
    NoWorker,

    /// The worker's last call is still open.
    Busy,

    /// The power is off.
    Off,

    /// The recovery has not ended.
    Recovering,

    /// The journal has no room.
    Limit(QLimit),
}

/// The answer to an event. `NoWorker`, `NoWord`, `Limit`, `Off`, `Powered`, `Recovering` and `Idle` are refusals, which leave the queue as it was.
#[derive(Clone, Copy, Debug, PartialEq, Eq)]
pub enum QApplied {
    /// The call goes on.
    Stepped,

    /// The call with this number has ended.
    Ended(u32),

    /// The word is durable.
    Evicted,

    /// The power is off now.
    Cut,

    /// The recovery has begun.
    On,

    /// The recovery has ended, and calls may begin.
    Ready,

    /// There is no such worker.
    NoWorker,

    /// The memory has no such word.
    NoWord,

    /// The journal has fewer than three places left.
    Limit,

    /// The power is off.
    Off,

    /// The power is not off.
    Powered,

    /// The recovery has not ended.
    Recovering,

    /// The worker has no open call.
    Idle,
}
