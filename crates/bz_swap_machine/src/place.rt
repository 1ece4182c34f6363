//! Where a worker's next memory act is due.

ghost use Rattle.std.specs.Prelude.{◌≡◌};
ghost use Rattle.bz_swap_machine.specs.Fences.{is_fence as fences, helps_by_fence, prepares_by_fence};

use crate::status::Verdict;

/// Where a worker's next memory act is due. Of a line that holds an address, only the address is named.
#[derive(Clone, Copy)]
pub enum Place {
    Idle,
    /// On the descriptor of the own swap, which no other worker can reach yet.
    Prepare(PrepareStep),
    /// Load this word of the current swap's descriptor, counted from the number of entries.
    Learn(u8),
    /// On the current swap, the own or another's.
    Help(HelpStep),
    /// Load the word at the address that is read.
    ReadWord(u32),
    /// Ask for the line of the address that is read, whose word was dirty.
    AskRead { address: u32, value: u64 },
    /// Fence, so that the value is durable.
    FenceRead { address: u32, value: u64 },
    /// Change the dirty value at the address that is read to the plain one.
    ClearRead { address: u32, value: u64 },
    /// Load a word as it is: worker 0, in a recovery time.
    LoadWord(u32),
    /// Store a word: a private one, or in a recovery time any.
    StoreWord { address: u32, value: u64 },
    /// Ask for the line that is flushed: one outside the descriptors, or in a recovery time any.
    AskLine(u32),
    /// Fence, so that the line is durable.
    FenceLine(u32),
}

/// What is due on a descriptor before its swap is published.
#[derive(Clone, Copy)]
pub enum PrepareStep {
    /// Store this word, counted from the number of entries.
    WriteWord(u8),
    /// Store the status: undecided.
    WriteStatus,
    /// Ask for the descriptor's first line, which holds the status.
    AskHead,
    /// Ask for its second line.
    AskTail,
    /// Fence, so that both are durable. Then the swap is published.
    FenceDescriptor,
}

/// What is due on a published swap. Entries count from 0. A tag is named by its worker and this worker's
/// number for it; its swap is the current one and its entry the one at hand.
#[derive(Clone, Copy)]
pub enum HelpStep {
    /// Load the status.
    Look,
    /// Compare-and-swap the target from its expected value to a fresh tag of this worker.
    InstallTag(u8),
    /// Load the status while the tag stands.
    LookUnderTag {
        entry: u8,
        worker: u8,
        seq: u64,
    },
    /// Compare-and-swap the tag to the pointer.
    InstallPointer {
        entry: u8,
        worker: u8,
        seq: u64,
    },
    /// Compare-and-swap the tag back to the expected value.
    RemoveTag {
        entry: u8,
        worker: u8,
        seq: u64,
    },
    /// Ask for the target's line, since a dirty value stands there.
    AskDirty {
        entry: u8,
        value: u64,
    },
    /// Fence, so that the value is durable.
    FenceDirty {
        entry: u8,
        value: u64,
    },
    /// Compare-and-swap the dirty value to the plain one.
    ClearDirty {
        entry: u8,
        value: u64,
    },
    /// Ask for the line of a target, once all pointers stand.
    AskTarget(u8),
    /// Fence, so that the pointers are durable.
    FenceTargets,
    /// Compare-and-swap the status from undecided to the verdict, with the dirty bit.
    Decide(Verdict),
    /// Ask for the descriptor's first line, and with it for the verdict.
    AskStatus(Verdict),
    /// Fence, so that the verdict is durable.
    FenceStatus(Verdict),
    /// Compare-and-swap the dirty bit of the status away.
    ClearStatus(Verdict),
    /// Compare-and-swap the pointer to the value that the verdict leaves, with the dirty bit.
    PutFinal {
        entry: u8,
        verdict: Verdict,
    },
    /// Ask for the line of that value.
    AskFinal {
        entry: u8,
        verdict: Verdict,
    },
    /// Fence, so that the value is durable.
    FenceFinal {
        entry: u8,
        verdict: Verdict,
    },
    /// Compare-and-swap its dirty bit away.
    ClearFinal {
        entry: u8,
        verdict: Verdict,
    },
    /// Compare-and-swap a late tag of the decided swap to the expected value.
    SweepTag {
        entry: u8,
        verdict: Verdict,
        worker: u8,
        seq: u64,
    },
}

/// What follows an act on the current swap.
#[derive(Clone, Copy)]
pub enum Next {
    /// The next act on the same swap.
    Step(HelpStep),
    /// Another swap stands in the way: help it first.
    Meet(u16),
    /// The swap is complete.
    Complete(Verdict),
}

impl PrepareStep {
    /// Whether the act is a fence.
    pub fn is_fence(&self) -> bool
        ensures { result ≡ prepares_by_fence self.now }
    {
        matches!(self, PrepareStep::FenceDescriptor)
    }
}

impl HelpStep {
    /// Whether the act is a fence.
    pub fn is_fence(&self) -> bool
        ensures { result ≡ helps_by_fence self.now }
    {
        matches!(
            self,
            HelpStep::FenceDirty { .. }
                | HelpStep::FenceTargets
                | HelpStep::FenceStatus(_)
                | HelpStep::FenceFinal { .. }
        )
    }
}

impl Place {
    /// Whether the act that is due is a fence.
    pub fn is_fence(&self) -> bool
        ensures { result ≡ fences self.now }
    {
        match self {
            Place::Prepare(step) => step.is_fence(),
            Place::Help(step) => step.is_fence(),
            Place::FenceRead { .. } | Place::FenceLine(_) => true,
            _ => false,
        }
    }
}
