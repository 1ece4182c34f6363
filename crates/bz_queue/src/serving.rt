//! Open calls.

use bz_ring::QCall;

/// How far an open call has come: which answer of the swap memory it waits for.
#[derive(Clone, Copy)]
pub(crate) enum Place {
    /// Its counter is read.
    Counter,

    /// The cell of this value of its counter is read.
    Cell(u64),

    /// Its counter is read once more: at this moment, just after a load, the cell did not suit.
    Again { counter: u64, at: u32 },

    /// Its swap is under way, from this value of the counter on, and from this word in the cell.
    Swap { counter: u64, word: u64 },
}

/// A worker's open call.
#[derive(Clone, Copy)]
pub(crate) struct OpenCall {
    pub call: QCall,
    pub place: Place,
    /// The moment before its effect, if it has had one.
    pub effect: Option<u32>,
}
