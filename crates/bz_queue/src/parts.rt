//! What a queue is made of.
use crate::open::Numbers;
use crate::serving::OpenCall;
use bz_mark::Power;
use bz_ring::QJournal;
use bz_swap::Access;
use bz_sweep::Sweep;

/// The memory, the journal of what happened, and what each worker is doing.
#[derive(Drop)]
pub(crate) struct Parts {
    pub numbers: Numbers,
    pub access: Access,
    pub journal: QJournal,
    /// The open call of each worker, from worker 0 on.
    pub workers: Vec<Option<OpenCall>>,
    /// The worker of each swap, by its number.
    pub owners: Vec<u8>,
    /// The number of each worker's last call.
    pub last: Vec<u32>,
    /// How many calls have begun.
    pub begun: u32,
    pub power: Power,
    /// The sweep of the newest recovery.
    pub sweep: Sweep,
}
