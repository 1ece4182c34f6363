//! What a world is made of.
use crate::serving::OpenCall;
use arrayvec::ArrayVec;
use bz_key::PageBuf;
use bz_layout::{Config, Slots};
use bz_mark::{Journal, Power};
use bz_recover::Recover;
use bz_swap::Access;

/// The memory, the journal of what happened, and what each worker is doing.
#[derive(Drop)]
pub(crate) struct Parts {
    pub config: Config,
    pub access: Access,
    pub slots: Slots,
    pub journal: Journal,
    /// What the power was when the journal began.
    pub at_start: Power,
    pub power: Power,
    /// What worker 0 does while the power is recovering.
    pub recovery: Recover,
    /// The open call of each worker, from worker 0 on.
    pub workers: Vec<Option<OpenCall>>,
    /// The worker of each swap, by its number.
    pub owners: Vec<u8>,
    /// The number of each worker's last call.
    pub numbers: Vec<u32>,
    /// Where the pairs of a page are put together.
    pub page: PageBuf,
    /// Of each worker, whether its next act was a fence when the power was cut last.
    pub left_out: ArrayVec<bool, 65>,
    /// How many pairs the map has.
    pub pairs: u64,
    /// How many descriptors were taken, and how many slots were free, when the newest call began.
    pub taken_then: u32,
    pub left_then: u32,
    /// How many calls have begun.
    pub begun: u32,
    /// How many of them ask for a page.
    pub pages_begun: u32,
}
