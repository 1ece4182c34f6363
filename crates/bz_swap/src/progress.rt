//! What a step tells.

use bz_swap_acts::Act;
use bz_swap_machine::Done;

/// A step: the one memory act that it made, what it answers, and the swap whose success it made durable.
#[derive(Clone, Copy)]
pub struct Progress {
    pub act: Act,
    pub done: Done,
    pub effect: Option<u16>,
}

/// All descriptors were taken since the last renewal.
#[derive(Clone, Copy, Debug, PartialEq, Eq)]
pub struct NoSwap;
