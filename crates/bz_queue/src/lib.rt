//! A durable bounded queue that many workers share: first in, first out, over a persistent compare-and-swap of two words.
#![tactic(auto)]

mod act;
mod answers;
mod begin;
mod going;
pub mod laws;
mod open;
mod parts;
mod power;
mod queue;
mod recovery;
mod serving;
mod step;

pub use answers::{QApplied, QBegun, QEvent, QLimit, QOpenError};
pub use bz_ring::{QCall, QMark, QReply};
pub use queue::QueueWorld;
