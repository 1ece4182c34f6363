//! The sweep over a memory after a power cut, by one worker alone: every word outside the descriptors is resolved and made
//! durable, and then every descriptor made free. It knows no node.
#![tactic(auto)]

mod area;
mod ask;
pub mod laws;
mod phase;
mod sweep;
mod words;

pub use area::Area;
pub use ask::{Answer, Ask};
pub use sweep::Sweep;
