//! The world: workers, their calls, the memory that they share, and the journal of what happened.
#![tactic(auto)]

mod act;
mod answers;
mod begin;
mod boot;
mod calls;
mod changes;
mod effected;
mod end;
mod going;
mod laws;
pub mod leaf_laws;
mod lookups;
mod mark_effect;
mod open;
mod parts;
mod power;
mod recovery;
mod replies;
mod restructuring;
mod room;
mod serving;
mod settle;
mod start;
mod step;
mod tell;
mod told;
mod world;

pub use answers::{Applied, Begun, BootError, Event, LimitKind, OpenError};
pub use bz_mark::Power;
pub use world::World;
