//! Running the calls that a script queues.
#![tactic(auto)]

mod alone;
mod busy;
mod cut;
mod draws;
mod fuse;
pub mod laws;
mod list;
mod open_calls;
mod power_on;
mod queue;
mod running;
mod turn;

pub use bz_script::{CutPlan, EVICTED_FROM};
pub use bz_world::{BootError, LimitKind, OpenError, Power, World};
pub use open_calls::end_open_calls;
pub use power_on::power;
pub use queue::Queue;
pub use running::{RunEnd, run};
