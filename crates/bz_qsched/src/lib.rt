//! Running what a queue's script asks for.
#![tactic(auto)]

mod alone;
mod busy;
mod cut;
mod fuse;
mod items;
mod list;
mod power_on;
mod running;
mod turn;
mod waiting;

pub use items::{ItemsEnd, run_items};
pub use power_on::power;
pub use running::{RunEnd, run};
pub use waiting::Waiting;
