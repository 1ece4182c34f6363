//! The tasks that a world runs, as one.
#![tactic(auto)]

mod above;
mod levels;
mod running;

pub use bz_ascent::is_due_below;
pub use bz_consol::is_due as is_due_alone;
pub use bz_inner::{is_lone, is_small};
pub use bz_merge::is_due as is_due_beside;
pub use running::AnyTask;
