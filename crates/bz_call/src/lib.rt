//! The calls of the ordered map and their replies.
#![tactic(auto)]

mod calls;
mod replies;

pub use bz_key::Payload;
pub use calls::Call;
pub use replies::{Reply, Spent};
