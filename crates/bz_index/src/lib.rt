//! One world that threads share: each makes its calls in turns of single acts, and knows which marks it has seen.
#![tactic(auto)]

mod answer;
mod call;
mod first;
mod index;
pub mod laws;
mod replies;
mod shared;
mod turns;

pub use answer::Answer;
pub use bz_world::{LimitKind, World};
pub use call::{Gate, NoGate};
pub use index::{Index, IndexPass};
pub use shared::{IndexEntry, Origin};
