//! The persistent multi-word compare-and-swap as a pure machine: where a worker stands, what each act
//! changes, what holds at every moment, and the laws that each kind of act keeps it.
#![tactic(auto)]

mod descriptor;
mod done;
pub mod laws;
mod next;
mod place;
mod status;
mod worker;

pub use descriptor::DescriptorWords;
pub use done::Done;
pub use next::{after_install_tag, after_look_under, after_put_final, by_status, finished, passed};
pub use place::{HelpStep, Next, Place, PrepareStep};
pub use status::{SwapStatus, Verdict};
pub use worker::{Operation, Worker};
