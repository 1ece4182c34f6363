//! Fewer levels: a root with one child gives way to it, and two inner nodes under the root become one.
#![tactic(auto)]

mod join_phase;
pub mod laws;
mod lone;
mod lower;
mod lower_phase;
mod merge_inner;
mod neighbour;
mod reading;
mod relink;
mod small;
mod weigh;

pub use lone::is_lone;
pub use lower::Lower;
pub use merge_inner::MergeInner;
pub use small::is_small;
