//! One inner node made of two neighbours, and of the key that parts them.
#![tactic(auto)]

mod united;

pub use united::united_node;
