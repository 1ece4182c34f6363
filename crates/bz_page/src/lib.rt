//! A page of the tree: the pairs of one leaf from a key on, and the key with which the next page begins.
#![tactic(auto)]

pub mod laws;
mod pages;

pub use pages::{collect, live_words};
