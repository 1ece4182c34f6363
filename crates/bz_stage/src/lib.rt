//! How far a call is from its end: how often the key's leaf, and the nodes above it, have still to be made anew before the words that
//! it asks for fit.
#![tactic(auto)]

pub mod laws;
