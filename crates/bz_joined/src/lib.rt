//! What a merge of two leaves makes of the stage of a key.
#![tactic(auto)]

pub mod laws;
