//! A world's memory, journal and story: how they go on from mark to mark, and what each mark is to each worker.
#![tactic(auto)]

pub mod laws;
