//! Journals judged by their marks and by the images between them.
#![tactic(auto)]

mod image;
mod judge;
pub mod laws;
mod maps;
mod pages;
mod questions;

pub use judge::judge_all_but_causes;
