//! The consolidation of a frozen leaf: its visible records are copied into a fresh leaf, and one swap turns the link to it.
#![tactic(auto)]

mod consolidate;
mod copies;
pub mod laws;

pub use bz_renew::is_due;
pub use consolidate::Consolidate;
