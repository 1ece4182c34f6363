//! What a worker that steps alone may still add to the journal until its call has ended: one number, and how each step pays for it.
#![tactic(auto)]

pub mod laws;
mod rest;

pub use rest::Rest;
