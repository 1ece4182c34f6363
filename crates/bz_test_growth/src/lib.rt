//! Tests of worlds whose trees grow: leaves copied, and nodes of each level split, alone, at once and cut; and calls cut before each
//! of their fences.
#![tactic(auto)]

#[cfg(test)]
mod tests;
