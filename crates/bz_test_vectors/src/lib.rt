//! Tests of the formats below the tree: words, keys, sizes, nodes and marks, worked out by hand.
#![tactic(auto)]

#[cfg(test)]
mod tests;
