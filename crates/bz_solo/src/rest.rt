//! How far a delete has come that has had its effect.

/// What is still to be tried for a delete that leaves little in its leaf: the merge of that leaf, then that of the inner node above it under
/// the root, and then the lowering of the root; or all but the first; or the last alone.
#[derive(Clone, Copy, Drop)]
pub enum Rest {
    Leaf,
    Inner,
    Root,
}
