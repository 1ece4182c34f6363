//! A child of an inner node.
use bz_key::Key;

/// A child of an inner node: the lower bound of its keys, none for the first child, and its slot.
#[derive(Clone, Copy, Debug, PartialEq, Eq)]
pub struct Child {
    pub low: Option<Key>,
    pub slot: u16,
}
