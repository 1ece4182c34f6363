use bz_key::Key;

/// Where a node is to stand: its level, and the bounds of its keys.
#[derive(Clone, Copy, Debug, PartialEq, Eq)]
pub struct Place {
    pub level: u32,
    pub low: Option<Key>,
    pub high: Option<Key>,
}
