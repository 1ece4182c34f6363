//! A script that was read.
use crate::item_list::ItemList;

/// What the lines of a script ask for.
#[derive(Drop)]
pub struct Script {
    /// How many node slots the memory has, 1 to 16384.
    pub nodes: u32,

    /// How many descriptors of swaps the memory has, 1 to 65536.
    pub swaps: u32,

    /// One item for each line after the first.
    pub items: ItemList,
}
