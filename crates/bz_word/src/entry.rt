//! One word that a swap changes.

/// One entry of a swap: the address of its target, the value that the target must hold and the value
/// that it is to hold. A descriptor stores it as these three words, in this order.
#[derive(Clone, Copy, Debug, PartialEq, Eq)]
pub struct Entry {
    pub target: u32,
    pub expected: u64,
    pub new: u64,
}
