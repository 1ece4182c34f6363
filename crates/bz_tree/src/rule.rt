//! The rules of the shape of a tree, and which one is broken where.

/// The rules of the shape of an image, in the order in which they are asked.
#[derive(Clone, Copy, Debug, PartialEq, Eq)]
pub enum ShapeRule {
    /// The superblock's fixed words.
    Super,
    /// Every word stands for something.
    Word,
    /// The root pointer and the status beside it.
    Root,
    /// No slot is reached twice.
    Twice,
    /// A node's level is one less than its parent's.
    Level,
    /// A node's fences are the bounds that its parent gives it.
    Fence,
    /// A node's status agrees with its words.
    Status,
    /// Each record lies in its node, apart from the others.
    Record,
    /// The sorted records are in the order of their keys.
    Order,
    /// Keys are in the node's range, each once.
    Key,
    /// Each child pointer is one of a slot.
    Child,
}

/// The first rule that an image breaks, and where: an address for a word, 0 for superblock and root, and
/// otherwise a slot.
#[derive(Clone, Copy, Debug, PartialEq, Eq)]
pub struct ShapeFault {
    pub rule: ShapeRule,
    pub place: u32,
}
