//! The phases of reading a leaf.

/// What is asked for next.
#[derive(Clone, Copy, Drop)]
pub(crate) enum LeafPhase {
    /// Nothing was asked for yet.
    Fresh,
    /// The status.
    Status,
    /// The word at this place.
    Word(usize),
    /// The status again, of a leaf that is not frozen.
    Again,
    /// The link to a frozen leaf.
    Link,
    /// The guard of that link, which led to the leaf at this moment.
    Guard(u32),
    /// The leaf was so, as it was read, at this moment.
    Viewed(u32),
    /// A validating load found another value.
    Changed,
}
