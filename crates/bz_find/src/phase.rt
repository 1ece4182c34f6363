//! The phases of a look-up in a leaf.

/// What is asked for next.
#[derive(Clone, Copy, Drop)]
pub(crate) enum FindPhase {
    /// Nothing was asked for yet.
    Fresh,
    /// The status.
    Status,
    /// The header.
    Header,
    /// The word that the search wants.
    Searching,
    /// The status again, of a leaf that is not frozen.
    Again,
    /// The link to a frozen leaf.
    Link,
    /// The guard of that link, which led to the leaf at this moment.
    Guard(u32),
    /// What was found was so at this moment.
    Viewed(u32),
    /// A validating load found another value.
    Changed,
}
