//! The words of a descriptor after its status.

/// The words of a descriptor after its status, as far as a worker has stored or loaded them: the number of
/// entries, then target, expected value and new value of each of up to four entries.
#[derive(Clone, Copy)]
pub struct DescriptorWords {
    pub words: [u64; 13],
}
