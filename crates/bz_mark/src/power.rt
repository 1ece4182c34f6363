//! What the power is.

/// Off after a power cut; recovering since it came on; on once recovery has ended.
#[derive(Clone, Copy, Debug, PartialEq, Eq, Hash)]
pub enum Power {
    Off,
    Recovering,
    On,
}
