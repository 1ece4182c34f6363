//! What a check of an image answers.

use bz_oom::Memory;
use bz_tree::ShapeFault;

/// What a well-formed image holds.
#[derive(Clone, Copy, Debug, PartialEq, Eq)]
pub struct Shape {
    /// The pairs of its content.
    pub pairs: u32,
    /// The levels of its tree: 1 where the root is a leaf, at most 12.
    pub levels: u32,
    /// The node slots that are reached from the root.
    pub reached: u32,
}

/// Why a check of an image does not answer its shape.
#[derive(Clone, Copy, Debug, PartialEq, Eq)]
pub enum CheckError {
    /// The image is not well formed: the first rule that it breaks, and where.
    Shape(ShapeFault),
    /// An allocation was refused.
    Memory,
}

impl From<Memory> for CheckError {
    ghost use Rattle.std.specs.Prelude.{◌≡◌};
    ghost use Rattle.bz_content.specs.declared.outcomes.CheckError.TheVariants.{Memory as WantOfMemory};

    ghost from_gives = { λ _ error. error ≡ WantOfMemory };

    fn from(_want: Memory) -> CheckError {
        CheckError::Memory
    }
}
