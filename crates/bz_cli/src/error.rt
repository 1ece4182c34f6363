//! Why there is no command.
ghost use Rattle.std.specs.Prelude.{◌≡◌};

use std::alloc::AllocError;

/// Why words were not read as a command.
#[derive(Clone, Copy, Debug, PartialEq, Eq)]
pub enum WordsError {
    /// They are no command.
    Usage,
    /// Memory was wanting for reading them.
    Memory,
}

impl From<AllocError> for WordsError {
    ghost use Rattle.bz_cli.specs.declared.error.WordsError.TheVariants.{Memory};

    ghost from_gives = { λ _ error. error ≡ Memory };

    fn from(_refused: AllocError) -> WordsError {
        WordsError::Memory
    }
}
