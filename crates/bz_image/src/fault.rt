//! Why bytes are no image.

use bz_oom::Memory;
use std::error::Error;
use std::fmt;

/// What is wrong with the bytes of an image, or want of memory.
#[derive(Clone, Copy, Debug, PartialEq, Eq)]
pub enum ImageFault {
    /// Fewer bytes than a head has, or than the head says.
    Short,

    /// The first eight bytes are not those of an image.
    Magic,

    /// The version is another than the one that is known.
    Version,

    /// The number of node slots or of descriptors is out of its range.
    Sizes,

    /// More bytes than the head says.
    Long,

    /// Want of memory.
    Memory,
}

impl fmt::Display for ImageFault {
    ghost use Rattle.std.specs.Prelude.{Some};
    ghost use Rattle.bz_image.specs.Texts.{fault_text};

    ghost output = { λ fault. Some (fault_text fault) };

    fn fmt<W: fmt::Write>(&self, f: &mut fmt::Formatter<W>) -> fmt::Result {
        match self {
            ImageFault::Short => write!(f, "short"),
            ImageFault::Magic => write!(f, "magic"),
            ImageFault::Version => write!(f, "version"),
            ImageFault::Sizes => write!(f, "sizes"),
            ImageFault::Long => write!(f, "long"),
            ImageFault::Memory => write!(f, "want of memory"),
        }
    }
}

impl Error for ImageFault {}

impl From<Memory> for ImageFault {
    ghost use Rattle.std.specs.Prelude.{◌≡◌};
    ghost use Rattle.bz_image.specs.declared.fault.ImageFault.TheVariants.{Memory as WantOfMemory};

    ghost from_gives = { λ _ fault. fault ≡ WantOfMemory };

    fn from(_refused: Memory) -> ImageFault {
        ImageFault::Memory
    }
}
