//! How many descriptors are among the words.

use crate::cells::Cells;

impl Cells {
    ghost use Rattle.std.specs.Prelude.{◌≡◌};

    /// How many descriptors there are.
    pub fn swaps(&self) -> u32
        ensures { result ≡ self.now.swaps }
    {
        self.swaps
    }
}
