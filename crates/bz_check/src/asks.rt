//! The lines that one worker asked for.
ghost use Rattle.std.specs.Prelude.{◌≡◌, ◌++◌, ◌∷◌, [], OnOk};

use bz_oom::Memory;
use std::alloc::Global;
use std::marker::Model;

/// A line that was asked for, with the number of marks before, and its eight cached words of then.
#[derive(Clone, Copy)]
pub(crate) struct Asked {
    pub(crate) line: u32,
    pub(crate) moment: u32,
    pub(crate) words: [u64; 8],
}

/// What a worker asked for since its last fence or the last cut, the oldest first. A line may stand there more than once.
#[derive(Drop)]
pub(crate) struct Asks {
    lines: Vec<Asked>,
}

impl Model for Asks {
    ghost use Rattle.std.specs.Prelude.{List};
    ghost use Rattle.bz_check.specs.declared.asks.Asked.{Asked};

    ghost Value = { List Asked };

    ghost view = { λ a. a.lines.items };
}

impl Asks {
    /// Nothing was asked for.
    pub(crate) fn none(alloc: Global) -> Asks
        ensures { result ≡ [] }
    {
        Asks {
            lines: Vec::new(alloc),
        }
    }

    /// The asks as a slice.
    pub(crate) fn as_slice(&self) -> &[Asked]
        ensures { result.now ≡ self.now }
    {
        self.lines.as_slice()
    }

    /// Adds one.
    pub(crate) fn push(&mut self, ask: Asked) -> Result<(), Memory>
        ensures { OnOk result (self.new ≡ self.old ++ ask ∷ []) }
    {
        self.lines.push(ask)?;
        Ok(())
    }

    /// Forgets all.
    pub(crate) fn clear(&mut self)
        ensures { self.new ≡ [] }
    {
        self.lines.clear();
    }
}
