//! The turns of a run by a list.
ghost use Rattle.std.specs.Prelude.{◌≡◌, IfOk};

use bz_oom::Memory;
use std::alloc::Global;
use std::marker::Model;

/// Turns of one worker, one after another.
#[derive(Clone, Copy, Debug, PartialEq, Eq)]
pub enum Turn {
    /// So many turns of the worker, 1 to 64.
    Times(u8, u32),
}

/// A list of turns, seen as the turns.
#[derive(Drop)]
pub struct TurnList {
    turns: Vec<Turn>,
}

impl Model for TurnList {
    ghost use Rattle.std.specs.Prelude.{List};
    ghost use Rattle.bz_script.specs.declared.turn_list.Turn.{Turn};

    ghost Value = { List Turn };

    ghost view = { λ l. l.turns.items };
}

impl TurnList {
    /// These turns.
    pub fn open(alloc: Global, turns: &[Turn]) -> Result<TurnList, Memory>
        ensures { IfOk result (λ list. list ≡ turns.now) }
    {
        let turns: Vec<Turn> = turns.to_vec(alloc)?;
        Ok(TurnList { turns })
    }

    /// The turns of a vector.
    pub(crate) fn of(turns: Vec<Turn>) -> TurnList
        ensures { result ≡ turns.items }
    {
        TurnList { turns }
    }

    /// The turns, in the order of their words.
    pub fn turns(&self) -> &[Turn]
        ensures { result.now ≡ self.now }
    {
        &self.turns
    }
}
