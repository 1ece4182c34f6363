//! Laws of rivals. Each function does nothing: its contract is the law.

ghost use Rattle.bz_rivals.specs.Laws.{RivalsAreFew, RivalsFall, RivalsAreExact, SoloEffectsAreFew};
ghost use Rattle.bz_rivals.specs.Notes.{NotesAreOfBegun, ZeroSwapsNothing};
ghost use Rattle.bz_rivals.specs.Wins.{OwnSwapsWin, ExpectedStand, WholeSwapsWin};

/// There are at most as many rivals as other workers.
pub fn rivals_are_few()
    ensures { RivalsAreFew }
{}

/// While a worker steps alone its rivals grow no more, and with each foreign effect they are one fewer.
pub fn rivals_fall()
    ensures { RivalsFall }
{}

/// Nothing but a foreign effect changes their number then.
pub fn rivals_are_exact()
    ensures { RivalsAreExact }
{}

/// So over any run of one worker alone the foreign effects are at most as many as its rivals were at first.
pub fn solo_effects_are_few()
    ensures { SoloEffectsAreFew }
{}

/// Worker 0, which recovers, never does a swap.
pub fn zero_swaps_nothing()
    ensures { ZeroSwapsNothing }
{}

/// Only a swap that was begun is noted as missed.
pub fn notes_are_of_begun()
    ensures { NotesAreOfBegun }
{}

/// A swap whose expected values stand until its effect is noted as missed by nobody, and is answered with true.
pub fn own_swaps_win()
    ensures { OwnSwapsWin }
{}

/// Where a swap may begin, the durable words stand for what readers see at its targets.
pub fn expected_stand()
    ensures { ExpectedStand }
{}

/// So a swap that begins where its targets have the expected values is answered with true, if its worker steps alone to its end and no
/// foreign effect comes.
pub fn whole_swaps_win()
    ensures { WholeSwapsWin }
{}
