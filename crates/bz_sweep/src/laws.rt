//! Laws of images in a sweep. Each function does nothing: its contract is the law.

ghost use Rattle.bz_sweep.specs.Knowledge.{SweepsKnow};
ghost use Rattle.bz_sweep.specs.Lawful.{LawfulWordsAreThese};

/// Which words of a memory are lawful does not hang on its node slots.
pub fn lawful_words_are_these()
    ensures { LawfulWordsAreThese }
{}

/// What every sweep knows of the memory, and what it knows after its own acts and those of others.
pub fn sweeps_know()
    ensures { SweepsKnow }
{}
