//! Laws of verdicts. Each function does nothing: its contract is the law.
ghost use Rattle.bz_verdict.specs.Laws.{OneVerdict, SoundIsTold, SoundWhereTold};

/// Of a sound journal no other verdict is right than that it is sound.
pub fn sound_is_told()
    ensures { SoundIsTold }
{}

/// Of each journal one verdict is right: so the answer is determined.
pub fn one_verdict()
    ensures { OneVerdict }
{}

/// A journal that is formed, and in which no call ends with a Full of slots or of the height, is sound exactly where the verdict that it
/// is sound is right.
pub fn sound_where_told()
    ensures { SoundWhereTold }
{}
