//! What it means that a call was answered.
ghost use Rattle.bz_index.specs.Meaning.{SeenIsOneHistory};

/// The calls that ended, whichever threads made them, and those that took effect before a cut are steps of one map, in the
/// order of their moments.
pub fn seen_is_one_history()
    ensures { SeenIsOneHistory }
{}
