//! Laws of stories. Each function does nothing: its contract is the law.

ghost use Rattle.bz_refinement.specs.Laws.{ScenesAreSeen, LivesGoOn, QuietMarksAreLawful, StoresAreTold, FlushesAreTold, EffectsAreTold};

/// The scene of a call that has begun is one of the memory now.
pub fn scenes_are_seen()
    ensures { ScenesAreSeen }
{}

/// A mark by which no swap takes effect leaves a living memory.
pub fn lives_go_on()
    ensures { LivesGoOn }
{}

/// Where it is nobody's private store, it is a lawful step for every worker.
pub fn quiet_marks_are_lawful()
    ensures { QuietMarksAreLawful }
{}

/// A private store is one to its worker, and lawful for the others.
pub fn stores_are_told()
    ensures { StoresAreTold }
{}

/// The end of a private flush is one to its worker.
pub fn flushes_are_told()
    ensures { FlushesAreTold }
{}

/// The effect of a swap: the memory lives on, it is one to its worker, and lawful for the others.
pub fn effects_are_told()
    ensures { EffectsAreTold }
{}
