//! Laws of what tasks see of a swap memory. Each function does nothing: its contract is the law.

ghost use Rattle.bz_sight.specs.Acts.{QuietStepsPass, StepsLeaveCaches, StoringStepsStore, FlushingStepsFlush};
ghost use Rattle.bz_sight.specs.Effects.{EffectsTakePlace};
ghost use Rattle.bz_sight.specs.Starts.{TasksMayStart, OwnWordsAreHidden, StartsAreSeen};
ghost use Rattle.bz_sight.specs.Passing.{ActsPass};

/// An act by which no swap takes effect leaves a memory that is seen as before, but for words that nobody reads.
pub fn acts_pass()
    ensures { ActsPass }
{}

/// The effect of a swap is seen as one: its entries change for readers, and nothing else.
pub fn effects_take_place()
    ensures { EffectsTakePlace }
{}

/// A step that tells no effect is an act by which none takes effect.
pub fn quiet_steps_pass()
    ensures { QuietStepsPass }
{}

/// A step that is no private store leaves every private word in the caches.
pub fn steps_leave_caches()
    ensures { StepsLeaveCaches }
{}

/// The step of a private store.
pub fn storing_steps_store()
    ensures { StoringStepsStore }
{}

/// The step of a private flush.
pub fn flushing_steps_flush()
    ensures { FlushingStepsFlush }
{}

/// What one owns is hidden from all others.
pub fn own_words_are_hidden()
    ensures { OwnWordsAreHidden }
{}

/// What a task may ask for may be started.
pub fn tasks_may_start()
    ensures { TasksMayStart }
{}

/// A start makes no act: the same memory is seen.
pub fn starts_are_seen()
    ensures { StartsAreSeen }
{}
