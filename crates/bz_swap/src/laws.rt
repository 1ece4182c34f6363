//! Laws of the swap memory, for the crates above. Each function does nothing: its contract is the law.

ghost use Rattle.bz_swap.specs.AtomicCalls.{AccessIsAtomic};
ghost use Rattle.bz_swap.specs.EffectPlaces.{EffectsStayInside, StatusWords};
ghost use Rattle.bz_swap.specs.LayoutSizes.{SizesAreOfLayout};
ghost use Rattle.bz_swap.specs.SoloRuns.{SoloStepsAreAllowed, SoloStepsAreAllowedByKind};
ghost use Rattle.bz_swap.specs.PlainFields.{PlainFieldsStay};
ghost use Rattle.bz_swap.specs.Settled.{SettledStay, EffectsStay, DroppedStay, OwnedStay};
ghost use Rattle.bz_swap.specs.SettledWords.{SettledWordsStay};
ghost use Rattle.bz_swap.specs.TakenStatuses.{TakenStatusesStay, BegunStayTaken};

/// What the calls of `Access` do are the events of the atomic swap memory.
pub fn access_is_atomic()
    ensures { AccessIsAtomic }
{}

/// The words of the descriptors after their statuses stay plain, where a recovery writes plain words.
pub fn plain_fields_stay()
    ensures { PlainFieldsStay }
{}

/// An act or eviction that gives a swap its effect changes no durable word outside the descriptors.
pub fn effects_stay_inside()
    ensures { EffectsStayInside }
{}

/// A status that is not free stays so in the caches, outside a recovery time; it comes to be so by the store of undecided,
/// by the worker of its swap.
pub fn taken_statuses_stay()
    ensures { TakenStatusesStay }
{}

/// From an opening or a renewal to the next power cut, each swap begun is a worker's operation or its descriptor's status
/// is not free.
pub fn begun_stay_taken()
    ensures { BegunStayTaken }
{}

/// A swap that no worker does any more has had its effect or never will, whatever happens up to the next act of a
/// recovery.
pub fn settled_stay()
    ensures { SettledStay }
{}

/// A settled word stays settled, unless a private store changes it; a private flush settles the words of its line.
pub fn settled_words_stay()
    ensures { SettledWordsStay }
{}

/// An effect is for good, and is told once.
pub fn effects_stay()
    ensures { EffectsStay }
{}

/// A swap without effect at a power cut never has one, where the recovery writes no status but free.
pub fn dropped_stay()
    ensures { DroppedStay }
{}

/// A swap is one worker's operation at most, and when it is answered it is settled as the answer says.
pub fn owned_stay()
    ensures { OwnedStay }
{}

/// The words that spell a status without the dirty bit.
pub fn status_words()
    ensures { StatusWords }
{}

/// What is left to a worker falls with each of its steps, and its starts add what they allow: so a worker that steps alone makes
/// no more steps than are allowed.
pub fn solo_steps_are_allowed()
    ensures { SoloStepsAreAllowed }
{}

/// By the finer count too, where a read, a load or a store allows one step.
pub fn solo_steps_are_allowed_by_kind()
    ensures { SoloStepsAreAllowedByKind }
{}

/// The sizes that the machine speaks of, which knows no layout, are those of the layout.
pub fn sizes_are_of_layout()
    ensures { SizesAreOfLayout }
{}
