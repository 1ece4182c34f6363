//! The laws of the machine. Each function does nothing: its contract is the law.

ghost use Rattle.bz_swap_machine.specs.Budgets.{BeginsBounded, StaysBounded, BudgetsAreAllowed, StartsAddAllowed, StartsAddByKind, SwapsAddAllowed, EvictionsKeepBudgets, ActsSpend};
ghost use Rattle.bz_swap_machine.specs.BudgetTable.{PlacesCount, BudgetsAreSpent};
ghost use Rattle.bz_swap_machine.specs.DirtyHomes.{DirtyStayHome};
ghost use Rattle.bz_swap_machine.specs.Ends.{EndsStayWhole};
ghost use Rattle.bz_swap_machine.specs.Fronts.{FrontsStay, AllStayRising};
ghost use Rattle.bz_swap_machine.specs.Invariance.{CutRecovers};
ghost use Rattle.bz_swap_machine.specs.Lawful.{StayInRange};
ghost use Rattle.bz_swap_machine.specs.SoloRuns.{SoloStepsAreAllowed, SoloStepsAreAllowedByKind};
ghost use Rattle.bz_swap_machine.specs.Owners.{OwnersStay};
ghost use Rattle.bz_swap_machine.specs.Progress.{TagsStayHome};
ghost use Rattle.bz_swap_machine.specs.Promise.{Atomic, EffectsLast, FailuresLast, CutsKeep};

/// Whatever has happened since power on, each further event leaves what every address holds or is the effect
/// of one whole swap, notes a miss only where a target differs, and answers rightly.
pub fn atomic()
    ensures { Atomic }
{}

/// An effect is for good, so no swap takes effect twice.
pub fn effects_last()
    ensures { EffectsLast }
{}

/// A swap that was answered with false never takes effect.
pub fn failures_last()
    ensures { FailuresLast }
{}

/// A power cut leaves what every address holds, and what is needed to resolve it.
pub fn cuts_keep()
    ensures { CutsKeep }
{}

/// At every moment each word outside the descriptors is one of a kind.
pub fn stay_in_range()
    ensures { StayInRange }
{}

/// Under the invariant, a power cut leaves what every address holds, and what is needed to resolve it.
pub fn cut_recovers()
    ensures { CutRecovers }
{}

/// A tag that stands is one that its worker goes on with.
pub fn tags_stay_home()
    ensures { TagsStayHome }
{}

/// A word with a dirty value is one that a worker goes on to clean.
pub fn dirty_stay_home()
    ensures { DirtyStayHome }
{}

/// While a swap is undecided its pointers stand on its first entries, and a tag no further than on the next one.
pub fn fronts_stay()
    ensures { FrontsStay }
{}

/// The targets of all swaps rise, as those of each swap that begins do.
pub fn all_stay_rising()
    ensures { AllStayRising }
{}

/// The last phase of a swap leaves nothing of it behind.
pub fn ends_stay_whole()
    ensures { EndsStayWhole }
{}

/// A swap without an answer is the operation of the worker that began it.
pub fn owners_stay()
    ensures { OwnersStay }
{}

/// At power on all holds that makes a worker end which steps alone.
pub fn begins_bounded()
    ensures { BeginsBounded }
{}

/// And it holds after each event that may happen.
pub fn stays_bounded()
    ensures { StaysBounded }
{}

/// The budget of a worker is at most what the workers that are not idle allow.
pub fn budgets_are_allowed()
    ensures { BudgetsAreAllowed }
{}

/// The start of a read, a store or a flush adds to a worker's budget what it allows.
pub fn starts_add_allowed()
    ensures { StartsAddAllowed }
{}

/// By the finer count, that of a read or a store adds one at most, and that of a flush two.
pub fn starts_add_by_kind()
    ensures { StartsAddByKind }
{}

/// No eviction changes a budget.
pub fn evictions_keep_budgets()
    ensures { EvictionsKeepBudgets }
{}

/// Each act of a worker that is not idle spends one of its budget.
pub fn acts_spend()
    ensures { ActsSpend }
{}

/// The start of a swap adds to a worker's budget what it allows.
pub fn swaps_add_allowed()
    ensures { SwapsAddAllowed }
{}

/// A worker that steps alone takes no more steps than its starts allow, and the workers that are not idle at first.
pub fn solo_steps_are_allowed()
    ensures { SoloStepsAreAllowed }
{}

/// By the finer count too, where a read, a load or a store allows one step.
pub fn solo_steps_are_allowed_by_kind()
    ensures { SoloStepsAreAllowedByKind }
{}

/// What each place counts in a solo worker's budget, as a table.
pub fn places_count()
    ensures { PlacesCount }
{}

/// The budgets along a swap of one word alone, and along a read that meets a dirty value.
pub fn budgets_are_spent()
    ensures { BudgetsAreSpent }
{}
