//! Laws of consolidations. Each function does nothing: its contract is the law.

ghost use Rattle.std.specs.Prelude.{◌≤◌};
ghost use Rattle.bz_consol.specs.Duties.{needs_of};
ghost use Rattle.bz_consol.specs.declared.consolidate.Consolidate.{Consolidate};
ghost use Rattle.bz_layout.specs.declared.thresholds.TheConstants.{CONSOLIDATION_SLOTS};

/// A consolidation takes no more than one slot.
pub fn consolidations_take_one_slot()
    ensures { (t : Consolidate) → needs_of t ≤ CONSOLIDATION_SLOTS }
{}
