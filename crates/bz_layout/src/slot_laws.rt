//! Laws of the slots that are free. Each function does nothing: its contract is the law.

ghost use Rattle.bz_layout.specs.Slots.{TakenSlotsAreGone};

/// Slots that are taken differ, were free, and are not among those that are left.
pub fn taken_slots_are_gone()
    ensures { TakenSlotsAreGone }
{}
