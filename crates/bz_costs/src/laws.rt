//! Laws of costs. Each function does nothing: its contract is the law.

ghost use Rattle.bz_costs.specs.Costs.{SoloCallsAreAffordable};
ghost use Rattle.bz_costs.specs.Laws.{AskedSwapsAreCounted};

/// A swap that a task asks for is one of those that were still to be asked for.
pub fn asked_swaps_are_counted()
    ensures { AskedSwapsAreCounted }
{}

/// A call that steps alone costs no more marks than its configuration tells.
pub fn solo_calls_are_affordable()
    ensures { SoloCallsAreAffordable }
{}
