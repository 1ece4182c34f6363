//! Laws of the swap memory of a queue. Each function does nothing: its contract is the law.
ghost use Rattle.bz_change.specs.Laws.{QuietActsLeave, EffectsChange, StartsLeave, ReadsTell, ListsFollow};

/// An act or an eviction by which no swap takes effect leaves every value.
pub fn quiet_acts_leave()
    ensures { QuietActsLeave }
{}

/// The effect of a call's swap makes its change, and no other.
pub fn effects_change()
    ensures { EffectsChange }
{}

/// Starts leave every value.
pub fn starts_leave()
    ensures { StartsLeave }
{}

/// A read answers the value of its address, at a load of it.
pub fn reads_tell()
    ensures { ReadsTell }
{}

/// What a call's change makes of the list, and what its cell tells of the list where it does not suit.
pub fn lists_follow()
    ensures { ListsFollow }
{}
