//! Laws of the records of a leaf. Each function does nothing: its contract is the law.

ghost use Rattle.bz_record.specs.Laws.{ViewsShowLeaves, KeyViewsShowLeaves, NewRecordSwapsMayBeAsked, PublicationsAreGood};
ghost use Rattle.bz_record.specs.ReplacingLaws.{RemovalsAreGood, ReplacementsAreGood, ChangesMayBeAsked};

/// A view shows the leaf of its key, and says of the key what the leaf says.
pub fn views_show_leaves()
    ensures { ViewsShowLeaves }
{}

/// A view of a key shows the key's leaf, and says of the key what the leaf says.
pub fn key_views_show_leaves()
    ensures { KeyViewsShowLeaves }
{}

/// Both swaps of a record that comes may be asked for.
pub fn new_record_swaps_may_be_asked()
    ensures { NewRecordSwapsMayBeAsked }
{}

/// A publication is such a swap.
pub fn publications_are_good()
    ensures { PublicationsAreGood }
{}

/// A removal is lawful for everybody, and deletes the key.
pub fn removals_are_good()
    ensures { RemovalsAreGood }
{}

/// The second swap of an update is lawful for everybody, and updates the key.
pub fn replacements_are_good()
    ensures { ReplacementsAreGood }
{}

/// The swaps of an update and of a delete may be asked for.
pub fn changes_may_be_asked()
    ensures { ChangesMayBeAsked }
{}
