//! What the swap of a split below a parent leads to. The function does nothing: its contract is the law.

ghost use Rattle.bz_split.specs.BelowSplits.{LeafSplitsBelowAreGood};

/// The swap by which a new parent takes its place, with the halves of a frozen leaf in the leaf's, and the old parent is frozen, is
/// lawful for everybody and changes no content.
pub fn leaf_splits_below_are_good()
    ensures { LeafSplitsBelowAreGood }
{}
