//! Laws of sizes and thresholds. Each function does nothing: its contract is the law.

ghost use Rattle.bz_layout.specs.Numbers.{NumbersOfFormat};
ghost use Rattle.bz_layout.specs.Rooms.{DescriptorPartsFollow, NodePartsFollow, SharedWordsSuffice, RecordsAreBounded, RecordsLieOverFewLines, PairsFitPage, SettledLeafTakesRecord, MergedLeafTakesRecord, SplitLeafIsNotMerged, DeleteLeavesEnough, LeafSplitsInHalves, InnerSplitsInHalves, InnerTakesSeparator, FullInnerIsAboveLimit, NewRootIsSmall, SupplySuffices};

/// The value of each size and threshold. Proofs above use the other laws, and not the values.
pub fn numbers_of_format()
    ensures { NumbersOfFormat }
{}

/// The parts of superblock and descriptor do not overlap.
pub fn descriptor_parts_follow()
    ensures { DescriptorPartsFollow }
{}

/// The parts of a node do not overlap, and the shared words end it.
pub fn node_parts_follow()
    ensures { NodePartsFollow }
{}

/// Metadata and block that share the shared words do not meet, and fit the fields of a status word.
pub fn shared_words_suffice()
    ensures { SharedWordsSuffice }
{}

/// No record has more words than the greatest, or fewer than the least.
pub fn records_are_bounded()
    ensures { RecordsAreBounded }
{}

/// The words of a record lie in few lines, wherever they begin.
pub fn records_lie_over_few_lines()
    ensures { RecordsLieOverFewLines }
{}

/// A leaf has no more pairs than a page has places.
pub fn pairs_fit_page()
    ensures { PairsFitPage }
{}

/// A consolidated leaf has room for a record of any length.
pub fn settled_leaf_takes_record()
    ensures { SettledLeafTakesRecord }
{}

/// A merged leaf has room for a record of any length.
pub fn merged_leaf_takes_record()
    ensures { MergedLeafTakesRecord }
{}

/// No leaf is both split and merged.
pub fn split_leaf_is_not_merged()
    ensures { SplitLeafIsNotMerged }
{}

/// A leaf with so many live words is not merged after one record is deleted.
pub fn delete_leaves_enough()
    ensures { DeleteLeavesEnough }
{}

/// The halves of a leaf are settled, and none is empty.
pub fn leaf_splits_in_halves()
    ensures { LeafSplitsInHalves }
{}

/// The halves of an inner node take one more separator, and none is empty.
pub fn inner_splits_in_halves()
    ensures { InnerSplitsInHalves }
{}

/// An inner node up to its limit takes one more separator.
pub fn inner_takes_separator()
    ensures { InnerTakesSeparator }
{}

/// An inner node that does not take a separator splits in halves.
pub fn full_inner_is_above_limit()
    ensures { FullInnerIsAboveLimit }
{}

/// A new root takes one more separator.
pub fn new_root_is_small()
    ensures { NewRootIsSmall }
{}

/// The slots and swaps promised for a call suffice for a split on each level and a merge.
pub fn supply_suffices()
    ensures { SupplySuffices }
{}
