//! Laws of images. Each function does nothing: its contract is the law.

ghost use Rattle.bz_content.specs.Laws.{PlainWordsStandForThemselves, WellFormedImagesHaveNoFault, FreshMemoryIsEmpty, MapIsTheContent};
ghost use Rattle.bz_content.specs.Laws.{ConsolidationsKeepTheContent};

/// A plain value resolves to itself.
pub fn plain_words_stand_for_themselves()
    ensures { PlainWordsStandForThemselves }
{}

/// An image has no fault exactly where all its rules hold.
pub fn well_formed_images_have_no_fault()
    ensures { WellFormedImagesHaveNoFault }
{}

/// Fresh memory is well formed and holds nothing.
pub fn fresh_memory_is_empty()
    ensures { FreshMemoryIsEmpty }
{}

/// The content as a map answers each key as the descent does.
pub fn map_is_the_content()
    ensures { MapIsTheContent }
{}

/// A consolidation, at the root or below an inner node, keeps the content.
pub fn consolidations_keep_the_content()
    ensures { ConsolidationsKeepTheContent }
{}
