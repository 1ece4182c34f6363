//! Laws of trees and of the swaps on them. Each function does nothing: its contract is the law.

ghost use Rattle.bz_tree.specs.TreeLaws.{TreesHaveForms, MapIsTheContent};
ghost use Rattle.bz_tree.specs.SwapLaws.{ConsolidationsKeepTheContent};

/// Where there is no fault, the form that the walk shows fits.
pub fn trees_have_forms()
    ensures { TreesHaveForms }
{}

/// The content as a map answers each key as the descent does.
pub fn map_is_the_content()
    ensures { MapIsTheContent }
{}

/// A consolidation, at the root or below an inner slot, keeps the content.
pub fn consolidations_keep_the_content()
    ensures { ConsolidationsKeepTheContent }
{}
