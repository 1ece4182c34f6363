//! The first rule that a node breaks.
ghost use Rattle.std.specs.Prelude.{◌≡◌, ◌≢◌, length, true};
ghost use Rattle.bz_layout.specs.declared.sizes.TheConstants.{NODE_WORDS as WORDS};
ghost use Rattle.bz_slotted.specs.Page.{page};
ghost use Rattle.bz_slotted.specs.ReadingLaws.{node_of};
ghost use Rattle.bz_slotted.specs.Rules.{level_test, fences_test, filled_test, leaf_tests, inner_tests, node_fault as fault_of};
ghost use Rattle.bz_slotted.specs.Tests.{first_of};

use crate::entries::{
    all_apart, all_children, all_differ, all_inner_keys, all_inner_records, all_leaf_keys,
    all_leaf_records, all_rise,
};
use crate::filling::{is_filled, is_settled};
use crate::front::{has_fences, is_at_level};
use crate::place::Place;
use bz_tree::ShapeRule;

// The first rule that a leaf breaks, where level, fences and status break none.
fn leaf_fault(raw: &[u64], words: &[u64], place: &Place) -> Option<ShapeRule>
    requires whole { length words.now ≡ WORDS }
    requires raw { length raw.now ≡ WORDS }
    requires level { level_test (page (node_of words.now)) 0 ≡ true }
    requires fences { fences_test (page (node_of words.now)) place.now.low place.now.high ≡ true }
    requires filled { filled_test (page (node_of words.now)) ≡ true }
    ensures { result ≡ first_of (leaf_tests (node_of raw.now) (page (node_of words.now)) place.now.low place.now.high) }
{
    if !all_leaf_records(raw, words) {
        return Some(ShapeRule::Record);
    }
    if !all_apart(words) {
        return Some(ShapeRule::Record);
    }
    if !all_rise(words) {
        return Some(ShapeRule::Order);
    }
    if !all_leaf_keys(words, place) {
        return Some(ShapeRule::Key);
    }
    if !all_differ(words) {
        return Some(ShapeRule::Key);
    }
    None
}

// The first rule that an inner node breaks, where level, fences and status break none.
fn inner_fault(raw: &[u64], words: &[u64], nodes: u32, place: &Place) -> Option<ShapeRule>
    requires whole { length words.now ≡ WORDS }
    requires raw { length raw.now ≡ WORDS }
    requires level { level_test (page (node_of words.now)) place.now.level ≡ true }
    requires fences { fences_test (page (node_of words.now)) place.now.low place.now.high ≡ true }
    requires filled { filled_test (page (node_of words.now)) ≡ true }
    ensures { result ≡ first_of (inner_tests nodes (node_of raw.now) (page (node_of words.now)) place.now.level place.now.low place.now.high) }
{
    if !is_settled(words) {
        return Some(ShapeRule::Status);
    }
    if !all_inner_records(raw, words) {
        return Some(ShapeRule::Record);
    }
    if !all_apart(words) {
        return Some(ShapeRule::Record);
    }
    if !all_rise(words) {
        return Some(ShapeRule::Order);
    }
    if !all_inner_keys(words, place) {
        return Some(ShapeRule::Key);
    }
    if !all_differ(words) {
        return Some(ShapeRule::Key);
    }
    if !all_children(words, nodes) {
        return Some(ShapeRule::Child);
    }
    None
}

/// The first rule that a node breaks which is to stand at a place. `raw` are its words as they stand and
/// `words` the same resolved; a child pointer is to be of one of so many slots.
pub fn node_fault(raw: &[u64], words: &[u64], nodes: u32, place: &Place) -> Option<ShapeRule>
    requires whole { length words.now ≡ WORDS }
    requires raw { length raw.now ≡ WORDS }
    ensures { result ≡ fault_of nodes (node_of raw.now) (node_of words.now) place.now.level place.now.low place.now.high }
{
    if !is_at_level(words, place.level) {
        return Some(ShapeRule::Level);
    }
    if !has_fences(words, place) {
        return Some(ShapeRule::Fence);
    }
    if !is_filled(words) {
        return Some(ShapeRule::Status);
    }
    if place.level == 0 {
        return leaf_fault(raw, words, place);
    }
    inner_fault(raw, words, nodes, place)
}
