//! When a merge may begin.

ghost use Rattle.std.specs.Prelude.{◌≡◌, ◌↔◌, ◌≤◌, ◌<◌, true, false, IsTrue};
ghost use Rattle.bz_layout.specs.declared.thresholds.TheConstants.{MERGE_BELOW, MAX_LEVELS};
ghost use Rattle.bz_page.specs.Pages.{IsLeafByItself};
ghost use Rattle.bz_renew.specs.Due.{LeadsTo, IsStatusOf};
ghost use Rattle.bz_slotted.specs.Readers.{live_of};
ghost use Rattle.bz_slotted.specs.ReadingLaws.{node_of};
ghost use Rattle.bz_merge.specs.Thawed.{IsLedTo, IsLedToBy, IsThawedAbove};

use crate::links::upper_link;
use bz_layout::MERGE_BELOW;
use bz_renew::{is_whole, last_link};
use bz_slotted::laws as slotted;
use bz_task::{LeafView, Link, Path};
use bz_word::Status;

/// Whether the view shows a leaf, frozen or not, with too few live words to stand alone, and the path leads to it from the node of
/// the link before the last; and the guards of both links were no frozen nodes'.
pub fn is_due(path: &Path, view: &LeafView) -> bool
    requires some { 1 ≤ path.now.depth }
    requires few { path.now.depth ≤ MAX_LEVELS }
    requires leaf { IsLeafByItself view.now.image.0 }
    ensures due { IsTrue result ↔ ((2 ≤ path.now.depth) × (IsThawedAbove path.now × ((live_of (node_of view.now.image.0) < MERGE_BELOW) × IsLedTo path.now view.now.slot))) }
    ensures leads { result ≡ true → LeadsTo path.now view.now.slot }
    ensures thawed { result ≡ true → IsThawedAbove path.now }
{
    if path.depth < 2 {
        return false;
    }
    if !is_thawed_above(path) {
        return false;
    }
    is_small(view) && leads_to(path, view.slot)
}

// Whether a viewed leaf has fewer live words than one that stays alone.
fn is_small(view: &LeafView) -> bool
    requires { IsLeafByItself view.now.image.0 }
    ensures { IsTrue result ↔ (live_of (node_of view.now.image.0) < MERGE_BELOW) }
{
    slotted::whole_leaves_are_readable();
    is_whole(&view.image);
    view.image.live_words() < MERGE_BELOW
}

// Whether the last link of a path leads to this slot, and its guard, as it was read, was no frozen node's.
fn leads_to(path: &Path, slot: u16) -> bool
    requires some { 1 ≤ path.now.depth }
    requires few { path.now.depth ≤ MAX_LEVELS }
    ensures { IsTrue result ↔ IsLedTo path.now slot }
{
    leads_by(&last_link(path), slot)
}

// The same of the last link alone.
fn leads_by(link: &Link, slot: u16) -> bool
    ensures { IsTrue result ↔ IsLedToBy link.now slot }
{
    is_thawed(link) && link.slot == slot
}

// Whether the guard of the link before the last, as it was read, was no frozen node's.
fn is_thawed_above(path: &Path) -> bool
    requires deep { 2 ≤ path.now.depth }
    requires few { path.now.depth ≤ MAX_LEVELS }
    ensures { IsTrue result ↔ IsThawedAbove path.now }
{
    is_thawed(&upper_link(path))
}

// Whether the guard of a link, as it was read, was no frozen node's.
fn is_thawed(link: &Link) -> bool
    ensures { IsTrue result ↔ IsStatusOf false link.now.status }
{
    bz_word::laws::statuses();
    match Status::unpack(link.status) {
        Some(status) => !status.frozen,
        None => false,
    }
}
