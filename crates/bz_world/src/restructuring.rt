//! What a leaf needs that is frozen or has no room: to be frozen, and then to be copied without the records that are gone, to be
//! split, or to be merged with a neighbour; and what its parent needs, where that has no room for the split.
ghost use Rattle.std.specs.Prelude.{◌≡◌, ◌<◌, true, false, length};
ghost use Rattle.bz_word.specs.Statuses.{status};
ghost use Rattle.bz_world.specs.Inside.Going.{MustRestructure, MustMakeAnew, MustCopy, MustMerge, MustSplit, MustSplitBelow, MustGoUp, WentOn};

use crate::answers::Applied;
use crate::calls::{called, found_path, is_unmerged, key_of, set_task};
use crate::going::{begin_task, look_up};
use crate::laws::{answer_laws, start_laws};
use crate::parts::Parts;
use bz_any_task::{AnyTask, is_due_alone as is_due, is_due_below, is_due_beside};
use bz_layout::SPLIT_ABOVE;
use bz_page::live_words;
use bz_task::{LeafView, Path};

// Freezes the leaf that was read.
fn freeze(parts: &mut Parts, w: u8, path: Path, view: &LeafView) -> Applied
    requires lacks { MustRestructure parts.old w view.now }
    requires thawed { (status view.now.status).frozen ≡ false }
    requires room { length parts.old.journal.past < parts.old.config.marks }
    ensures { WentOn parts.old w result parts.new }
{
    start_laws();
    let task = AnyTask::freeze(&parts.config, path, *view);
    task.laws();
    set_task(&mut parts.workers[w as usize], task, None);
    begin_task(parts, w)
}

// Copies the frozen leaf that was read.
fn consolidate(parts: &mut Parts, w: u8, path: Path, view: &LeafView) -> Applied
    requires copy { MustCopy parts.old w path view.now }
    requires room { length parts.old.journal.past < parts.old.config.marks }
    ensures { WentOn parts.old w result parts.new }
{
    start_laws();
    answer_laws();
    let task = AnyTask::consolidate(&parts.config, path, *view, &mut parts.page);
    task.laws();
    set_task(&mut parts.workers[w as usize], task, None);
    begin_task(parts, w)
}

/// Merges the leaf that was read, frozen or not, with a neighbour.
pub(crate) fn merge(parts: &mut Parts, w: u8, path: Path, view: &LeafView) -> Applied
    requires merge { MustMerge parts.old w path view.now }
    requires room { length parts.old.journal.past < parts.old.config.marks }
    ensures { WentOn parts.old w result parts.new }
{
    start_laws();
    let task = AnyTask::merge(&parts.config, path, *view);
    task.laws();
    set_task(&mut parts.workers[w as usize], task, None);
    begin_task(parts, w)
}

// Splits the frozen root leaf that was read.
fn split_root(parts: &mut Parts, w: u8, path: Path, view: &LeafView) -> Applied
    requires split { MustSplit parts.old w path view.now }
    requires room { length parts.old.journal.past < parts.old.config.marks }
    ensures { WentOn parts.old w result parts.new }
{
    start_laws();
    answer_laws();
    let task = AnyTask::split_root(&parts.config, path, *view, &mut parts.page);
    task.laws();
    set_task(&mut parts.workers[w as usize], task, None);
    begin_task(parts, w)
}

// Splits the frozen leaf that was read, below a parent.
fn split_below(parts: &mut Parts, w: u8, path: Path, view: &LeafView) -> Applied
    requires split { MustSplitBelow parts.old w path view.now }
    requires room { length parts.old.journal.past < parts.old.config.marks }
    ensures { WentOn parts.old w result parts.new }
{
    start_laws();
    answer_laws();
    let call = called(&parts.workers[w as usize]);
    let task = AnyTask::split_below(&parts.config, path, *view, key_of(&call), &mut parts.page);
    task.laws();
    set_task(&mut parts.workers[w as usize], task, None);
    begin_task(parts, w)
}

/// Splits the node above the one whose split lacked the room there. Its call begins again afterwards.
pub(crate) fn split_above(parts: &mut Parts, w: u8, task: AnyTask) -> Applied
    requires up { MustGoUp parts.old w task }
    requires room { length parts.old.journal.past < parts.old.config.marks }
    ensures { WentOn parts.old w result parts.new }
{
    start_laws();
    task.laws();
    set_task(&mut parts.workers[w as usize], task, None);
    begin_task(parts, w)
}

// Merges a frozen leaf, where it has too few live words to stand alone and no neighbour was found without room for it, or copies it.
fn merge_or_copy(parts: &mut Parts, w: u8, path: Path, view: &LeafView) -> Applied
    requires copy { MustCopy parts.old w path view.now }
    requires room { length parts.old.journal.past < parts.old.config.marks }
    ensures { WentOn parts.old w result parts.new }
{
    start_laws();
    if is_unmerged(&parts.workers[w as usize]) {
        return consolidate(parts, w, path, view);
    }
    if is_due_beside(&path, view) {
        merge(parts, w, path, view)
    } else {
        consolidate(parts, w, path, view)
    }
}

// Copies, merges or splits a frozen leaf, where the link to it, or to its parent, can be turned.
fn make_anew(parts: &mut Parts, w: u8, path: Path, view: &LeafView) -> Applied
    requires anew { MustMakeAnew parts.old w path view.now }
    requires frozen { (status view.now.status).frozen ≡ true }
    requires room { length parts.old.journal.past < parts.old.config.marks }
    ensures { WentOn parts.old w result parts.new }
{
    start_laws();
    if !is_due(&path, view) {
        look_up(parts, w)
    } else if live_words(view) <= SPLIT_ABOVE {
        merge_or_copy(parts, w, path, view)
    } else if path.depth == 1 {
        split_root(parts, w, path, view)
    } else if is_due_below(&path, view) {
        split_below(parts, w, path, view)
    } else {
        look_up(parts, w)
    }
}

/// Freezes the leaf that was read, or makes it anew where it is frozen. Its call begins again afterwards.
pub(crate) fn restructure(parts: &mut Parts, w: u8, view: &LeafView) -> Applied
    requires lacks { MustRestructure parts.old w view.now }
    requires room { length parts.old.journal.past < parts.old.config.marks }
    ensures { WentOn parts.old w result parts.new }
{
    let path = found_path(&parts.workers[w as usize]);
    if view.is_frozen() {
        make_anew(parts, w, path, view)
    } else {
        freeze(parts, w, path, view)
    }
}
