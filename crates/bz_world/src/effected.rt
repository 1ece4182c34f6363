//! What comes of the end of a task of a call that has had its effect. Only a delete that leaves little in its leaf goes on then: its key is
//! looked up again and its leaf read, to be merged with a neighbour; then the inner node under the root on the way to it is merged, and
//! then the root is lowered, each by a descent of its own. Whatever stands against that, or comes of it, its reply is of the moment of its
//! effect.
ghost use Rattle.std.specs.Prelude.{◌≡◌, ◌≢◌, ◌<◌, None, Some, get_or, length};
ghost use Rattle.bz_solo.specs.Errands.{further};
ghost use Rattle.bz_solo.specs.declared.rest.Rest.TheVariants as rests;
ghost use Rattle.bz_world.specs.Inside.Going.{HasEndedAfter, HasFoundAfter, HasReadAfter, HasTriedAfter, MustPass, WentOn, still_in};
ghost use Rattle.bz_world.specs.Inside.Paid.{passing};

use crate::answers::Applied;
use crate::calls::{
    called, is_joining, leaves_few, path_in, rest_after, rest_in, set_rest, set_task,
};
use crate::going::{begin_task, end_effective, look_up};
use crate::laws::{paths_end, round_laws, start_laws};
use crate::lookups::read_leaf;
use crate::parts::Parts;
use crate::restructuring::merge;
use bz_any_task::{AnyTask, is_due_beside as is_due, is_lone, is_small};
use bz_call::Call;
use bz_layout::MERGE_BELOW;
use bz_page::live_words;
use bz_solo::Rest;
use bz_task::{LeafView, Outcome, Path};

// Lowers the root, where the path shows one with a single child; or ends the call.
fn lower_root(parts: &mut Parts, w: u8, at: u32, path: Path) -> Applied
    requires found { HasFoundAfter parts.old w at path }
    requires later { still_in (get_or parts.old.workers.items w None) ≢ Some rests.Leaf }
    requires room { length parts.old.journal.past < parts.old.config.marks }
    ensures { WentOn parts.old w result parts.new }
{
    round_laws();
    start_laws();
    if !is_lone(&path) {
        return end_effective(parts, w, at);
    }
    let task = AnyTask::lower(&parts.config, path);
    task.laws();
    set_task(&mut parts.workers[w as usize], task, None);
    begin_task(parts, w)
}

// Merges the inner node of the path under the root, where there is a small one; or goes on to the root.
fn merge_inner(parts: &mut Parts, w: u8, at: u32, path: Path) -> Applied
    requires found { HasFoundAfter parts.old w at path }
    requires inner { still_in (get_or parts.old.workers.items w None) ≡ Some rests.Inner }
    requires room { length parts.old.journal.past < parts.old.config.marks }
    ensures { WentOn parts.old w result parts.new }
{
    round_laws();
    start_laws();
    if !is_small(&path) {
        return lower_root(parts, w, at, path);
    }
    let task = AnyTask::merge_inner(&parts.config, path);
    task.laws();
    set_task(&mut parts.workers[w as usize], task, None);
    begin_task(parts, w)
}

// Goes on with what is still to be tried, where the way to the key's leaf was found.
fn try_next(parts: &mut Parts, w: u8, at: u32, path: Path) -> Applied
    requires found { HasFoundAfter parts.old w at path }
    requires room { length parts.old.journal.past < parts.old.config.marks }
    ensures { WentOn parts.old w result parts.new }
{
    round_laws();
    match rest_in(&parts.workers[w as usize]) {
        Rest::Leaf => read_leaf(parts, w, path),
        Rest::Inner => merge_inner(parts, w, at, path),
        Rest::Root => lower_root(parts, w, at, path),
    }
}

// Goes on to the inner node under the root, where a leaf with few live words may not be merged.
fn pass_leaf(parts: &mut Parts, w: u8) -> Applied
    requires { MustPass parts.old w passing }
    ensures { WentOn parts.old w result parts.new }
{
    set_rest(&mut parts.workers[w as usize], Rest::Inner);
    look_up(parts, w)
}

// Merges the leaf where it has too few live words to stand alone, or goes on to the inner node where it may not be merged; or ends the call.
fn settle_small(parts: &mut Parts, w: u8, at: u32, view: &LeafView) -> Applied
    requires read { HasReadAfter parts.old w at view.now }
    requires room { length parts.old.journal.past < parts.old.config.marks }
    ensures { WentOn parts.old w result parts.new }
{
    round_laws();
    let Some(path) = path_in(&parts.workers[w as usize]) else {
        return end_effective(parts, w, at);
    };
    paths_end(&path);
    // a leaf that is the root stays as it is
    if path.depth < 2 {
        return end_effective(parts, w, at);
    }
    if live_words(view) >= MERGE_BELOW {
        return end_effective(parts, w, at);
    }
    if is_due(&path, view) {
        merge(parts, w, path, view)
    } else {
        pass_leaf(parts, w)
    }
}

// Goes on with what is to be tried after the merge that has ended.
fn go_further(parts: &mut Parts, w: u8) -> Applied
    requires { MustPass parts.old w further }
    ensures { WentOn parts.old w result parts.new }
{
    let rest = rest_after(&parts.workers[w as usize]);
    set_rest(&mut parts.workers[w as usize], rest);
    look_up(parts, w)
}

// A task of such a delete has ended that is no look-up: it goes on if it has left little in its leaf, or has tried to merge nodes.
fn settle_tried(parts: &mut Parts, w: u8, at: u32, outcome: Outcome) -> Applied
    requires tried { HasTriedAfter parts.old w at outcome }
    requires room { length parts.old.journal.past < parts.old.config.marks }
    ensures { WentOn parts.old w result parts.new }
{
    round_laws();
    if leaves_few(&parts.workers[w as usize]) {
        return look_up(parts, w);
    }
    if is_joining(&parts.workers[w as usize]) {
        return go_further(parts, w);
    }
    end_effective(parts, w, at)
}

/// The task of a call that has had its effect has ended so.
pub(crate) fn settle_effective(parts: &mut Parts, w: u8, at: u32, outcome: Outcome) -> Applied
    requires ends { HasEndedAfter parts.old w at outcome }
    requires room { length parts.old.journal.past < parts.old.config.marks }
    ensures { WentOn parts.old w result parts.new }
{
    round_laws();
    let Call::Delete(_) = called(&parts.workers[w as usize]) else {
        return end_effective(parts, w, at);
    };
    match outcome {
        Outcome::Path(path) => try_next(parts, w, at, path),
        Outcome::View(view) => settle_small(parts, w, at, &view),
        outcome => settle_tried(parts, w, at, outcome),
    }
}
