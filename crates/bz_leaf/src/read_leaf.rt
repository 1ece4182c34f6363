//! The task that reads a leaf.

ghost use Rattle.std.specs.Prelude.{◌≡◌, ◌≢◌, ◌<◌, ◌≤◌, ◌^◌, Some, ◌-◌, slice_get, length};
ghost use Rattle.bz_layout.specs.Config.{IsConfig};
ghost use Rattle.bz_layout.specs.declared.thresholds.TheConstants.{MAX_LEVELS};
ghost use Rattle.bz_task.specs.Contract.{IsBegun};
ghost use Rattle.bz_task.specs.Outcomes.{IsPath, IsView};
ghost use Rattle.bz_task.specs.Requests.{Hears, Tells, IsKnown};
ghost use Rattle.bz_task.specs.Scene.{Scene, Stage, Waiting, IsScene, HasFilled};
ghost use Rattle.bz_task.specs.declared.todo.Seen.TheVariants.{Start};
ghost use Rattle.bz_leaf.specs.Duties.{facts_of, leaf_view};
ghost use Rattle.bz_leaf.specs.Facts.{IsEndOfReading, leaf_acts, leaf_asks, leaf_left, leaf_learnt, leaf_facts, leaf_differs, leaf_places, IsAfter, IsBlank, view_of};

use crate::phase::LeafPhase;
use crate::place::{is_frozen, next_place};
use bz_key::Key;
use bz_layout::{Config, NODE_WORDS, STATUS_AT, Slots};
use bz_node::NodeImage;
use bz_task::{LeafView, Link, Outcome, Path, Seen, Task, Todo};

/// The words in use of the leaf of a key, validated: of a leaf that is not frozen by a second look at its status, of a frozen
/// one by a second look at the link to it and then at the link's guard. It ends with View, or with Restart where a validating
/// load found another value.
#[derive(Drop)]
pub struct ReadLeaf {
    config: Config,
    key: Key,
    // the way to the leaf, and its last link
    path: Path,
    link: Link,
    // the words that were read so far; the others are 0
    image: NodeImage,
    phase: LeafPhase,
}

impl ReadLeaf {
    /// A reading of the last leaf of a path.
    pub fn new(config: &Config, path: Path, key: Key) -> ReadLeaf
        requires some { 1 ≤ path.depth }
        requires few { path.depth ≤ MAX_LEVELS }
        ensures begun { IsBegun (⟦<ReadLeaf as Task>⟧.view result) config.now leaf_acts 0 0 }
        ensures facts { (s : Scene) → IsScene s → IsPath key path s.past → (⟦<ReadLeaf as Task>⟧.view result).facts Waiting s }
        ensures view { (view : LeafView) (s : Scene) → (⟦<ReadLeaf as Task>⟧.view result).means (Outcome.View view) s → IsView key view s.past }
        ensures leads { (view : LeafView) (s : Scene) → (⟦<ReadLeaf as Task>⟧.view result).means (Outcome.View view) s → IsPath key path s.past }
        ensures none { (path : Path) (s : Scene) → (⟦<ReadLeaf as Task>⟧.view result).means (Outcome.Path path) s → ⊥ }
        ensures only { (outcome : Outcome) (s : Scene) → (⟦<ReadLeaf as Task>⟧.view result).means outcome s → IsEndOfReading outcome }
    {
        ReadLeaf {
            config: *config,
            key,
            link: last_link(&path),
            path,
            image: blank(),
            phase: LeafPhase::Fresh,
        }
    }

    // The leaf as it was read, at this moment.
    fn view(&self, at: u32) -> LeafView
        ensures { result ≡ view_of self.now.link self.now.image at }
    {
        LeafView {
            slot: self.link.slot,
            status: self.image.0[0],
            image: self.image,
            at,
        }
    }

    // The phase after what came of the last act; a word that was read is kept.
    fn after(&mut self, seen: Seen, moment: u32) -> LeafPhase
        requires hears { Hears (leaf_asks self.old.config self.old.link self.old.image self.old.phase) seen }
        requires known { IsKnown self.old.config (facts_of self.old) (leaf_asks self.old.config self.old.link self.old.image self.old.phase) seen moment }
        ensures config { self.new.config ≡ self.old.config }
        ensures key { self.new.key ≡ self.old.key }
        ensures link { self.new.link ≡ self.old.link }
        ensures path { self.new.path ≡ self.old.path }
        ensures nearer { leaf_left result < leaf_left self.old.phase }
        ensures restart { result ≡ LeafPhase.Changed → leaf_differs self.old.link self.old.image.0 self.old.phase seen }
        ensures begins { seen ≡ Start → result ≡ LeafPhase.Status }
        ensures begun { result ≢ LeafPhase.Fresh }
        ensures sizes { IsConfig self.old.config }
        ensures places { leaf_places self.old.config self.old.link result }
        ensures learns { (stage : Stage) (s : Scene) → s.past.now ≡ moment → s.past.config ≡ self.old.config → IsScene s → leaf_facts self.old.key self.old.link self.old.image.0 self.old.phase stage s → Tells (leaf_asks self.old.config self.old.link self.old.image self.old.phase) stage seen s → HasFilled s × leaf_learnt self.old.key self.old.link self.new.image.0 result s.past }
    {
        is_whole(&self.image);
        match (self.phase, seen) {
            (LeafPhase::Fresh, _) => LeafPhase::Status,
            (LeafPhase::Status, Seen::Read(word)) => {
                self.image.0[0] = word;
                after_word(word, 0)
            }
            (LeafPhase::Word(place), Seen::Read(word)) => {
                self.image.0[place] = word;
                after_word(self.image.0[0], place)
            }
            (LeafPhase::Again, Seen::Read(word)) => {
                if word == self.image.0[0] {
                    LeafPhase::Viewed(moment)
                } else {
                    LeafPhase::Changed
                }
            }
            (LeafPhase::Link, Seen::Read(word)) => {
                if word == self.link.slot as u64 + 1 {
                    LeafPhase::Guard(moment)
                } else {
                    LeafPhase::Changed
                }
            }
            (LeafPhase::Guard(at), Seen::Read(word)) => {
                if is_frozen(word) {
                    LeafPhase::Changed
                } else {
                    LeafPhase::Viewed(at)
                }
            }
            _ => LeafPhase::Status,
        }
    }

    // What a phase asks for.
    fn asked(&self) -> Todo
        requires begun { self.now.phase ≢ LeafPhase.Fresh }
        requires config { IsConfig self.now.config }
        requires places { leaf_places self.now.config self.now.link self.now.phase }
        ensures { leaf_asks self.now.config self.now.link self.now.image self.now.phase ≡ Some result }
    {
        match self.phase {
            LeafPhase::Fresh | LeafPhase::Status | LeafPhase::Again => Todo::Read(
                self.config.node_at(self.link.slot as u32) + STATUS_AT,
            ),
            LeafPhase::Word(place) => Todo::Read(
                self.config.node_at(self.link.slot as u32) + place as u32,
            ),
            LeafPhase::Link => Todo::Read(self.link.link),
            LeafPhase::Guard(_) => Todo::Read(self.link.guard),
            LeafPhase::Viewed(_) | LeafPhase::Changed => Todo::Finish,
        }
    }
}

// The last link of a path.
fn last_link(path: &Path) -> Link
    requires some { 1 ≤ path.now.depth }
    requires few { path.now.depth ≤ MAX_LEVELS }
    ensures { slice_get path.now.links (path.now.depth - 1) ≡ Some result }
{
    path.links[path.depth as usize - 1]
}

// An image has a node's words. Does nothing.
fn is_whole(image: &NodeImage)
    ensures { length image.now.0 ≡ NODE_WORDS }
{
    let _words = image.0;
}

// An image of which no word was read.
fn blank() -> NodeImage
    ensures { IsBlank result.0 }
{
    NodeImage([0; NODE_WORDS as usize])
}

// The phase after the word at a place, of a leaf with this status.
fn after_word(status: u64, place: usize) -> LeafPhase
    requires status { status < 2 ^ 61 }
    requires place { place < NODE_WORDS }
    ensures next { IsAfter status place result }
{
    let next = next_place(status, place);
    if next < NODE_WORDS as usize {
        LeafPhase::Word(next)
    } else if is_frozen(status) {
        LeafPhase::Link
    } else {
        LeafPhase::Again
    }
}

impl Task for ReadLeaf {
    ghost view = { leaf_view };

    fn publishes(&self) -> bool {
        false
    }

    fn ended(&self) -> Option<Outcome> {
        match self.phase {
            LeafPhase::Viewed(at) => Some(Outcome::View(self.view(at))),
            LeafPhase::Changed => Some(Outcome::Restart),
            _ => None,
        }
    }

    fn next(&mut self, seen: Seen, slots: &mut Slots, moment: u32) -> Todo {
        let _slots = slots;
        self.phase = self.after(seen, moment);
        self.asked()
    }

    fn learnt(&self) {
        bz_layout::addresses_fit();
        bz_layout::descriptors_stand_apart();
    }

    fn acted(&self) {}
}
