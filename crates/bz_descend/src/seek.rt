//! The task that finds the way to a leaf.

ghost use Rattle.std.specs.Prelude.{◌≡◌, ◌≢◌, ◌+◌, ◌<◌, ◌≤◌, ◌^◌, if◌then◌else◌, ℕ, Bool, List, length, take, Some, true, false};
ghost use Rattle.bz_key.specs.Packing.{packed_len, unpacked_key};
ghost use Rattle.bz_layout.specs.Addresses.{node_address};
ghost use Rattle.bz_layout.specs.Config.{IsConfig};
ghost use Rattle.bz_layout.specs.declared.sizes.TheConstants.{NODE_WORDS, FENCE_WORDS, SHARED_WORDS, STATUS_AT, ROOT_STATUS_AT};
ghost use Rattle.bz_tree.specs.Order.{is_before as before};
ghost use Rattle.bz_word.specs.Statuses.{status};
ghost use Rattle.bz_task.specs.Contract.{IsBegun};
ghost use Rattle.bz_task.specs.Outcomes.{IsPath};
ghost use Rattle.bz_task.specs.Requests.{Hears, Tells, IsKnown};
ghost use Rattle.bz_task.specs.Scene.{Scene, Stage, Waiting, IsScene, HasFilled};
ghost use Rattle.bz_task.specs.declared.todo.Outcome.{Outcome as Ends};
ghost use Rattle.bz_task.specs.declared.todo.Seen.TheVariants.{Start};
ghost use Rattle.bz_task.specs.declared.todo.Todo.TheVariants.{Read};
ghost use Rattle.bz_descend.specs.Facts.{IsEndOfDescent, IsInNode};
ghost use Rattle.bz_layout.specs.declared.thresholds.TheConstants.{MAX_LEVELS};
ghost use Rattle.bz_descend.specs.Halving.{sight_in, settled};
ghost use Rattle.bz_descend.specs.Inners.{most_records};
ghost use Rattle.bz_descend.specs.SeekDuties.{key_of, asked_of, facts_of, seek_view};
ghost use Rattle.bz_descend.specs.SeekFacts.{seek_reads, path_reads, AreCountsOfNodes, StopsAfter, reads_at, asks_one, arrived_at, seek_asks, seek_left, seek_learnt, seek_facts, seek_differs, seek_bounds, seek_heard, IsCounted};
ghost use Rattle.bz_descend.specs.Ways.{AreThawed};

use crate::front::{extent_of, level_of, status_of, words_for};
use crate::links::{to_root, with_link};
use crate::separator::is_before;
use crate::sight::{Probe, Sight, Way};
use bz_key::Key;
use bz_layout::{
    Config, FENCE_WORDS, HEADER_AT, META_AT, ROOT_AT, ROOT_STATUS_AT, STATUS_AT, Slots,
};
use bz_search::halved;
use bz_task::{Link, Outcome, Path, Seen, Task, Todo};
use bz_word::Extent;

/// The way to the leaf of a key, by halving in each inner node. It ends with Path, or with Restart where the status of an inner
/// node is frozen.
#[derive(Drop)]
pub struct Seek {
    config: Config,
    key: Key,
    phase: Way,
    // the links to the node that is read
    path: Path,
    // the level of the root, once its header was read: a path with more links than that has come to a leaf
    height: u32,
    // the words of a record's key that were read so far
    words: [u64; FENCE_WORDS as usize],
    // how many reads were asked for
    asked: u32,
}

impl Seek {
    /// A descent that has asked for nothing yet.
    pub fn new(config: &Config, key: Key) -> Seek
        ensures begun { IsBegun (⟦<Seek as Task>⟧.view result) config.now (seek_reads + 1) 0 0 }
        ensures key { key_of result ≡ key }
        ensures asked { asked_of result ≡ 0 }
        ensures facts { (s : Scene) → (⟦<Seek as Task>⟧.view result).facts Waiting s }
        ensures path { (path : Path) (s : Scene) → (⟦<Seek as Task>⟧.view result).means (Outcome.Path path) s → IsPath key path s.past }
        ensures thawed { (path : Path) (s : Scene) → (⟦<Seek as Task>⟧.view result).means (Outcome.Path path) s → AreThawed path }
        ensures only { (outcome : Ends) (s : Scene) → (⟦<Seek as Task>⟧.view result).means outcome s → IsEndOfDescent outcome }
    {
        Seek {
            config: *config,
            key,
            phase: Way::Fresh,
            path: to_root(0, 0),
            height: 0,
            words: [0; FENCE_WORDS as usize],
            asked: 0,
        }
    }

    /// A descent that asks for its first read, that of the root status.
    pub fn begun(config: &Config, key: Key) -> Seek
        ensures config { (⟦<Seek as Task>⟧.view result).config ≡ config.now }
        ensures asks { (⟦<Seek as Task>⟧.view result).asks ≡ Some (Read ROOT_STATUS_AT) }
        ensures left { (⟦<Seek as Task>⟧.view result).left ≡ seek_reads }
        ensures swaps { (⟦<Seek as Task>⟧.view result).swaps ≡ 0 }
        ensures made { (⟦<Seek as Task>⟧.view result).made ≡ 0 }
        ensures needs { (⟦<Seek as Task>⟧.view result).needs ≡ 0 }
        ensures key { key_of result ≡ key }
        ensures asked { asked_of result ≡ 1 }
        ensures facts { (s : Scene) → HasFilled s → (⟦<Seek as Task>⟧.view result).facts Waiting s }
        ensures path { (path : Path) (s : Scene) → (⟦<Seek as Task>⟧.view result).means (Outcome.Path path) s → IsPath key path s.past }
        ensures thawed { (path : Path) (s : Scene) → (⟦<Seek as Task>⟧.view result).means (Outcome.Path path) s → AreThawed path }
        ensures only { (outcome : Ends) (s : Scene) → (⟦<Seek as Task>⟧.view result).means outcome s → IsEndOfDescent outcome }
    {
        Seek {
            config: *config,
            key,
            phase: Way::Guard,
            path: to_root(0, 0),
            height: 0,
            words: [0; FENCE_WORDS as usize],
            asked: 1,
        }
    }

    /// How many times `next` has answered that it reads.
    pub fn asked(&self) -> u32
        ensures asked { result ≡ asked_of self.now }
        // where it has ended with a path, by the nodes of the path; where a guard was frozen, by those before it and its status
        ensures found { (path : Path) (s : Scene) → (⟦<Seek as Task>⟧.view self.now).facts Waiting s → (⟦<Seek as Task>⟧.view self.now).end ≡ Some (Outcome.Path path) → result ≤ path_reads path }
        ensures counts { (path : Path) (s : Scene) → IsScene s → (⟦<Seek as Task>⟧.view self.now).facts Waiting s → (⟦<Seek as Task>⟧.view self.now).end ≡ Some (Outcome.Path path) → AreCountsOfNodes path s.past }
        ensures stopped { (s : Scene) → IsScene s → (⟦<Seek as Task>⟧.view self.now).facts Waiting s → (⟦<Seek as Task>⟧.view self.now).end ≡ Some Outcome.Restart → StopsAfter (key_of self.now) result s.past }
    {
        self.asked
    }

    // What a phase may rely on when it is told an answer. Does nothing.
    fn heard(&self, seen: Seen, moment: u32)
        requires hears { Hears (seek_asks self.now.config self.now.phase) seen }
        requires known { IsKnown self.now.config (facts_of self.now) (seek_asks self.now.config self.now.phase) seen moment }
        ensures config { IsConfig self.now.config }
        ensures heard { seek_heard self.now.config self.now.path.depth self.now.phase seen }
        ensures counted { IsCounted self.now.config self.now.path self.now.height self.now.phase self.now.asked }
    {}

    // The phase after what came of the last act; a link that was followed and a word of a key are kept.
    fn after(&mut self, seen: Seen) -> Way
        requires hears { Hears (seek_asks self.old.config self.old.phase) seen }
        requires sizes { IsConfig self.old.config }
        requires bounds { seek_bounds self.old.config self.old.path.depth self.old.phase }
        requires heard { seek_heard self.old.config self.old.path.depth self.old.phase seen }
        requires low { self.old.height < MAX_LEVELS }
        ensures config { self.new.config ≡ self.old.config }
        ensures key { self.new.key ≡ self.old.key }
        ensures asked { self.new.asked ≡ self.old.asked }
        ensures low { self.new.height < MAX_LEVELS }
        ensures begun { result ≢ Way.Fresh }
        ensures begins { seen ≡ Start → result ≡ Way.Guard }
        ensures nearer { seek_left self.new.path.depth result < seek_left self.old.path.depth self.old.phase }
        ensures reads { reads_at self.old.path self.old.phase + asks_one result ≤ reads_at self.new.path result }
        ensures bounds { seek_bounds self.old.config self.new.path.depth result }
        ensures restart { result ≡ Way.Changed → seek_differs self.old.phase seen }
        ensures learns { (stage : Stage) (s : Scene) → s.past.config ≡ self.old.config → IsScene s → seek_facts self.old.key self.old.path self.old.height self.old.words self.old.phase stage s → Tells (seek_asks self.old.config self.old.phase) stage seen s → HasFilled s × seek_learnt self.old.key self.new.path self.new.height self.new.words result s.past }
    {
        is_whole(&self.words);
        match (self.phase, seen) {
            (Way::Guard, Seen::Read(status)) => Way::Root(status),
            (Way::Root(status), Seen::Read(pointer)) => {
                let slot = (pointer - 1) as u16;
                self.path = to_root(slot, status);
                Way::Header(slot)
            }
            (Way::Header(slot), Seen::Read(word)) => {
                self.height = level_of(word);
                self.arrived(slot)
            }
            (Way::Status(slot), Seen::Read(status)) => first_sight(slot, status),
            (Way::Meta(sight), Seen::Read(word)) => Way::Word(sight, extent_of(word), 0),
            (Way::Word(sight, extent, i), Seen::Read(word)) => {
                self.words[i as usize] = word;
                self.after_word(sight, extent, i)
            }
            (Way::First(probe), Seen::Read(word)) => {
                let extent = extent_of(word);
                Way::Pointer(Probe {
                    pointer: extent.offset + words_for(extent.key),
                    ..probe
                })
            }
            (Way::Pointer(probe), Seen::Read(pointer)) => {
                let slot = (pointer - 1) as u16;
                self.path = with_link(&self.path, self.link(probe, slot));
                self.arrived(slot)
            }
            _ => Way::Guard,
        }
    }

    // The phase at the node to which the path leads: each level is one lower than that above it.
    fn arrived(&self, slot: u16) -> Way
        ensures { result ≡ arrived_at self.now.height self.now.path.depth slot }
    {
        if self.path.depth > self.height {
            Way::Found
        } else {
            Way::Status(slot)
        }
    }

    // The phase after a word of a key.
    fn after_word(&self, sight: Sight, extent: Extent, i: u32) -> Way
        requires node { IsInNode extent }
        requires within { i < packed_len extent.key }
        requires sight { sight.part.index < SHARED_WORDS }
        requires high { sight.part.high ≤ SHARED_WORDS }
        ensures more { i + 1 < packed_len extent.key → result ≡ Way.Word sight extent (i + 1) }
        ensures done { packed_len extent.key ≤ i + 1 → (separator : List ℕ) → unpacked_key extent.key (take (packed_len extent.key) self.now.words) ≡ Some separator → result ≡ if before self.now.key separator then sight_in sight.slot sight.status sight.count sight.pointer sight.part.low sight.part.index else sight_in sight.slot sight.status sight.count (extent.offset + packed_len extent.key) (sight.part.index + 1) sight.part.high }
        ensures either { packed_len extent.key ≤ i + 1 → (b : Bool) × (result ≡ if b then sight_in sight.slot sight.status sight.count sight.pointer sight.part.low sight.part.index else sight_in sight.slot sight.status sight.count (extent.offset + packed_len extent.key) (sight.part.index + 1) sight.part.high) }
    {
        if i + 1 < words_for(extent.key) {
            return Way::Word(sight, extent, i + 1);
        }
        if is_before(&self.key, extent.key, &self.words) {
            in_part(
                sight.slot,
                sight.status,
                sight.count,
                sight.pointer,
                sight.part.low,
                sight.part.index,
            )
        } else {
            let pointer = extent.offset + words_for(extent.key);
            in_part(
                sight.slot,
                sight.status,
                sight.count,
                pointer,
                sight.part.index + 1,
                sight.part.high,
            )
        }
    }

    // The link to a child, whose pointer was found.
    fn link(&self, probe: Probe, slot: u16) -> Link
        requires sizes { IsConfig self.now.config }
        requires parent { probe.slot < self.now.config.nodes }
        requires place { probe.pointer < NODE_WORDS }
        ensures { result ≡ record { slot = slot; link = node_address self.now.config probe.slot + probe.pointer; guard = node_address self.now.config probe.slot + STATUS_AT; status = probe.status } }
    {
        let parent = self.config.node_at(probe.slot as u32);
        Link {
            slot,
            link: parent + probe.pointer,
            guard: parent + STATUS_AT,
            status: probe.status,
        }
    }

    // What a phase asks for; each read is counted.
    fn asks_for(&mut self) -> Todo
        requires config { IsConfig self.old.config }
        requires bounds { seek_bounds self.old.config self.old.path.depth self.old.phase }
        requires begun { self.old.phase ≢ Way.Fresh }
        requires few { self.old.asked < seek_reads + 1 }
        ensures new { self.new ≡ record self.old { asked = self.old.asked + asks_one self.old.phase } }
        ensures asks { seek_asks self.old.config self.old.phase ≡ Some result }
    {
        let place = match self.phase {
            Way::Fresh | Way::Guard => ROOT_STATUS_AT,
            Way::Root(_) => ROOT_AT,
            Way::Header(slot) => self.config.node_at(slot as u32) + HEADER_AT,
            Way::Status(slot) => self.config.node_at(slot as u32) + STATUS_AT,
            Way::Meta(sight) => {
                self.config.node_at(sight.slot as u32) + (META_AT + sight.part.index)
            }
            Way::Word(sight, extent, i) => {
                self.config.node_at(sight.slot as u32) + (extent.offset + i)
            }
            Way::First(probe) => self.config.node_at(probe.slot as u32) + META_AT,
            Way::Pointer(probe) => self.config.node_at(probe.slot as u32) + probe.pointer,
            Way::Found | Way::Changed => return Todo::Finish,
        };
        self.asked += 1;
        Todo::Read(place)
    }
}

// Of a key all words have room. Does nothing.
fn is_whole(words: &[u64; FENCE_WORDS as usize])
    ensures { length words.now ≡ FENCE_WORDS }
{}

// The phase at a part of a node's records.
fn in_part(slot: u16, status: u64, count: u32, pointer: u32, low: u32, high: u32) -> Way
    requires { high ≤ SHARED_WORDS }
    ensures { result ≡ sight_in slot status count pointer low high }
{
    match halved(low, high) {
        Some(part) => Way::Meta(Sight {
            slot,
            status,
            count,
            part,
            pointer,
        }),
        None => before_part(slot, status, count, pointer, low),
    }
}

// The phase where the child is that of the record before this one.
fn before_part(slot: u16, status: u64, count: u32, pointer: u32, low: u32) -> Way
    ensures { result ≡ settled slot status count pointer low }
{
    if low > 1 {
        Way::Pointer(Probe {
            slot,
            status,
            count,
            index: low,
            pointer,
        })
    } else {
        Way::First(Probe {
            slot,
            status,
            count,
            index: 0,
            pointer: 0,
        })
    }
}

// The phase after the status of an inner node.
fn first_sight(slot: u16, word: u64) -> Way
    requires plain { word < 2 ^ 61 }
    requires few { (status word).count ≤ most_records }
    ensures frozen { (status word).frozen ≡ true → result ≡ Way.Changed }
    ensures thawed { (status word).frozen ≡ false → result ≡ sight_in slot word (status word).count 0 1 (status word).count }
{
    let status = status_of(word);
    if status.frozen {
        return Way::Changed;
    }
    in_part(slot, word, status.count, 0, 1, status.count)
}

impl Task for Seek {
    ghost view = { seek_view };

    fn publishes(&self) -> bool {
        false
    }

    fn ended(&self) -> Option<Outcome> {
        match self.phase {
            Way::Found => Some(Outcome::Path(self.path)),
            Way::Changed => Some(Outcome::Restart),
            _ => None,
        }
    }

    fn next(&mut self, seen: Seen, slots: &mut Slots, moment: u32) -> Todo {
        let _slots = slots;
        self.heard(seen, moment);
        self.phase = self.after(seen);
        self.asks_for()
    }

    fn learnt(&self) {
        bz_layout::addresses_fit();
        bz_layout::descriptors_stand_apart();
    }

    fn acted(&self) {}
}
