//! The task that merges two inner nodes under the root.

ghost use Rattle.std.specs.Prelude.{◌≡◌, ◌≢◌, ◌<◌, ℕ, List, Some, false, slice_get, slice_index};
ghost use Rattle.bz_layout.specs.Config.{IsConfig};
ghost use Rattle.bz_layout.specs.declared.swaps.TheConstants.{RENEWAL_SWAPS};
ghost use Rattle.bz_layout.specs.declared.thresholds.TheConstants.{MERGE_SLOTS};
ghost use Rattle.bz_renew.specs.Due.{IsStatusOf};
ghost use Rattle.bz_renew.specs.Nodes.{word_value};
ghost use Rattle.bz_task.specs.Contract.{IsBegun, MayHear, GoesOn, Learns};
ghost use Rattle.bz_task.specs.Outcomes.{IsPath};
ghost use Rattle.bz_task.specs.Scene.{Scene, Waiting, IsScene};
ghost use Rattle.bz_task.specs.declared.todo.Seen.TheVariants.{Read as Was};
ghost use Rattle.bz_writer.specs.Facts.{write_asks, write_ready, write_view};
ghost use Rattle.bz_writer.specs.Phases.{no_change};
ghost use Rattle.bz_writer.specs.declared.phase.WritePhase.TheVariants.{Store as Stores};
ghost use Rattle.bz_inner.specs.InnerMerges.{merge_swap};
ghost use Rattle.bz_inner.specs.JoinDuties.{asks_joining, joining_of, merge_view, IsReadyJoining};
ghost use Rattle.bz_inner.specs.JoinFacts.{joining_acts, joining_nodes, joining_plan, AreMadeOf, HasBegun, HasRead, HasTold, HasWeighed, IsEndOfJoining, IsSwapReady, IsWeighable, MayJoin};
ghost use Rattle.bz_inner.specs.Joinings.{HadNoRoom, WasJoined, left_slot, left_words, right_slot, right_words};
ghost use Rattle.bz_inner.specs.Neighbours.{IsParentOf};

use crate::join_phase::JoinPhase;
use crate::neighbour::{Neighbour, neighbour_of};
use crate::reading::{after_above, after_beside, after_own, first_read};
use crate::relink::{held_at, relink};
use crate::small::is_small;
use crate::weigh::{separator_at, weight_of};
use bz_branch::{is_thawed, link_at};
use bz_gaps::{first_word, next_place};
use bz_join::{ParentJoin, parent_joined};
use bz_layout::{Config, MERGE_SLOTS, NODE_WORDS, ROOT_AT, SPLIT_ABOVE, STATUS_AT, Slots};
use bz_node::NodeImage;
use bz_renew::is_whole;
use bz_task::{EntryList, LeafView, Link, Outcome, Path, Seen, Task, Todo};
use bz_united::united_node;
use bz_writer::{Begun, WritePhase, flush_at, is_read, look, store_at, word_in};

const JOIN_WORDS: u32 = NODE_WORDS * MERGE_SLOTS;

// The new root and the joined node.
#[derive(Clone, Copy, Drop)]
struct Made {
    root: NodeImage,
    joined: NodeImage,
}

// What a decision leads to: the neighbour, and the next phase.
#[derive(Clone, Copy, Drop)]
struct Step {
    side: Neighbour,
    phase: JoinPhase,
}

/// The merge of the inner node of a path under the root with its right neighbour, or where it is the last child with its left one. It ends
/// with Done where a new root, with one node in the place of both, has taken the old one's place, and the three are frozen; with NeedsRoom
/// where there is no such node, no neighbour, or no room for both; with Restart where a status or the root pointer was another one; and
/// with Full where fewer than two slots or no descriptor were left.
#[derive(Drop)]
pub struct MergeInner {
    config: Config,
    // the root link, the path's link in the root, and the one in the node to which that leads
    upper: Link,
    middle: Link,
    lower: Link,
    // whether the path shows this node small
    small: bool,
    // the words that were read of the root, of the node and of its neighbour
    above: NodeImage,
    own: NodeImage,
    beside: NodeImage,
    side: Neighbour,
    // the new root and the joined node, and their slots
    root: NodeImage,
    joined: NodeImage,
    slots: [u16; 3],
    phase: JoinPhase,
}

impl MergeInner {
    /// The merge of the inner node of a path under the root.
    pub fn new(config: &Config, path: Path) -> MergeInner
        ensures begun { IsBegun (⟦<MergeInner as Task>⟧.view result) config.now joining_acts RENEWAL_SWAPS MERGE_SLOTS }
        ensures change { (⟦<MergeInner as Task>⟧.view result).change ≡ no_change }
        ensures slot { (upper : Link) → slice_get path.links 0 ≡ Some upper → ((⟦<MergeInner as Task>⟧.view result).basis).slot ≡ upper.slot }
        ensures facts { (key : List ℕ) (s : Scene) → s.past.config ≡ config.now → IsScene s → IsPath key path s.past → (⟦<MergeInner as Task>⟧.view result).facts Waiting s }
        ensures done { (upper middle : Link) (s : Scene) → slice_get path.links 0 ≡ Some upper → slice_get path.links 1 ≡ Some middle → (⟦<MergeInner as Task>⟧.view result).means Outcome.Done s → WasJoined upper middle s.past }
        ensures no_room { (upper middle lower : Link) (s : Scene) → slice_get path.links 0 ≡ Some upper → slice_get path.links 1 ≡ Some middle → slice_get path.links 2 ≡ Some lower → (⟦<MergeInner as Task>⟧.view result).means Outcome.NeedsRoom s → HadNoRoom upper middle lower s.past }
        ensures only { (outcome : Outcome) (s : Scene) → (⟦<MergeInner as Task>⟧.view result).means outcome s → IsEndOfJoining outcome }
        ensures no_path { (other : Path) (s : Scene) → (⟦<MergeInner as Task>⟧.view result).means (Outcome.Path other) s → ⊥ }
        ensures no_view { (other : LeafView) (s : Scene) → (⟦<MergeInner as Task>⟧.view result).means (Outcome.View other) s → ⊥ }
    {
        let middle = link_at(&path, 1);
        let lower = link_at(&path, 2);
        let above = first_word(middle.status);
        let own = first_word(lower.status);
        MergeInner {
            config: *config,
            upper: link_at(&path, 0),
            small: is_small(&path),
            middle,
            lower,
            beside: own,
            root: above,
            joined: own,
            above,
            own,
            side: Neighbour {
                right: true,
                place: 0,
                slot: 0,
            },
            slots: [0; 3],
            phase: JoinPhase::Fresh,
        }
    }
}

impl MergeInner {
    // The first phase that asks for something.
    fn begun(&self) -> JoinPhase
        ensures { HasBegun (joining_of self.now) result }
    {
        if self.small {
            JoinPhase::Above(1)
        } else {
            JoinPhase::Pointer
        }
    }

    // A phase with the neighbour as it is.
    fn on(&self, phase: JoinPhase) -> Step
        ensures phase { result.phase ≡ phase }
        ensures side { result.side ≡ self.now.side }
    {
        Step {
            side: self.side,
            phase,
        }
    }

    // What the root's own status, once more, tells: the neighbour.
    fn told(&self, seen: Seen) -> Step
        requires { seen ≡ Was self.now.middle.status → IsStatusOf false self.now.middle.status → IsParentOf self.now.above.0 self.now.middle.slot }
        ensures { HasTold (joining_of self.now) seen result.side result.phase }
    {
        if !is_read(seen, self.middle.status) || !is_thawed(&self.middle) {
            return self.on(JoinPhase::Writing(WritePhase::Restart));
        }
        match neighbour_of(&self.above, self.middle.slot) {
            Some(side) => Step {
                side,
                phase: JoinPhase::Own(1),
            },
            None => self.on(JoinPhase::NoRoom),
        }
    }

    // The phase after the node's status, once more.
    fn read_on(&self, seen: Seen) -> JoinPhase
        ensures { HasRead (joining_of self.now) seen result }
    {
        if is_read(seen, self.lower.status) && is_thawed(&self.lower) {
            JoinPhase::Status
        } else {
            JoinPhase::Writing(WritePhase::Restart)
        }
    }

    // The phase after the neighbour's status, once more: whether the two and the key have room in one.
    fn weighed(&self, seen: Seen) -> JoinPhase
        requires { seen ≡ Was (slice_index self.now.beside.0 0) → IsWeighable (joining_of self.now) }
        ensures { HasWeighed (joining_of self.now) seen result }
    {
        is_whole(&self.beside);
        if !is_read(seen, self.beside.0[STATUS_AT as usize]) {
            return JoinPhase::Writing(WritePhase::Restart);
        }
        let separator = separator_at(&self.above, self.side.place);
        if weight_of(&self.own, &self.beside, &separator) <= SPLIT_ABOVE {
            JoinPhase::Writing(WritePhase::Guard)
        } else {
            JoinPhase::NoRoom
        }
    }

    // The new root and the joined node, which goes into this slot.
    fn make(&self, slot: u16) -> Made
        requires may { MayJoin self.now.config.nodes (joining_of self.now) }
        requires slot { slot < self.now.config.nodes }
        ensures { AreMadeOf (joining_of self.now) slot result.root.0 result.joined.0 }
    {
        let join = ParentJoin {
            place: self.side.place,
            slot,
        };
        let root = parent_joined(&self.above, &join);
        let separator = separator_at(&self.above, self.side.place);
        let joined = if self.side.right {
            united_node(&self.own, &self.beside, separator)
        } else {
            united_node(&self.beside, &self.own, separator)
        };
        Made { root, joined }
    }

    // The same where slots were taken; else what they were.
    fn made_after(&self, begun: &Begun) -> Made
        requires may { MayJoin self.now.config.nodes (joining_of self.now) }
        requires slots { (j : ℕ) → begun.now.phase ≡ Stores j → slice_index begun.now.slots 1 < self.now.config.nodes }
        ensures { (j : ℕ) → begun.now.phase ≡ Stores j → AreMadeOf (joining_of self.now) (slice_index begun.now.slots 1) result.root.0 result.joined.0 }
    {
        match begun.phase {
            WritePhase::Store(_) => self.make(begun.slots[1]),
            _ => Made {
                root: self.root,
                joined: self.joined,
            },
        }
    }

    // The next phase of the writing: the nodes are made when the slots are taken.
    fn write(&mut self, phase: WritePhase, seen: Seen, slots: &mut Slots, moment: u32) -> WritePhase
        requires { MayHear (write_view self.old.config (joining_plan (joining_of self.old)) phase) seen moment slots.old }
        ensures config { self.new.config ≡ self.old.config }
        ensures upper { self.new.upper ≡ self.old.upper }
        ensures middle { self.new.middle ≡ self.old.middle }
        ensures lower { self.new.lower ≡ self.old.lower }
        ensures known { IsConfig self.new.config }
        ensures begun { result ≢ WritePhase.Fresh }
        ensures ready { write_ready self.new.config (joining_plan (joining_of self.new)) result }
        ensures goes { (todo : Todo) → write_asks self.new.config (joining_plan (joining_of self.new)) result ≡ Some todo → GoesOn (write_view self.old.config (joining_plan (joining_of self.old)) phase) (write_view self.new.config (joining_plan (joining_of self.new)) result) seen slots.old slots.new todo }
        ensures learns { Learns (write_view self.old.config (joining_plan (joining_of self.old)) phase) (write_view self.new.config (joining_plan (joining_of self.new)) result) seen moment slots.old slots.new }
    {
        let _moment = moment;
        match phase {
            WritePhase::Fresh => WritePhase::Guard,
            WritePhase::Guard => {
                let begun = look(MERGE_SLOTS, self.upper.slot as u64 + 1, seen, slots);
                let made = self.made_after(&begun);
                let taken = begun.slots;
                self.root = made.root;
                self.joined = made.joined;
                self.slots = taken;
                begun.phase
            }
            _ => phase.after(MERGE_SLOTS, seen),
        }
    }

    // The next phase, whichever it is.
    fn step(&mut self, seen: Seen, slots: &mut Slots, moment: u32)
        requires { MayHear (merge_view self.old) seen moment slots.old }
        ensures known { IsConfig self.new.config }
        ensures begun { self.new.phase ≢ JoinPhase.Fresh }
        ensures ready { IsReadyJoining self.new }
        ensures goes { (todo : Todo) → asks_joining self.new ≡ Some todo → GoesOn (merge_view self.old) (merge_view self.new) seen slots.old slots.new todo }
        ensures learns { Learns (merge_view self.old) (merge_view self.new) seen moment slots.old slots.new }
    {
        match self.phase {
            JoinPhase::Fresh => self.phase = self.begun(),
            JoinPhase::Above(i) => {
                self.above.0[i as usize] = word_in(seen);
                let next = next_place(&self.above, i);
                self.phase = after_above(next);
            }
            JoinPhase::AboveAgain => {
                let next = self.told(seen);
                self.side = next.side;
                self.phase = next.phase;
            }
            JoinPhase::Own(i) => {
                self.own.0[i as usize] = word_in(seen);
                let other = next_place(&self.own, i);
                self.phase = after_own(other);
            }
            JoinPhase::OwnAgain => self.phase = self.read_on(seen),
            JoinPhase::Status => {
                let next = first_read(seen);
                self.beside = next.read;
                self.phase = next.phase;
            }
            JoinPhase::Beside(i) => {
                self.beside.0[i as usize] = word_in(seen);
                let further = next_place(&self.beside, i);
                self.phase = after_beside(further);
            }
            JoinPhase::BesideAgain => self.phase = self.weighed(seen),
            JoinPhase::Writing(phase) => {
                let next = self.write(phase, seen, slots, moment);
                self.phase = JoinPhase::Writing(next);
            }
            JoinPhase::Pointer => self.phase = JoinPhase::NoRoom,
            JoinPhase::NoRoom => {}
        }
    }
}

impl MergeInner {
    // One of the words of the two nodes, counted through.
    fn word(&self, j: u32) -> u64
        requires { j < JOIN_WORDS }
        ensures { result ≡ word_value (joining_nodes (joining_of self.now)) j }
    {
        let place = (j % NODE_WORDS) as usize;
        match j / NODE_WORDS {
            0 => self.root.0[place],
            _ => self.joined.0[place],
        }
    }

    // The swap that turns the root pointer to the new root, and freezes the old one and the two.
    fn swap(&self) -> EntryList
        requires config { IsConfig self.now.config }
        requires ready { IsSwapReady self.now.config (joining_of self.now) }
        ensures { result ≡ merge_swap self.now.config (left_slot (joining_of self.now)) (right_slot (joining_of self.now)) self.now.upper.slot (left_words (joining_of self.now)) (right_words (joining_of self.now)) self.now.above.0 (slice_index self.now.slots 0) }
    {
        let root = held_at(self.upper.slot, &self.above);
        let own = held_at(self.middle.slot, &self.own);
        let beside = held_at(self.side.slot, &self.beside);
        if self.side.right {
            relink(&self.config, root, self.slots[0], own, beside)
        } else {
            relink(&self.config, root, self.slots[0], beside, own)
        }
    }

    // What a phase asks for.
    fn asked(&self) -> Todo
        requires begun { self.now.phase ≢ JoinPhase.Fresh }
        requires config { IsConfig self.now.config }
        requires ready { IsReadyJoining self.now }
        ensures { asks_joining self.now ≡ Some result }
    {
        match self.phase {
            JoinPhase::Pointer => Todo::Read(ROOT_AT),
            JoinPhase::Above(i) => Todo::Read(self.config.node_at(self.upper.slot as u32) + i),
            JoinPhase::AboveAgain => Todo::Read(self.middle.guard),
            JoinPhase::Own(i) => Todo::Read(self.config.node_at(self.middle.slot as u32) + i),
            JoinPhase::OwnAgain => Todo::Read(self.lower.guard),
            JoinPhase::Status | JoinPhase::BesideAgain => {
                Todo::Read(self.config.node_at(self.side.slot as u32) + STATUS_AT)
            }
            JoinPhase::Beside(i) => Todo::Read(self.config.node_at(self.side.slot as u32) + i),
            JoinPhase::Writing(phase) => self.written(phase),
            JoinPhase::Fresh | JoinPhase::NoRoom => Todo::Finish,
        }
    }

    // What the writing asks for.
    fn written(&self, phase: WritePhase) -> Todo
        requires begun { phase ≢ WritePhase.Fresh }
        requires config { IsConfig self.now.config }
        requires ready { write_ready self.now.config (joining_plan (joining_of self.now)) phase }
        ensures { write_asks self.now.config (joining_plan (joining_of self.now)) phase ≡ Some result }
    {
        match phase {
            WritePhase::Guard => Todo::Read(ROOT_AT),
            WritePhase::Store(j) => store_at(&self.config, &self.slots, j, self.word(j)),
            WritePhase::Flush(j) => flush_at(&self.config, &self.slots, j),
            WritePhase::Swap => Todo::Swap(self.swap()),
            _ => Todo::Finish,
        }
    }
}

impl Task for MergeInner {
    ghost view = { merge_view };

    fn publishes(&self) -> bool {
        false
    }

    fn ended(&self) -> Option<Outcome> {
        match self.phase {
            JoinPhase::NoRoom => Some(Outcome::NeedsRoom),
            JoinPhase::Writing(phase) => phase.ended(),
            _ => None,
        }
    }

    fn next(&mut self, seen: Seen, slots: &mut Slots, moment: u32) -> Todo {
        self.step(seen, slots, moment);
        self.asked()
    }

    fn learnt(&self) {}

    fn acted(&self) {}
}
