//! The task that splits an inner node below a parent.

ghost use Rattle.std.specs.Prelude.{◌≡◌, ◌≢◌, ◌+◌, ◌<◌, ◌≤◌, ◌^◌, ◌⊎◌, ℕ, List, Some, None, true, false, slice_get, slice_index, length};
ghost use Rattle.bz_layout.specs.Config.{IsConfig};
ghost use Rattle.bz_layout.specs.declared.thresholds.TheConstants.{SPLIT_SLOTS, MAX_LEVELS};
ghost use Rattle.bz_renew.specs.Nodes.{word_value};
ghost use Rattle.bz_task.specs.Contract.{IsBegun, MayHear, GoesOn, Learns};
ghost use Rattle.bz_writer.specs.Facts.{write_asks, write_ready, write_view};
ghost use Rattle.bz_task.specs.Outcomes.{IsPath};
ghost use Rattle.bz_task.specs.OwnActs.{AreTakenFrom};
ghost use Rattle.bz_task.specs.Requests.{Hears, IsKnown, swaps_in, effects_in};
ghost use Rattle.bz_task.specs.Scene.{Scene, Waiting, IsScene};
ghost use Rattle.bz_layout.specs.declared.swaps.TheConstants.{RENEWAL_SWAPS};
ghost use Rattle.bz_task.specs.declared.todo.Seen.TheVariants.{Start, Read as Was, Swapped, NoSwap as NoneLeft};
ghost use Rattle.bz_branch.specs.FromSplit.Facts.{split_change};
ghost use Rattle.bz_branch.specs.Parts.{IsFullNode};
ghost use Rattle.bz_fork.specs.Due.{IsDue};
ghost use Rattle.bz_fork.specs.Duties.{fork_of, asks_fork, end_fork, left_fork, swaps_fork, needs_fork, facts_fork, differs_fork, fork_view};
ghost use Rattle.bz_fork.specs.Facts.{fork_acts, fork_plan, fork_nodes, fork_steps, IsEndOfFork, HasRead, HasOpened, HasTold, AreMadeOf, HasPlace, IsReadyFork, WasSplitInner, LackedPart, IsFirst, HasPassed, HasRefused, word_after, above_after};

use crate::laws::full_nodes_have_halves;
use crate::parent::parent_with;
use crate::phase::ForkPhase;
use crate::room::takes_no_child;
use bz_branch::laws::{parents_of_nodes_were, read_nodes_were};
use bz_branch::{leaves_room, link_at, parts_of, swap_freezing_two};
use bz_call::Spent;
use bz_gaps::{first_word, next_place};
use bz_layout::{Config, NODE_WORDS, SPLIT_SLOTS, Slots};
use bz_node::NodeImage;
use bz_renew::is_whole;
use bz_task::{LeafView, Link, Outcome, Path, Seen, Task, Todo, laws};
use bz_writer::{WritePhase, flush_at, is_read, look, store_at, word_in};

const SPLIT_WORDS: u32 = NODE_WORDS * SPLIT_SLOTS;

// The new parent and the halves.
#[derive(Clone, Copy, Drop)]
struct Made {
    parent: NodeImage,
    left: NodeImage,
    right: NodeImage,
}

/// The split of an inner node of a path, below a parent. It ends with Done where a new parent, with the node's halves in its place, has
/// taken the old one's place, and both are frozen; with Restart where a link or a status was another one; with NeedsRoom where the
/// parent has no room for the separator, as its status tells before a word of it is read, and, where it has room for none, before one
/// of the node is; and with Full where fewer than three slots or no descriptor were left.
#[derive(Drop)]
pub struct SplitInner {
    config: Config,
    // the link to the parent, which is turned, the link to the node, and the path's link in the node
    upper: Link,
    middle: Link,
    lower: Link,
    // the words that were read of the node and of the parent; and those of the new parent and of the halves once the slots are known
    read: NodeImage,
    above: NodeImage,
    parent: NodeImage,
    left: NodeImage,
    right: NodeImage,
    // the slots of the new parent, of the left half and of the right half
    slots: [u16; 3],
    phase: ForkPhase,
}

impl SplitInner {
    /// The split of the node to which the link after this place of a path leads, whose status counts more words than an inner node may
    /// keep.
    pub fn new(config: &Config, path: Path, place: u32) -> SplitInner
        requires few { path.depth ≤ MAX_LEVELS }
        requires within { place < MAX_LEVELS }
        requires due { IsDue path place }
        ensures begun { IsBegun (⟦<SplitInner as Task>⟧.view result) config.now fork_acts RENEWAL_SWAPS SPLIT_SLOTS }
        ensures change { (⟦<SplitInner as Task>⟧.view result).change ≡ split_change }
        ensures node { (middle : Link) → slice_get path.links (place + 1) ≡ Some middle → ((⟦<SplitInner as Task>⟧.view result).basis).slot ≡ middle.slot }
        ensures facts { (key : List ℕ) (s : Scene) → s.past.config ≡ config.now → IsScene s → IsPath key path s.past → (⟦<SplitInner as Task>⟧.view result).facts Waiting s }
        ensures done { (upper middle : Link) (s : Scene) → slice_get path.links place ≡ Some upper → slice_get path.links (place + 1) ≡ Some middle → (⟦<SplitInner as Task>⟧.view result).means Outcome.Done s → WasSplitInner upper middle s.past }
        ensures no_room { (upper middle : Link) (s : Scene) → slice_get path.links place ≡ Some upper → slice_get path.links (place + 1) ≡ Some middle → (⟦<SplitInner as Task>⟧.view result).means Outcome.NeedsRoom s → LackedPart upper middle s.past }
        ensures only { (outcome : Outcome) (s : Scene) → (⟦<SplitInner as Task>⟧.view result).means outcome s → IsEndOfFork outcome }
        ensures no_path { (other : Path) (s : Scene) → (⟦<SplitInner as Task>⟧.view result).means (Outcome.Path other) s → ⊥ }
        ensures no_view { (other : LeafView) (s : Scene) → (⟦<SplitInner as Task>⟧.view result).means (Outcome.View other) s → ⊥ }
    {
        bz_layout::slots_apart();
        let middle = link_at(&path, place + 1);
        let lower = link_at(&path, place + 2);
        let read = first_word(lower.status);
        let above = first_word(middle.status);
        SplitInner {
            config: *config,
            upper: link_at(&path, place),
            middle,
            lower,
            parent: read,
            left: read,
            right: read,
            read,
            above,
            slots: [0; 3],
            phase: ForkPhase::Fresh,
        }
    }
}

impl SplitInner {
    // The first phase that asks for something: the node's words are read, unless the parent's status, as the path names it, leaves room
    // for no child.
    fn first(&self) -> ForkPhase
        requires { self.now.middle.status < 2 ^ 61 }
        ensures { IsFirst (fork_of self.now) result }
    {
        if takes_no_child(self.middle.status) {
            ForkPhase::Unread
        } else {
            ForkPhase::Word(1)
        }
    }

    // The phase after the status of the node whose words are not read, once more: where it is as it was, that of the parent.
    fn passed(&self, seen: Seen) -> ForkPhase
        ensures { HasPassed (fork_of self.now) seen result }
    {
        if is_read(seen, self.lower.status) {
            ForkPhase::Tight
        } else {
            ForkPhase::Writing(WritePhase::Restart)
        }
    }

    // The phase after the parent's status, once more, where it has room for no child.
    fn refused(&self, seen: Seen) -> ForkPhase
        ensures { HasRefused (fork_of self.now) seen result }
    {
        if !is_read(seen, self.middle.status) {
            return ForkPhase::Writing(WritePhase::Restart);
        }
        ForkPhase::NoRoom
    }

    // The phase after the node's status, once more: the parent is looked at, where it is as it was.
    fn read_on(&self, seen: Seen) -> ForkPhase
        ensures { HasRead (fork_of self.now) seen result }
    {
        if is_read(seen, self.lower.status) {
            ForkPhase::Room
        } else {
            ForkPhase::Writing(WritePhase::Restart)
        }
    }

    // The phase after the parent's status, before its words: where it is as it was, they are read if it leaves the room.
    fn opened(&self, seen: Seen) -> ForkPhase
        requires node { IsFullNode self.now.read.0 }
        requires plain { seen ≡ Was self.now.middle.status → self.now.middle.status < 2 ^ 61 }
        ensures { HasOpened (fork_of self.now) seen result }
    {
        if !is_read(seen, self.middle.status) {
            return ForkPhase::Writing(WritePhase::Restart);
        }
        let separator = parts_of(&self.read).separator;
        if leaves_room(self.middle.status, &separator) {
            ForkPhase::Above(1)
        } else {
            ForkPhase::NoRoom
        }
    }

    // The phase after the parent's status, once more.
    fn told(&self, seen: Seen) -> ForkPhase
        ensures { HasTold (fork_of self.now) seen result }
    {
        if is_read(seen, self.middle.status) {
            ForkPhase::Writing(WritePhase::Guard)
        } else {
            ForkPhase::Writing(WritePhase::Restart)
        }
    }

    // The new parent and the halves, for these slots.
    fn make(&self, slots: [u16; 3]) -> Made
        requires { HasPlace self.now.config.nodes self.now.middle.slot self.now.read.0 self.now.above.0 }
        ensures { AreMadeOf self.now.config.nodes self.now.middle.slot self.now.read.0 self.now.above.0 result.parent.0 result.left.0 result.right.0 (slice_index slots 1) (slice_index slots 2) }
    {
        let halves = parts_of(&self.read);
        let slot = self.middle.slot;
        let Some(parent) = parent_with(&self.above, slot, slots[1], slots[2], halves.separator)
        else {
            unreachable!();
        };
        is_whole(&parent);
        Made {
            parent,
            left: halves.left,
            right: halves.right,
        }
    }

    // The next phase of the writing: the nodes are made when the slots are taken.
    fn write(&mut self, phase: WritePhase, seen: Seen, slots: &mut Slots, moment: u32) -> WritePhase
        requires { MayHear (write_view self.old.config (fork_plan (fork_of self.old)) phase) seen moment slots.old }
        ensures config { self.new.config ≡ self.old.config }
        ensures upper { self.new.upper ≡ self.old.upper }
        ensures middle { self.new.middle ≡ self.old.middle }
        ensures begun { result ≢ WritePhase.Fresh }
        ensures ready { write_ready self.new.config (fork_plan (fork_of self.new)) result }
        ensures goes { (todo : Todo) → write_asks self.new.config (fork_plan (fork_of self.new)) result ≡ Some todo → GoesOn (write_view self.old.config (fork_plan (fork_of self.old)) phase) (write_view self.new.config (fork_plan (fork_of self.new)) result) seen slots.old slots.new todo }
        ensures learns { Learns (write_view self.old.config (fork_plan (fork_of self.old)) phase) (write_view self.new.config (fork_plan (fork_of self.new)) result) seen moment slots.old slots.new }
    {
        let _moment = moment;
        match phase {
            WritePhase::Fresh => WritePhase::Guard,
            WritePhase::Guard => {
                let begun = look(SPLIT_SLOTS, self.upper.status, seen, slots);
                let taken = begun.slots;
                let made = self.make(taken);
                self.parent = made.parent;
                self.left = made.left;
                self.right = made.right;
                self.slots = taken;
                begun.phase
            }
            _ => phase.after(SPLIT_SLOTS, seen),
        }
    }

    // The next phase, whichever it is.
    fn step(&mut self, seen: Seen, slots: &mut Slots, moment: u32)
        requires hears { Hears (asks_fork self.old) seen }
        requires known { IsKnown self.old.config (facts_fork self.old) (asks_fork self.old) seen moment }
        requires memory { 0 < needs_fork self.old → slots.old.nodes ≡ self.old.config.nodes }
        ensures config { self.new.config ≡ self.old.config }
        ensures upper { self.new.upper ≡ self.old.upper }
        ensures middle { self.new.middle ≡ self.old.middle }
        ensures known { IsConfig self.new.config }
        ensures begun { self.new.phase ≢ ForkPhase.Fresh }
        ensures ready { IsReadyFork self.new.config (fork_of self.new) self.new.phase }
        ensures nearer { left_fork self.new + fork_steps self.new.phase ≤ left_fork self.old }
        ensures fewer { swaps_fork self.new + swaps_in (asks_fork self.old) ≤ swaps_fork self.old }
        ensures counted { end_fork self.new ≡ None → effects_in seen ≡ 0 }
        ensures slots { AreTakenFrom (needs_fork self.old) (needs_fork self.new) slots.old slots.new }
        ensures kept { (outcome : Outcome) → end_fork self.new ≡ Some outcome → slots.new ≡ slots.old }
        ensures begins { seen ≡ Start → end_fork self.new ≡ None }
        ensures done { end_fork self.new ≡ Some Outcome.Done → seen ≡ Swapped true }
        ensures last { seen ≡ Swapped true → end_fork self.new ≡ Some Outcome.Done }
        ensures restart { end_fork self.new ≡ Some Outcome.Restart → (seen ≡ Swapped false) ⊎ differs_fork self.old seen }
        ensures no_swap { seen ≡ NoneLeft → end_fork self.new ≡ Some (Outcome.Full Spent.Swaps) }
        ensures full_swaps { end_fork self.new ≡ Some (Outcome.Full Spent.Swaps) → seen ≡ NoneLeft }
        ensures full_nodes { end_fork self.new ≡ Some (Outcome.Full Spent.Nodes) → length slots.old.free < needs_fork self.old }
        ensures learns { Learns (fork_view self.old) (fork_view self.new) seen moment slots.old slots.new }
    {
        laws::ranges_stay();
        bz_renew::laws::links_turn();
        bz_renew::laws::guarded_links_stand();
        bz_parted::laws::read_nodes_have_children();
        read_nodes_were();
        parents_of_nodes_were();
        full_nodes_have_halves();
        match self.phase {
            ForkPhase::Fresh => self.phase = self.first(),
            ForkPhase::Unread => self.phase = self.passed(seen),
            ForkPhase::Tight => self.phase = self.refused(seen),
            ForkPhase::Word(i) => {
                self.read.0[i as usize] = word_in(seen);
                let next = next_place(&self.read, i);
                self.phase = after_word(next);
            }
            ForkPhase::Again => self.phase = self.read_on(seen),
            ForkPhase::Room => self.phase = self.opened(seen),
            ForkPhase::Above(i) => {
                self.above.0[i as usize] = word_in(seen);
                let other = next_place(&self.above, i);
                self.phase = after_above(other);
            }
            ForkPhase::Check => self.phase = self.told(seen),
            ForkPhase::Writing(phase) => {
                let next = self.write(phase, seen, slots, moment);
                self.phase = ForkPhase::Writing(next);
            }
            ForkPhase::NoRoom => {}
        }
    }

    // One of the words of the three nodes, counted through.
    fn word(&self, j: u32) -> u64
        requires { j < SPLIT_WORDS }
        ensures { result ≡ word_value (fork_nodes (fork_of self.now)) j }
    {
        let place = (j % NODE_WORDS) as usize;
        match j / NODE_WORDS {
            0 => self.parent.0[place],
            1 => self.left.0[place],
            _ => self.right.0[place],
        }
    }

    // What a phase asks for.
    fn asked(&self) -> Todo
        requires begun { self.now.phase ≢ ForkPhase.Fresh }
        requires config { IsConfig self.now.config }
        requires ready { IsReadyFork self.now.config (fork_of self.now) self.now.phase }
        ensures { asks_fork self.now ≡ Some result }
    {
        match self.phase {
            ForkPhase::Word(i) => Todo::Read(self.config.node_at(self.middle.slot as u32) + i),
            ForkPhase::Again | ForkPhase::Unread => Todo::Read(self.lower.guard),
            ForkPhase::Above(i) => Todo::Read(self.config.node_at(self.upper.slot as u32) + i),
            ForkPhase::Room | ForkPhase::Check | ForkPhase::Tight => Todo::Read(self.middle.guard),
            ForkPhase::Writing(phase) => self.written(phase),
            ForkPhase::Fresh | ForkPhase::NoRoom => Todo::Finish,
        }
    }

    // What the writing asks for.
    fn written(&self, phase: WritePhase) -> Todo
        requires begun { phase ≢ WritePhase.Fresh }
        requires config { IsConfig self.now.config }
        requires ready { write_ready self.now.config (fork_plan (fork_of self.now)) phase }
        ensures { write_asks self.now.config (fork_plan (fork_of self.now)) phase ≡ Some result }
    {
        match phase {
            WritePhase::Guard => Todo::Read(self.upper.guard),
            WritePhase::Store(j) => store_at(&self.config, &self.slots, j, self.word(j)),
            WritePhase::Flush(j) => flush_at(&self.config, &self.slots, j),
            WritePhase::Swap => Todo::Swap(swap_freezing_two(
                &self.config,
                &self.upper,
                self.slots[0],
                &self.middle,
                self.lower.status,
            )),
            _ => Todo::Finish,
        }
    }
}

// The phase after the load of a word of the node: that of the next one that is read, or its status once more.
fn after_word(next: u32) -> ForkPhase
    requires { next ≤ NODE_WORDS }
    ensures { result ≡ word_after next }
{
    if next < NODE_WORDS {
        ForkPhase::Word(next)
    } else {
        ForkPhase::Again
    }
}

// The same of the parent.
fn after_above(next: u32) -> ForkPhase
    requires { next ≤ NODE_WORDS }
    ensures { result ≡ above_after next }
{
    if next < NODE_WORDS {
        ForkPhase::Above(next)
    } else {
        ForkPhase::Check
    }
}

impl Task for SplitInner {
    ghost view = { fork_view };

    fn publishes(&self) -> bool {
        false
    }

    fn ended(&self) -> Option<Outcome> {
        match self.phase {
            ForkPhase::NoRoom => Some(Outcome::NeedsRoom),
            ForkPhase::Writing(phase) => phase.ended(),
            _ => None,
        }
    }

    fn next(&mut self, seen: Seen, slots: &mut Slots, moment: u32) -> Todo {
        self.step(seen, slots, moment);
        self.asked()
    }

    fn learnt(&self) {}

    fn acted(&self) {}
}
