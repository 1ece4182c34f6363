//! The task that splits a root that is an inner node.

ghost use Rattle.std.specs.Prelude.{◌≡◌, ◌≢◌, ◌+◌, ◌<◌, ◌≤◌, ◌⊎◌, ℕ, List, Some, None, true, false, slice_get, slice_index, length};
ghost use Rattle.bz_call.specs.declared.replies.Spent.TheVariants.{Height};
ghost use Rattle.bz_layout.specs.Config.{IsConfig};
ghost use Rattle.bz_layout.specs.declared.thresholds.TheConstants.{SPLIT_SLOTS, MAX_LEVELS};
ghost use Rattle.bz_renew.specs.Nodes.{word_value};
ghost use Rattle.bz_task.specs.Contract.{IsBegun, MayHear, GoesOn, Learns};
ghost use Rattle.bz_writer.specs.Facts.{write_asks, write_ready, write_view};
ghost use Rattle.bz_task.specs.Outcomes.{IsPath};
ghost use Rattle.bz_task.specs.OwnActs.{AreTakenFrom};
ghost use Rattle.bz_task.specs.Requests.{Hears, IsKnown, swaps_in, effects_in};
ghost use Rattle.bz_task.specs.Scene.{Scene, Waiting, IsScene};
ghost use Rattle.bz_layout.specs.declared.swaps.TheConstants.{RENEWAL_SWAPS};
ghost use Rattle.bz_task.specs.declared.todo.Seen.TheVariants.{Start, Swapped, NoSwap as NoneLeft};
ghost use Rattle.bz_branch.specs.FromSplit.Facts.{split_change};
ghost use Rattle.bz_crown.specs.Due.{IsDue};
ghost use Rattle.bz_crown.specs.Duties.{crown_of, asks_crown, end_crown, left_crown, swaps_crown, needs_crown, facts_crown, differs_crown, crown_view};
ghost use Rattle.bz_crown.specs.Facts.{crown_nodes, crown_plan, crown_acts, crown_steps, IsEndOfCrown, HasTold, AreMadeOf, IsReadyCrown, IsSplittable, WasSplitAtRoot, WasTooHigh, word_after};

use crate::phase::CrownPhase;
use bz_branch::laws::read_nodes_were;
use bz_branch::{level_of, link_at, parts_of};
use bz_call::Spent;
use bz_gaps::{first_word, next_place};
use bz_layout::{Config, MAX_LEVELS, NODE_WORDS, SPLIT_SLOTS, Slots};
use bz_node::NodeImage;
use bz_parted::tall_root_over;
use bz_renew::{is_whole, swap_freezing};
use bz_task::{LeafView, Link, Outcome, Path, Seen, Task, Todo};
use bz_writer::{WritePhase, flush_at, is_read, look, store_at, word_in};

const SPLIT_WORDS: u32 = NODE_WORDS * SPLIT_SLOTS;

// The new root and the halves.
#[derive(Clone, Copy, Drop)]
struct Made {
    root: NodeImage,
    left: NodeImage,
    right: NodeImage,
}

/// The split of the inner root of a path. It ends with Done where a root over its halves has taken its place, and it is frozen; with
/// Restart where the root pointer or a status was another one; with Full where the tree has as many levels as there may be, or fewer
/// than three slots or no descriptor were left.
#[derive(Drop)]
pub struct SplitInnerRoot {
    config: Config,
    // the root link, which is turned, and the path's link in the root
    upper: Link,
    lower: Link,
    // the words that were read of the root; and those of the new root and of the halves once the slots are known
    read: NodeImage,
    root: NodeImage,
    left: NodeImage,
    right: NodeImage,
    // the slots of the new root, of the left half and of the right half
    slots: [u16; 3],
    phase: CrownPhase,
}

impl SplitInnerRoot {
    /// The split of the root of a path which has links in it, and whose status counts more words than an inner node may keep.
    pub fn new(config: &Config, path: Path) -> SplitInnerRoot
        requires few { path.depth ≤ MAX_LEVELS }
        requires due { IsDue path }
        ensures begun { IsBegun (⟦<SplitInnerRoot as Task>⟧.view result) config.now crown_acts RENEWAL_SWAPS SPLIT_SLOTS }
        ensures change { (⟦<SplitInnerRoot as Task>⟧.view result).change ≡ split_change }
        ensures node { (upper : Link) → slice_get path.links 0 ≡ Some upper → ((⟦<SplitInnerRoot as Task>⟧.view result).basis).slot ≡ upper.slot }
        ensures facts { (key : List ℕ) (s : Scene) → s.past.config ≡ config.now → IsScene s → IsPath key path s.past → (⟦<SplitInnerRoot as Task>⟧.view result).facts Waiting s }
        ensures done { (upper : Link) (s : Scene) → slice_get path.links 0 ≡ Some upper → (⟦<SplitInnerRoot as Task>⟧.view result).means Outcome.Done s → WasSplitAtRoot upper s.past }
        ensures too_high { (upper : Link) (s : Scene) → slice_get path.links 0 ≡ Some upper → (⟦<SplitInnerRoot as Task>⟧.view result).means (Outcome.Full Height) s → WasTooHigh upper s.past }
        ensures only { (outcome : Outcome) (s : Scene) → (⟦<SplitInnerRoot as Task>⟧.view result).means outcome s → IsEndOfCrown outcome }
        ensures no_path { (other : Path) (s : Scene) → (⟦<SplitInnerRoot as Task>⟧.view result).means (Outcome.Path other) s → ⊥ }
        ensures no_view { (other : LeafView) (s : Scene) → (⟦<SplitInnerRoot as Task>⟧.view result).means (Outcome.View other) s → ⊥ }
        ensures no_room { (s : Scene) → (⟦<SplitInnerRoot as Task>⟧.view result).means Outcome.NeedsRoom s → ⊥ }
    {
        bz_layout::slots_apart();
        let lower = link_at(&path, 1);
        let read = first_word(lower.status);
        SplitInnerRoot {
            config: *config,
            upper: link_at(&path, 0),
            lower,
            root: read,
            left: read,
            right: read,
            read,
            slots: [0; 3],
            phase: CrownPhase::Fresh,
        }
    }
}

impl SplitInnerRoot {
    // The phase after the root's own status, once more: its words tell its level, where it is as it was.
    fn told(&self, seen: Seen) -> CrownPhase
        ensures { HasTold (crown_of self.now) seen result }
    {
        if !is_read(seen, self.lower.status) {
            return CrownPhase::Writing(WritePhase::Restart);
        }
        if level_of(&self.read) < MAX_LEVELS - 1 {
            CrownPhase::Writing(WritePhase::Guard)
        } else {
            CrownPhase::TooHigh
        }
    }

    // The new root and the halves, for these slots.
    fn make(&self, slots: [u16; 3]) -> Made
        requires { IsSplittable self.now.read.0 }
        ensures { AreMadeOf self.now.read.0 result.root.0 result.left.0 result.right.0 (slice_index slots 1) (slice_index slots 2) }
    {
        let halves = parts_of(&self.read);
        let level = level_of(&self.read) + 1;
        let root = tall_root_over(slots[1], slots[2], halves.separator, level);
        is_whole(&root);
        Made {
            root,
            left: halves.left,
            right: halves.right,
        }
    }

    // The next phase of the writing: the nodes are made when the slots are taken.
    fn write(&mut self, phase: WritePhase, seen: Seen, slots: &mut Slots, moment: u32) -> WritePhase
        requires { MayHear (write_view self.old.config (crown_plan (crown_of self.old)) phase) seen moment slots.old }
        ensures config { self.new.config ≡ self.old.config }
        ensures upper { self.new.upper ≡ self.old.upper }
        ensures begun { result ≢ WritePhase.Fresh }
        ensures ready { write_ready self.new.config (crown_plan (crown_of self.new)) result }
        ensures goes { (todo : Todo) → write_asks self.new.config (crown_plan (crown_of self.new)) result ≡ Some todo → GoesOn (write_view self.old.config (crown_plan (crown_of self.old)) phase) (write_view self.new.config (crown_plan (crown_of self.new)) result) seen slots.old slots.new todo }
        ensures learns { Learns (write_view self.old.config (crown_plan (crown_of self.old)) phase) (write_view self.new.config (crown_plan (crown_of self.new)) result) seen moment slots.old slots.new }
    {
        let _moment = moment;
        match phase {
            WritePhase::Fresh => WritePhase::Guard,
            WritePhase::Guard => {
                let begun = look(SPLIT_SLOTS, self.upper.status, seen, slots);
                let taken = begun.slots;
                let made = self.make(taken);
                self.root = made.root;
                self.left = made.left;
                self.right = made.right;
                self.slots = taken;
                begun.phase
            }
            _ => phase.after(SPLIT_SLOTS, seen),
        }
    }

    // The next phase, whichever it is.
    fn step(&mut self, seen: Seen, slots: &mut Slots, moment: u32)
        requires hears { Hears (asks_crown self.old) seen }
        requires known { IsKnown self.old.config (facts_crown self.old) (asks_crown self.old) seen moment }
        requires memory { 0 < needs_crown self.old → slots.old.nodes ≡ self.old.config.nodes }
        ensures config { self.new.config ≡ self.old.config }
        ensures upper { self.new.upper ≡ self.old.upper }
        ensures known { IsConfig self.new.config }
        ensures begun { self.new.phase ≢ CrownPhase.Fresh }
        ensures ready { IsReadyCrown self.new.config (crown_of self.new) self.new.phase }
        ensures nearer { left_crown self.new + crown_steps self.new.phase ≤ left_crown self.old }
        ensures fewer { swaps_crown self.new + swaps_in (asks_crown self.old) ≤ swaps_crown self.old }
        ensures counted { end_crown self.new ≡ None → effects_in seen ≡ 0 }
        ensures slots { AreTakenFrom (needs_crown self.old) (needs_crown self.new) slots.old slots.new }
        ensures kept { (outcome : Outcome) → end_crown self.new ≡ Some outcome → slots.new ≡ slots.old }
        ensures begins { seen ≡ Start → end_crown self.new ≡ None }
        ensures done { end_crown self.new ≡ Some Outcome.Done → seen ≡ Swapped true }
        ensures last { seen ≡ Swapped true → end_crown self.new ≡ Some Outcome.Done }
        ensures restart { end_crown self.new ≡ Some Outcome.Restart → (seen ≡ Swapped false) ⊎ differs_crown self.old seen }
        ensures no_swap { seen ≡ NoneLeft → end_crown self.new ≡ Some (Outcome.Full Spent.Swaps) }
        ensures full_swaps { end_crown self.new ≡ Some (Outcome.Full Spent.Swaps) → seen ≡ NoneLeft }
        ensures full_nodes { end_crown self.new ≡ Some (Outcome.Full Spent.Nodes) → length slots.old.free < needs_crown self.old }
        ensures learns { Learns (crown_view self.old) (crown_view self.new) seen moment slots.old slots.new }
    {
        read_nodes_were();
        match self.phase {
            CrownPhase::Fresh => self.phase = CrownPhase::Word(1),
            CrownPhase::Word(i) => {
                self.read.0[i as usize] = word_in(seen);
                let next = next_place(&self.read, i);
                self.phase = after_word(next);
            }
            CrownPhase::Again => self.phase = self.told(seen),
            CrownPhase::Writing(phase) => {
                let next = self.write(phase, seen, slots, moment);
                self.phase = CrownPhase::Writing(next);
            }
            CrownPhase::TooHigh => {}
        }
    }

    // One of the words of the three nodes, counted through.
    fn word(&self, j: u32) -> u64
        requires { j < SPLIT_WORDS }
        ensures { result ≡ word_value (crown_nodes (crown_of self.now)) j }
    {
        let place = (j % NODE_WORDS) as usize;
        match j / NODE_WORDS {
            0 => self.root.0[place],
            1 => self.left.0[place],
            _ => self.right.0[place],
        }
    }

    // What a phase asks for.
    fn asked(&self) -> Todo
        requires begun { self.now.phase ≢ CrownPhase.Fresh }
        requires config { IsConfig self.now.config }
        requires ready { IsReadyCrown self.now.config (crown_of self.now) self.now.phase }
        ensures { asks_crown self.now ≡ Some result }
    {
        match self.phase {
            CrownPhase::Word(i) => Todo::Read(self.config.node_at(self.upper.slot as u32) + i),
            CrownPhase::Again => Todo::Read(self.lower.guard),
            CrownPhase::Writing(phase) => self.written(phase),
            CrownPhase::Fresh | CrownPhase::TooHigh => Todo::Finish,
        }
    }

    // What the writing asks for.
    fn written(&self, phase: WritePhase) -> Todo
        requires begun { phase ≢ WritePhase.Fresh }
        requires config { IsConfig self.now.config }
        requires ready { write_ready self.now.config (crown_plan (crown_of self.now)) phase }
        ensures { write_asks self.now.config (crown_plan (crown_of self.now)) phase ≡ Some result }
    {
        match phase {
            WritePhase::Guard => Todo::Read(self.upper.guard),
            WritePhase::Store(j) => store_at(&self.config, &self.slots, j, self.word(j)),
            WritePhase::Flush(j) => flush_at(&self.config, &self.slots, j),
            WritePhase::Swap => Todo::Swap(swap_freezing(
                &self.config,
                &self.upper,
                self.slots[0],
                self.upper.slot,
                self.lower.status,
            )),
            _ => Todo::Finish,
        }
    }
}

// The phase after the load of a word of the root: that of the next one that is read, or its status once more.
fn after_word(next: u32) -> CrownPhase
    requires { next ≤ NODE_WORDS }
    ensures { result ≡ word_after next }
{
    if next < NODE_WORDS {
        CrownPhase::Word(next)
    } else {
        CrownPhase::Again
    }
}

impl Task for SplitInnerRoot {
    ghost view = { crown_view };

    fn publishes(&self) -> bool {
        false
    }

    fn ended(&self) -> Option<Outcome> {
        match self.phase {
            CrownPhase::TooHigh => Some(Outcome::Full(Spent::Height)),
            CrownPhase::Writing(phase) => phase.ended(),
            _ => None,
        }
    }

    fn next(&mut self, seen: Seen, slots: &mut Slots, moment: u32) -> Todo {
        self.step(seen, slots, moment);
        self.asked()
    }

    fn learnt(&self) {}

    fn acted(&self) {}
}
