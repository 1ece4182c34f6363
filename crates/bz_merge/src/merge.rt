//! The task that merges two sibling leaves.

ghost use Rattle.std.specs.Prelude.{◌≡◌, ◌≢◌, ◌↔◌, ◌+◌, ◌-◌, ◌<◌, ◌≤◌, ◌^◌, ◌⊎◌, ℕ, List, Some, None, IsTrue, true, false, slice_get, slice_index, slice_set, length};
ghost use Rattle.bz_layout.specs.declared.sizes.TheConstants.{NODE_WORDS};
ghost use Rattle.bz_layout.specs.Config.{IsConfig};
ghost use Rattle.bz_layout.specs.declared.thresholds.TheConstants.{MERGE_SLOTS, MERGE_BELOW, SPLIT_ABOVE, MAX_LEVELS};
ghost use Rattle.bz_page.specs.Pages.{IsLeafByItself};
ghost use Rattle.bz_join.specs.Leaves.{MayJoin, IsOneOf};
ghost use Rattle.bz_renew.specs.Due.{LeadsTo};
ghost use Rattle.bz_renew.specs.Nodes.{word_value};
ghost use Rattle.bz_slotted.specs.Readers.{live_of};
ghost use Rattle.bz_slotted.specs.ReadingLaws.{node_of};
ghost use Rattle.bz_task.specs.Contract.{IsBegun};
ghost use Rattle.bz_task.specs.Outcomes.{IsPath, IsView};
ghost use Rattle.bz_task.specs.OwnActs.{AreTakenFrom, AreUnreached, gained};
ghost use Rattle.bz_task.specs.Requests.{Hears, Tells, IsKnown, swaps_in, effects_in};
ghost use Rattle.bz_task.specs.Scene.{Scene, Stage, Waiting, IsScene};
ghost use Rattle.bz_layout.specs.declared.swaps.TheConstants.{MERGE_SWAPS};
ghost use Rattle.bz_task.specs.declared.todo.Seen.TheVariants.{Start, Read as Was, Swapped, NoSwap as NoneLeft};
ghost use Rattle.bz_merge.specs.Counts.{merge_swaps, merge_made};
ghost use Rattle.bz_merge.specs.Decisions.{IsParentOfLeaf, HasTold, IsWeighable, HasSettled, HasFrozen, HasFirst, HasWon, HasSwapped, MayMerge, HasBegun, HasLooked};
ghost use Rattle.bz_merge.specs.Duties.{merging_of, asks_of, end_of, left_of, swaps_of, made_of, needs_of, facts_of, differs_of, merge_view};
ghost use Rattle.bz_merge.specs.Facts.{merge_acts, merge_end, merge_left, merge_steps, merge_needs, merge_facts, merge_change, IsEndOfMerge, WasMerged, NoneFitted, IsReady, WritesOrSwaps, IsSwapping, word_after, beside_after, store_after, flush_after};
ghost use Rattle.bz_merge.specs.Plans.{merge_nodes, viewed_leaf, beside_leaf, first_of, second_of};
ghost use Rattle.bz_merge.specs.Thawed.{IsThawedAbove};

use crate::freeze::freeze_of;
use crate::laws::{leaves_read_were, merges_are_good, parents_read_were};
use crate::links::upper_link;
use crate::phase::MergePhase;
use crate::seen::is_frozen;
use crate::sibling::{Sibling, left_of, right_of};
use crate::slots::take_two;
use bz_call::Spent;
use bz_gaps::{first_word, next_place};
use bz_join::{ParentJoin, joined_leaf, parent_joined};
use bz_layout::{Config, LINE_WORDS, MERGE_SLOTS, NODE_WORDS, SPLIT_ABOVE, STATUS_AT, Slots};
use bz_node::NodeImage;
use bz_renew::{is_whole, last_link, swap_freezing};
use bz_task::{LeafView, Link, Outcome, Path, Seen, Task, Todo, laws};
use bz_writer::{is_read, word_in};

const NODE_LINES: u32 = NODE_WORDS / LINE_WORDS;

const MERGE_WORDS: u32 = NODE_WORDS * MERGE_SLOTS;

const MERGE_LINES: u32 = NODE_LINES * MERGE_SLOTS;

// What a decision leads to: the neighbour that is tried, and the next phase.
#[derive(Clone, Copy, Drop)]
struct Step {
    side: Sibling,
    phase: MergePhase,
}

/// The merge of the leaf that a view shows with a neighbour below the same parent. It ends with Done where a new parent, with one
/// leaf in the place of both, has taken the old one's place, which is frozen; with NeedsRoom where no neighbour has room for it;
/// with Restart where a status or a link was another one; and with Full where fewer than two slots or no descriptor were left.
#[derive(Drop)]
pub struct Merge {
    config: Config,
    // the link to the parent, which is turned, and the link to the viewed leaf
    upper: Link,
    lower: Link,
    // the status and the words that were viewed
    status: u64,
    leaf: NodeImage,
    // the words that were read of the parent; the neighbour that is tried, and the words that were read of it
    read: NodeImage,
    side: Sibling,
    beside: NodeImage,
    // the merged leaf and the new parent, and the slots of the new parent and of the leaf
    merged: NodeImage,
    parent: NodeImage,
    slots: [u16; 3],
    phase: MergePhase,
}

impl Merge {
    /// The merge of a viewed leaf below a parent, which has too few live words to stand alone.
    pub fn new(config: &Config, path: Path, view: LeafView) -> Merge
        requires deep { 2 ≤ path.depth }
        requires few { path.depth ≤ MAX_LEVELS }
        requires small { live_of (node_of view.image.0) < MERGE_BELOW }
        requires leads { LeadsTo path view.slot }
        requires thawed { IsThawedAbove path }
        ensures begun { IsBegun (⟦<Merge as Task>⟧.view result) config.now merge_acts MERGE_SWAPS MERGE_SLOTS }
        ensures slot { ((⟦<Merge as Task>⟧.view result).basis).slot ≡ view.slot }
        ensures status { result.status ≡ view.status }
        ensures change { (⟦<Merge as Task>⟧.view result).change ≡ merge_change }
        ensures facts { (key : List ℕ) (s : Scene) → s.past.config ≡ config.now → IsScene s → IsPath key path s.past → IsView key view s.past → (⟦<Merge as Task>⟧.view result).facts Waiting s }
        ensures done { (upper lower : Link) (s : Scene) → slice_get path.links (path.depth - 2) ≡ Some upper → slice_get path.links (path.depth - 1) ≡ Some lower → (⟦<Merge as Task>⟧.view result).means Outcome.Done s → WasMerged upper lower view.image.0 s.past }
        ensures only { (outcome : Outcome) (s : Scene) → (⟦<Merge as Task>⟧.view result).means outcome s → IsEndOfMerge outcome }
        ensures no_path { (other : Path) (s : Scene) → (⟦<Merge as Task>⟧.view result).means (Outcome.Path other) s → ⊥ }
        ensures no_view { (other : LeafView) (s : Scene) → (⟦<Merge as Task>⟧.view result).means (Outcome.View other) s → ⊥ }
        ensures no_room { (upper lower : Link) (s : Scene) → slice_get path.links (path.depth - 2) ≡ Some upper → slice_get path.links (path.depth - 1) ≡ Some lower → (⟦<Merge as Task>⟧.view result).means Outcome.NeedsRoom s → NoneFitted upper lower view.image.0 s.past }
    {
        bz_page::laws::views_say_what_images_say();
        laws::leaves_are_in_trees();
        laws::seen_leaves_are_whole();
        laws::same_records_show_the_same();
        bz_layout::slots_apart();
        is_whole(&view.image);
        let lower = last_link(&path);
        Merge {
            config: *config,
            upper: upper_link(&path),
            lower,
            status: view.status,
            leaf: view.image,
            read: first_word(lower.status),
            side: Sibling {
                right: true,
                place: 0,
                slot: 0,
            },
            beside: view.image,
            merged: view.image,
            parent: view.image,
            slots: [0; 3],
            phase: MergePhase::Fresh,
        }
    }
}

impl Merge {
    // A phase with the neighbour as it is.
    fn on(&self, phase: MergePhase) -> Step
        ensures phase { result.phase ≡ phase }
        ensures side { result.side ≡ self.now.side }
    {
        Step {
            side: self.side,
            phase,
        }
    }

    // The reading of a neighbour, if there is one.
    fn reading(&self, sibling: Option<Sibling>) -> Step
        ensures some { (side : Sibling) → sibling ≡ Some side → (result.phase ≡ MergePhase.Beside 0) × (result.side ≡ side) }
        ensures none { sibling ≡ None → (result.phase ≡ MergePhase.NoNeighbour) × (result.side ≡ self.now.side) }
    {
        match sibling {
            Some(side) => Step {
                side,
                phase: MergePhase::Beside(0),
            },
            None => self.on(MergePhase::NoNeighbour),
        }
    }

    // What the parent's status, once more, tells: the neighbour that is tried, the right one before the left one.
    fn told(&self, seen: Seen) -> Step
        requires { seen ≡ Was self.now.lower.status → IsParentOfLeaf self.now.read.0 self.now.lower.slot }
        ensures { HasTold (merging_of self.now) seen result.side result.phase }
    {
        if !is_read(seen, self.lower.status) {
            return self.on(MergePhase::Restart);
        }
        match right_of(&self.read, self.lower.slot) {
            Some(side) => self.reading(Some(side)),
            None => self.reading(left_of(&self.read, self.lower.slot)),
        }
    }

    // Whether the leaf and the neighbour have room in one.
    fn fits(&self) -> bool
        requires own { IsLeafByItself self.now.leaf.0 }
        requires other { IsLeafByItself self.now.beside.0 }
        ensures { IsTrue result ↔ (live_of (node_of self.now.leaf.0) + live_of (node_of self.now.beside.0) ≤ SPLIT_ABOVE) }
    {
        bz_slotted::laws::whole_leaves_are_readable();
        bz_slotted::laws::live_words_fit();
        is_whole(&self.leaf);
        is_whole(&self.beside);
        self.leaf.live_words() + self.beside.live_words() <= SPLIT_ABOVE
    }

    // The phase once the viewed leaf is frozen.
    fn after_freeze(&self) -> MergePhase
        requires { slice_index self.now.beside.0 0 < 2 ^ 61 }
        ensures { HasFrozen (merging_of self.now) result }
    {
        is_whole(&self.beside);
        if is_frozen(self.beside.0[STATUS_AT as usize]) {
            MergePhase::Guard
        } else {
            MergePhase::FreezeBeside
        }
    }

    // The phase once the two were found to fit.
    fn first_freeze(&self) -> MergePhase
        requires own { self.now.status < 2 ^ 61 }
        requires other { slice_index self.now.beside.0 0 < 2 ^ 61 }
        ensures { HasFirst (merging_of self.now) result }
    {
        if is_frozen(self.status) {
            self.after_freeze()
        } else {
            MergePhase::Freeze
        }
    }

    // What the neighbour's status, once more, tells: what is frozen next, or that the other neighbour is tried.
    fn settled(&self, seen: Seen) -> Step
        requires { seen ≡ Was (slice_index self.now.beside.0 0) → IsWeighable (merging_of self.now) }
        ensures settled { HasSettled (merging_of self.now) seen result.side result.phase }
        ensures side { ((i : ℕ) → result.phase ≢ MergePhase.Beside i) → result.side ≡ self.now.side }
    {
        is_whole(&self.beside);
        if !is_read(seen, self.beside.0[STATUS_AT as usize]) {
            return self.on(MergePhase::Restart);
        }
        if self.fits() {
            return self.on(self.first_freeze());
        }
        if !self.side.right {
            return self.on(MergePhase::NoNeighbour);
        }
        self.reading(left_of(&self.read, self.lower.slot))
    }
}

impl Merge {
    // The leaf with the records of both, the left one of which is first.
    fn merged_leaf(&self) -> NodeImage
        requires { MayJoin (first_of self.now.side.right (viewed_leaf (merging_of self.now)) (beside_leaf (merging_of self.now))).image (second_of self.now.side.right (viewed_leaf (merging_of self.now)) (beside_leaf (merging_of self.now))).image }
        ensures { IsOneOf (first_of self.now.side.right (viewed_leaf (merging_of self.now)) (beside_leaf (merging_of self.now))).image (second_of self.now.side.right (viewed_leaf (merging_of self.now)) (beside_leaf (merging_of self.now))).image result.0 }
    {
        if self.side.right {
            joined_leaf(&self.leaf, &self.beside)
        } else {
            joined_leaf(&self.beside, &self.leaf)
        }
    }

    // The phase with which the nodes are begun: the first store, where two slots are left.
    fn begin(&mut self, slots: &mut Slots)
        requires { MayMerge slots.old.nodes (merging_of self.old) }
        ensures config { self.new.config ≡ self.old.config }
        ensures upper { self.new.upper ≡ self.old.upper }
        ensures lower { self.new.lower ≡ self.old.lower }
        ensures status { self.new.status ≡ self.old.status }
        ensures leaf { self.new.leaf ≡ self.old.leaf }
        ensures read { self.new.read ≡ self.old.read }
        ensures side { self.new.side ≡ self.old.side }
        ensures beside { self.new.beside ≡ self.old.beside }
        ensures begun { HasBegun (merging_of self.new) self.new.phase slots.old slots.new }
    {
        match take_two(slots) {
            Some(taken) => {
                let join = ParentJoin {
                    place: self.side.place,
                    slot: taken[1],
                };
                self.merged = self.merged_leaf();
                self.parent = parent_joined(&self.read, &join);
                self.slots = taken;
                self.phase = MergePhase::Store(0);
            }
            None => self.phase = MergePhase::NoSlot,
        }
    }

    // The phase after another look at the upper guard: the nodes are begun where it is as the path names it.
    fn look(&mut self, seen: Seen, slots: &mut Slots)
        requires { MayMerge slots.old.nodes (merging_of self.old) }
        ensures config { self.new.config ≡ self.old.config }
        ensures upper { self.new.upper ≡ self.old.upper }
        ensures lower { self.new.lower ≡ self.old.lower }
        ensures status { self.new.status ≡ self.old.status }
        ensures leaf { self.new.leaf ≡ self.old.leaf }
        ensures read { self.new.read ≡ self.old.read }
        ensures side { self.new.side ≡ self.old.side }
        ensures beside { self.new.beside ≡ self.old.beside }
        ensures looked { HasLooked (merging_of self.new) seen self.new.phase slots.old slots.new }
    {
        if is_read(seen, self.upper.status) {
            self.begin(slots);
        } else {
            self.phase = MergePhase::Restart;
        }
    }

    // The phase after another look at the parent's status, once the neighbour was read.
    fn checked(&self, seen: Seen) -> MergePhase
        ensures { ((seen ≡ Was self.now.lower.status) × (result ≡ MergePhase.Still)) ⊎ ((seen ≢ Was self.now.lower.status) × (result ≡ MergePhase.Restart)) }
    {
        if is_read(seen, self.lower.status) {
            MergePhase::Still
        } else {
            MergePhase::Restart
        }
    }

    // The phase once a swap took effect.
    fn after_won(&self) -> MergePhase
        requires swapping { IsSwapping self.now.phase }
        requires plain { self.now.phase ≡ MergePhase.Freeze → slice_index self.now.beside.0 0 < 2 ^ 61 }
        ensures { HasWon (merging_of self.now) self.now.phase result }
    {
        match self.phase {
            MergePhase::Freeze => self.after_freeze(),
            MergePhase::FreezeBeside => MergePhase::Guard,
            _ => MergePhase::Done,
        }
    }

    // The phase after what came of a swap.
    fn after_swap(&self, seen: Seen) -> MergePhase
        requires swapping { IsSwapping self.now.phase }
        requires hears { Hears (asks_of self.now) seen }
        requires plain { self.now.phase ≡ MergePhase.Freeze → slice_index self.now.beside.0 0 < 2 ^ 61 }
        ensures { HasSwapped (merging_of self.now) self.now.phase seen result }
    {
        match seen {
            Seen::NoSwap => MergePhase::NoSwap,
            Seen::Swapped(won) => {
                if won {
                    self.after_won()
                } else {
                    MergePhase::Restart
                }
            }
            _ => unreachable!(),
        }
    }

    // The phase after what came of a store, a flush or a swap.
    fn after(&self, seen: Seen, moment: u32) -> MergePhase
        requires begun { WritesOrSwaps self.now.phase }
        requires hears { Hears (asks_of self.now) seen }
        requires known { IsKnown self.now.config (facts_of self.now) (asks_of self.now) seen moment }
        ensures nearer { merge_left self.now.side.right result + merge_steps result ≤ left_of self.now }
        ensures fewer { merge_swaps result + swaps_in (asks_of self.now) ≤ swaps_of self.now }
        ensures counted { merge_end result ≡ None → merge_made (merging_of self.now) result ≡ made_of self.now + effects_in seen }
        ensures needs { merge_needs result ≤ needs_of self.now }
        ensures done { result ≡ MergePhase.Done → seen ≡ Swapped true }
        ensures last { seen ≡ Swapped true → swaps_of self.now ≡ 1 → result ≡ MergePhase.Done }
        ensures only_last { result ≡ MergePhase.Done → swaps_of self.now ≡ 1 }
        ensures restart { result ≡ MergePhase.Restart → seen ≡ Swapped false }
        ensures no_swap { (result ≡ MergePhase.NoSwap) ↔ (seen ≡ NoneLeft) }
        ensures slots { result ≢ MergePhase.NoSlot }
        ensures begun { result ≢ MergePhase.Fresh }
        ensures config { IsConfig self.now.config }
        ensures ready { IsReady self.now.config (merging_of self.now) result }
        ensures learns { (stage : Stage) (s : Scene) → s.past.config ≡ self.now.config → IsScene s → facts_of self.now stage s → Tells (asks_of self.now) stage seen s → merge_facts (merging_of self.now) result Waiting s }
    {
        let _moment = moment;
        bz_renew::laws::links_turn();
        match self.phase {
            MergePhase::Store(j) => after_store(j),
            MergePhase::Flush(j) => after_flush(j),
            _ => self.after_swap(seen),
        }
    }

    // The next phase, whichever it is.
    fn step(&mut self, seen: Seen, slots: &mut Slots, moment: u32)
        requires hears { Hears (asks_of self.old) seen }
        requires known { IsKnown self.old.config (facts_of self.old) (asks_of self.old) seen moment }
        requires memory { 0 < needs_of self.old → slots.old.nodes ≡ self.old.config.nodes }
        ensures config { self.new.config ≡ self.old.config }
        ensures upper { self.new.upper ≡ self.old.upper }
        ensures lower { self.new.lower ≡ self.old.lower }
        ensures status { self.new.status ≡ self.old.status }
        ensures leaf { self.new.leaf ≡ self.old.leaf }
        ensures known { IsConfig self.new.config }
        ensures begun { self.new.phase ≢ MergePhase.Fresh }
        ensures ready { IsReady self.new.config (merging_of self.new) self.new.phase }
        ensures nearer { left_of self.new + merge_steps self.new.phase ≤ left_of self.old }
        ensures fewer { swaps_of self.new + swaps_in (asks_of self.old) ≤ swaps_of self.old }
        ensures counted { end_of self.new ≡ None → made_of self.new ≡ made_of self.old + effects_in seen }
        ensures slots { AreTakenFrom (needs_of self.old) (needs_of self.new) slots.old slots.new }
        ensures kept { (outcome : Outcome) → end_of self.new ≡ Some outcome → slots.new ≡ slots.old }
        ensures begins { seen ≡ Start → end_of self.new ≡ None }
        ensures done { end_of self.new ≡ Some Outcome.Done → seen ≡ Swapped true }
        ensures last { seen ≡ Swapped true → swaps_of self.old ≡ 1 → end_of self.new ≡ Some Outcome.Done }
        ensures only_last { end_of self.new ≡ Some Outcome.Done → swaps_of self.old ≡ 1 }
        ensures restart { end_of self.new ≡ Some Outcome.Restart → (seen ≡ Swapped false) ⊎ differs_of self.old seen }
        ensures no_swap { seen ≡ NoneLeft → end_of self.new ≡ Some (Outcome.Full Spent.Swaps) }
        ensures full_swaps { end_of self.new ≡ Some (Outcome.Full Spent.Swaps) → seen ≡ NoneLeft }
        ensures full_nodes { end_of self.new ≡ Some (Outcome.Full Spent.Nodes) → length slots.old.free < needs_of self.old }
        ensures learns { (stage : Stage) (s : Scene) → s.past.config ≡ self.old.config → IsScene s → (0 < needs_of self.old → AreUnreached s slots.old) → facts_of self.old stage s → Tells (asks_of self.old) stage seen s → facts_of self.new Waiting (gained s slots.old slots.new) }
    {
        laws::nothing_is_gained();
        bz_layout::slots_apart();
        bz_renew::laws::links_turn();
        bz_renew::laws::guarded_links_stand();
        bz_slotted::laws::inner_keys_rise();
        laws::fronts_stay();
        laws::ranges_stay();
        bz_join::laws::children_join();
        parents_read_were();
        leaves_read_were();
        is_whole(&self.beside);
        match self.phase {
            MergePhase::Fresh => self.phase = MergePhase::Word(1),
            MergePhase::Word(i) => {
                self.read.0[i as usize] = word_in(seen);
                self.phase = after_word(next_place(&self.read, i));
            }
            MergePhase::Again => {
                let next = self.told(seen);
                self.side = next.side;
                self.phase = next.phase;
            }
            MergePhase::Beside(i) => {
                self.beside = with_word(&self.beside, i, word_in(seen));
                self.phase = after_beside(next_place(&self.beside, i));
            }
            MergePhase::Parent => self.phase = self.checked(seen),
            MergePhase::Still => {
                let next = self.settled(seen);
                self.side = next.side;
                self.phase = next.phase;
            }
            MergePhase::Guard => self.look(seen, slots),
            _ => self.phase = self.after(seen, moment),
        }
    }

    // One of the words of the two nodes, counted through.
    fn word(&self, j: u32) -> u64
        requires { j < MERGE_WORDS }
        ensures { result ≡ word_value (merge_nodes (merging_of self.now)) j }
    {
        let place = (j % NODE_WORDS) as usize;
        match j / NODE_WORDS {
            0 => self.parent.0[place],
            _ => self.merged.0[place],
        }
    }

    // What a phase asks for.
    fn asked(&self) -> Todo
        requires begun { self.now.phase ≢ MergePhase.Fresh }
        requires config { IsConfig self.now.config }
        requires ready { IsReady self.now.config (merging_of self.now) self.now.phase }
        ensures { asks_of self.now ≡ Some result }
    {
        is_whole(&self.beside);
        match self.phase {
            MergePhase::Word(i) => Todo::Read(self.config.node_at(self.upper.slot as u32) + i),
            MergePhase::Again | MergePhase::Parent => Todo::Read(self.lower.guard),
            MergePhase::Beside(i) => Todo::Read(self.config.node_at(self.side.slot as u32) + i),
            MergePhase::Still => Todo::Read(self.config.node_at(self.side.slot as u32) + STATUS_AT),
            MergePhase::Freeze => Todo::Swap(freeze_of(&self.config, self.lower.slot, self.status)),
            MergePhase::FreezeBeside => Todo::Swap(freeze_of(
                &self.config,
                self.side.slot,
                self.beside.0[STATUS_AT as usize],
            )),
            MergePhase::Guard => Todo::Read(self.upper.guard),
            MergePhase::Store(j) => {
                let slot = self.slots[(j / NODE_WORDS) as usize] as u32;
                Todo::Store(self.config.node_at(slot) + j % NODE_WORDS, self.word(j))
            }
            MergePhase::Flush(j) => {
                let slot = self.slots[(j / NODE_LINES) as usize] as u32;
                Todo::Flush(self.config.node_at(slot) / LINE_WORDS + j % NODE_LINES)
            }
            MergePhase::Swap => Todo::Swap(swap_freezing(
                &self.config,
                &self.upper,
                self.slots[0],
                self.upper.slot,
                self.lower.status,
            )),
            MergePhase::Fresh
            | MergePhase::Done
            | MergePhase::Restart
            | MergePhase::NoNeighbour
            | MergePhase::NoSlot
            | MergePhase::NoSwap => Todo::Finish,
        }
    }
}

// The words that were read of a neighbour, with one more; with the first one they begin anew.
fn with_word(read: &NodeImage, i: u32, word: u64) -> NodeImage
    requires { i < NODE_WORDS }
    ensures size { length result.0 ≡ NODE_WORDS }
    ensures first { i ≡ 0 → slice_index result.0 0 ≡ word }
    ensures blank { i ≡ 0 → (j : ℕ) → 0 < j → slice_index result.0 j ≡ 0 }
    ensures later { 0 < i → result.0 ≡ slice_set read.now.0 i word }
{
    if i == 0 {
        return first_word(word);
    }
    let mut words = read.0;
    words[i as usize] = word;
    NodeImage(words)
}

// The phase after the load of a word of the parent: that of the next one that is read, or its status once more.
fn after_word(next: u32) -> MergePhase
    requires { next ≤ NODE_WORDS }
    ensures { result ≡ word_after next }
{
    if next < NODE_WORDS {
        MergePhase::Word(next)
    } else {
        MergePhase::Again
    }
}

// The phase after the load of a word of the neighbour: that of the next one that is read, or the parent's status.
fn after_beside(next: u32) -> MergePhase
    requires { next ≤ NODE_WORDS }
    ensures { result ≡ beside_after next }
{
    if next < NODE_WORDS {
        MergePhase::Beside(next)
    } else {
        MergePhase::Parent
    }
}

// The phase after the store of a word: that of the next one, or the first flush.
fn after_store(j: u32) -> MergePhase
    requires { j < MERGE_WORDS }
    ensures { result ≡ store_after j }
{
    if j + 1 < MERGE_WORDS {
        MergePhase::Store(j + 1)
    } else {
        MergePhase::Flush(0)
    }
}

// The phase after the flush of a line: that of the next one, or the swap.
fn after_flush(j: u32) -> MergePhase
    requires { j < MERGE_LINES }
    ensures { result ≡ flush_after j }
{
    if j + 1 < MERGE_LINES {
        MergePhase::Flush(j + 1)
    } else {
        MergePhase::Swap
    }
}

impl Task for Merge {
    ghost view = { merge_view };

    fn publishes(&self) -> bool {
        false
    }

    fn ended(&self) -> Option<Outcome> {
        match self.phase {
            MergePhase::Done => Some(Outcome::Done),
            MergePhase::Restart => Some(Outcome::Restart),
            MergePhase::NoNeighbour => Some(Outcome::NeedsRoom),
            MergePhase::NoSlot => Some(Outcome::Full(Spent::Nodes)),
            MergePhase::NoSwap => Some(Outcome::Full(Spent::Swaps)),
            _ => None,
        }
    }

    fn next(&mut self, seen: Seen, slots: &mut Slots, moment: u32) -> Todo {
        self.step(seen, slots, moment);
        self.asked()
    }

    fn learnt(&self) {
        bz_renew::laws::links_turn();
        bz_word::laws::statuses();
        laws::fronts_stay();
    }

    fn acted(&self) {
        bz_renew::laws::links_turn();
        bz_join::laws::children_join();
        bz_layout::slots_apart();
        bz_freeze::laws::freezes_are_good();
        bz_slotted::laws::freeze_is_quiet();
        bz_word::laws::statuses();
        laws::thawed_leaves_stay();
        laws::fronts_stay();
        laws::nodes_stay();
        laws::swaps_show_in_slots();
        laws::same_records_show_the_same();
        laws::seen_leaves_are_whole();
        laws::leaves_are_in_trees();
        merges_are_good();
    }
}
