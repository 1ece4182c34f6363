//! The task that splits a frozen leaf below a parent.

ghost use Rattle.std.specs.Prelude.{◌≡◌, ◌≢◌, ◌↔◌, ◌+◌, ◌-◌, ◌<◌, ◌≤◌, ◌^◌, ◌⊎◌, ℕ, List, Some, None, IsSome, IfSome, true, false, slice_get, length};
ghost use Rattle.bz_layout.specs.declared.sizes.TheConstants.{NODE_WORDS};
ghost use Rattle.bz_layout.specs.Config.{IsConfig};
ghost use Rattle.bz_layout.specs.declared.thresholds.TheConstants.{SPLIT_ABOVE, SPLIT_SLOTS, MAX_LEVELS};
ghost use Rattle.bz_renew.specs.FromPage.Pages.{IsLeafByItself};
ghost use Rattle.bz_renew.specs.Due.{LeadsTo};
ghost use Rattle.bz_renew.specs.Nodes.{word_value};
ghost use Rattle.bz_slotted.specs.Readers.{live_of};
ghost use Rattle.bz_slotted.specs.ReadingLaws.{node_of};
ghost use Rattle.bz_word.specs.Statuses.{status};
ghost use Rattle.bz_task.specs.Contract.{IsBegun};
ghost use Rattle.bz_task.specs.Outcomes.{IsPath, IsView};
ghost use Rattle.bz_task.specs.OwnActs.{AreTakenFrom, AreUnreached, gained};
ghost use Rattle.bz_task.specs.Requests.{Hears, Tells, IsKnown, swaps_in, effects_in};
ghost use Rattle.bz_task.specs.Scene.{Scene, Stage, Waiting, IsScene};
ghost use Rattle.bz_layout.specs.declared.swaps.TheConstants.{RENEWAL_SWAPS};
ghost use Rattle.bz_task.specs.declared.todo.Seen.TheVariants.{Start, Read as Was, Swapped, NoSwap as NoneLeft};
ghost use Rattle.bz_below.specs.Duties.{below_of, asks_below, end_below, left_below, swaps_below, needs_below, facts_below, differs_below, below_view};
ghost use Rattle.bz_below.specs.Facts.{IsEndOfSplitBelow, below_nodes, below_acts, below_end, below_left, below_steps, below_swaps, below_facts, HasRoom, HasParent, IsNewParent, HasBegunBelow, HasLookedBelow, HasOpened, HasTold, IsNotOvertaken, HasBegunOrWaits, IsReadyBelow, IsThawedAbove, WasPartedBelow, LackedPart, below_needs, word_after, store_after, flush_after};
ghost use Rattle.bz_split.specs.Facts.{split_change};
ghost use Rattle.bz_split.specs.Parts.{ArePartsOf};

use crate::front::{is_frozen, level_of, low_fence};
use crate::laws::{links_stand_on, read_parents_were};
use crate::links::{guarded_by, upper_link};
use crate::phase::{BelowPhase, MOST_WAITS};
use crate::room::leaves_room;
use bz_call::Spent;
use bz_gaps::{first_word, next_place};
use bz_halves::{Halves, ParentChange, parent_over, place_of};
use bz_key::PageBuf;
use bz_layout::{Config, LINE_WORDS, NODE_WORDS, SPLIT_SLOTS, Slots};
use bz_node::NodeImage;
use bz_renew::{is_whole, last_link, swap_freezing, take_three};
use bz_split::laws::leaf_splits_below_are_good;
use bz_split::parts_of;
use bz_task::{LeafView, Link, Outcome, Path, Seen, Task, Todo, laws};
use bz_writer::{is_read, word_in};

const NODE_LINES: u32 = NODE_WORDS / LINE_WORDS;

const SPLIT_WORDS: u32 = NODE_WORDS * SPLIT_SLOTS;

const SPLIT_LINES: u32 = NODE_LINES * SPLIT_SLOTS;

// The loads of a reading of a parent of which no word is free: its words after the status, the status, and the upper guard.
const READ_LOADS: u32 = NODE_WORDS + 1;

/// The split of the frozen leaf that a view shows, below a parent. It ends with Done where a new parent, with the leaf's halves in
/// its place, has taken the old one's place, which is frozen; with Restart where the parent's status or the link to it was another one,
/// or the guard of that link a frozen node's; with NeedsRoom where the parent has no room for the separator, as its status tells before
/// a word of it is read; and with Full where fewer than three slots or no descriptor were left. Where others take slots while it reads
/// the parent, it reads the parent anew before it takes its own, in as many loads as `MOST_WAITS` readings of all words take. The swap
/// names the guard as it is when the nodes are durable: swaps on the node of the link that left this link as it was are no reason to
/// begin again.
#[derive(Drop)]
pub struct SplitBelow {
    config: Config,
    // the link to the parent, which is turned, and the link to the leaf
    upper: Link,
    lower: Link,
    // the words of the halves; those that were read of the parent; and those of the new parent once the slots are known
    halves: Halves,
    read: NodeImage,
    parent: NodeImage,
    // the slots of the new parent, of the left half and of the right half
    slots: [u16; 3],
    // the guard of the link to the parent, read once the nodes are durable: the swap names it
    guard: u64,
    // how many slots were left when the parent was first read, and in how many loads it may be read anew
    left: u32,
    waits: u32,
    phase: BelowPhase,
}

impl SplitBelow {
    /// The split of a leaf below a parent that was frozen when it was viewed, and had more live words than a leaf may keep. Its
    /// records are left in `page`.
    pub fn new(config: &Config, path: Path, view: LeafView, page: &mut PageBuf) -> SplitBelow
        requires deep { 2 ≤ path.depth }
        requires few { path.depth ≤ MAX_LEVELS }
        requires leaf { IsLeafByItself view.image.0 }
        requires many { SPLIT_ABOVE < live_of (node_of view.image.0) }
        requires frozen { (status view.status).frozen ≡ true }
        requires leads { LeadsTo path view.slot }
        requires thawed { IsThawedAbove path }
        ensures begun { IsBegun (⟦<SplitBelow as Task>⟧.view result) config.now below_acts RENEWAL_SWAPS SPLIT_SLOTS }
        ensures change { (⟦<SplitBelow as Task>⟧.view result).change ≡ split_change }
        ensures slot { ((⟦<SplitBelow as Task>⟧.view result).basis).slot ≡ view.slot }
        ensures halves { ArePartsOf view.image.0 result.halves.left.0 result.halves.right.0 result.halves.separator }
        ensures facts { (key : List ℕ) (s : Scene) → s.past.config ≡ config.now → IsScene s → IsPath key path s.past → IsView key view s.past → (⟦<SplitBelow as Task>⟧.view result).facts Waiting s }
        ensures done { (upper lower : Link) (s : Scene) → slice_get path.links (path.depth - 2) ≡ Some upper → slice_get path.links (path.depth - 1) ≡ Some lower → (⟦<SplitBelow as Task>⟧.view result).means Outcome.Done s → WasPartedBelow upper lower view s.past }
        ensures no_path { (other : Path) (s : Scene) → (⟦<SplitBelow as Task>⟧.view result).means (Outcome.Path other) s → ⊥ }
        ensures no_view { (other : LeafView) (s : Scene) → (⟦<SplitBelow as Task>⟧.view result).means (Outcome.View other) s → ⊥ }
        ensures no_room { (upper lower : Link) (s : Scene) → slice_get path.links (path.depth - 2) ≡ Some upper → slice_get path.links (path.depth - 1) ≡ Some lower → (⟦<SplitBelow as Task>⟧.view result).means Outcome.NeedsRoom s → LackedPart upper lower view s.past }
        ensures only { (outcome : Outcome) (s : Scene) → (⟦<SplitBelow as Task>⟧.view result).means outcome s → IsEndOfSplitBelow outcome }
    {
        bz_renew::laws::views_show_frozen_leaves();
        bz_layout::slots_apart();
        let halves = parts_of(&view, page);
        let lower = last_link(&path);
        SplitBelow {
            config: *config,
            upper: upper_link(&path),
            lower,
            read: first_word(lower.status),
            parent: halves.left,
            halves,
            slots: [0; 3],
            guard: 0,
            left: 0,
            waits: 0,
            phase: BelowPhase::Fresh,
        }
    }

    // The new parent, with the halves in these slots; none where the old one has no room for the separator.
    fn parent_with(&self, left: u16, right: u16) -> Option<NodeImage>
        requires { HasParent self.now.config.nodes self.now.lower.slot self.now.halves.separator self.now.read.0 }
        ensures room { IsSome result ↔ HasRoom self.now.read.0 self.now.halves.separator }
        ensures words { IfSome result (λ image. IsNewParent self.now.config.nodes self.now.lower.slot left right self.now.halves.separator self.now.read.0 image.0) }
    {
        is_whole(&self.read);
        bz_halves::laws::children_may_be_parted();
        bz_slotted::laws::high_fences_are_read();
        let Some(place) = place_of(&self.read, self.lower.slot) else {
            unreachable!();
        };
        let low = low_fence(&self.read);
        let high = self.read.high();
        let level = level_of(&self.read);
        let change = ParentChange {
            place,
            left,
            right,
            separator: self.halves.separator,
        };
        parent_over(&self.read, &change, low, high, level)
    }
}

impl SplitBelow {
    // The phase after the parent's status, before its words: where it is as it was, they are read if it leaves the room.
    fn read_or_end(&mut self, seen: Seen, slots: &Slots)
        requires plain { seen ≡ Was self.old.lower.status → self.old.lower.status < 2 ^ 61 }
        ensures config { self.new.config ≡ self.old.config }
        ensures halves { self.new.halves ≡ self.old.halves }
        ensures same { below_of self.new ≡ below_of self.old }
        ensures opened { HasOpened self.old.waits self.new.waits (below_of self.old) seen self.new.phase }
    {
        let status = self.lower.status;
        if !is_read(seen, status) {
            self.phase = BelowPhase::Restart;
        } else if leaves_room(status, &self.halves.separator) {
            self.left = slots.left();
            self.waits = MOST_WAITS * READ_LOADS;
            self.phase = BelowPhase::Word(1);
        } else {
            self.phase = BelowPhase::NoRoom;
        }
    }

    // The phase after the parent's status, once more.
    fn told(&self, seen: Seen) -> BelowPhase
        ensures { HasTold (below_of self.now) seen result }
    {
        if is_read(seen, self.lower.status) {
            BelowPhase::Guard
        } else {
            BelowPhase::Restart
        }
    }

    // The new parent, with the halves in these slots, where the old one has the room.
    fn new_parent(&self, left: u16, right: u16) -> NodeImage
        requires parent { HasParent self.now.config.nodes self.now.lower.slot self.now.halves.separator self.now.read.0 }
        requires room { HasRoom self.now.read.0 self.now.halves.separator }
        ensures words { IsNewParent self.now.config.nodes self.now.lower.slot left right self.now.halves.separator self.now.read.0 result.0 }
        ensures size { length result.0 ≡ NODE_WORDS }
    {
        let Some(parent) = self.parent_with(left, right) else {
            unreachable!();
        };
        is_whole(&parent);
        parent
    }

    // The phase with which the nodes are begun: the first store, where three slots are left.
    fn begin(&mut self, slots: &mut Slots)
        requires parent { HasParent self.old.config.nodes self.old.lower.slot self.old.halves.separator self.old.read.0 }
        requires room { HasRoom self.old.read.0 self.old.halves.separator }
        ensures config { self.new.config ≡ self.old.config }
        ensures upper { self.new.upper ≡ self.old.upper }
        ensures lower { self.new.lower ≡ self.old.lower }
        ensures halves { self.new.halves ≡ self.old.halves }
        ensures read { self.new.read ≡ self.old.read }
        ensures waits { self.new.waits ≡ self.old.waits }
        ensures begun { HasBegunBelow self.old.config.nodes (below_of self.new) self.new.phase slots.old slots.new }
    {
        match take_three(slots) {
            Some(taken) => {
                self.parent = self.new_parent(taken[1], taken[2]);
                self.slots = taken;
                self.phase = BelowPhase::Store(0);
            }
            None => self.phase = BelowPhase::NoSlot,
        }
    }

    // Whether others have taken slots since the parent was first read, and it may be read once more.
    fn is_overtaken(&self, slots: &Slots) -> bool
        ensures more { result ≡ true → NODE_WORDS + 1 ≤ self.now.waits }
        ensures none { result ≡ false → IsNotOvertaken self.now.left self.now.waits slots.now }
    {
        if self.waits < READ_LOADS {
            return false;
        }
        slots.left() != self.left
    }

    // The phase where the upper guard is no frozen node's: the nodes are begun. Where others have taken slots meanwhile, one of them
    // may be about to turn the same link: the parent is read anew, for as long as that may take, and no slots are taken for nothing.
    fn wait_or_begin(&mut self, slots: &mut Slots)
        requires parent { HasParent self.old.config.nodes self.old.lower.slot self.old.halves.separator self.old.read.0 }
        requires room { HasRoom self.old.read.0 self.old.halves.separator }
        ensures config { self.new.config ≡ self.old.config }
        ensures upper { self.new.upper ≡ self.old.upper }
        ensures lower { self.new.lower ≡ self.old.lower }
        ensures halves { self.new.halves ≡ self.old.halves }
        ensures begun { HasBegunOrWaits self.old.config.nodes self.old.left self.old.waits self.new.waits self.old.read.0 (below_of self.new) self.new.phase slots.old slots.new }
    {
        if self.is_overtaken(slots) {
            self.waits -= READ_LOADS;
            self.read = first_word(self.lower.status);
            self.phase = BelowPhase::Word(1);
        } else {
            self.begin(slots);
        }
    }

    // The phase after another look at the upper guard: it goes on where that is no frozen node's.
    fn look(&mut self, word: u64, slots: &mut Slots)
        requires plain { word < 2 ^ 61 }
        requires parent { HasParent self.old.config.nodes self.old.lower.slot self.old.halves.separator self.old.read.0 }
        requires room { HasRoom self.old.read.0 self.old.halves.separator }
        ensures config { self.new.config ≡ self.old.config }
        ensures upper { self.new.upper ≡ self.old.upper }
        ensures lower { self.new.lower ≡ self.old.lower }
        ensures halves { self.new.halves ≡ self.old.halves }
        ensures looked { HasLookedBelow self.old.config.nodes self.old.left self.old.waits self.new.waits self.old.read.0 (below_of self.new) word self.new.phase slots.old slots.new }
    {
        if is_frozen(word) {
            self.phase = BelowPhase::Restart;
        } else {
            self.wait_or_begin(slots);
        }
    }

    // The phase after what came of a store, a flush or the swap.
    fn after(&self, seen: Seen, moment: u32) -> BelowPhase
        requires begun { self.now.phase ≢ BelowPhase.Fresh }
        requires read { (i : ℕ) → self.now.phase ≢ BelowPhase.Word i }
        requires opened { self.now.phase ≢ BelowPhase.Room }
        requires told { self.now.phase ≢ BelowPhase.Again }
        requires looked { self.now.phase ≢ BelowPhase.Guard }
        requires named { self.now.phase ≢ BelowPhase.Named }
        requires hears { Hears (asks_below self.now) seen }
        requires known { IsKnown self.now.config (facts_below self.now) (asks_below self.now) seen moment }
        ensures nearer { below_left result + below_steps result ≤ below_left self.now.phase }
        ensures fewer { below_swaps result + swaps_in (asks_below self.now) ≤ swaps_below self.now }
        ensures counted { below_end result ≡ None → effects_in seen ≡ 0 }
        ensures needs { below_needs result ≡ 0 }
        ensures done { result ≡ BelowPhase.Done → seen ≡ Swapped true }
        ensures last { seen ≡ Swapped true → result ≡ BelowPhase.Done }
        ensures restart { result ≡ BelowPhase.Restart → seen ≡ Swapped false }
        ensures no_swap { (result ≡ BelowPhase.NoSwap) ↔ (seen ≡ NoneLeft) }
        ensures slots { result ≢ BelowPhase.NoSlot }
        ensures begun { result ≢ BelowPhase.Fresh }
        ensures config { IsConfig self.now.config }
        ensures ready { IsReadyBelow self.now.config (below_of self.now) result }
        ensures learns { (stage : Stage) (s : Scene) → s.past.config ≡ self.now.config → facts_below self.now stage s → Tells (asks_below self.now) stage seen s → below_facts (below_of self.now) result Waiting s }
    {
        let _moment = moment;
        match (self.phase, seen) {
            (BelowPhase::Store(j), Seen::Stored) => after_store(j),
            (BelowPhase::Flush(j), Seen::Flushed) => after_flush(j),
            (BelowPhase::Swap, Seen::Swapped(true)) => BelowPhase::Done,
            (BelowPhase::Swap, Seen::NoSwap) => BelowPhase::NoSwap,
            _ => BelowPhase::Restart,
        }
    }

    // The next phase, whichever it is.
    fn step(&mut self, seen: Seen, slots: &mut Slots, moment: u32)
        requires hears { Hears (asks_below self.old) seen }
        requires known { IsKnown self.old.config (facts_below self.old) (asks_below self.old) seen moment }
        requires memory { 0 < needs_below self.old → slots.old.nodes ≡ self.old.config.nodes }
        ensures config { self.new.config ≡ self.old.config }
        ensures upper { self.new.upper ≡ self.old.upper }
        ensures lower { self.new.lower ≡ self.old.lower }
        ensures halves { self.new.halves ≡ self.old.halves }
        ensures known { IsConfig self.new.config }
        ensures begun { self.new.phase ≢ BelowPhase.Fresh }
        ensures ready { IsReadyBelow self.new.config (below_of self.new) self.new.phase }
        ensures nearer { left_below self.new + below_steps self.new.phase ≤ left_below self.old }
        ensures fewer { swaps_below self.new + swaps_in (asks_below self.old) ≤ swaps_below self.old }
        ensures counted { end_below self.new ≡ None → effects_in seen ≡ 0 }
        ensures slots { AreTakenFrom (needs_below self.old) (needs_below self.new) slots.old slots.new }
        ensures kept { (outcome : Outcome) → end_below self.new ≡ Some outcome → slots.new ≡ slots.old }
        ensures begins { seen ≡ Start → end_below self.new ≡ None }
        ensures done { end_below self.new ≡ Some Outcome.Done → seen ≡ Swapped true }
        ensures last { seen ≡ Swapped true → end_below self.new ≡ Some Outcome.Done }
        ensures restart { end_below self.new ≡ Some Outcome.Restart → (seen ≡ Swapped false) ⊎ differs_below self.old seen }
        ensures no_swap { seen ≡ NoneLeft → end_below self.new ≡ Some (Outcome.Full Spent.Swaps) }
        ensures full_swaps { end_below self.new ≡ Some (Outcome.Full Spent.Swaps) → seen ≡ NoneLeft }
        ensures full_nodes { end_below self.new ≡ Some (Outcome.Full Spent.Nodes) → length slots.old.free < needs_below self.old }
        ensures learns { (stage : Stage) (s : Scene) → s.past.config ≡ self.old.config → IsScene s → (0 < needs_below self.old → AreUnreached s slots.old) → facts_below self.old stage s → Tells (asks_below self.old) stage seen s → facts_below self.new Waiting (gained s slots.old slots.new) }
    {
        laws::nothing_is_gained();
        bz_layout::slots_apart();
        bz_renew::laws::links_turn();
        bz_halves::laws::children_may_be_parted();
        bz_parted::laws::read_nodes_have_children();
        links_stand_on();
        read_parents_were();
        match self.phase {
            BelowPhase::Fresh => self.phase = BelowPhase::Room,
            BelowPhase::Room => self.read_or_end(seen, slots),
            BelowPhase::Word(i) => {
                self.read.0[i as usize] = word_in(seen);
                let next = next_place(&self.read, i);
                self.waits = with_skipped(self.waits, next - i - 1);
                self.phase = after_word(next);
            }
            BelowPhase::Again => self.phase = self.told(seen),
            BelowPhase::Guard => self.look(word_in(seen), slots),
            BelowPhase::Named => {
                self.guard = word_in(seen);
                self.phase = named(self.guard);
            }
            _ => self.phase = self.after(seen, moment),
        }
    }

    // One of the words of the three nodes, counted through.
    fn word(&self, j: u32) -> u64
        requires { j < SPLIT_WORDS }
        ensures { result ≡ word_value (below_nodes (below_of self.now)) j }
    {
        let place = (j % NODE_WORDS) as usize;
        match j / NODE_WORDS {
            0 => self.parent.0[place],
            1 => self.halves.left.0[place],
            _ => self.halves.right.0[place],
        }
    }

    // What a phase asks for.
    fn asked(&self) -> Todo
        requires begun { self.now.phase ≢ BelowPhase.Fresh }
        requires config { IsConfig self.now.config }
        requires ready { IsReadyBelow self.now.config (below_of self.now) self.now.phase }
        ensures { asks_below self.now ≡ Some result }
    {
        match self.phase {
            BelowPhase::Word(i) => Todo::Read(self.config.node_at(self.upper.slot as u32) + i),
            BelowPhase::Room | BelowPhase::Again => Todo::Read(self.lower.guard),
            BelowPhase::Guard | BelowPhase::Named => Todo::Read(self.upper.guard),
            BelowPhase::Store(j) => {
                let slot = self.slots[(j / NODE_WORDS) as usize] as u32;
                Todo::Store(self.config.node_at(slot) + j % NODE_WORDS, self.word(j))
            }
            BelowPhase::Flush(j) => {
                let slot = self.slots[(j / NODE_LINES) as usize] as u32;
                Todo::Flush(self.config.node_at(slot) / LINE_WORDS + j % NODE_LINES)
            }
            BelowPhase::Swap => Todo::Swap(swap_freezing(
                &self.config,
                &guarded_by(&self.upper, self.guard),
                self.slots[0],
                self.upper.slot,
                self.lower.status,
            )),
            BelowPhase::Fresh
            | BelowPhase::Done
            | BelowPhase::Restart
            | BelowPhase::NoRoom
            | BelowPhase::NoSlot
            | BelowPhase::NoSwap => Todo::Finish,
        }
    }
}

// The loads that may still be spent on waiting, and those of the words that were skipped besides.
fn with_skipped(waits: u32, skipped: u32) -> u32
    ensures { result ≤ waits + skipped }
{
    waits.saturating_add(skipped)
}

// The phase after the load of a word of the parent: that of the next one that is read, or its status once more.
fn after_word(next: u32) -> BelowPhase
    requires { next ≤ NODE_WORDS }
    ensures { result ≡ word_after next }
{
    if next < NODE_WORDS {
        BelowPhase::Word(next)
    } else {
        BelowPhase::Again
    }
}

// The phase after the store of a word: that of the next one, or the first flush.
fn after_store(j: u32) -> BelowPhase
    requires { j < SPLIT_WORDS }
    ensures { result ≡ store_after j }
{
    if j + 1 < SPLIT_WORDS {
        BelowPhase::Store(j + 1)
    } else {
        BelowPhase::Flush(0)
    }
}

// The phase after the flush of a line: that of the next one, or the last look at the upper guard.
fn after_flush(j: u32) -> BelowPhase
    requires { j < SPLIT_LINES }
    ensures { result ≡ flush_after j }
{
    if j + 1 < SPLIT_LINES {
        BelowPhase::Flush(j + 1)
    } else {
        BelowPhase::Named
    }
}

// The phase after the last look at the upper guard: the swap, where that is no frozen node's.
fn named(word: u64) -> BelowPhase
    requires { word < 2 ^ 61 }
    ensures frozen { (status word).frozen ≡ true → result ≡ BelowPhase.Restart }
    ensures thawed { (status word).frozen ≡ false → result ≡ BelowPhase.Swap }
{
    if is_frozen(word) {
        BelowPhase::Restart
    } else {
        BelowPhase::Swap
    }
}

impl Task for SplitBelow {
    ghost view = { below_view };

    fn publishes(&self) -> bool {
        false
    }

    fn ended(&self) -> Option<Outcome> {
        match self.phase {
            BelowPhase::Done => Some(Outcome::Done),
            BelowPhase::Restart => Some(Outcome::Restart),
            BelowPhase::NoRoom => Some(Outcome::NeedsRoom),
            BelowPhase::NoSlot => Some(Outcome::Full(Spent::Nodes)),
            BelowPhase::NoSwap => Some(Outcome::Full(Spent::Swaps)),
            _ => None,
        }
    }

    fn next(&mut self, seen: Seen, slots: &mut Slots, moment: u32) -> Todo {
        self.step(seen, slots, moment);
        self.asked()
    }

    fn learnt(&self) {
        bz_renew::laws::links_turn();
        bz_word::laws::statuses();
    }

    fn acted(&self) {
        bz_renew::laws::links_turn();
        bz_halves::laws::parents_of_halves_are_whole();
        bz_layout::slots_apart();
        leaf_splits_below_are_good();
    }
}
