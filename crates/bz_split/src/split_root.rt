//! The task that splits a frozen root leaf.

ghost use Rattle.std.specs.Prelude.{◌≡◌, ◌≢◌, ◌-◌, ◌<◌, ℕ, List, Some, true, slice_get};
ghost use Rattle.bz_layout.specs.Config.{IsConfig};
ghost use Rattle.bz_layout.specs.declared.swaps.TheConstants.{RENEWAL_SWAPS};
ghost use Rattle.bz_layout.specs.declared.thresholds.TheConstants.{SPLIT_ABOVE, SPLIT_SLOTS};
ghost use Rattle.bz_renew.specs.Due.{LeadsTo};
ghost use Rattle.bz_renew.specs.FromPage.Pages.{IsLeafByItself};
ghost use Rattle.bz_renew.specs.Nodes.{word_value};
ghost use Rattle.bz_slotted.specs.Readers.{live_of};
ghost use Rattle.bz_slotted.specs.ReadingLaws.{node_of};
ghost use Rattle.bz_task.specs.Contract.{IsBegun, MayHear, GoesOn, Learns};
ghost use Rattle.bz_task.specs.Outcomes.{IsPath, IsView};
ghost use Rattle.bz_task.specs.Scene.{Scene, Waiting, IsScene};
ghost use Rattle.bz_word.specs.Statuses.{status};
ghost use Rattle.bz_split.specs.Duties.{IsReady, asks_of, split_of, split_view};
ghost use Rattle.bz_split.specs.Facts.{IsEndOfSplit, WasParted, nodes_in, split_acts, split_change};
ghost use Rattle.bz_split.specs.Parts.{ArePartsOf};

use crate::parts::parts_of;
use bz_halves::{Halves, root_over};
use bz_key::PageBuf;
use bz_layout::{Config, NODE_WORDS, SPLIT_SLOTS, Slots};
use bz_node::NodeImage;
use bz_renew::{is_whole, last_link, swap_of};
use bz_task::{LeafView, Link, Outcome, Path, Seen, Task, Todo};
use bz_writer::{WritePhase, flush_at, look, store_at};

const SPLIT_WORDS: u32 = NODE_WORDS * SPLIT_SLOTS;

/// The split of the frozen root leaf that a view shows. It ends with Done where a root over the leaf's halves has taken its
/// place, with Restart where the root pointer or the root status was another one, and with Full where fewer than three slots or no
/// descriptor were left.
#[derive(Drop)]
pub struct SplitRoot {
    config: Config,
    // the link that is turned
    link: Link,
    // the words of the halves, and those of the root over them once the slots are known
    halves: Halves,
    root: NodeImage,
    // the slots of the root, of the left half and of the right half
    slots: [u16; 3],
    phase: WritePhase,
}

impl SplitRoot {
    /// The split of a root leaf that was frozen when it was viewed, and had more live words than a leaf may keep. Its records are
    /// left in `page`.
    pub fn new(config: &Config, path: Path, view: LeafView, page: &mut PageBuf) -> SplitRoot
        requires root { path.depth ≡ 1 }
        requires leaf { IsLeafByItself view.image.0 }
        requires many { SPLIT_ABOVE < live_of (node_of view.image.0) }
        requires frozen { (status view.status).frozen ≡ true }
        requires leads { LeadsTo path view.slot }
        ensures begun { IsBegun (⟦<SplitRoot as Task>⟧.view result) config.now split_acts RENEWAL_SWAPS SPLIT_SLOTS }
        ensures change { (⟦<SplitRoot as Task>⟧.view result).change ≡ split_change }
        ensures slot { ((⟦<SplitRoot as Task>⟧.view result).basis).slot ≡ view.slot }
        ensures halves { ArePartsOf view.image.0 result.halves.left.0 result.halves.right.0 result.halves.separator }
        ensures facts { (key : List ℕ) (s : Scene) → s.past.config ≡ config.now → IsScene s → IsPath key path s.past → IsView key view s.past → (⟦<SplitRoot as Task>⟧.view result).facts Waiting s }
        ensures done { (link : Link) (s : Scene) → slice_get path.links (path.depth - 1) ≡ Some link → (⟦<SplitRoot as Task>⟧.view result).means Outcome.Done s → WasParted link view s.past }
        ensures no_path { (other : Path) (s : Scene) → (⟦<SplitRoot as Task>⟧.view result).means (Outcome.Path other) s → ⊥ }
        ensures no_view { (other : LeafView) (s : Scene) → (⟦<SplitRoot as Task>⟧.view result).means (Outcome.View other) s → ⊥ }
        ensures no_room { (s : Scene) → (⟦<SplitRoot as Task>⟧.view result).means Outcome.NeedsRoom s → ⊥ }
        ensures only { (outcome : Outcome) (s : Scene) → (⟦<SplitRoot as Task>⟧.view result).means outcome s → IsEndOfSplit outcome }
    {
        bz_renew::laws::views_show_frozen_leaves();
        let halves = parts_of(&view, page);
        SplitRoot {
            config: *config,
            link: last_link(&path),
            root: halves.left,
            halves,
            slots: [0; 3],
            phase: WritePhase::Fresh,
        }
    }
}

impl SplitRoot {
    // The next phase, whichever it is.
    fn step(&mut self, seen: Seen, slots: &mut Slots, moment: u32)
        requires { MayHear (split_view self.old) seen moment slots.old }
        ensures known { IsConfig self.new.config }
        ensures begun { self.new.phase ≢ WritePhase.Fresh }
        ensures ready { IsReady self.new }
        ensures goes { (todo : Todo) → asks_of self.new ≡ Some todo → GoesOn (split_view self.old) (split_view self.new) seen slots.old slots.new todo }
        ensures learns { Learns (split_view self.old) (split_view self.new) seen moment slots.old slots.new }
    {
        let _moment = moment;
        match self.phase {
            WritePhase::Fresh => self.phase = WritePhase::Guard,
            WritePhase::Guard => {
                let begun = look(SPLIT_SLOTS, self.link.status, seen, slots);
                let taken = begun.slots;
                self.root = root_over(taken[1], taken[2], self.halves.separator);
                is_whole(&self.root);
                self.slots = taken;
                self.phase = begun.phase;
            }
            _ => self.phase = self.phase.after(SPLIT_SLOTS, seen),
        }
    }

    // One of the words of the three nodes, counted through.
    fn word(&self, j: u32) -> u64
        requires { j < SPLIT_WORDS }
        ensures { result ≡ word_value (nodes_in (split_of self.now)) j }
    {
        let place = (j % NODE_WORDS) as usize;
        match j / NODE_WORDS {
            0 => self.root.0[place],
            1 => self.halves.left.0[place],
            _ => self.halves.right.0[place],
        }
    }

    // What a phase asks for.
    fn asked(&self) -> Todo
        requires begun { self.now.phase ≢ WritePhase.Fresh }
        requires config { IsConfig self.now.config }
        requires ready { IsReady self.now }
        ensures { asks_of self.now ≡ Some result }
    {
        match self.phase {
            WritePhase::Guard => Todo::Read(self.link.guard),
            WritePhase::Store(j) => store_at(&self.config, &self.slots, j, self.word(j)),
            WritePhase::Flush(j) => flush_at(&self.config, &self.slots, j),
            WritePhase::Swap => Todo::Swap(swap_of(&self.link, self.slots[0])),
            _ => Todo::Finish,
        }
    }
}

impl Task for SplitRoot {
    ghost view = { split_view };

    fn publishes(&self) -> bool {
        false
    }

    fn ended(&self) -> Option<Outcome> {
        self.phase.ended()
    }

    fn next(&mut self, seen: Seen, slots: &mut Slots, moment: u32) -> Todo {
        self.step(seen, slots, moment);
        self.asked()
    }

    fn learnt(&self) {}

    fn acted(&self) {}
}
