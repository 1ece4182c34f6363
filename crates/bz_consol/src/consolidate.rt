//! The task that consolidates a frozen leaf.

ghost use Rattle.std.specs.Prelude.{◌≡◌, ◌≢◌, ◌-◌, ◌≤◌, ℕ, List, Some, true, slice_get};
ghost use Rattle.bz_layout.specs.Config.{IsConfig};
ghost use Rattle.bz_layout.specs.declared.swaps.TheConstants.{RENEWAL_SWAPS};
ghost use Rattle.bz_layout.specs.declared.thresholds.TheConstants.{CONSOLIDATION_SLOTS, MAX_LEVELS};
ghost use Rattle.bz_renew.specs.FromPage.Pages.{IsLeafByItself};
ghost use Rattle.bz_task.specs.Contract.{IsBegun, MayHear, GoesOn, Learns};
ghost use Rattle.bz_task.specs.Outcomes.{IsPath, IsView};
ghost use Rattle.bz_task.specs.Scene.{Scene, Waiting, IsScene};
ghost use Rattle.bz_word.specs.Statuses.{status};
ghost use Rattle.bz_consol.specs.Duties.{IsReady, asks_of, consol_view};
ghost use Rattle.bz_consol.specs.Facts.{IsEndOfConsolidation, IsMadeOf, LeadsTo, WasRenewed, consol_acts, consol_change};

use crate::copies::copy_of;
use bz_key::PageBuf;
use bz_layout::{CONSOLIDATION_SLOTS, Config, NODE_WORDS, Slots};
use bz_node::NodeImage;
use bz_renew::{is_whole, last_link, swap_of};
use bz_task::{LeafView, Link, Outcome, Path, Seen, Task, Todo};
use bz_writer::{WritePhase, flush_at, look, store_at};

/// The consolidation of the frozen leaf that a view shows. It ends with Done where the copy has taken the leaf's place, with
/// Restart where the link or its guard was another one, and with Full where no slot or no descriptor was left.
#[derive(Drop)]
pub struct Consolidate {
    config: Config,
    // the link that is turned
    link: Link,
    // the words of the copy, and the slots that were taken: they are stored into the first
    image: NodeImage,
    slots: [u16; 3],
    phase: WritePhase,
}

impl Consolidate {
    /// The consolidation of a leaf that was frozen when it was viewed. Its records are left in `page`.
    pub fn new(config: &Config, path: Path, view: LeafView, page: &mut PageBuf) -> Consolidate
        requires some { 1 ≤ path.depth }
        requires few { path.depth ≤ MAX_LEVELS }
        requires leaf { IsLeafByItself view.image.0 }
        requires frozen { (status view.status).frozen ≡ true }
        requires leads { LeadsTo path view.slot }
        ensures begun { IsBegun (⟦<Consolidate as Task>⟧.view result) config.now consol_acts RENEWAL_SWAPS CONSOLIDATION_SLOTS }
        ensures change { (⟦<Consolidate as Task>⟧.view result).change ≡ consol_change }
        ensures slot { ((⟦<Consolidate as Task>⟧.view result).basis).slot ≡ view.slot }
        ensures copy { IsMadeOf view.image.0 result.image.0 }
        ensures facts { (key : List ℕ) (s : Scene) → s.past.config ≡ config.now → IsScene s → IsPath key path s.past → IsView key view s.past → (⟦<Consolidate as Task>⟧.view result).facts Waiting s }
        ensures done { (link : Link) (s : Scene) → slice_get path.links (path.depth - 1) ≡ Some link → (⟦<Consolidate as Task>⟧.view result).means Outcome.Done s → WasRenewed link view s.past }
        ensures no_path { (other : Path) (s : Scene) → (⟦<Consolidate as Task>⟧.view result).means (Outcome.Path other) s → ⊥ }
        ensures no_view { (other : LeafView) (s : Scene) → (⟦<Consolidate as Task>⟧.view result).means (Outcome.View other) s → ⊥ }
        ensures no_room { (s : Scene) → (⟦<Consolidate as Task>⟧.view result).means Outcome.NeedsRoom s → ⊥ }
        ensures only { (outcome : Outcome) (s : Scene) → (⟦<Consolidate as Task>⟧.view result).means outcome s → IsEndOfConsolidation outcome }
    {
        bz_renew::laws::views_show_frozen_leaves();
        let image = copy_of(&view, page);
        is_whole(&image);
        Consolidate {
            config: *config,
            link: last_link(&path),
            image,
            slots: [0; 3],
            phase: WritePhase::Fresh,
        }
    }
}

impl Consolidate {
    // The next phase, whichever it is.
    fn step(&mut self, seen: Seen, slots: &mut Slots, moment: u32)
        requires { MayHear (consol_view self.old) seen moment slots.old }
        ensures known { IsConfig self.new.config }
        ensures begun { self.new.phase ≢ WritePhase.Fresh }
        ensures ready { IsReady self.new }
        ensures goes { (todo : Todo) → asks_of self.new ≡ Some todo → GoesOn (consol_view self.old) (consol_view self.new) seen slots.old slots.new todo }
        ensures learns { Learns (consol_view self.old) (consol_view self.new) seen moment slots.old slots.new }
    {
        let _moment = moment;
        match self.phase {
            WritePhase::Fresh => self.phase = WritePhase::Guard,
            WritePhase::Guard => {
                let begun = look(CONSOLIDATION_SLOTS, self.link.status, seen, slots);
                let taken = begun.slots;
                self.slots = taken;
                self.phase = begun.phase;
            }
            _ => self.phase = self.phase.after(CONSOLIDATION_SLOTS, seen),
        }
    }

    // What a phase asks for.
    fn asked(&self) -> Todo
        requires begun { self.now.phase ≢ WritePhase.Fresh }
        requires config { IsConfig self.now.config }
        requires ready { IsReady self.now }
        ensures { asks_of self.now ≡ Some result }
    {
        match self.phase {
            WritePhase::Guard => Todo::Read(self.link.guard),
            WritePhase::Store(j) => {
                let word = self.image.0[(j % NODE_WORDS) as usize];
                store_at(&self.config, &self.slots, j, word)
            }
            WritePhase::Flush(j) => flush_at(&self.config, &self.slots, j),
            WritePhase::Swap => Todo::Swap(swap_of(&self.link, self.slots[0])),
            _ => Todo::Finish,
        }
    }
}

impl Task for Consolidate {
    ghost view = { consol_view };

    fn publishes(&self) -> bool {
        false
    }

    fn ended(&self) -> Option<Outcome> {
        self.phase.ended()
    }

    fn next(&mut self, seen: Seen, slots: &mut Slots, moment: u32) -> Todo {
        self.step(seen, slots, moment);
        self.asked()
    }

    fn learnt(&self) {}

    fn acted(&self) {}
}
