//! The task that deletes a key from a leaf.

ghost use Rattle.std.specs.Prelude.{◌≡◌, ◌≢◌, ◌↔◌, ◌+◌, ◌≤◌, ◌<◌, ◌^◌, Some, None, true, false};
ghost use Rattle.bz_layout.specs.Config.{IsConfig};
ghost use Rattle.bz_word.specs.Statuses.{status};
ghost use Rattle.bz_task.specs.Contract.{IsBegun};
ghost use Rattle.bz_task.specs.Outcomes.{IsKeyView, payload_of};
ghost use Rattle.bz_task.specs.Requests.{Hears, Tells, IsKnown, swaps_in, effects_in};
ghost use Rattle.bz_task.specs.Scene.{Scene, Stage, Waiting, IsScene};
ghost use Rattle.bz_layout.specs.declared.swaps.TheConstants.{DELETE_SWAPS};
ghost use Rattle.bz_task.specs.declared.todo.Seen.TheVariants.{Start, Swapped, NoSwap};
ghost use Rattle.bz_record.specs.declared.found_record.FoundRecord.{FoundRecord};
ghost use Rattle.bz_mutate.specs.Viewed.{IsVisible, IsFound};
ghost use Rattle.bz_mutate.specs.DeleteDuties.{leaves_few_of, delete_view};
ghost use Rattle.bz_mutate.specs.DeleteFacts.{IsEndOfDelete, delete_asks, delete_end, delete_left, delete_swaps, delete_publishes, delete_facts, IsFirst, IsReady};

use crate::delete_phase::DeletePhase;
use bz_call::Spent;
use bz_key::Key;
use bz_layout::{Config, MERGE_BELOW, Slots};
use bz_record::{FoundRecord, NewRecord};
use bz_task::{KeyView, LeafView, Outcome, Path, Seen, Task, Todo, laws};
use bz_word::Status;

/// The delete of a key from the leaf in which a view found it. It ends with Done where the record is gone, with NeedsRoom where the
/// viewed leaf is frozen, with Restart where the swap found another status, and with Full(Swaps).
#[derive(Drop)]
pub struct Delete {
    config: Config,
    view: KeyView,
    key: Key,
    phase: DeletePhase,
}

impl Delete {
    /// The delete of a key that its leaf has.
    pub fn new(config: &Config, _path: Path, view: KeyView, key: Key) -> Delete
        requires present { view.found ≢ None }
        ensures begun { IsBegun (⟦<Delete as Task>⟧.view result) config.now 2 DELETE_SWAPS 0 }
        ensures change { (⟦<Delete as Task>⟧.view result).change ≡ record { key = key; old = payload_of view.found; new = None } }
        ensures facts { (s : Scene) → s.past.config ≡ config.now → s.effected ≡ false → IsScene s → IsKeyView key view s.past → (⟦<Delete as Task>⟧.view result).facts Waiting s }
        ensures done { (s : Scene) → (⟦<Delete as Task>⟧.view result).means Outcome.Done s → s.effected ≡ true }
        ensures no_path { (path : Path) (s : Scene) → (⟦<Delete as Task>⟧.view result).means (Outcome.Path path) s → ⊥ }
        ensures no_view { (other : LeafView) (s : Scene) → (⟦<Delete as Task>⟧.view result).means (Outcome.View other) s → ⊥ }
        // NeedsRoom comes exactly where the viewed leaf is frozen
        ensures needs_room { (s : Scene) → (⟦<Delete as Task>⟧.view result).means Outcome.NeedsRoom s → (status view.status).frozen ≡ true }
        ensures thawed { (s : Scene) (outcome : Outcome) → (⟦<Delete as Task>⟧.view result).means outcome s → outcome ≢ Outcome.NeedsRoom → (status view.status).frozen ≡ false }
        ensures only { (outcome : Outcome) (s : Scene) → (⟦<Delete as Task>⟧.view result).means outcome s → IsEndOfDelete outcome }
    {
        Delete {
            config: *config,
            view,
            key,
            phase: DeletePhase::Fresh,
        }
    }

    /// Whether fewer words of the leaf's block are live, once the record is gone, than a leaf needs to stand alone. Each live record has
    /// a metadata word besides, so where this is false the leaf has enough.
    pub fn leaves_few(&self) -> bool
        ensures { result ≡ leaves_few_of self.now }
    {
        bz_word::laws::statuses();
        let Some(found) = &self.view.found else {
            return false;
        };
        let Some(status) = Status::unpack(self.view.status) else {
            return false;
        };
        let gone = NewRecord {
            slot: self.view.slot,
            status: self.view.status,
            key: self.key,
            payload: found.payload,
        };
        let live = status.block.saturating_sub(status.dead);
        live.saturating_sub(gone.size()) < MERGE_BELOW
    }

    // The phase after what came of the last act.
    fn after(&self, seen: Seen, moment: u32) -> DeletePhase
        requires hears { Hears (delete_asks self.now.config self.now.view self.now.phase) seen }
        requires known { IsKnown self.now.config (delete_facts self.now.key self.now.view self.now.phase) (delete_asks self.now.config self.now.view self.now.phase) seen moment }
        ensures nearer { delete_left result < delete_left self.now.phase }
        ensures fewer { delete_swaps result + swaps_in (delete_asks self.now.config self.now.view self.now.phase) ≤ delete_swaps self.now.phase }
        ensures counted { delete_end result ≡ None → effects_in seen ≡ 0 }
        ensures done { result ≡ DeletePhase.Done → seen ≡ Swapped true }
        ensures begins { seen ≡ Start → IsFirst result }
        ensures last { seen ≡ Swapped true → result ≡ DeletePhase.Done }
        ensures only_last { result ≡ DeletePhase.Done → delete_swaps self.now.phase ≡ 1 }
        ensures published { delete_publishes self.now.phase ≡ true → seen ≡ Swapped true → result ≡ DeletePhase.Done }
        ensures restart { result ≡ DeletePhase.Restart → seen ≡ Swapped false }
        ensures full { (result ≡ DeletePhase.Full) ↔ (seen ≡ NoSwap) }
        ensures begun { result ≢ DeletePhase.Fresh }
        ensures config { IsConfig self.now.config }
        ensures ready { IsReady self.now.config self.now.view result }
        ensures learns { (stage : Stage) (s : Scene) → s.past.config ≡ self.now.config → IsScene s → delete_facts self.now.key self.now.view self.now.phase stage s → Tells (delete_asks self.now.config self.now.view self.now.phase) stage seen s → delete_facts self.now.key self.now.view result Waiting s }
    {
        let _moment = moment;
        match (self.phase, seen) {
            (DeletePhase::Fresh, _) => self.begun(),
            (DeletePhase::Remove(_), Seen::Swapped(true)) => DeletePhase::Done,
            (DeletePhase::Remove(_), Seen::NoSwap) => DeletePhase::Full,
            _ => DeletePhase::Restart,
        }
    }
}

impl Delete {
    // The first phase: the removal of the key's record, of a leaf that is not frozen.
    fn begun(&self) -> DeletePhase
        requires plain { self.now.view.status < 2 ^ 61 }
        requires visible { IsVisible self.now.view }
        ensures frozen { (status self.now.view.status).frozen ≡ true → result ≡ DeletePhase.NeedsRoom }
        ensures found { (f : FoundRecord) → result ≡ DeletePhase.Remove f → IsFound self.now.view f }
        ensures thawed { (f : FoundRecord) → result ≡ DeletePhase.Remove f → (status self.now.view.status).frozen ≡ false }
        ensures none { result ≡ DeletePhase.NeedsRoom → (status self.now.view.status).frozen ≡ false → self.now.view.found ≡ None }
        ensures either { IsFirst result }
    {
        if is_frozen(self.view.status) {
            return DeletePhase::NeedsRoom;
        }
        match &self.view.found {
            Some(found) => DeletePhase::Remove(FoundRecord::of(found)),
            None => DeletePhase::NeedsRoom,
        }
    }

    // What a phase asks for.
    fn asked(&self) -> Todo
        requires begun { self.now.phase ≢ DeletePhase.Fresh }
        requires config { IsConfig self.now.config }
        requires ready { IsReady self.now.config self.now.view self.now.phase }
        ensures { delete_asks self.now.config self.now.view self.now.phase ≡ Some result }
    {
        match self.phase {
            DeletePhase::Remove(found) => Todo::Swap(
                found
                    .removal(self.view.slot, self.view.status)
                    .entries(&self.config),
            ),
            DeletePhase::Fresh
            | DeletePhase::Done
            | DeletePhase::Restart
            | DeletePhase::NeedsRoom
            | DeletePhase::Full => Todo::Finish,
        }
    }
}

// Whether the status is that of a frozen leaf.
fn is_frozen(word: u64) -> bool
    requires { word < 2 ^ 61 }
    ensures { result ≡ (status word).frozen }
{
    bz_word::laws::statuses();
    match Status::unpack(word) {
        Some(status) => status.frozen,
        None => false,
    }
}

impl Task for Delete {
    ghost view = { delete_view };

    fn publishes(&self) -> bool {
        match self.phase {
            DeletePhase::Remove(_) => true,
            _ => false,
        }
    }

    fn ended(&self) -> Option<Outcome> {
        match self.phase {
            DeletePhase::Done => Some(Outcome::Done),
            DeletePhase::Restart => Some(Outcome::Restart),
            DeletePhase::NeedsRoom => Some(Outcome::NeedsRoom),
            DeletePhase::Full => Some(Outcome::Full(Spent::Swaps)),
            _ => None,
        }
    }

    fn next(&mut self, seen: Seen, slots: &mut Slots, moment: u32) -> Todo {
        let _slots = slots;
        self.phase = self.after(seen, moment);
        self.asked()
    }

    fn learnt(&self) {
        bz_record::laws::changes_may_be_asked();
    }

    fn acted(&self) {
        bz_record::laws::removals_are_good();
    }
}
