//! The task that updates a key of a leaf.

ghost use Rattle.std.specs.Prelude.{◌≡◌, ◌≢◌, ◌↔◌, ◌-◌, ◌+◌, ◌*◌, ◌<◌, ◌≤◌, ◌^◌, ◌⊎◌, Some, None, true, false};
ghost use Rattle.bz_layout.specs.Config.{IsConfig};
ghost use Rattle.bz_layout.specs.declared.thresholds.TheConstants.{RECORD_WORDS, RECORD_LINES};
ghost use Rattle.bz_task.specs.Contract.{IsBegun};
ghost use Rattle.bz_task.specs.Outcomes.{IsKeyView, payload_of};
ghost use Rattle.bz_task.specs.Requests.{Hears, Tells, IsKnown, swaps_in, effects_in};
ghost use Rattle.bz_task.specs.Scene.{Scene, Stage, Waiting, IsScene};
ghost use Rattle.bz_layout.specs.declared.swaps.TheConstants.{UPDATE_SWAPS};
ghost use Rattle.bz_task.specs.declared.todo.Seen.TheVariants.{Start, Swapped, NoSwap};
ghost use Rattle.bz_record.specs.Records.{words_for, size_of, HasRoom, LacksRoom};
ghost use Rattle.bz_record.specs.declared.found_record.FoundRecord.{FoundRecord};
ghost use Rattle.bz_mutate.specs.Viewed.{IsVisible, IsFound};
ghost use Rattle.bz_mutate.specs.UpdateFacts.{IsEndOfUpdate, update_asks, update_end, update_acts, update_left, update_steps, update_swaps, update_made, update_publishes, update_facts, IsFirst, IsReady, next_store, next_flush};
ghost use Rattle.bz_mutate.specs.UpdateDuties.{update_view};

use crate::update_phase::UpdatePhase;
use bz_call::Spent;
use bz_key::{Key, Payload};
use bz_layout::{Config, Slots};
use bz_record::{FoundRecord, NewRecord};
use bz_task::{KeyView, LeafView, Outcome, Path, Seen, Task, Todo, laws};

/// The update of a key in the leaf in which a view found it. It ends with Done where the new record is in the place of the old one,
/// with NeedsRoom where the viewed leaf is frozen or lacks the words, with Restart where a swap found another status, and with
/// Full(Swaps).
#[derive(Drop)]
pub struct Update {
    config: Config,
    view: KeyView,
    added: NewRecord,
    phase: UpdatePhase,
}

impl Update {
    /// The update of a key that its leaf has.
    pub fn new(config: &Config, _path: Path, view: KeyView, key: Key, payload: Payload) -> Update
        requires present { view.found ≢ None }
        ensures begun { IsBegun (⟦<Update as Task>⟧.view result) config.now update_acts UPDATE_SWAPS 0 }
        ensures change { (⟦<Update as Task>⟧.view result).change ≡ record { key = key; old = payload_of view.found; new = Some payload } }
        ensures facts { (s : Scene) → s.past.config ≡ config.now → s.effected ≡ false → IsScene s → IsKeyView key view s.past → (⟦<Update as Task>⟧.view result).facts Waiting s }
        ensures done { (s : Scene) → (⟦<Update as Task>⟧.view result).means Outcome.Done s → s.effected ≡ true }
        ensures no_path { (path : Path) (s : Scene) → (⟦<Update as Task>⟧.view result).means (Outcome.Path path) s → ⊥ }
        ensures no_view { (other : LeafView) (s : Scene) → (⟦<Update as Task>⟧.view result).means (Outcome.View other) s → ⊥ }
        // NeedsRoom comes exactly where the viewed leaf lacks room
        ensures needs_room { (s : Scene) → (⟦<Update as Task>⟧.view result).means Outcome.NeedsRoom s → LacksRoom view.status (words_for key payload) }
        ensures room { (s : Scene) (outcome : Outcome) → (⟦<Update as Task>⟧.view result).means outcome s → outcome ≢ Outcome.NeedsRoom → HasRoom view.status (words_for key payload) }
        ensures only { (outcome : Outcome) (s : Scene) → (⟦<Update as Task>⟧.view result).means outcome s → IsEndOfUpdate outcome }
    {
        bz_key::laws::packing_is_small();
        let _key = key.bytes();
        let _payload = payload.bytes();
        let added = NewRecord {
            slot: view.slot,
            status: view.status,
            key,
            payload,
        };
        Update {
            config: *config,
            view,
            added,
            phase: UpdatePhase::Fresh,
        }
    }

    // The phase after what came of the last act.
    fn after(&self, seen: Seen, moment: u32) -> UpdatePhase
        requires hears { Hears (update_asks self.now.config self.now.added self.now.phase) seen }
        requires known { IsKnown self.now.config (update_facts self.now.view self.now.added self.now.phase) (update_asks self.now.config self.now.added self.now.phase) seen moment }
        ensures nearer { update_left result + update_steps result ≤ update_left self.now.phase }
        ensures fewer { update_swaps result + swaps_in (update_asks self.now.config self.now.added self.now.phase) ≤ update_swaps self.now.phase }
        ensures counted { update_end result ≡ None → update_made result ≡ update_made self.now.phase + effects_in seen }
        ensures done { result ≡ UpdatePhase.Done → seen ≡ Swapped true }
        ensures begins { seen ≡ Start → IsFirst result }
        ensures last { seen ≡ Swapped true → update_swaps self.now.phase ≡ 1 → result ≡ UpdatePhase.Done }
        ensures only_last { result ≡ UpdatePhase.Done → update_swaps self.now.phase ≡ 1 }
        ensures published { update_publishes self.now.phase ≡ true → seen ≡ Swapped true → result ≡ UpdatePhase.Done }
        ensures restart { result ≡ UpdatePhase.Restart → seen ≡ Swapped false }
        ensures full { (result ≡ UpdatePhase.Full) ↔ (seen ≡ NoSwap) }
        ensures begun { result ≢ UpdatePhase.Fresh }
        ensures config { IsConfig self.now.config }
        ensures ready { IsReady self.now.config self.now.view self.now.added result }
        ensures learns { (stage : Stage) (s : Scene) → s.past.config ≡ self.now.config → IsScene s → update_facts self.now.view self.now.added self.now.phase stage s → Tells (update_asks self.now.config self.now.added self.now.phase) stage seen s → update_facts self.now.view self.now.added result Waiting s }
    {
        let _moment = moment;
        match (self.phase, seen) {
            (UpdatePhase::Fresh, _) => self.begun(),
            (UpdatePhase::Grow(old), Seen::Swapped(true)) => UpdatePhase::Store(old, 0),
            (UpdatePhase::Store(old, i), Seen::Stored) => self.after_store(old, i),
            (UpdatePhase::Flush(old, n), Seen::Flushed) => self.after_flush(old, n),
            (UpdatePhase::Replace(_), Seen::Swapped(true)) => UpdatePhase::Done,
            (UpdatePhase::Grow(_) | UpdatePhase::Replace(_), Seen::NoSwap) => UpdatePhase::Full,
            _ => UpdatePhase::Restart,
        }
    }
}

impl Update {
    // The first phase: the growth, where the leaf has room for the new record.
    fn begun(&self) -> UpdatePhase
        requires plain { self.now.added.status < 2 ^ 61 }
        requires visible { IsVisible self.now.view }
        ensures found { (f : FoundRecord) → result ≡ UpdatePhase.Grow f → IsFound self.now.view f }
        ensures room { (f : FoundRecord) → result ≡ UpdatePhase.Grow f → HasRoom self.now.added.status (size_of self.now.added) }
        ensures none { result ≡ UpdatePhase.NeedsRoom → LacksRoom self.now.added.status (size_of self.now.added) ⊎ (self.now.view.found ≡ None) }
        ensures either { IsFirst result }
    {
        if !self.added.has_room() {
            return UpdatePhase::NeedsRoom;
        }
        match &self.view.found {
            Some(found) => UpdatePhase::Grow(FoundRecord::of(found)),
            None => UpdatePhase::NeedsRoom,
        }
    }

    // What a phase asks for.
    fn asked(&self) -> Todo
        requires begun { self.now.phase ≢ UpdatePhase.Fresh }
        requires config { IsConfig self.now.config }
        requires ready { IsReady self.now.config self.now.view self.now.added self.now.phase }
        ensures { update_asks self.now.config self.now.added self.now.phase ≡ Some result }
    {
        match self.phase {
            UpdatePhase::Grow(_) => Todo::Swap(self.added.growth(&self.config)),
            UpdatePhase::Store(_, i) => {
                Todo::Store(self.added.address(&self.config, i), self.added.word(i))
            }
            UpdatePhase::Flush(_, n) => Todo::Flush(self.added.first_line(&self.config) + n),
            UpdatePhase::Replace(old) => {
                Todo::Swap(old.replacement(&self.added).entries(&self.config))
            }
            UpdatePhase::Fresh
            | UpdatePhase::Done
            | UpdatePhase::Restart
            | UpdatePhase::NeedsRoom
            | UpdatePhase::Full => Todo::Finish,
        }
    }

    // The phase after the store of a word: that of the next one, or the first flush.
    fn after_store(&self, old: FoundRecord, i: u32) -> UpdatePhase
        requires { IsReady self.now.config self.now.view self.now.added (UpdatePhase.Store old i) }
        ensures next { result ≡ next_store self.now.added old i }
        ensures nearer { update_left result + update_steps result ≤ RECORD_WORDS + 2 * RECORD_LINES + 1 - i }
        ensures swaps { update_swaps result ≡ 1 }
        ensures made { update_made result ≡ 1 }
        ensures ready { IsReady self.now.config self.now.view self.now.added result }
    {
        let size = self.added.size();
        if i + 1 < size {
            UpdatePhase::Store(old, i + 1)
        } else {
            UpdatePhase::Flush(old, 0)
        }
    }

    // The phase after the flush of a line: that of the next one, or the replacement.
    fn after_flush(&self, old: FoundRecord, n: u32) -> UpdatePhase
        requires config { IsConfig self.now.config }
        requires ready { IsReady self.now.config self.now.view self.now.added (UpdatePhase.Flush old n) }
        ensures next { result ≡ next_flush self.now.config self.now.added old n }
        ensures nearer { update_left result + update_steps result ≤ 2 * (RECORD_LINES - n) }
        ensures swaps { update_swaps result ≡ 1 }
        ensures made { update_made result ≡ 1 }
        ensures ready { IsReady self.now.config self.now.view self.now.added result }
    {
        let line = self.added.first_line(&self.config) + n;
        if line < self.added.last_line(&self.config) {
            UpdatePhase::Flush(old, n + 1)
        } else {
            UpdatePhase::Replace(old)
        }
    }
}

impl Task for Update {
    ghost view = { update_view };

    fn publishes(&self) -> bool {
        match self.phase {
            UpdatePhase::Replace(_) => true,
            _ => false,
        }
    }

    fn ended(&self) -> Option<Outcome> {
        match self.phase {
            UpdatePhase::Done => Some(Outcome::Done),
            UpdatePhase::Restart => Some(Outcome::Restart),
            UpdatePhase::NeedsRoom => Some(Outcome::NeedsRoom),
            UpdatePhase::Full => Some(Outcome::Full(Spent::Swaps)),
            _ => None,
        }
    }

    fn next(&mut self, seen: Seen, slots: &mut Slots, moment: u32) -> Todo {
        let _slots = slots;
        self.phase = self.after(seen, moment);
        self.asked()
    }

    fn learnt(&self) {
        bz_record::laws::changes_may_be_asked();
    }

    fn acted(&self) {
        bz_record::laws::replacements_are_good();
    }
}
