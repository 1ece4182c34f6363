//! The task that inserts a record into a leaf.

ghost use Rattle.std.specs.Prelude.{◌≡◌, ◌≢◌, ◌↔◌, ◌-◌, ◌+◌, ◌*◌, ◌<◌, ◌≤◌, ◌^◌, ◌⊎◌, Some, None, true, false};
ghost use Rattle.bz_layout.specs.Config.{IsConfig};
ghost use Rattle.bz_layout.specs.declared.thresholds.TheConstants.{RECORD_WORDS, RECORD_LINES};
ghost use Rattle.bz_task.specs.Contract.{IsBegun};
ghost use Rattle.bz_task.specs.Outcomes.{IsKeyView};
ghost use Rattle.bz_task.specs.Requests.{Hears, Tells, IsKnown, swaps_in, effects_in};
ghost use Rattle.bz_task.specs.Scene.{Scene, Stage, Waiting, IsScene};
ghost use Rattle.bz_layout.specs.declared.swaps.TheConstants.{INSERT_SWAPS};
ghost use Rattle.bz_task.specs.declared.todo.Seen.TheVariants.{Start, Swapped, NoSwap};
ghost use Rattle.bz_record.specs.Records.{words_for, size_of, HasRoom, LacksRoom};
ghost use Rattle.bz_insert.specs.Facts.{IsEndOfInsert, insert_asks, insert_end, insert_acts, insert_left, insert_steps, insert_swaps, insert_made, insert_publishes, insert_facts, IsReady, next_store, next_flush};
ghost use Rattle.bz_insert.specs.Duties.{insert_view};

use crate::phase::InsertPhase;
use bz_call::Spent;
use bz_key::{Key, Payload};
use bz_layout::{Config, Slots};
use bz_record::NewRecord;
use bz_task::{KeyView, LeafView, Outcome, Path, Seen, Task, Todo, laws};

/// The insert of a key and its payload into the leaf in which a view found no such key. It ends with Done where the record is
/// visible, with NeedsRoom where the viewed leaf is frozen or lacks the words, with Restart where a swap found another status,
/// and with Full(Swaps).
#[derive(Drop)]
pub struct Insert {
    config: Config,
    added: NewRecord,
    phase: InsertPhase,
}

impl Insert {
    /// The insert of a key that is absent from its leaf.
    pub fn new(config: &Config, _path: Path, view: KeyView, key: Key, payload: Payload) -> Insert
        requires absent { view.found ≡ None }
        ensures begun { IsBegun (⟦<Insert as Task>⟧.view result) config.now insert_acts INSERT_SWAPS 0 }
        ensures change { (⟦<Insert as Task>⟧.view result).change ≡ record { key = key; old = None; new = Some payload } }
        ensures facts { (s : Scene) → s.past.config ≡ config.now → s.effected ≡ false → IsScene s → IsKeyView key view s.past → (⟦<Insert as Task>⟧.view result).facts Waiting s }
        ensures done { (s : Scene) → (⟦<Insert as Task>⟧.view result).means Outcome.Done s → s.effected ≡ true }
        ensures no_path { (path : Path) (s : Scene) → (⟦<Insert as Task>⟧.view result).means (Outcome.Path path) s → ⊥ }
        ensures no_view { (other : LeafView) (s : Scene) → (⟦<Insert as Task>⟧.view result).means (Outcome.View other) s → ⊥ }
        // NeedsRoom comes exactly where the viewed leaf lacks room
        ensures needs_room { (s : Scene) → (⟦<Insert as Task>⟧.view result).means Outcome.NeedsRoom s → LacksRoom view.status (words_for key payload) }
        ensures room { (s : Scene) (outcome : Outcome) → (⟦<Insert as Task>⟧.view result).means outcome s → outcome ≢ Outcome.NeedsRoom → HasRoom view.status (words_for key payload) }
        ensures only { (outcome : Outcome) (s : Scene) → (⟦<Insert as Task>⟧.view result).means outcome s → IsEndOfInsert outcome }
    {
        bz_record::laws::key_views_show_leaves();
        bz_key::laws::packing_is_small();
        let _key = key.bytes();
        let _payload = payload.bytes();
        Insert {
            config: *config,
            added: NewRecord {
                slot: view.slot,
                status: view.status,
                key,
                payload,
            },
            phase: InsertPhase::Fresh,
        }
    }
}

impl Insert {
    // The phase after what came of the last act.
    fn after(&self, seen: Seen, moment: u32) -> InsertPhase
        requires hears { Hears (insert_asks self.now.config self.now.added self.now.phase) seen }
        requires known { IsKnown self.now.config (insert_facts self.now.added self.now.phase) (insert_asks self.now.config self.now.added self.now.phase) seen moment }
        ensures nearer { insert_left result + insert_steps result ≤ insert_left self.now.phase }
        ensures fewer { insert_swaps result + swaps_in (insert_asks self.now.config self.now.added self.now.phase) ≤ insert_swaps self.now.phase }
        ensures counted { insert_end result ≡ None → insert_made result ≡ insert_made self.now.phase + effects_in seen }
        ensures done { result ≡ InsertPhase.Done → seen ≡ Swapped true }
        ensures begins { seen ≡ Start → (result ≡ InsertPhase.Reserve) ⊎ (result ≡ InsertPhase.NeedsRoom) }
        ensures last { seen ≡ Swapped true → insert_swaps self.now.phase ≡ 1 → result ≡ InsertPhase.Done }
        ensures only_last { result ≡ InsertPhase.Done → insert_swaps self.now.phase ≡ 1 }
        ensures published { insert_publishes self.now.phase ≡ true → seen ≡ Swapped true → result ≡ InsertPhase.Done }
        ensures restart { result ≡ InsertPhase.Restart → seen ≡ Swapped false }
        ensures full { (result ≡ InsertPhase.Full) ↔ (seen ≡ NoSwap) }
        ensures begun { result ≢ InsertPhase.Fresh }
        ensures config { IsConfig self.now.config }
        ensures ready { IsReady self.now.config self.now.added result }
        ensures learns { (stage : Stage) (s : Scene) → s.past.config ≡ self.now.config → insert_facts self.now.added self.now.phase stage s → Tells (insert_asks self.now.config self.now.added self.now.phase) stage seen s → insert_facts self.now.added result Waiting s }
    {
        let _moment = moment;
        match (self.phase, seen) {
            (InsertPhase::Fresh, _) => self.begun(),
            (InsertPhase::Reserve, Seen::Swapped(true)) => InsertPhase::Store(0),
            (InsertPhase::Store(i), Seen::Stored) => self.after_store(i),
            (InsertPhase::Flush(n), Seen::Flushed) => self.after_flush(n),
            (InsertPhase::Publish, Seen::Swapped(true)) => InsertPhase::Done,
            (InsertPhase::Reserve | InsertPhase::Publish, Seen::NoSwap) => InsertPhase::Full,
            _ => InsertPhase::Restart,
        }
    }

    // What a phase asks for.
    fn asked(&self) -> Todo
        requires begun { self.now.phase ≢ InsertPhase.Fresh }
        requires config { IsConfig self.now.config }
        requires ready { IsReady self.now.config self.now.added self.now.phase }
        ensures { insert_asks self.now.config self.now.added self.now.phase ≡ Some result }
    {
        match self.phase {
            InsertPhase::Reserve => Todo::Swap(self.added.reservation().entries(&self.config)),
            InsertPhase::Store(i) => {
                Todo::Store(self.added.address(&self.config, i), self.added.word(i))
            }
            InsertPhase::Flush(n) => Todo::Flush(self.added.first_line(&self.config) + n),
            InsertPhase::Publish => Todo::Swap(self.added.publication().entries(&self.config)),
            InsertPhase::Fresh
            | InsertPhase::Done
            | InsertPhase::Restart
            | InsertPhase::NeedsRoom
            | InsertPhase::Full => Todo::Finish,
        }
    }

    // The first phase: the reservation, where the leaf has room.
    fn begun(&self) -> InsertPhase
        requires plain { self.now.added.status < 2 ^ 61 }
        ensures reserve { result ≡ InsertPhase.Reserve → HasRoom self.now.added.status (size_of self.now.added) }
        ensures none { result ≡ InsertPhase.NeedsRoom → LacksRoom self.now.added.status (size_of self.now.added) }
        ensures either { (result ≡ InsertPhase.Reserve) ⊎ (result ≡ InsertPhase.NeedsRoom) }
    {
        if self.added.has_room() {
            InsertPhase::Reserve
        } else {
            InsertPhase::NeedsRoom
        }
    }

    // The phase after the store of a word: that of the next one, or the first flush.
    fn after_store(&self, i: u32) -> InsertPhase
        requires { IsReady self.now.config self.now.added (InsertPhase.Store i) }
        ensures next { result ≡ next_store self.now.added i }
        ensures nearer { insert_left result + insert_steps result ≤ RECORD_WORDS + 2 * RECORD_LINES + 1 - i }
        ensures swaps { insert_swaps result ≡ 1 }
        ensures made { insert_made result ≡ 1 }
        ensures ready { IsReady self.now.config self.now.added result }
    {
        let size = self.added.size();
        if i + 1 < size {
            InsertPhase::Store(i + 1)
        } else {
            InsertPhase::Flush(0)
        }
    }

    // The phase after the flush of a line: that of the next one, or the publication.
    fn after_flush(&self, n: u32) -> InsertPhase
        requires config { IsConfig self.now.config }
        requires ready { IsReady self.now.config self.now.added (InsertPhase.Flush n) }
        ensures next { result ≡ next_flush self.now.config self.now.added n }
        ensures nearer { insert_left result + insert_steps result ≤ 2 * (RECORD_LINES - n) }
        ensures swaps { insert_swaps result ≡ 1 }
        ensures made { insert_made result ≡ 1 }
        ensures ready { IsReady self.now.config self.now.added result }
    {
        let line = self.added.first_line(&self.config) + n;
        if line < self.added.last_line(&self.config) {
            InsertPhase::Flush(n + 1)
        } else {
            InsertPhase::Publish
        }
    }
}

impl Task for Insert {
    ghost view = { insert_view };

    fn publishes(&self) -> bool {
        match self.phase {
            InsertPhase::Publish => true,
            _ => false,
        }
    }

    fn ended(&self) -> Option<Outcome> {
        match self.phase {
            InsertPhase::Done => Some(Outcome::Done),
            InsertPhase::Restart => Some(Outcome::Restart),
            InsertPhase::NeedsRoom => Some(Outcome::NeedsRoom),
            InsertPhase::Full => Some(Outcome::Full(Spent::Swaps)),
            _ => None,
        }
    }

    fn next(&mut self, seen: Seen, slots: &mut Slots, moment: u32) -> Todo {
        let _slots = slots;
        self.phase = self.after(seen, moment);
        self.asked()
    }

    fn learnt(&self) {
        bz_record::laws::new_record_swaps_may_be_asked();
    }

    fn acted(&self) {
        bz_record::laws::publications_are_good();
    }
}
