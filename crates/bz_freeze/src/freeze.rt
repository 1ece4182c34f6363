//! The task that freezes a leaf.

ghost use Rattle.std.specs.Prelude.{◌≡◌, ◌≢◌, ◌↔◌, ◌<◌, ◌≤◌, ◌+◌, ◌^◌, ℕ, List, [], ◌∷◌, Some, None, true, false};
ghost use Rattle.bz_layout.specs.Config.{IsConfig};
ghost use Rattle.bz_word.specs.Statuses.{status};
ghost use Rattle.bz_task.specs.Contract.{IsBegun};
ghost use Rattle.bz_task.specs.Outcomes.{IsView};
ghost use Rattle.bz_task.specs.Requests.{Hears, Tells, IsKnown, swaps_in, effects_in};
ghost use Rattle.bz_task.specs.Scene.{Scene, Stage, Waiting, IsScene};
ghost use Rattle.bz_layout.specs.declared.swaps.TheConstants.{FREEZE_SWAPS};
ghost use Rattle.bz_task.specs.declared.todo.Seen.TheVariants.{Start, Swapped, NoSwap};
ghost use Rattle.bz_task.specs.Steps.{frozen_word};
ghost use Rattle.bz_freeze.specs.Facts.{IsEndOfFreeze, WasFrozen, freeze_asks, freeze_basis, freeze_end, freeze_left, freeze_swaps, freeze_facts, entry_of};
ghost use Rattle.bz_freeze.specs.Duties.{freeze_view};

use crate::laws::freezes_are_good;
use crate::phase::FreezePhase;
use bz_call::Spent;
use bz_layout::{Config, STATUS_AT, Slots};
use bz_task::{EntryList, LeafView, Outcome, Path, Seen, Task, Todo, laws};
use bz_word::{Entry, Status};

/// The freeze of the leaf that a view shows. It ends with Done where the swap took effect, with Restart where the leaf's
/// status was another one, and with Full(Swaps).
#[derive(Drop)]
pub struct Freeze {
    config: Config,
    slot: u16,
    status: u64,
    phase: FreezePhase,
}

impl Freeze {
    /// The freeze of a leaf that was not frozen when it was viewed.
    pub fn new(config: &Config, _path: Path, view: LeafView) -> Freeze
        requires thawed { (status view.status).frozen ≡ false }
        ensures begun { IsBegun (⟦<Freeze as Task>⟧.view result) config.now 2 FREEZE_SWAPS 0 }
        ensures basis { (⟦<Freeze as Task>⟧.view result).basis ≡ freeze_basis view.slot }
        ensures facts { (key : List ℕ) (s : Scene) → s.past.config ≡ config.now → IsScene s → IsView key view s.past → (⟦<Freeze as Task>⟧.view result).facts Waiting s }
        ensures frozen { (s : Scene) → (⟦<Freeze as Task>⟧.view result).means Outcome.Done s → WasFrozen view.slot s.past }
        ensures only { (outcome : Outcome) (s : Scene) → (⟦<Freeze as Task>⟧.view result).means outcome s → IsEndOfFreeze outcome }
    {
        Freeze {
            config: *config,
            slot: view.slot,
            status: view.status,
            phase: FreezePhase::Fresh,
        }
    }
}

// The swap that freezes the leaf.
fn swap_of(config: &Config, slot: u16, word: u64) -> EntryList
    requires config { IsConfig config.now }
    requires slot { slot < config.now.nodes }
    requires word { word < 2 ^ 61 }
    ensures { result ≡ entry_of config.now slot word ∷ [] }
{
    EntryList::one(Entry {
        target: config.node_at(slot as u32) + STATUS_AT,
        expected: word,
        new: frozen(word),
    })
}

// The status word of a node, frozen, with its next stamp.
fn frozen(word: u64) -> u64
    requires { word < 2 ^ 61 }
    ensures { result ≡ frozen_word word }
{
    bz_word::laws::statuses();
    let Some(old) = Status::unpack(word) else {
        return word;
    };
    let new = Status {
        frozen: true,
        stamp: old.stamp.wrapping_add(1),
        ..old
    };
    new.pack()
}

impl Freeze {
    // The phase after what came of the last act.
    fn after(&self, seen: Seen, moment: u32) -> FreezePhase
        requires hears { Hears (freeze_asks self.now.config self.now.slot self.now.status self.now.phase) seen }
        requires known { IsKnown self.now.config (freeze_facts self.now.slot self.now.status self.now.phase) (freeze_asks self.now.config self.now.slot self.now.status self.now.phase) seen moment }
        ensures nearer { freeze_left result < freeze_left self.now.phase }
        ensures fewer { freeze_swaps result + swaps_in (freeze_asks self.now.config self.now.slot self.now.status self.now.phase) ≤ freeze_swaps self.now.phase }
        ensures counted { freeze_end result ≡ None → effects_in seen ≡ 0 }
        ensures done { result ≡ FreezePhase.Done → seen ≡ Swapped true }
        ensures restart { result ≡ FreezePhase.Restart → seen ≡ Swapped false }
        ensures begins { seen ≡ Start → result ≡ FreezePhase.Swap }
        ensures last { seen ≡ Swapped true → result ≡ FreezePhase.Done }
        ensures only_last { result ≡ FreezePhase.Done → freeze_swaps self.now.phase ≡ 1 }
        ensures full { (result ≡ FreezePhase.Full) ↔ (seen ≡ NoSwap) }
        ensures begun { result ≢ FreezePhase.Fresh }
        ensures config { IsConfig self.now.config }
        ensures swap { result ≡ FreezePhase.Swap → (self.now.slot < self.now.config.nodes) × (self.now.status < 2 ^ 61) }
        ensures learns { (stage : Stage) (s : Scene) → freeze_facts self.now.slot self.now.status self.now.phase stage s → Tells (freeze_asks self.now.config self.now.slot self.now.status self.now.phase) stage seen s → freeze_facts self.now.slot self.now.status result Waiting s }
    {
        let _moment = moment;
        match (self.phase, seen) {
            (FreezePhase::Fresh, _) => FreezePhase::Swap,
            (FreezePhase::Swap, Seen::Swapped(true)) => FreezePhase::Done,
            (FreezePhase::Swap, Seen::NoSwap) => FreezePhase::Full,
            _ => FreezePhase::Restart,
        }
    }

    // What a phase asks for.
    fn asked(&self) -> Todo
        requires begun { self.now.phase ≢ FreezePhase.Fresh }
        requires config { IsConfig self.now.config }
        requires swap { self.now.phase ≡ FreezePhase.Swap → (self.now.slot < self.now.config.nodes) × (self.now.status < 2 ^ 61) }
        ensures { freeze_asks self.now.config self.now.slot self.now.status self.now.phase ≡ Some result }
    {
        match self.phase {
            FreezePhase::Swap => Todo::Swap(swap_of(&self.config, self.slot, self.status)),
            FreezePhase::Fresh | FreezePhase::Done | FreezePhase::Restart | FreezePhase::Full =>
                Todo::Finish,
        }
    }
}

impl Task for Freeze {
    ghost view = { freeze_view };

    fn publishes(&self) -> bool {
        false
    }

    fn ended(&self) -> Option<Outcome> {
        match self.phase {
            FreezePhase::Done => Some(Outcome::Done),
            FreezePhase::Restart => Some(Outcome::Restart),
            FreezePhase::Full => Some(Outcome::Full(Spent::Swaps)),
            _ => None,
        }
    }

    fn next(&mut self, seen: Seen, slots: &mut Slots, moment: u32) -> Todo {
        let _slots = slots;
        laws::nothing_is_gained();
        self.phase = self.after(seen, moment);
        self.asked()
    }

    fn learnt(&self) {
        bz_word::laws::statuses();
    }

    fn acted(&self) {
        freezes_are_good();
        bz_word::laws::statuses();
    }
}
