//! The task that lowers the root.

ghost use Rattle.std.specs.Prelude.{◌≡◌, ◌≢◌, ◌↔◌, ℕ, IsTrue, List, Some, slice_get};
ghost use Rattle.bz_layout.specs.Config.{IsConfig};
ghost use Rattle.bz_layout.specs.declared.swaps.TheConstants.{RENEWAL_SWAPS};
ghost use Rattle.bz_task.specs.Contract.{IsBegun, MayHear, GoesOn, Learns};
ghost use Rattle.bz_task.specs.Outcomes.{IsPath};
ghost use Rattle.bz_task.specs.Scene.{Scene, Waiting, IsScene};
ghost use Rattle.bz_writer.specs.Phases.{no_change};
ghost use Rattle.bz_branch.specs.FromSplit.BelowSplits.{below_swap};
ghost use Rattle.bz_inner.specs.Lone.{IsLone};
ghost use Rattle.bz_inner.specs.LowerDuties.{asks_lower, lower_view, lowering_of, IsReadyLower};
ghost use Rattle.bz_inner.specs.LowerFacts.{HasBegun, HasLooked, HasStepped, IsEndOfLower, IsSwapReady, LOWER_ACTS, WasLowered, WasNotLone, swap_after};

use crate::lone::is_lone;
use crate::lower_phase::LowerPhase;
use bz_branch::{is_thawed, link_at};
use bz_call::Spent;
use bz_layout::{Config, Slots};
use bz_renew::swap_freezing;
use bz_task::{EntryList, LeafView, Link, Outcome, Path, Seen, Task, Todo};
use bz_writer::is_read;

/// The lowering of the root to which a path leads. It ends with Done where the root's one child has become the root, and the old root
/// is frozen; with NeedsRoom where the root is a leaf or has not one child; with Restart where a status or the root pointer was another
/// one; and with Full where no descriptor was left.
#[derive(Drop)]
pub struct Lower {
    config: Config,
    // the root link, and the path's link in the root, where it has one
    upper: Link,
    lower: Link,
    // whether the path shows a root with one child
    lone: bool,
    phase: LowerPhase,
}

impl Lower {
    /// The lowering of the root of a path.
    pub fn new(config: &Config, path: Path) -> Lower
        ensures begun { IsBegun (⟦<Lower as Task>⟧.view result) config.now LOWER_ACTS RENEWAL_SWAPS 0 }
        ensures change { (⟦<Lower as Task>⟧.view result).change ≡ no_change }
        ensures lone { IsTrue result.lone ↔ IsLone path }
        ensures slot { (upper : Link) → slice_get path.links 0 ≡ Some upper → ((⟦<Lower as Task>⟧.view result).basis).slot ≡ upper.slot }
        ensures facts { (key : List ℕ) (s : Scene) → s.past.config ≡ config.now → IsScene s → IsPath key path s.past → (⟦<Lower as Task>⟧.view result).facts Waiting s }
        ensures done { (upper lower : Link) (s : Scene) → slice_get path.links 0 ≡ Some upper → slice_get path.links 1 ≡ Some lower → (⟦<Lower as Task>⟧.view result).means Outcome.Done s → IsLone path × WasLowered upper lower s.past }
        ensures no_room { (upper : Link) (s : Scene) → slice_get path.links 0 ≡ Some upper → (⟦<Lower as Task>⟧.view result).means Outcome.NeedsRoom s → ¬ IsLone path × WasNotLone upper.slot s.past }
        ensures restart { (s : Scene) → (⟦<Lower as Task>⟧.view result).means Outcome.Restart s → IsLone path }
        ensures full { (s : Scene) → (⟦<Lower as Task>⟧.view result).means (Outcome.Full Spent.Swaps) s → IsLone path }
        ensures only { (outcome : Outcome) (s : Scene) → (⟦<Lower as Task>⟧.view result).means outcome s → IsEndOfLower outcome }
        ensures no_path { (other : Path) (s : Scene) → (⟦<Lower as Task>⟧.view result).means (Outcome.Path other) s → ⊥ }
        ensures no_view { (other : LeafView) (s : Scene) → (⟦<Lower as Task>⟧.view result).means (Outcome.View other) s → ⊥ }
    {
        Lower {
            config: *config,
            upper: link_at(&path, 0),
            lower: link_at(&path, 1),
            lone: is_lone(&path),
            phase: LowerPhase::Fresh,
        }
    }
}

impl Lower {
    // The first phase.
    fn begun(&self) -> LowerPhase
        ensures { HasBegun (lowering_of self.now) result }
    {
        if self.lone {
            LowerPhase::Status
        } else {
            LowerPhase::NotLone
        }
    }

    // The phase after another look at the root's own status.
    fn looked(&self, seen: Seen) -> LowerPhase
        ensures { HasLooked (lowering_of self.now) seen result }
    {
        if is_read(seen, self.lower.status) && is_thawed(&self.lower) {
            LowerPhase::Swap
        } else {
            LowerPhase::Restart
        }
    }

    // The phase after what came of the last act.
    fn after(&self, seen: Seen) -> LowerPhase
        ensures { HasStepped (lowering_of self.now) self.now.phase seen result }
    {
        match self.phase {
            LowerPhase::Fresh => self.begun(),
            LowerPhase::Status => self.looked(seen),
            _ => after_swap(seen),
        }
    }

    // The next phase, whichever it is.
    fn step(&mut self, seen: Seen, slots: &mut Slots, moment: u32)
        requires { MayHear (lower_view self.old) seen moment slots.old }
        ensures known { IsConfig self.new.config }
        ensures begun { self.new.phase ≢ LowerPhase.Fresh }
        ensures ready { IsReadyLower self.new }
        ensures goes { (todo : Todo) → asks_lower self.new ≡ Some todo → GoesOn (lower_view self.old) (lower_view self.new) seen slots.old slots.new todo }
        ensures learns { Learns (lower_view self.old) (lower_view self.new) seen moment slots.old slots.new }
    {
        let _moment = moment;
        let _slots = slots;
        self.phase = self.after(seen);
    }

    // The swap that turns the root pointer to the child, and freezes the old root.
    fn swap(&self) -> EntryList
        requires config { IsConfig self.now.config }
        requires ready { IsSwapReady self.now.config (lowering_of self.now) }
        ensures { result ≡ below_swap self.now.config self.now.upper self.now.lower self.now.lower.slot }
    {
        let root = self.upper.slot;
        let word = self.lower.status;
        swap_freezing(&self.config, &self.upper, self.lower.slot, root, word)
    }

    // What a phase asks for.
    fn asked(&self) -> Todo
        requires begun { self.now.phase ≢ LowerPhase.Fresh }
        requires config { IsConfig self.now.config }
        requires ready { IsReadyLower self.now }
        ensures { asks_lower self.now ≡ Some result }
    {
        match self.phase {
            LowerPhase::Status => Todo::Read(self.lower.guard),
            LowerPhase::Swap => Todo::Swap(self.swap()),
            _ => Todo::Finish,
        }
    }
}

// The phase after the swap.
fn after_swap(seen: Seen) -> LowerPhase
    ensures { result ≡ swap_after seen }
{
    match seen {
        Seen::Swapped(true) => LowerPhase::Done,
        Seen::NoSwap => LowerPhase::NoSwap,
        _ => LowerPhase::Restart,
    }
}

impl Task for Lower {
    ghost view = { lower_view };

    fn publishes(&self) -> bool {
        false
    }

    fn ended(&self) -> Option<Outcome> {
        match self.phase {
            LowerPhase::Done => Some(Outcome::Done),
            LowerPhase::Restart => Some(Outcome::Restart),
            LowerPhase::NotLone => Some(Outcome::NeedsRoom),
            LowerPhase::NoSwap => Some(Outcome::Full(Spent::Swaps)),
            _ => None,
        }
    }

    fn next(&mut self, seen: Seen, slots: &mut Slots, moment: u32) -> Todo {
        self.step(seen, slots, moment);
        self.asked()
    }

    fn learnt(&self) {}

    fn acted(&self) {}
}
