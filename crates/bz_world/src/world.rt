//! Worlds.
ghost use Rattle.std.specs.Prelude.{IsTrue, ◌↔◌, ◌≡◌, ◌≢◌, ◌<◌, ◌≤◌, OnOk, IfOk, length, IfErr, None, ℕ, true, false, slice_index};
ghost use Rattle.bz_content.specs.Content.{image_fault};
ghost use Rattle.bz_layout.specs.Addresses.{words_of as size_of};
ghost use Rattle.bz_layout.specs.Config.{IsConfig};
ghost use Rattle.bz_layout.specs.Fresh.{fresh_words};
ghost use Rattle.bz_mark.specs.WordsAfter.{words_after_marks};
ghost use Rattle.bz_sound.specs.Calls.{open_call};
ghost use Rattle.bz_mark.specs.declared.power.Power.TheVariants.{Recovering, On};
ghost use Rattle.bz_sound.specs.Power.Calls.{MayAct};
ghost use Rattle.bz_sound.specs.Power.Sound.{IsSound};
ghost use Rattle.bz_sound.specs.Power.Laws.{IsUnbroken};
ghost use Rattle.bz_sound.specs.Memory.Sound as before;
ghost use Rattle.bz_world.specs.declared.answers.Applied.TheVariants as applied;

use crate::answers::{Applied, Begun, BootError, Event, OpenError};
use crate::parts::Parts;
use crate::replies::{number_of, reply_in};
use crate::told::{apply_event, begin_call, boot_world, open_world, supply_is_shown};
use bz_call::{Call, Reply};
use bz_layout::Config;
use bz_mark::{Journal, Power};
use std::alloc::Global;
use std::marker::Model;

// Whether a call goes on after a step.
fn goes_on(answer: &Applied) -> bool
    ensures goes { result ≡ true → answer.now ≡ applied.Stepped }
    ensures stops { result ≡ false → answer.now ≢ applied.Stepped }
{
    matches!(answer, Applied::Stepped)
}

/// A memory, the workers that use it, and the journal of what happened. It takes no memory after its opening.
#[derive(Drop)]
pub struct World {
    pub(crate) parts: Parts,
}

impl Model for World {
    ghost use Rattle.bz_world.specs.Inside.Beginning.{world_view};
    ghost use Rattle.bz_world.specs.WorldView.{WorldView};
    ghost use Rattle.bz_world.specs.Inside.Told.{IsWorld};

    ghost Value = { WorldView };

    ghost view = { λ w. world_view w.parts };

    ghost invariant = { λ w. IsWorld w.parts };
}

impl World {
    ghost use Rattle.bz_world.specs.WorldView.{WorldView, IsWorker, new_view, image_view, IsOpenFault, IsBootFault, power_in, begin_answer, after_begin, flush_of, open_number, reply_of, pairs_in, recovery_acts, recovery_most, AreFinishing, IsApplied, KeepsApart, count_in};
    ghost use Rattle.bz_world.specs.Numbers.{AreNumbersKept};
    ghost use Rattle.bz_world.specs.Taken.{TellsAsShown};
    ghost use Rattle.bz_world.specs.Solo.{RunsSolo};

    /// A world over fresh memory, in which nothing has happened.
    pub fn open(alloc: Global, config: &Config) -> Result<World, OpenError>
        ensures ok { IfOk result (λ world. world ≡ new_view config.now) }
        ensures config { OnOk result (IsConfig config.now) }
        // the tree takes one slot, the root's
        ensures root { OnOk result (count_in config.now (slice_index (fresh_words config.now)) ≡ 1) }
        ensures err { IfErr result (IsOpenFault config.now) }
    {
        let parts = open_world(alloc, config)?;
        Ok(World { parts })
    }

    /// A world over an image that breaks no rule, as a power cut may leave one: its power is off, and nothing has happened in
    /// it. The image is refused by the first rule that it breaks, once the numbers are in their ranges.
    pub fn boot(alloc: Global, config: &Config, image: &[u64]) -> Result<World, BootError>
        requires { IsConfig config.now → length image.now ≡ size_of config.now }
        ensures ok { IfOk result (λ world. world ≡ image_view config.now image.now) }
        ensures config { OnOk result (IsConfig config.now) }
        ensures form { OnOk result (image_fault config.now (slice_index image.now) ≡ None) }
        ensures err { IfErr result (IsBootFault config.now image.now) }
    {
        let parts = boot_world(alloc, config, image)?;
        Ok(World { parts })
    }

    /// Begins a call of a worker. A call without an act is no step: its first act comes with the worker's next step.
    pub fn begin(&mut self, w: u8, call: Call) -> Begun
        ensures answer { result ≡ begin_answer self.old w call }
        ensures after { self.new ≡ after_begin self.old w call result }
    {
        begin_call(&mut self.parts, w, call)
    }

    /// Makes an event happen.
    pub fn apply(&mut self, event: Event) -> Applied
        ensures { IsApplied self.old event result self.new }
    {
        apply_event(&mut self.parts, event)
    }

    /// Makes steps of a worker until its call has ended, and answers that; or until another answer comes. A worker that has an open call, with
    /// the power on, ends it so, whatever the others have come to: within a number of marks that the configuration tells, and
    /// with a limit only where the journal has fewer than three places left.
    pub fn solo(&mut self, w: u8) -> Applied
        ensures { RunsSolo self.old w result self.new }
    {
        let mut answer = Applied::Stepped;
        while goes_on(&answer) {
            answer = self.apply(Event::Step(w));
        }
        answer
    }

    /// The journal, which is sound.
    pub fn journal(&self) -> &Journal
        ensures journal { result.now ≡ self.now.log }
        ensures sound { IsSound self.now.config self.now.at_start self.now.log }
        // while no call is open it shows what is taken and left
        ensures shown { TellsAsShown self.now }
        // the tree has a leaf more only by the split of one, and one less only by a merge; and what a call took beside which no other was open is what
        // its reply tells
        ensures numbers { AreNumbersKept self.now.config self.now.at_start self.now.log }
        // a recovery is bounded
        ensures bounded { power_in self.now ≡ Recovering → recovery_acts self.now < recovery_most self.now.config }
        ensures unbroken { self.now.at_start ≡ On → IsUnbroken self.now.log.past → before.IsSound self.now.config self.now.log }
        // a call whose change stands ends with the swap that made it
        ensures finishing { AreFinishing self.now }
        ensures workers { (w : ℕ) → (IsWorker self.now.config w → ⊥) → open_call w self.now.log.past ≡ None }
    {
        supply_is_shown(&self.parts);
        &self.parts.journal
    }

    /// What the power is: as at first, off after a cut, and on again when a recovery has ended.
    pub fn power(&self) -> Power
        ensures { result ≡ power_in self.now }
    {
        self.parts.power
    }

    /// The number of a worker's open call, if one is open.
    pub fn open_call(&self, w: u8) -> Option<u32>
        ensures { result ≡ open_number self.now w }
    {
        number_of(&self.parts, w)
    }

    /// The reply of a worker's call with this number, if it has ended. It goes back over the marks to the call's end, or
    /// over all of them.
    pub fn reply(&self, w: u8, n: u32) -> Option<Reply>
        ensures { result ≡ reply_of w n self.now.log.past }
    {
        reply_in(&self.parts.journal, w, n)
    }

    /// How many pairs the map has after all effects.
    pub fn pairs(&self) -> u64
        ensures { result ≡ pairs_in self.now }
    {
        self.parts.pairs
    }

    /// How many descriptors were taken since the power came on. With no power on none is told.
    pub fn taken(&self) -> u32
        ensures { result ≡ self.now.supply.taken }
    {
        match self.parts.power {
            Power::On => self.parts.access.taken(),
            Power::Off | Power::Recovering => 0,
        }
    }

    /// How many slots of nodes are free. With no power on none is told.
    pub fn left(&self) -> u32
        ensures left { result ≡ self.now.supply.left }
        // none of those that the tree reaches now
        ensures apart { KeepsApart self.now }
    {
        match self.parts.power {
            Power::On => self.parts.slots.left(),
            Power::Off | Power::Recovering => 0,
        }
    }

    /// The numbers that the world was made with.
    pub fn config(&self) -> Config
        ensures config { result ≡ self.now.config }
        ensures in_range { IsConfig result }
    {
        self.parts.config
    }

    /// Whether the next act of a worker is a fence.
    pub fn flush_next(&self, w: u8) -> bool
        requires { w ≤ self.now.config.workers }
        ensures told { result ≡ flush_of self.now w }
        // one that may make no act has no fence to come
        ensures idle { (MayAct self.now.at_start self.now.log.past w → ⊥) → result ≡ false }
    {
        self.parts.access.flush_next(w)
    }

    /// The cached word at an address: what the journal's marks make of it.
    pub fn cached(&self, a: u32) -> u64
        requires { a < size_of self.now.config }
        ensures { result ≡ slice_index (words_after_marks self.now.log.start self.now.log.past).cached a }
    {
        self.parts.access.cached(a)
    }

    /// Whether a power cut would change the word at an address.
    pub fn differs(&self, a: u32) -> bool
        requires { a < size_of self.now.config }
        ensures { IsTrue result ↔ (slice_index (words_after_marks self.now.log.start self.now.log.past).cached a ≢ slice_index (words_after_marks self.now.log.start self.now.log.past).durable a) }
    {
        self.parts.access.cached(a) != self.parts.access.durable(a)
    }

    /// The durable word at an address: what a power cut would leave.
    pub fn durable(&self, a: u32) -> u64
        requires { a < size_of self.now.config }
        ensures { result ≡ slice_index (words_after_marks self.now.log.start self.now.log.past).durable a }
    {
        self.parts.access.durable(a)
    }
}
