// The calls of the first pass.
ghost use Rattle.std.specs.Prelude.{◌≡◌, ◌≢◌, ◌<◌, ◌≤◌, ◌⊎◌, ◌↔◌, ℕ, List, IfOk, IfErr, None};
ghost use Rattle.bz_bus.specs.Entries.{MayFind, IsJoinOf};
ghost use Rattle.bz_index.specs.Entries.{owner_of, origin_of, entries_in, log_of};
ghost use Rattle.bz_index.specs.Passes.{origin_in, worker_of, seen_by, free_in, IsFree, IsPassOf, IsEventOfFirst};
ghost use Rattle.bz_index.specs.Worlds.{HasMade};
ghost use Rattle.bz_index.specs.declared.shared.IndexEntry.{IndexEntry};
ghost use Rattle.bz_sound.specs.Calls.{open_call};

use crate::index::{Index, IndexPass};
use crate::shared::Shared;
use crate::turns::EventTurn;
use bz_bus::Bus;
use bz_oom::Memory;
use bz_world::{Applied, Event, World};
use std::alloc::Global;
use std::sync::Wait;

impl Index {
    /// An index over the world, and its first pass. Where there is no memory the world comes back.
    pub fn open(alloc: Global, world: World) -> Result<(Index, IndexPass), (World, Memory)>
        requires { (w : ℕ) → open_call w world.log.past ≡ None }
        ensures index { IfOk result (λ r. origin_in r.0 ≡ origin_of world) }
        ensures pass { IfOk result (λ r. IsPassOf r.0 r.1 × (worker_of r.1 ≡ 0) × (seen_by r.1 ≡ entries_in world.log)) }
        ensures free { IfOk result (λ r. (w : ℕ) → 0 < w → IsFree r.1 w) }
        ensures err { IfErr result (λ r. r.0 ≡ world) }
    {
        let passes = world.config().workers + 1;
        let shared = Shared { world };
        shared.shows_sound();
        match Bus::open(alloc, shared, passes) {
            Ok((bus, pass)) => Ok((Index { bus }, IndexPass { pass })),
            Err((shared, refused)) => {
                let Shared { world } = shared;
                Err((world, refused))
            }
        }
    }

    /// A new pass for a worker that is free, made from the first.
    pub fn split(&self, pass: &mut IndexPass, worker: u8) -> IndexPass
        requires pass { IsPassOf self.now pass.old × (worker_of pass.old ≡ 0) }
        requires worker { (0 < worker) × (worker ≤ (origin_in self.now).config.workers) × IsFree pass.old worker }
        ensures pass { IsPassOf self.now pass.new × (worker_of pass.new ≡ 0) × (seen_by pass.new ≡ seen_by pass.old) }
        ensures new { IsPassOf self.now result × (worker_of result ≡ worker) × (seen_by result ≡ seen_by pass.old) }
        ensures free { (w : ℕ) → IsFree pass.new w ↔ (IsFree pass.old w × (w ≢ worker)) }
    {
        let pass = self.bus.split(&mut pass.pass, u32::from(worker));
        IndexPass { pass }
    }

    /// Takes a pass back into the first.
    pub fn join(&self, into: &mut IndexPass, from: IndexPass)
        requires pass { IsPassOf self.now into.old × (worker_of into.old ≡ 0) }
        requires from { IsPassOf self.now from × (worker_of from ≢ 0) }
        ensures pass { IsPassOf self.now into.new × (worker_of into.new ≡ 0) }
        ensures seen { IsJoinOf owner_of (seen_by into.old) (seen_by from) (worker_of from) (free_in into.old) (seen_by into.new) }
        ensures free { (w : ℕ) → IsFree into.new w ↔ (IsFree into.old w ⊎ (w ≡ worker_of from)) }
    {
        let IndexPass { pass } = from;
        self.bus.join(&mut into.pass, pass);
    }

    /// The world, once every worker is free.
    pub fn close(self, pass: IndexPass) -> World
        requires pass { IsPassOf self pass × (worker_of pass ≡ 0) }
        requires free { (w : ℕ) → 0 < w → w ≤ (origin_in self).config.workers → IsFree pass w }
        ensures world { (origin_of result ≡ origin_in self) × (entries_in result.log ≡ seen_by pass) }
        ensures log { result.log ≡ log_of (origin_in self) (seen_by pass) }
    {
        let Index { bus } = self;
        let IndexPass { pass } = pass;
        let shared = bus.close(pass);
        shared.shows_sound();
        let Shared { world } = shared;
        world
    }

    /// Makes an event happen: an eviction, a power cut, power on, or a step of the recovery.
    pub fn apply<R: Wait>(&self, rt: &R, pass: &mut IndexPass, event: Event) -> Applied
        requires pass { IsPassOf self.now pass.old × (worker_of pass.old ≡ 0) }
        requires event { IsEventOfFirst event }
        ensures pass { IsPassOf self.now pass.new × (worker_of pass.new ≡ 0) × (free_in pass.new ≡ free_in pass.old) }
        ensures applied { (found : List IndexEntry) × MayFind owner_of 0 (free_in pass.old) (seen_by pass.old) found × HasMade (origin_in self.now) found event result (seen_by pass.new) }
    {
        let mut turn = EventTurn {
            event,
            answer: Applied::Idle,
        };
        self.bus.turn(rt, &mut pass.pass, &mut turn);
        turn.answer
    }
}
