//! Runs by the draws of the generator.
ghost use Rattle.std.specs.Prelude.{◌≡◌, ◌<◌, ℕ, is_some};
ghost use Rattle.arrayvec.specs.ArrayVec.{array_vec_len};
ghost use Rattle.bz_layout.specs.Addresses.{words_of};
ghost use Rattle.bz_script.specs.Draws.{next_state};
ghost use Rattle.bz_sound.specs.Calls.{open_call};
ghost use Rattle.bz_sched.specs.Fuses.{Fused, with_fuse};
ghost use Rattle.bz_sched.specs.Points.{IsTurn};
ghost use Rattle.bz_sched.specs.Runs.{point_of, marks_left, IsReady, EndsBy};
ghost use Rattle.bz_sched.specs.Turns.{busy_workers, drawn_worker, IsEviction, IsRound, after_round, RunsTurns};
ghost use Rattle.bz_sched.specs.TurnsInPart.{StopsEvent, StopsTurn, StopsRound, RunsTurnsInPart};
ghost use Rattle.bz_sched.specs.declared.turn.Turned.TheVariants.{Finished};

use crate::busy::has_work;
use crate::cut::evict_word;
use crate::queue::Queue;
use crate::turn::{Stop, Turned, take_turn};
use arrayvec::ArrayVec;
use bz_script::next_draw;
use bz_world::{LimitKind, World};

// The workers that have something to do, in ascending order.
fn list_busy(world: &World, queue: &Queue) -> ArrayVec<u8, 64>
    ensures { result.items ≡ busy_workers (point_of world.now queue.now) }
{
    let mut busy = ArrayVec::new();
    for w in 1..65u8 {
        if has_work(world, queue, w) {
            busy.push(w);
        }
    }
    busy
}

// Has a word become durable by itself.
fn evict(world: &mut World, a: u32) -> Turned
    requires in_range { a < words_of world.old.config }
    requires ready { IsReady world.old }
    ensures ends { (queue : Fused) → EndsBy (IsEviction a) StopsEvent world.old queue result world.new queue }
    ensures opens { (v : ℕ) → is_some (open_call v world.new.log.past) ≡ is_some (open_call v world.old.log.past) }
    ensures left { result ≡ Finished → marks_left world.new < marks_left world.old }
{
    if evict_word(world, a) {
        Turned::Finished
    } else {
        Turned::Stopped(Stop::Limit(LimitKind::Marks))
    }
}

// Takes the turn of the worker that a draw names among the busy ones, and keeps their list true.
fn take_drawn(
    world: &mut World,
    queue: &mut Queue,
    fuse: &mut Option<u32>,
    busy: &mut ArrayVec<u8, 64>,
    draw: u32,
) -> Turned
    requires ready { IsReady world.old }
    requires busy { busy.old.items ≡ busy_workers (point_of world.old queue.old) }
    requires some { 0 < array_vec_len busy.old }
    ensures ends { let w = drawn_worker draw (point_of world.old queue.old) in EndsBy (IsTurn w) (λ why. StopsTurn why w) world.old (with_fuse queue.old fuse.old) result world.new (with_fuse queue.new fuse.new) }
    ensures busy { busy.new.items ≡ busy_workers (point_of world.new queue.new) }
    ensures left { result ≡ Finished → marks_left world.new < marks_left world.old }
{
    let w = busy.as_slice()[(draw / 8) as usize % busy.len()];
    let end = take_turn(world, queue, fuse, w);
    if !has_work(world, queue, w) {
        *busy = list_busy(world, queue);
    }
    end
}

// Draws, and makes the eviction or the turn that is drawn, by the list of the busy workers.
fn run_round(
    world: &mut World,
    queue: &mut Queue,
    fuse: &mut Option<u32>,
    state: &mut u64,
    busy: &mut ArrayVec<u8, 64>,
) -> Turned
    requires ready { IsReady world.old }
    requires busy { busy.old.items ≡ busy_workers (point_of world.old queue.old) }
    requires some { 0 < array_vec_len busy.old }
    ensures ends { EndsBy (IsRound (words_of world.old.config) (next_state state.old)) (λ why. StopsRound why (next_state state.old)) world.old (with_fuse queue.old fuse.old) result world.new (with_fuse queue.new fuse.new) }
    ensures busy { busy.new.items ≡ busy_workers (point_of world.new queue.new) }
    ensures state { state.new ≡ after_round (next_state state.old) }
    ensures left { result ≡ Finished → marks_left world.new < marks_left world.old }
{
    let draw = next_draw(state);
    if draw % 8 == 0 {
        let a = next_draw(state) % world.config().words();
        evict(world, a)
    } else {
        take_drawn(world, queue, fuse, busy, draw)
    }
}

/// Makes evictions and turns by the draws from a seed, until no worker has anything to do.
pub(crate) fn run_turns(
    world: &mut World,
    queue: &mut Queue,
    fuse: &mut Option<u32>,
    seed: u64,
) -> Turned
    requires ready { IsReady world.old }
    ensures { EndsBy (RunsTurns (words_of world.old.config) seed) (λ why. RunsTurnsInPart why (words_of world.old.config) seed) world.old (with_fuse queue.old fuse.old) result world.new (with_fuse queue.new fuse.new) }
{
    let mut state = seed;
    let mut busy = list_busy(world, queue);
    while !busy.is_empty() {
        match run_round(world, queue, fuse, &mut state, &mut busy) {
            Turned::Finished => {}
            Turned::Stopped(why) => return Turned::Stopped(why),
        }
    }
    Turned::Finished
}
