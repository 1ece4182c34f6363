//! Runs by a list of turns.
ghost use Rattle.bz_script.specs.RunLaws.{IsTurn, AreTurns};
ghost use Rattle.bz_qsched.specs.Fuses.{with_fuse};
ghost use Rattle.bz_qsched.specs.Runs.{IsOneOfAll, IsReady, EndsBy};
ghost use Rattle.bz_qsched.specs.Turns.{TakesTurns, TakesWord, RunsList};
ghost use Rattle.bz_qsched.specs.TurnsInPart.{TakesTurnsInPart, TakesWordInPart, RunsListInPart};

use crate::busy::has_work;
use crate::turn::{Turned, take_turn};
use crate::waiting::Waiting;
use bz_queue::QueueWorld;
use bz_script::Turn;

// Takes so many turns of a worker, or fewer where it then has nothing to do.
fn take_turns(
    world: &mut QueueWorld,
    queue: &mut Waiting,
    fuse: &mut Option<u32>,
    w: u8,
    count: u32,
) -> Turned
    requires worker { IsOneOfAll w }
    requires ready { IsReady world.old }
    ensures { EndsBy (TakesTurns w count) (λ why. TakesTurnsInPart why w count) world.old (with_fuse queue.old fuse.old) result world.new (with_fuse queue.new fuse.new) }
{
    for _taken in 0..count {
        if !has_work(world, queue, w) {
            return Turned::Finished;
        }
        match take_turn(world, queue, fuse, w) {
            Turned::Finished => {}
            Turned::Stopped(why) => return Turned::Stopped(why),
        }
    }
    Turned::Finished
}

// Takes the turns of a word.
fn take_word(
    world: &mut QueueWorld,
    queue: &mut Waiting,
    fuse: &mut Option<u32>,
    turn: Turn,
) -> Turned
    requires turn { IsTurn turn }
    requires ready { IsReady world.old }
    ensures { EndsBy (TakesWord turn) (λ why. TakesWordInPart why turn) world.old (with_fuse queue.old fuse.old) result world.new (with_fuse queue.new fuse.new) }
{
    match turn {
        Turn::Times(w, count) => take_turns(world, queue, fuse, w, count),
    }
}

/// Takes the turns of a list, word after word.
pub(crate) fn run_list(
    world: &mut QueueWorld,
    queue: &mut Waiting,
    fuse: &mut Option<u32>,
    turns: &[Turn],
) -> Turned
    requires turns { AreTurns turns.now }
    requires ready { IsReady world.old }
    ensures { EndsBy (RunsList turns.now) (λ why. RunsListInPart why turns.now) world.old (with_fuse queue.old fuse.old) result world.new (with_fuse queue.new fuse.new) }
{
    for turn in turns {
        match take_word(world, queue, fuse, *turn) {
            Turned::Finished => {}
            Turned::Stopped(why) => return Turned::Stopped(why),
        }
    }
    Turned::Finished
}
