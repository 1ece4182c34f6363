//! What `trace` writes.
ghost use Rattle.std.specs.Prelude.{◌≡◌, Some};
ghost use Rattle.bz_lines.specs.Lines.{lines_of, text_of};
ghost use Rattle.bz_sound.specs.Power.Sound.{IsSound};
ghost use Rattle.bz_top.specs.Parts.{sunk, Prints};
ghost use Rattle.bz_cli.specs.declared.command.Command.TheVariants as command;

use crate::program::{WorldEnd, give_up};
use bz_io::Sink;
use bz_sched::World;
use bz_traces::{JsonError, write_journal};
use std::alloc::Global;

/// Writes the journal of a run that is done, as JSON Lines.
pub(crate) fn trace<K: Sink>(alloc: Global, world: World, sink: &mut K) -> WorldEnd
    ensures lab { result.lab ≡ Some world }
    ensures sound { IsSound world.config world.at_start world.log }
    ensures wrote { Prints command.Trace world
        (sunk (K.held sink.old) (K.held sink.new) (K.faults sink.old) (K.faults sink.new))
        0 (text_of (lines_of world.config world.log)) result.status }
{
    let config = world.config();
    match write_journal(alloc, &config, world.journal(), sink) {
        Ok(()) => WorldEnd {
            status: 0,
            lab: Some(world),
        },
        Err(JsonError::Write) => WorldEnd {
            status: 4,
            lab: Some(world),
        },
        Err(JsonError::Memory) => give_up(world, sink),
    }
}
