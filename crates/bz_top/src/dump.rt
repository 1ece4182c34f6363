//! What `dump` writes.
ghost use Rattle.std.specs.Prelude.{◌≡◌, Some};
ghost use Rattle.bz_image.specs.Worlds.{file_of_world};
ghost use Rattle.bz_sound.specs.Power.Sound.{IsSound};
ghost use Rattle.bz_top.specs.Parts.{sunk, SaysOrWants};

use crate::program::WorldEnd;
use bz_image::write_image;
use bz_io::{Failed, Sink};
use bz_sched::World;

/// Writes the image file of the words that are durable once a run is done.
pub(crate) fn dump<K: Sink>(world: World, sink: &mut K) -> WorldEnd
    ensures lab { result.lab ≡ Some world }
    ensures sound { IsSound world.config world.at_start world.log }
    ensures wrote { SaysOrWants
        (sunk (K.held sink.old) (K.held sink.new) (K.faults sink.old) (K.faults sink.new))
        0 (file_of_world world) result.status }
{
    let _journal = world.journal();
    match write_image(&world, sink) {
        Ok(()) => WorldEnd {
            status: 0,
            lab: Some(world),
        },
        Err(Failed) => WorldEnd {
            status: 4,
            lab: Some(world),
        },
    }
}
