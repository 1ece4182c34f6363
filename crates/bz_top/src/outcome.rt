//! How the program ended.
ghost use Rattle.std.specs.Prelude.{◌≡◌, None};

use crate::program::WorldEnd;
use bz_queue::QueueWorld;
use bz_sched::World;

/// How the program ended.
#[derive(Drop)]
pub struct Outcome {
    /// The exit status: 0 done, 1 reading failed, 2 usage, 3 the script was refused, 4 writing failed,
    /// 5 a limit was met, 6 the image was refused, 7 want of memory.
    pub status: u8,

    /// The world as the run left it; none where the answer came before there was one.
    pub lab: Option<World>,

    /// The queue as the run left it, of the command `queue`; none where the answer came before there was one.
    pub queue: Option<QueueWorld>,
}

/// The same of a command that has no queue.
pub(crate) fn without_queue(end: WorldEnd) -> Outcome
    ensures status { result.status ≡ end.status }
    ensures lab { result.lab ≡ end.lab }
    ensures queue { result.queue ≡ None }
{
    let WorldEnd { status, lab } = end;
    Outcome {
        status,
        lab,
        queue: None,
    }
}
