// The index and its passes.
ghost use Rattle.std.specs.Prelude.{◌≡◌, ◌↔◌, IsTrue};
ghost use Rattle.bz_index.specs.Passes.{worker_of, IsFree};

use crate::shared::Shared;
use bz_bus::{Bus, Pass};

/// One world that threads share, each with a pass.
#[derive(Drop)]
pub struct Index {
    pub(crate) bus: Bus<Shared>,
}

/// What a thread takes its turns with. The first pass is that of worker 0: it makes no call, and no other pass makes an
/// event happen. A pass that is dropped keeps its worker.
#[derive(Drop)]
pub struct IndexPass {
    pub(crate) pass: Pass<Shared>,
}

impl IndexPass {
    /// Whose calls the pass makes.
    pub fn worker(&self) -> u8
        ensures { result ≡ worker_of self.now }
    {
        self.pass.number() as u8
    }

    /// On the first pass: whether no pass has this worker.
    pub fn free(&self, worker: u8) -> bool
        ensures { IsTrue result ↔ IsFree self.now worker }
    {
        self.pass.free(u32::from(worker))
    }
}
