// What a pass is asked.
ghost use Rattle.std.specs.Prelude.{◌≡◌, ◌<◌, ◌↔◌, IsTrue};
ghost use Rattle.bz_bus.specs.declared.TheConstants.{PASSES};
ghost use Rattle.bz_bus.specs.Passes.{number_of, IsFree};

use crate::bus::Pass;
use crate::{Chronicle, PASSES};

impl<T: Chronicle> Pass<T> {
    /// Which pass of its bus it is. The first has 0.
    pub fn number(&self) -> u32
        ensures number { result ≡ number_of self.now }
        ensures below { result < PASSES }
    {
        self.number
    }

    /// On the first pass: whether no pass has this number.
    pub fn free(&self, number: u32) -> bool
        ensures { IsTrue result ↔ IsFree self.now number }
    {
        let place = number as usize;
        place >= PASSES || self.free[place]
    }
}
