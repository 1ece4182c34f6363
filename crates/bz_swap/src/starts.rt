//! Starts of operations. A start makes no act.

ghost use Rattle.std.specs.Prelude.{◌≡◌};
ghost use Rattle.bz_swap.specs.Starts.{phase_of};

use crate::access::Access;
use crate::allowance::{FLUSH_STEPS, WORD_STEPS};
use crate::phase::Phase;
use bz_swap_machine::{Operation, Place};

// The phase that a start of this worker leads to.
fn phase_after(w: u8) -> Phase
    ensures { result ≡ phase_of w }
{
    if w == 0 {
        Phase::Recovering
    } else {
        Phase::Running
    }
}

impl Access {
    ghost use Rattle.std.specs.Prelude.{◌≡◌};
    ghost use Rattle.bz_swap.specs.Held.{Holds};
    ghost use Rattle.bz_swap.specs.Starts.{MayRead, MayLoad, MayStore, MayFlush, started};
    ghost use Rattle.bz_swap.specs.SwapMemory.{Reading, Loading, Storing, Flushing};

    /// Starts a read of an address outside the descriptors, which gives its value.
    pub fn start_read(&mut self, w: u8, a: u32)
        requires { MayRead self.old w a }
        ensures started { self.new ≡ started self.old w (Reading a) }
        ensures held { Holds self.new }
    {
        let mut worker = self.workers[w as usize];
        worker.operation = Operation::Reading(a);
        worker.place = Place::ReadWord(a);
        worker.back = None;
        self.workers[w as usize] = worker;
        self.phase = Phase::Running;
        self.allowance = self.allowance.started(w, WORD_STEPS);
    }

    /// Starts a load of a word as it is, in a recovery time: worker 0.
    pub fn start_load(&mut self, w: u8, a: u32)
        requires { MayLoad self.old w a }
        ensures started { self.new ≡ started self.old w (Loading a) }
        ensures held { Holds self.new }
    {
        let mut worker = self.workers[w as usize];
        worker.place = Place::LoadWord(a);
        self.workers[w as usize] = worker;
        self.phase = phase_after(w);
        self.allowance = self.allowance.started(w, WORD_STEPS);
    }

    /// Starts a store of a private word; in a recovery time of any word, by worker 0.
    pub fn start_store(&mut self, w: u8, a: u32, v: u64)
        requires { MayStore self.old w a v }
        ensures started { self.new ≡ started self.old w (Storing a v) }
        ensures held { Holds self.new }
    {
        let mut worker = self.workers[w as usize];
        worker.place = Place::StoreWord {
            address: a,
            value: v,
        };
        self.workers[w as usize] = worker;
        self.phase = phase_after(w);
        self.allowance = self.allowance.started(w, WORD_STEPS);
    }

    /// Starts a flush of a line outside the descriptors; in a recovery time of any line, by worker 0.
    pub fn start_flush(&mut self, w: u8, line: u32)
        requires { MayFlush self.old w line }
        ensures started { self.new ≡ started self.old w (Flushing line) }
        ensures held { Holds self.new }
    {
        let mut worker = self.workers[w as usize];
        worker.place = Place::AskLine(line);
        self.workers[w as usize] = worker;
        self.phase = phase_after(w);
        self.allowance = self.allowance.started(w, FLUSH_STEPS);
    }
}
