//! What threads of a test wait for: each says how far it has come, and may be held between two acts of a call.

use bz_index::Gate;
use std::sync::Wait;
use std::sync::atomic::{AtomicU32, Ordering};
use std::thread::yield_now;

// How often a thread looks before it gives up, so that a test ends that cannot pass.
const LOOKS: u32 = 20_000_000;

/// What a thread waits for.
#[derive(Clone, Copy)]
pub(crate) enum Until {
    /// Nothing.
    Now,
    /// The first pass has made so many of its deeds.
    Deeds(u32),
    /// So many calls were held at the gate.
    Held(u32),
    /// So many calls were answered.
    Answered(u32),
}

/// Where a call is held: after so many of its acts, if it is one of this worker, or of any worker where this is 0.
#[derive(Clone, Copy)]
pub(crate) struct Hold {
    pub(crate) worker: u8,
    pub(crate) acts: u32,
    pub(crate) until: Until,
}

/// How far the threads have come.
#[derive(Drop)]
pub(crate) struct Stages {
    hold: Option<Hold>,
    deeds: AtomicU32,
    held: AtomicU32,
    answered: AtomicU32,
}

impl Stages {
    pub(crate) fn new(hold: Option<Hold>) -> Stages {
        Stages {
            hold,
            deeds: AtomicU32::new(0),
            held: AtomicU32::new(0),
            answered: AtomicU32::new(0),
        }
    }

    /// The first pass has made a deed.
    pub(crate) fn tell_deed(&self) {
        self.deeds.fetch_add(1, Ordering::SeqCst);
    }

    /// A call was answered.
    pub(crate) fn tell_answer(&self) {
        self.answered.fetch_add(1, Ordering::SeqCst);
    }

    fn has_come(&self, until: Until) -> bool {
        match until {
            Until::Now => true,
            Until::Deeds(many) => self.deeds.load(Ordering::SeqCst) >= many,
            Until::Held(many) => self.held.load(Ordering::SeqCst) >= many,
            Until::Answered(many) => self.answered.load(Ordering::SeqCst) >= many,
        }
    }

    /// Waits, but not without end.
    pub(crate) fn wait(&self, until: Until) {
        for _ in 0..LOOKS {
            if self.has_come(until) {
                return;
            }
            yield_now();
        }
    }
}

impl Gate for Stages {
    fn between<R: Wait>(&self, _rt: &R, worker: u8, steps: u32) {
        let Some(hold) = self.hold else {
            return;
        };
        if steps == hold.acts && (hold.worker == 0 || hold.worker == worker) {
            self.held.fetch_add(1, Ordering::SeqCst);
            self.wait(hold.until);
        }
    }
}
