// The bells that wake a thread which sleeps until its ticket is served. Other threads change a bell at any time, so no clause
// tells what one holds; which one is a ticket's is told.
ghost use Rattle.std.specs.Prelude.{◌≡◌, ◌%◌};
ghost use Rattle.bz_bus.specs.declared.TheConstants.{PASSES as MANY};

use crate::PASSES;
use std::sync::Wait;
use std::sync::atomic::{AtomicU64, Ordering};

// No thread sleeps on the bell, or the one that did is being woken.
const STILL: u64 = 0;

// A thread sleeps on the bell, or is about to.
const SET: u64 = 1;

// A bell for each remainder of a ticket by PASSES. As many tickets are out at most, so no two threads share one until the
// tickets begin again at 0. A thread sets its bell, looks once more whether it is served, and sleeps while the bell is set.
// Who serves a ticket looks at its bell after that, so one of the two sees what the other did; and who stills a bell wakes
// the thread on it.
#[derive(Drop)]
pub(crate) struct Bells {
    bells: [AtomicU64; PASSES],
}

// The place of a ticket's bell: tickets that are fewer than PASSES apart have bells of their own.
fn place_of(ticket: u64) -> usize
    ensures { result ≡ ticket % MANY }
{
    (ticket % PASSES as u64) as usize
}

impl Bells {
    pub(crate) fn new() -> Bells {
        Bells {
            bells: Default::default(),
        }
    }

    fn bell(&self, ticket: u64) -> &AtomicU64 {
        &self.bells[place_of(ticket)]
    }

    pub(crate) fn set(&self, ticket: u64) {
        self.bell(ticket).store(SET, Ordering::SeqCst);
    }

    // It may also return for no reason.
    pub(crate) fn sleep<R: Wait>(&self, rt: &R, ticket: u64) {
        self.bell(ticket).park(rt, SET as u32);
    }

    pub(crate) fn ring(&self, ticket: u64) {
        let bell = self.bell(ticket);
        if bell.load(Ordering::SeqCst) == SET {
            bell.store(STILL, Ordering::SeqCst);
            bell.wake_all();
        }
    }
}
