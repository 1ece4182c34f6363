//! What the machine keeps of one worker, and what follows an act of it.

use crate::descriptor::DescriptorWords;
use crate::done::Done;
use crate::place::{HelpStep, Next, Place};
use crate::status::Verdict;

/// What a worker comes back to when it has helped.
#[derive(Clone, Copy)]
pub enum Operation {
    /// Nothing: the worker is idle, or its operation is one act.
    Nothing,
    /// A read of this address.
    Reading(u32),
    /// The own swap.
    Swapping(u16),
}

/// What is kept of one worker beside the number of its next tag, of fixed size.
#[derive(Clone, Copy)]
pub struct Worker {
    pub operation: Operation,
    pub place: Place,
    /// The swap that is worked on, the own or another's.
    pub current: u16,
    /// A swap to go on with after the current one, before the own operation.
    pub back: Option<u16>,
    /// The words of the current swap's descriptor, as far as they are stored or learnt.
    pub list: DescriptorWords,
}

impl Operation {
    ghost use Rattle.std.specs.Prelude.{◌≡◌};
    ghost use Rattle.bz_swap_machine.specs.Steps.{is_own as owns};

    /// Whether a swap is the own one.
    pub fn is_own(&self, swap: u16) -> bool
        ensures { result ≡ owns self.now swap }
    {
        match self {
            Operation::Swapping(own) => *own == swap,
            _ => false,
        }
    }
}

impl Worker {
    ghost use Rattle.std.specs.Prelude.{◌≡◌, ◌<◌, ◌≤◌, ◌+◌, ◌*◌, slice_index};
    ghost use Rattle.bz_swap_machine.specs.Machine.{Memory};
    ghost use Rattle.bz_swap_machine.specs.Steps.{helping, meeting, completed, after_help, learnt};
    ghost use Rattle.bz_swap_machine.specs.Workers.{local_of};

    /// Begins to help a swap, with another to go on with after it.
    pub fn help(&mut self, swap: u16, back: Option<u16>)
        ensures { local_of self.new ≡ helping (local_of self.old) swap back }
    {
        self.current = swap;
        self.back = back;
        self.place = Place::Learn(0);
    }

    /// Another swap stands in the way of the current one.
    pub fn meet(&mut self, swap: u16)
        ensures { local_of self.new ≡ meeting (local_of self.old) swap }
    {
        let back = if self.operation.is_own(self.current) {
            None
        } else {
            Some(self.current)
        };
        self.help(swap, back);
    }

    /// The current swap is complete.
    pub fn complete(&mut self, verdict: Verdict) -> Done
        ensures local { (m : Memory) → local_of self.new ≡ (completed m (local_of self.old) verdict).local }
        ensures done { (m : Memory) → result ≡ (completed m (local_of self.old) verdict).done }
    {
        if self.operation.is_own(self.current) {
            self.operation = Operation::Nothing;
            self.place = Place::Idle;
            return Done::Swapped(matches!(verdict, Verdict::Succeeded));
        }
        match (self.back, self.operation) {
            (Some(back), _) => self.help(back, None),
            (None, Operation::Nothing) => self.place = Place::Idle,
            (None, Operation::Reading(address)) => self.place = Place::ReadWord(address),
            (None, Operation::Swapping(own)) => self.help(own, None),
        }
        Done::Busy
    }

    /// Goes where the last act on the current swap leads.
    pub fn follow(&mut self, next: Next) -> Done
        ensures local { (m : Memory) → local_of self.new ≡ (after_help (local_of self.old) m next).local }
        ensures done { (m : Memory) → result ≡ (after_help (local_of self.old) m next).done }
    {
        match next {
            Next::Step(step) => {
                self.place = Place::Help(step);
                Done::Busy
            }
            Next::Meet(swap) => {
                self.meet(swap);
                Done::Busy
            }
            Next::Complete(verdict) => self.complete(verdict),
        }
    }

    /// Takes in a word of the current swap's descriptor, counted from the number of entries.
    pub fn learn(&mut self, number: u8, word: u64)
        requires number { number ≤ 12 }
        requires first { number ≡ 0 → word ≤ 4 }
        requires count { 0 < number → slice_index self.old.list.words 0 ≤ 4 }
        ensures { (m : Memory) → m.words self.old.current number ≡ word → local_of self.new ≡ (learnt m (local_of self.old) number).local }
    {
        self.list.words[number as usize] = word;
        self.place = if number as u64 == 3 * self.list.words[0] {
            Place::Help(HelpStep::Look)
        } else {
            Place::Learn(number + 1)
        };
    }
}
