//! A world beside a plain memory, which applies each swap whole at the moment its effect is told.

ghost use Rattle.std.specs.Prelude.{◌≤◌, ◌<◌};

use super::resolve::resolve;
use super::world::World;
use bz_oom::Memory;
use bz_swap_machine::Done;
use bz_word::Entry;
use std::alloc::Global;

/// How many addresses the plain memory has: three in each line.
pub(crate) const PLACES: usize = 8;

/// The change of a place from one value to another.
#[derive(Clone, Copy, Debug)]
pub(crate) struct Change {
    pub(crate) place: usize,
    pub(crate) expected: u64,
    pub(crate) new: u64,
}

impl Change {
    pub(crate) fn of(place: usize, expected: u64, new: u64) -> Change {
        Change {
            place,
            expected,
            new,
        }
    }
}

/// What goes wrong beside the plain memory.
#[derive(Clone, Copy, Debug, PartialEq, Eq)]
pub(crate) enum Fault {
    /// The effect of a swap that is not open, or one of whose targets did not hold the expected value.
    Effect(u16),
    /// An answer of this worker that does not agree with the effects, or a read of another value.
    Answer(u8, Done),
    /// The memory itself holds another value at this place.
    Value(usize),
}

/// How many reads were answered, and how many swaps with true and with false.
#[derive(Clone, Copy, Debug)]
pub(crate) struct Tally {
    pub(crate) reads: u32,
    pub(crate) won: u32,
    pub(crate) lost: u32,
}

impl Tally {
    pub(crate) const NONE: Tally = Tally {
        reads: 0,
        won: 0,
        lost: 0,
    };

    fn note(&mut self, done: Done) {
        match done {
            Done::Read(_) => self.reads = self.reads.saturating_add(1),
            Done::Swapped(true) => self.won = self.won.saturating_add(1),
            Done::Swapped(false) => self.lost = self.lost.saturating_add(1),
            _ => {}
        }
    }

    pub(crate) fn add(&mut self, other: Tally) {
        self.reads = self.reads.saturating_add(other.reads);
        self.won = self.won.saturating_add(other.won);
        self.lost = self.lost.saturating_add(other.lost);
    }
}

/// What is known of a swap by its number.
#[derive(Clone, Copy, Debug, PartialEq, Eq)]
pub(crate) enum Fate {
    Unknown,
    /// It has neither an effect nor an answer; and whether a target differed at some moment.
    Open { differed: bool },
    /// It has its effect, and no answer yet.
    Effective,
    Answered(bool),
}

// What a worker is doing.
#[derive(Clone, Copy)]
enum Doing {
    Nothing,
    Reading(u32),
    Swapping(u16),
}

#[derive(Clone, Copy)]
struct Known {
    entries: [Entry; 4],
    count: usize,
    fate: Fate,
}

const NO_ENTRY: Entry = Entry {
    target: 0,
    expected: 0,
    new: 0,
};

const UNKNOWN: Known = Known {
    entries: [NO_ENTRY; 4],
    count: 0,
    fate: Fate::Unknown,
};

#[derive(Drop)]
pub(crate) struct Watched {
    pub(crate) world: World,
    plain: [u64; PLACES],
    known: Vec<Known>,
    doing: [Doing; 65],
    // the places at which a private store was made since the last cut, and which are not compared
    stored: [bool; PLACES],
    fault: Option<Fault>,
    tally: Tally,
}

impl Watched {
    /// A memory of zeros, with three lines after the descriptors.
    pub(crate) fn open(alloc: Global, swaps: u16, workers: u8) -> Result<Watched, Memory>
        requires some { 1 ≤ swaps }
        requires workers { (1 ≤ workers) × (workers ≤ 64) }
    {
        let lines = 2 * swaps as usize + 5;
        let words = vec![in alloc; 0u64; lines * 8]?;
        let world = World::open(alloc, &words, swaps as u32, workers)?;
        let known = vec![in alloc; UNKNOWN; swaps as usize]?;
        Ok(Watched {
            world,
            plain: [0; PLACES],
            known,
            doing: [Doing::Nothing; 65],
            stored: [false; PLACES],
            fault: None,
            tally: Tally::NONE,
        })
    }

    /// The address of a place.
    pub(crate) fn address(&self, place: usize) -> u32 {
        self.world
            .first()
            .saturating_add(3 * (place % PLACES) as u32)
    }

    fn place(&self, a: u32) -> usize
        ensures { result < 8 }
    {
        let after = a.saturating_sub(self.world.first());
        (after / 3) as usize % PLACES
    }

    /// The value at a place.
    pub(crate) fn value(&self, place: usize) -> u64 {
        self.plain[place % PLACES]
    }

    /// The first thing that went wrong.
    pub(crate) fn fault(&self) -> Option<Fault> {
        self.fault
    }

    /// What was answered so far.
    pub(crate) fn tally(&self) -> Tally {
        self.tally
    }

    pub(crate) fn fate(&self, swap: u16) -> Fate {
        self.known_of(swap).fate
    }

    fn known_of(&self, swap: u16) -> Known {
        self.known.get(swap as usize).copied().unwrap_or(UNKNOWN)
    }

    fn doing_of(&self, w: u8) -> Doing {
        self.doing
            .get(w as usize)
            .copied()
            .unwrap_or(Doing::Nothing)
    }

    fn set_doing(&mut self, w: u8, doing: Doing) {
        if w < 65 {
            self.doing[w as usize] = doing;
        }
    }

    fn set_fate(&mut self, swap: u16, fate: Fate) {
        let swap = swap as usize;
        if swap < self.known.len() {
            self.known[swap].fate = fate;
        }
    }

    fn report(&mut self, fault: Fault) {
        if self.fault.is_none() {
            self.fault = Some(fault);
        }
    }

    // Whether each target holds the expected value.
    fn stands(&self, known: &Known) -> bool {
        for (i, entry) in known.entries.iter().enumerate() {
            if i < known.count && self.plain[self.place(entry.target)] != entry.expected {
                return false;
            }
        }
        true
    }

    // Notes of the swap that a worker is doing whether a target differs.
    fn look(&mut self, w: u8) {
        let Doing::Swapping(swap) = self.doing_of(w) else {
            return;
        };
        let known = self.known_of(swap);
        if known.fate == (Fate::Open { differed: false }) && !self.stands(&known) {
            self.set_fate(swap, Fate::Open { differed: true });
        }
    }

    // The entry of a change.
    fn entry(&self, change: &Change) -> Entry {
        Entry {
            target: self.address(change.place),
            expected: change.expected,
            new: change.new,
        }
    }

    /// Begins a swap of one to four places in their order; none where it may not come, or all descriptors were taken.
    pub(crate) fn begin(&mut self, w: u8, changes: &[Change]) -> Option<u16> {
        let mut known = UNKNOWN;
        known.count = changes.len().min(4);
        known.fate = Fate::Open { differed: false };
        for i in 0..4usize {
            if let Some(change) = changes.get(i) {
                known.entries[i] = self.entry(change);
            }
        }
        let count = known.count.min(4);
        let swap = self.world.begin(w, &known.entries[..count])?.ok()?;
        if (swap as usize) < self.known.len() {
            self.known[swap as usize] = known;
        }
        self.set_doing(w, Doing::Swapping(swap));
        self.look(w);
        Some(swap)
    }

    /// Begins a read of a place; false where it may not come.
    pub(crate) fn begin_read(&mut self, w: u8, place: usize) -> bool {
        let a = self.address(place);
        let begun = self.world.begin_read(w, a);
        if begun {
            self.set_doing(w, Doing::Reading(a));
        }
        begun
    }

    // Applies a swap to the plain memory.
    fn apply(&mut self, known: &Known) {
        for (i, entry) in known.entries.iter().enumerate() {
            if i < known.count {
                let place = self.place(entry.target);
                self.plain[place] = entry.new;
            }
        }
    }

    // Takes note of an effect that is told.
    fn note_effect(&mut self, effect: Option<u16>) {
        let Some(swap) = effect else {
            return;
        };
        let known = self.known_of(swap);
        if !matches!(known.fate, Fate::Open { .. }) || !self.stands(&known) {
            self.report(Fault::Effect(swap));
        }
        self.apply(&known);
        self.set_fate(swap, Fate::Effective);
        for w in 0..65 {
            self.look(w);
        }
    }

    // Whether the answer agrees with the plain memory and the effects told.
    fn is_right(&self, w: u8, done: Done) -> bool {
        match (self.doing_of(w), done) {
            (_, Done::Busy) => true,
            (Doing::Reading(a), Done::Read(v)) => self.plain[self.place(a)] == v,
            (Doing::Swapping(swap), Done::Swapped(true)) => self.fate(swap) == Fate::Effective,
            (Doing::Swapping(swap), Done::Swapped(false)) => {
                self.fate(swap) == Fate::Open { differed: true }
            }
            _ => false,
        }
    }

    // Takes note of an answer.
    fn note_answer(&mut self, w: u8, done: Done) {
        if !self.is_right(w, done) {
            self.report(Fault::Answer(w, done));
        }
        self.tally.note(done);
        if done == Done::Busy {
            return;
        }
        if let (Doing::Swapping(swap), Done::Swapped(won)) = (self.doing_of(w), done) {
            self.set_fate(swap, Fate::Answered(won));
        }
        self.set_doing(w, Doing::Nothing);
    }

    // Whether the memory itself holds the value of a place, or something was stored there privately.
    fn agrees(&self, place: usize) -> bool {
        let place = place % PLACES;
        self.stored[place] || resolve(&self.world, self.address(place)) == self.plain[place]
    }

    /// Reports a place whose value in the memory itself is not that in the plain memory.
    pub(crate) fn compare(&mut self) {
        for place in 0..PLACES {
            if !self.agrees(place) {
                self.report(Fault::Value(place));
            }
        }
    }

    /// Stores at a place that no swap has named; false where that may not come.
    pub(crate) fn store(&mut self, w: u8, place: usize, v: u64) -> bool {
        let a = self.address(place);
        let made = self.world.store(w, a, v).is_some();
        if made {
            self.stored[place % PLACES] = true;
        }
        made
    }

    /// Begins to flush the line of a place: makes the first act of it. False where that may not come.
    pub(crate) fn flush(&mut self, w: u8, place: usize) -> bool {
        let a = self.address(place);
        self.world.flush(w, a).is_some()
    }

    /// Makes a step of a worker; what it answers, which is nothing for a worker without an operation.
    pub(crate) fn step(&mut self, w: u8) -> Done {
        let Some(progress) = self.world.step(w) else {
            return Done::Busy;
        };
        self.note_effect(progress.effect);
        self.note_answer(w, progress.done);
        progress.done
    }

    /// Makes so many steps of a worker, or fewer where it answers.
    pub(crate) fn steps(&mut self, w: u8, count: u32) -> Done {
        for _ in 0..count {
            let done = self.step(w);
            if done != Done::Busy {
                return done;
            }
        }
        Done::Busy
    }

    /// Evicts the word at an address.
    pub(crate) fn evict(&mut self, a: u32) {
        let effect = self.world.evict(a);
        self.note_effect(effect);
    }

    /// Cuts the power: no swap that was begun takes effect any more, and a private word is what was durable of it.
    pub(crate) fn cut(&mut self) {
        self.world.cut();
        for place in 0..PLACES {
            if self.stored[place] {
                self.plain[place] = resolve(&self.world, self.address(place));
            }
        }
        self.stored = [false; PLACES];
        self.known.fill(UNKNOWN);
        self.doing = [Doing::Nothing; 65];
        self.compare();
    }
}
