//! The sweep.

ghost use Rattle.std.specs.Prelude.{◌≡◌, ◌≢◌, ◌+◌, ◌*◌, ◌<◌, ◌≤◌, ◌↔◌, ℕ, Some, None, IsTrue};
ghost use Rattle.bz_layout.specs.Addresses.{swap_address};
ghost use Rattle.bz_sweep.specs.Areas.{size_of, IsArea};
ghost use Rattle.bz_sweep.specs.Duties.{Stage, Asked, Made, knows_before, area_in, asks_in, asks_of, acts_in, changed_in, changed_after, changed_line, left_with, left_of, acts_left, HasEnded, Knows, Hears, Tells, IsReady};
ghost use Rattle.bz_sweep.specs.Laws.{IsAskable};
ghost use Rattle.bz_sweep.specs.Memory.{Memory, StoresWord, Flushes, Evicts};
ghost use Rattle.bz_sweep.specs.Places.{IsPlaced, left_in, swaps_left, sweep_acts, MOST_ACTS, IsFalling, IsCounted};
ghost use Rattle.bz_sweep.specs.Words.{IsPoweredOn, IsFreeing, IsImage, IsRecovered};
ghost use Rattle.bz_sweep.specs.declared.ask.Ask.{Ask};
ghost use Rattle.bz_sweep.specs.declared.ask.Ask.TheVariants.{Load, Store, Flush, Finish};

use crate::area::Area;
use crate::ask::{Answer, Ask};
use crate::phase::{Pointer, Spot, SweepPhase};
use crate::words::{TARGET, address_in_entry, address_of_swap, flushed, found, resolved, sought};
use bz_layout::{LINE_WORDS, SUPERBLOCK_WORDS, SWAP_STATUS_AT, SWAP_WORDS};

/// The status of a swap that has succeeded.
const SUCCEEDED: u64 = 2;

const DIRTY_BIT: u64 = 1 << 63;

/// The sweep over a memory by one worker, which has it alone: every word outside the descriptors is resolved and made
/// durable, and then every descriptor made free.
#[derive(Drop)]
pub struct Sweep {
    area: Area,
    phase: SweepPhase,
}

impl Sweep {
    /// A sweep over such a memory, from its first word on.
    pub fn new(area: &Area) -> Sweep
        requires { IsArea area.now }
        ensures ready { IsReady result }
        ensures area { area_in result ≡ area.now }
        ensures asks { asks_of result ≡ None }
        ensures changed { changed_line result ≡ None }
        // fewer than four acts for each word
        ensures left { (m : Memory) → acts_left result m ≤ sweep_acts area.now }
        ensures few { sweep_acts area.now < MOST_ACTS * size_of area.now }
        // it may begin in every memory whose power has come on again
        ensures knows { (values : ℕ → ℕ) (m : Memory) → IsPoweredOn area.now values m → Knows result values Made m }
    {
        Sweep {
            area: *area,
            phase: SweepPhase::Fresh,
        }
    }

    /// Whether it has ended: it asks for nothing more.
    pub fn ended(&self) -> bool
        ensures { IsTrue result ↔ HasEnded self.now }
    {
        match self.phase {
            SweepPhase::Done => true,
            _ => false,
        }
    }

    /// The next act, after what came of the last one.
    pub fn next(&mut self, answer: Answer) -> Ask
        requires ready { IsReady self.old }
        requires hears { Hears self.old answer }
        ensures ready { IsReady self.new }
        ensures asked { asks_of self.new ≡ Some result }
        ensures nearer { left_of self.new + acts_in (asks_of self.new) ≤ left_of self.old }
        // and over a memory that it knows
        ensures sooner { (values : ℕ → ℕ) (m : Memory) → Knows self.old values Made m → acts_left self.new m + acts_in (asks_of self.new) ≤ acts_left self.old m }
        ensures area { area_in self.new ≡ area_in self.old }
        // it flushes no line but the one that it has changed since that was flushed last
        ensures changed { changed_line self.new ≡ changed_after (asks_of self.old) answer (changed_line self.old) }
        ensures flushes { (line : ℕ) → result ≡ Flush line → changed_line self.new ≡ Some line }
        // a new one begins with the first word
        ensures first { asks_of self.old ≡ None → result ≡ Load 0 }
        // what it knows of every memory in which its act is made and the answer is true
        ensures learns { (values : ℕ → ℕ) (m : Memory) → Knows self.old values Made m → Tells self.old answer m → Knows self.new values Asked m }
    {
        self.phase = self.after(answer);
        self.asked()
    }

    /// Laws of what is known. Does nothing.
    pub fn learnt(&self)
        requires { IsReady self.now }
        // no eviction changes what is known, nor a load before it is answered
        ensures stable { (values : ℕ → ℕ) (stage : Stage) (old new : Memory) (a : ℕ) → Knows self.now values stage old → Evicts old new a → Knows self.now values stage new }
        ensures loaded { (values : ℕ → ℕ) (m : Memory) (a : ℕ) → asks_of self.now ≡ Some (Load a) → Knows self.now values Asked m → Knows self.now values Made m }
        // at every moment the durable words resolve to the same values
        ensures image { (values : ℕ → ℕ) (stage : Stage) (m : Memory) → Knows self.now values stage m → IsImage (area_in self.now) values m.durable }
        // what is asked for may be asked for
        ensures askable { (values : ℕ → ℕ) (m : Memory) (ask : Ask) → Knows self.now values Asked m → asks_of self.now ≡ Some ask → IsAskable (area_in self.now) ask }
        // what is stored is another word than the one that stands: a plain word stays, and so does a descriptor that is free
        ensures differs { (values : ℕ → ℕ) (m : Memory) (a x : ℕ) → Knows self.now values Asked m → asks_of self.now ≡ Some (Store a x) → m.cached a ≢ x }
        // at the end all words are plain and durable, and all descriptors free
        ensures ends { (values : ℕ → ℕ) (stage : Stage) (m : Memory) → Knows self.now values stage m → HasEnded self.now → IsRecovered (area_in self.now) values m }
    {}

    /// Laws of the acts by which the memory changes. Does nothing.
    pub fn acted(&self)
        requires { IsReady self.now }
        ensures stored { (values : ℕ → ℕ) (old new : Memory) (a x : ℕ) → asks_of self.now ≡ Some (Store a x) → Knows self.now values Asked old → StoresWord old new a x → Knows self.now values Made new }
        ensures flushed { (values : ℕ → ℕ) (old new : Memory) (line : ℕ) → asks_of self.now ≡ Some (Flush line) → Knows self.now values Asked old → Flushes old new line → Knows self.now values Made new }
    {}

    // The phase after what came of the last act.
    fn after(&self, answer: Answer) -> SweepPhase
        requires place { IsPlaced self.now.area self.now.phase }
        requires hears { Hears self.now answer }
        ensures place { IsPlaced self.now.area result }
        ensures begun { result ≢ SweepPhase.Fresh }
        ensures first { asks_of self.now ≡ None → asks_in result ≡ Some (Load 0) }
        ensures changed { changed_in result ≡ changed_after (asks_of self.now) answer (changed_in self.now.phase) }
        ensures nearer { (pointers : ℕ → ℕ) → IsFalling pointers → IsCounted pointers self.now.phase → left_in self.now.area pointers result + acts_in (asks_in result) ≤ left_with pointers self.now }
        ensures learns { (v : ℕ → ℕ) (m : Memory) → Knows self.now v Made m → Tells self.now answer m → knows_before self.now.area v m result }
    {
        let area = &self.area;
        match (self.phase, answer) {
            (SweepPhase::Fresh, _) => SweepPhase::Word(Spot {
                unflushed: 0,
                at: 0,
            }),
            (SweepPhase::Word(spot), Answer::Read(word)) => found(area, spot, word),
            (SweepPhase::Status(spot, swap), Answer::Read(status)) => {
                let succeeded = status % DIRTY_BIT == SUCCEEDED;
                SweepPhase::Target(spot, Pointer { swap, succeeded }, 0)
            }
            (SweepPhase::Target(spot, pointer, entry), Answer::Read(target)) => {
                sought(spot, pointer, entry, target)
            }
            (SweepPhase::Value(spot, _), Answer::Read(value)) => SweepPhase::Resolve(spot, value),
            (SweepPhase::Resolve(spot, _), Answer::Stored) => resolved(area, spot, true),
            (SweepPhase::Flush(spot), Answer::Flushed) => flushed(area, spot),
            (SweepPhase::SwapStatus(swap), Answer::Read(0)) => freed(area, swap),
            (SweepPhase::SwapStatus(swap), Answer::Read(_)) => SweepPhase::Free(swap),
            (SweepPhase::Free(swap), Answer::Stored) => SweepPhase::FlushFree(swap),
            (SweepPhase::FlushFree(swap), Answer::Flushed) => freed(area, swap),
            _ => SweepPhase::Done,
        }
    }

    // What a phase asks for.
    fn asked(&self) -> Ask
        requires place { IsPlaced self.now.area self.now.phase }
        requires begun { self.now.phase ≢ SweepPhase.Fresh }
        ensures { asks_of self.now ≡ Some result }
    {
        match self.phase {
            SweepPhase::Fresh | SweepPhase::Done => Ask::Finish,
            SweepPhase::Word(spot) => Ask::Load(spot.at),
            SweepPhase::Status(_, swap) => Ask::Load(address_of_swap(swap) + SWAP_STATUS_AT),
            SweepPhase::Target(_, pointer, entry) => {
                Ask::Load(address_in_entry(pointer.swap, entry, TARGET))
            }
            SweepPhase::Value(_, at) => Ask::Load(at),
            SweepPhase::Resolve(spot, value) => Ask::Store(spot.at, value),
            SweepPhase::Flush(spot) => Ask::Flush(spot.at / LINE_WORDS),
            SweepPhase::SwapStatus(swap) => Ask::Load(self.swap_at(swap)),
            SweepPhase::Free(swap) => Ask::Store(self.swap_at(swap), 0),
            SweepPhase::FlushFree(swap) => Ask::Flush(self.swap_at(swap) / LINE_WORDS),
        }
    }

    // The first word of a descriptor, which has its status.
    fn swap_at(&self, swap: u32) -> u32
        requires area { IsArea self.now.area }
        requires swap { swap < self.now.area.swaps }
        ensures { result ≡ swap_address swap }
    {
        SUPERBLOCK_WORDS + SWAP_WORDS * swap
    }
}

// The phase after a descriptor that is free.
fn freed(area: &Area, swap: u32) -> SweepPhase
    requires area { IsArea area.now }
    requires swap { swap < area.now.swaps }
    ensures place { IsPlaced area.now result }
    ensures begun { result ≢ SweepPhase.Fresh }
    ensures changed { changed_in result ≡ None }
    ensures nearer { (pointers : ℕ → ℕ) → left_in area.now pointers result + acts_in (asks_in result) ≤ swaps_left area.now swap 3 }
    ensures learns { (v : ℕ → ℕ) (m : Memory) → IsFreeing area.now v m (swap + 1) (swap + 1) → knows_before area.now v m result }
{
    let next = swap + 1;
    if next == area.swaps {
        return SweepPhase::Done;
    }
    SweepPhase::SwapStatus(next)
}
