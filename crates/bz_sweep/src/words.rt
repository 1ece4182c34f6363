//! From one word to the next.

ghost use Rattle.std.specs.Prelude.{◌≡◌, ◌≢◌, ◌+◌, ◌%◌, ◌^◌, ◌<◌, ◌≤◌, if◌then◌else◌, ℕ, Some, None, true, false};
ghost use Rattle.bz_layout.specs.Addresses.{swap_address, line_of};
ghost use Rattle.bz_sweep.specs.Areas.{IsArea};
ghost use Rattle.bz_sweep.specs.Duties.{IsSought, asks_in, acts_in, knows_before, changed_at, changed_in};
ghost use Rattle.bz_sweep.specs.Memory.{Memory};
ghost use Rattle.bz_sweep.specs.Places.{IsSpot, IsPlaced, IsNextShared, entry_address, left_in, left_at, IsFalling};
ghost use Rattle.bz_sweep.specs.Words.{IsShared, IsSwept};
ghost use Rattle.bz_sweep.specs.declared.area.Area.{Area};

use crate::area::Area;
use crate::phase::{Pointer, Spot, SweepPhase};
use bz_layout::{ENTRIES_AT, ENTRY_WORDS, LINE_WORDS, MAX_ENTRIES, SUPERBLOCK_WORDS, SWAP_WORDS};
use bz_word::{WordKind, kind_of};

/// The words of an entry.
pub(crate) const TARGET: u32 = 0;

pub(crate) const EXPECTED: u32 = 1;

pub(crate) const NEW: u32 = 2;

/// The first word of a descriptor.
pub(crate) fn address_of_swap(swap: u16) -> u32
    ensures address { result ≡ swap_address swap }
    ensures fits { result < 2 ^ 21 }
{
    SUPERBLOCK_WORDS + SWAP_WORDS * u32::from(swap)
}

/// The address of a word of an entry.
pub(crate) fn address_in_entry(swap: u16, entry: u32, word: u32) -> u32
    requires entry { entry < MAX_ENTRIES }
    requires word { word < ENTRY_WORDS }
    ensures { result ≡ entry_address swap entry word }
{
    address_of_swap(swap) + (ENTRIES_AT + ENTRY_WORDS * entry) + word
}

// The next address outside the descriptors, or that of the memory's end.
fn address_after(area: &Area, a: u32) -> u32
    requires area { IsArea area.now }
    requires shared { IsShared area.now a }
    ensures { IsNextShared area.now a result }
{
    let next = a + 1;
    if next == SUPERBLOCK_WORDS {
        area.behind()
    } else {
        next
    }
}

// The phase at the next word, where all before it are durable or those that are not are in its line.
fn onward(area: &Area, spot: Spot, changed: bool) -> SweepPhase
    requires area { IsArea area.now }
    requires spot { IsSpot area.now spot }
    requires line { changed ≡ true → (spot.at + 1) % LINE_WORDS ≢ 0 }
    ensures place { IsPlaced area.now result }
    ensures begun { result ≢ SweepPhase.Fresh }
    ensures nearer { (pointers : ℕ → ℕ) → IsFalling pointers → left_in area.now pointers result + acts_in (asks_in result) ≤ left_at area.now (pointers (spot.at + 1)) spot.at 2 }
    ensures past_line { (pointers : ℕ → ℕ) → IsFalling pointers → (spot.at + 1) % LINE_WORDS ≡ 0 → left_in area.now pointers result + acts_in (asks_in result) ≤ left_at area.now (pointers (spot.at + 1)) spot.at 4 }
    ensures line { changed_in result ≡ (if changed then Some (line_of spot.at) else None) }
    ensures learns { (v : ℕ → ℕ) (m : Memory) → IsSwept area.now v m (if changed then spot.unflushed else spot.at + 1) (spot.at + 1) → knows_before area.now v m result }
{
    let at = address_after(area, spot.at);
    if at == area.size() {
        return SweepPhase::SwapStatus(0);
    }
    let unflushed = if changed { spot.unflushed } else { at };
    SweepPhase::Word(Spot { unflushed, at })
}

/// The phase after a flush.
pub(crate) fn flushed(area: &Area, spot: Spot) -> SweepPhase
    requires area { IsArea area.now }
    requires spot { IsSpot area.now spot }
    requires line { (spot.at + 1) % LINE_WORDS ≡ 0 }
    ensures place { IsPlaced area.now result }
    ensures begun { result ≢ SweepPhase.Fresh }
    ensures nearer { (pointers : ℕ → ℕ) → IsFalling pointers → left_in area.now pointers result + acts_in (asks_in result) ≤ left_at area.now (pointers (spot.at + 1)) spot.at 4 }
    ensures line { changed_in result ≡ None }
    ensures learns { (v : ℕ → ℕ) (m : Memory) → IsSwept area.now v m (spot.at + 1) (spot.at + 1) → knows_before area.now v m result }
{
    onward(area, spot, false)
}

/// The phase after a word that is resolved: its line is flushed where it is the last one and some were changed.
pub(crate) fn resolved(area: &Area, spot: Spot, stored: bool) -> SweepPhase
    requires area { IsArea area.now }
    requires spot { IsSpot area.now spot }
    ensures place { IsPlaced area.now result }
    ensures begun { result ≢ SweepPhase.Fresh }
    ensures nearer { (pointers : ℕ → ℕ) → IsFalling pointers → left_in area.now pointers result + acts_in (asks_in result) ≤ left_at area.now (pointers (spot.at + 1)) spot.at 2 }
    ensures line { changed_in result ≡ (if stored then Some (line_of spot.at) else changed_at spot) }
    ensures learns { (v : ℕ → ℕ) (m : Memory) → IsSwept area.now v m spot.unflushed (spot.at + 1) → (stored ≡ false → m.durable spot.at ≡ v spot.at) → knows_before area.now v m result }
{
    let changed = stored || spot.unflushed < spot.at;
    if changed && (spot.at + 1) % LINE_WORDS == 0 {
        return SweepPhase::Flush(spot);
    }
    onward(area, spot, changed)
}

/// The phase after a word that was read.
pub(crate) fn found(area: &Area, spot: Spot, word: u64) -> SweepPhase
    requires area { IsArea area.now }
    requires spot { IsSpot area.now spot }
    ensures place { IsPlaced area.now result }
    ensures begun { result ≢ SweepPhase.Fresh }
    ensures nearer { (pointers : ℕ → ℕ) → IsFalling pointers → left_in area.now pointers result + acts_in (asks_in result) ≤ left_at area.now (pointers spot.at) spot.at 0 }
    ensures line { changed_in result ≡ changed_at spot }
    ensures learns { (v : ℕ → ℕ) (m : Memory) → IsSwept area.now v m spot.unflushed spot.at → m.cached spot.at ≡ word → knows_before area.now v m result }
{
    match kind_of(word) {
        Some(WordKind::Dirty(value)) => SweepPhase::Resolve(spot, value),
        Some(WordKind::Swap(swap)) => SweepPhase::Status(spot, swap),
        Some(WordKind::Tag { swap, entry, .. }) => SweepPhase::Value(
            spot,
            address_in_entry(swap, u32::from(entry), EXPECTED),
        ),
        Some(WordKind::Value(_)) => resolved(area, spot, false),
        // of an image every word is of a kind
        None => resolved(area, spot, false),
    }
}

/// The phase after the target of an entry that was read: the last entry is the one where no other is.
pub(crate) fn sought(spot: Spot, pointer: Pointer, entry: u32, target: u64) -> SweepPhase
    requires { entry < MAX_ENTRIES }
    ensures place { (r : Area) → IsArea r → IsSpot r spot → IsPlaced r result }
    ensures begun { result ≢ SweepPhase.Fresh }
    ensures nearer { (r : Area) (pointers : ℕ → ℕ) → IsSpot r spot → pointers (spot.at + 1) < pointers spot.at → left_in r pointers result + acts_in (asks_in result) ≤ left_at r (pointers spot.at) spot.at (2 + entry) }
    ensures line { changed_in result ≡ changed_at spot }
    ensures learns { (r : Area) (v : ℕ → ℕ) (m : Memory) → IsSpot r spot → IsSwept r v m spot.unflushed spot.at → IsSought m spot.at pointer entry → m.cached (entry_address pointer.swap entry TARGET) ≡ target → knows_before r v m result }
{
    if target == u64::from(spot.at) || entry + 1 == MAX_ENTRIES {
        let word = if pointer.succeeded { NEW } else { EXPECTED };
        return SweepPhase::Value(spot, address_in_entry(pointer.swap, entry, word));
    }
    SweepPhase::Target(spot, pointer, entry + 1)
}
