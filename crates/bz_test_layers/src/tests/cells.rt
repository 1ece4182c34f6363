ghost use Rattle.std.specs.Prelude.{◌≡◌, false, [], IfOk, replicate};
ghost use Rattle.bz_swap_cells.specs.Store.{IsStore};

use super::bench::same;
use bz_oom::Memory;
use bz_swap_cells::Cells;
use bz_swap_machine::{SwapStatus, Verdict};
use bz_word::WordKind;
use std::alloc::Global;
use std::process::Abort;
use std::test::Fail;

const SWAPS: u32 = 2;

// The first word of a line of a node, after the superblock and two descriptors.
const NODE: u32 = 48;

const DIRTY_BIT: u64 = 1 << 63;

const WORKERS: u8 = 2;

// A memory of two descriptors and two lines, all of it zero.
fn zeros(alloc: Global) -> Result<Cells, Memory>
    ensures words { IfOk result (λ c. c ≡ record { cached = replicate 64 0; durable = replicate 64 0; past = record { count = 0; since = replicate 64 0; asks = replicate 3 [] }; swaps = 2; next_tags = replicate 3 0; missed = replicate 2 false; taken = 0 }) }
    ensures typed { IfOk result IsStore }
{
    let words = vec![in alloc; 0u64; 64]?;
    Cells::open(alloc, &words, SWAPS, WORKERS)
}

#[test]
fn a_word_is_durable_once_its_line_is_fenced(rt: HostRuntime) -> Result<(), Fail> {
    let mut cells = zeros(rt.alloc())?;
    let dirty = WordKind::Dirty(7);
    let other = cells.cas_word(NODE, WordKind::Value(1), dirty);
    let word = cells.load_word(NODE);
    let found = cells.cas_word(NODE, WordKind::Value(0), dirty);
    cells.store_word(NODE + 8, WordKind::Swap(1));
    if cells.may_ask(WORKERS) {
        cells.ask_word(WORKERS, NODE + 7);
    }
    cells.fence(WORKERS);
    cells.cut();
    let words = [cells.load(NODE), cells.load(NODE + 8)];
    same(&rt, [other, word, found], [WordKind::Value(0); 3]);
    same(&rt, words, [DIRTY_BIT + 7, 0]);
    Ok(())
}

// Descriptor 1 after a store into each of its lines, and a cut before which a worker asked for these and fenced: its status, and
// two fields.
fn cut_after(alloc: Global, head: bool, tail: bool) -> Result<(SwapStatus, u64, u64), Memory> {
    let mut cells = zeros(alloc)?;
    cells.store_status(1, SwapStatus::Undecided);
    cells.store_field(1, 6, 5);
    cells.store_field(1, 7, 6);
    if head && cells.may_ask(WORKERS) {
        cells.ask_head(WORKERS, 1);
    }
    if tail && cells.may_ask(WORKERS) {
        cells.ask_tail(WORKERS, 1);
    }
    cells.fence(WORKERS);
    cells.cut();
    let (low, high) = (cells.load_field(1, 6), cells.load_field(1, 7));
    Ok((cells.durable_status(1), low, high))
}

#[test]
fn the_two_lines_of_a_descriptor_become_durable_apart(rt: HostRuntime) -> Result<(), Fail> {
    let (free, undecided) = (SwapStatus::Free, SwapStatus::Undecided);
    same(&rt, cut_after(rt.alloc(), false, false)?, (free, 0, 0));
    same(&rt, cut_after(rt.alloc(), true, false)?, (undecided, 5, 0));
    same(&rt, cut_after(rt.alloc(), false, true)?, (free, 0, 6));
    same(&rt, cut_after(rt.alloc(), true, true)?, (undecided, 5, 6));
    Ok(())
}

#[test]
fn a_status_is_evicted_by_itself(rt: HostRuntime) -> Result<(), Fail> {
    let mut cells = zeros(rt.alloc())?;
    let won = SwapStatus::Deciding(Verdict::Succeeded);
    cells.store_status(0, SwapStatus::Undecided);
    let found = cells.cas_status(0, SwapStatus::Undecided, won);
    let other = cells.cas_status(0, SwapStatus::Undecided, SwapStatus::Free);
    cells.evict_status(0);
    cells.cut();
    let durable = cells.durable_status(0);
    same(
        &rt,
        [found, other, durable],
        [SwapStatus::Undecided, won, won],
    );
    Ok(())
}

#[test]
fn single_words_are_evicted(rt: HostRuntime) -> Result<(), Fail> {
    let mut cells = zeros(rt.alloc())?;
    cells.store_status(0, SwapStatus::Undecided);
    cells.store_field(0, 0, 3);
    cells.store_field(0, 1, 4);
    cells.store_word(NODE, WordKind::Value(9));
    cells.store_word(NODE + 1, WordKind::Value(9));
    cells.evict_field(0, 1);
    cells.evict_word(NODE + 1);
    cells.cut();
    let fields = [cells.load_field(0, 0), cells.load_field(0, 1)];
    let words = [cells.load(NODE), cells.load(NODE + 1)];
    same(&rt, (fields, words), ([0, 4], [0, 9]));
    Ok(())
}

#[test]
fn tags_have_numbers(rt: HostRuntime) -> Result<(), Fail> {
    let mut cells = zeros(rt.alloc())?;
    let zero = WordKind::Value(0);
    assert!(rt; cells.cas_tag(NODE, 5, 0, 1, 2) == zero);
    let found = cells.cas_tag(NODE, 0, 0, 1, 2);
    let tag = WordKind::Tag {
        swap: 0,
        entry: 1,
        worker: 2,
        seq: 0,
    };
    same(&rt, [found, cells.load_word(NODE)], [zero, tag]);
    let numbers = [cells.next_tag(1), cells.next_tag(2)];
    cells.renew();
    same(&rt, (numbers, cells.next_tag(2)), ([0, 1], 0));
    Ok(())
}

#[test]
fn misses_are_noted_once(rt: HostRuntime) -> Result<(), Fail> {
    let mut cells = zeros(rt.alloc())?;
    cells.store_status(1, SwapStatus::Decided(Verdict::Succeeded));
    cells.evict_status(1);
    cells.note_miss(0);
    cells.note_miss(1);
    let missed = [cells.is_missed(0), cells.is_missed(1)];
    let taken = [cells.take(), cells.take(), cells.take()];
    cells.renew();
    same(&rt, missed, [true, false]);
    same(&rt, taken, [Some(0), Some(1), None]);
    same(&rt, (cells.taken(), cells.is_missed(0)), (0, false));
    Ok(())
}
