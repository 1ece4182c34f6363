ghost use Rattle.std.specs.Prelude.{◌≡◌, ◌<◌, ◌≤◌, ◌^◌, IfOk, true, length, slice_index};
ghost use Rattle.bz_swap_machine.specs.Machine.{entries_in};
ghost use Rattle.bz_swap_machine.specs.Ranges.{IsTagger};
ghost use Rattle.bz_swap_cells.specs.Store.{Store, IsStore, MayTag};
ghost use Rattle.bz_swap_acts.specs.Ready.{IsReady, IsStepReady, IsUsable, LiesOutside, MayLearn};

use super::bench::same;
use bz_oom::Memory;
use bz_swap_acts::act;
use bz_swap_cells::Cells;
use bz_swap_machine::{DescriptorWords, Done, HelpStep, Operation, Place, PrepareStep, Worker};
use bz_word::WordKind;
use std::alloc::Global;
use std::process::Abort;
use std::test::Fail;

const SWAPS: u32 = 4;

const WORKERS: u8 = 2;

// The first word of a node, after the superblock and four descriptors.
const NODE: u32 = 80;

const WORDS: u32 = 96;

// A memory of four descriptors and two lines, all of it zero.
fn zeros(alloc: Global) -> Result<Cells, Memory>
    ensures typed { IfOk result IsStore }
    ensures swaps { IfOk result (λ c. c.swaps ≡ 4) }
    ensures size { IfOk result (λ c. length c.cached ≡ 96) }
    ensures workers { IfOk result (λ c. length c.next_tags ≡ 3) }
{
    let words = vec![in alloc; 0u64; 96]?;
    Cells::open(alloc, &words, SWAPS, WORKERS)
}

// Whether an address is one of the node.
fn lies(a: u64) -> bool
    ensures { result ≡ true → (st : Store) → st.swaps ≡ 4 → length st.cached ≡ 96 → LiesOutside st a }
{
    a >= NODE as u64 && a < WORDS as u64
}

// Whether an entry of a list can be used.
fn is_usable(list: &DescriptorWords, entry: u8) -> bool
    ensures { result ≡ true → (st : Store) → st.swaps ≡ 4 → length st.cached ≡ 96 → IsUsable st (entries_in (slice_index list.now.words)) entry }
{
    let count = list.words[0];
    if (entry as u64) < count && count <= 4 {
        let first = 3 * entry as usize;
        lies(list.words[first + 1])
            && list.words[first + 2] < 1 << 61
            && list.words[first + 3] < 1 << 61
    } else {
        false
    }
}

// Whether these name a tag.
fn is_tagger(worker: u8, seq: u64) -> bool
    ensures { result ≡ true → IsTagger worker seq }
{
    worker >= 1 && worker <= 64 && seq < 1 << 36
}

// Whether a step can be made.
fn is_step_ready(cells: &Cells, list: &DescriptorWords, w: u8, step: HelpStep) -> bool
    requires swaps { cells.now.swaps ≡ 4 }
    requires size { length cells.now.cached ≡ 96 }
    requires worker { w < length cells.now.next_tags }
    ensures { result ≡ true → IsStepReady cells.now w (entries_in (slice_index list.now.words)) step }
{
    match step {
        HelpStep::InstallTag(entry) => is_usable(list, entry) && is_tagger(w, cells.next_tag(w)),
        HelpStep::InstallPointer { entry, worker, seq }
        | HelpStep::RemoveTag { entry, worker, seq }
        | HelpStep::SweepTag {
            entry,
            worker,
            seq,
            ..
        } => { is_usable(list, entry) && is_tagger(worker, seq) }
        HelpStep::ClearDirty { entry, value } => is_usable(list, entry) && value < 1 << 61,
        HelpStep::AskDirty { entry, .. }
        | HelpStep::AskTarget(entry)
        | HelpStep::AskFinal { entry, .. } => is_usable(list, entry) && cells.may_ask(w),
        HelpStep::AskStatus(_) => cells.may_ask(w),
        HelpStep::PutFinal { entry, .. } | HelpStep::ClearFinal { entry, .. } => {
            is_usable(list, entry)
        }
        _ => true,
    }
}

// Whether the next word of a descriptor can be loaded.
fn may_learn(cells: &Cells, worker: &Worker, k: u8) -> bool
    requires typed { IsStore cells.now }
    requires swaps { cells.now.swaps ≡ 4 }
    requires current { worker.now.current < 4 }
    ensures { result ≡ true → MayLearn cells.now worker.now k }
{
    k <= 12 && worker.list.words[0] <= 4 && cells.load_field(worker.current, 0) <= 4
}

// Whether the act that is due can be made.
fn is_ready(cells: &Cells, worker: &Worker, w: u8) -> bool
    requires typed { IsStore cells.now }
    requires swaps { cells.now.swaps ≡ 4 }
    requires size { length cells.now.cached ≡ 96 }
    requires worker { w < length cells.now.next_tags }
    ensures { result ≡ true → IsReady cells.now worker.now w }
{
    if worker.current >= 4 {
        return false;
    }
    match worker.place {
        Place::Prepare(PrepareStep::WriteWord(k)) => k <= 12,
        Place::Prepare(PrepareStep::AskHead | PrepareStep::AskTail) => cells.may_ask(w),
        Place::Prepare(_) => true,
        Place::Learn(k) => may_learn(cells, worker, k),
        Place::Help(step) => is_step_ready(cells, &worker.list, w, step),
        Place::ReadWord(a) => lies(a as u64),
        Place::AskRead { address, .. } => lies(address as u64) && cells.may_ask(w),
        Place::FenceRead { .. } => true,
        Place::ClearRead { address, value } => lies(address as u64) && value < 1 << 61,
        _ => false,
    }
}

// Makes acts until the operation is answered, and says how many; none where that takes more.
fn run(cells: &mut Cells, worker: &mut Worker, w: u8, most: u32) -> Option<(Done, u32)>
    requires typed { IsStore cells.old }
    requires swaps { cells.old.swaps ≡ 4 }
    requires size { length cells.old.cached ≡ 96 }
    requires worker { w < length cells.old.next_tags }
    ensures typed { IsStore cells.new }
    ensures swaps { cells.new.swaps ≡ 4 }
    ensures size { length cells.new.cached ≡ 96 }
    ensures workers { length cells.new.next_tags ≡ length cells.old.next_tags }
{
    for n in 1..=most {
        if !is_ready(cells, worker, w) {
            return None;
        }
        let done = act(cells, worker, w).done;
        if done != Done::Busy {
            return Some((done, n));
        }
    }
    None
}

// A worker whose swap is to put 11, 12, 13, 14 into the node's first words, as many as it has entries.
fn swapper(count: u64, second: u64) -> Worker {
    Worker {
        operation: Operation::Swapping(0),
        place: Place::Prepare(PrepareStep::WriteWord(0)),
        current: 0,
        back: None,
        list: DescriptorWords {
            words: [count, 80, 0, 11, 81, second, 12, 82, 0, 13, 83, 0, 14],
        },
    }
}

#[test]
fn a_swap_alone_takes_ten_acts_and_eleven_an_entry(rt: HostRuntime) -> Result<(), Fail> {
    for (count, acts) in [(1, 21), (2, 32), (3, 43), (4, 54)] {
        let mut cells = zeros(rt.alloc())?;
        let mut worker = swapper(count, 0);
        let ended = run(&mut cells, &mut worker, 1, 60);
        same(&rt, ended, Some((Done::Swapped(true), acts)));
        for i in 0..4u32 {
            let value = if (i as u64) < count { 11 + i as u64 } else { 0 };
            same(&rt, cells.load(NODE + i), value);
        }
    }
    Ok(())
}

#[test]
fn a_target_that_differs_fails_the_swap_and_the_first_is_restored(
    rt: HostRuntime,
) -> Result<(), Fail> {
    let mut cells = zeros(rt.alloc())?;
    let mut worker = swapper(2, 5);
    let ended = run(&mut cells, &mut worker, 1, 60);
    same(&rt, ended.map(|(done, _)| done), Some(Done::Swapped(false)));
    same(&rt, cells.load_word(NODE), WordKind::Value(0));
    same(&rt, cells.load_word(NODE + 1), WordKind::Value(0));
    same(&rt, cells.is_missed(0), true);
    Ok(())
}

#[test]
fn a_read_through_a_pointer_helps(rt: HostRuntime) -> Result<(), Fail> {
    let mut cells = zeros(rt.alloc())?;
    let mut sleeper = swapper(1, 0);
    let mut reader = Worker {
        operation: Operation::Reading(NODE),
        place: Place::ReadWord(NODE),
        current: 0,
        back: None,
        list: DescriptorWords { words: [0; 13] },
    };
    same(&rt, run(&mut cells, &mut sleeper, 1, 11), None);
    same(&rt, cells.load_word(NODE), WordKind::Swap(0));
    same(
        &rt,
        run(&mut cells, &mut reader, 2, 60),
        Some((Done::Read(11), 18)),
    );
    same(
        &rt,
        run(&mut cells, &mut sleeper, 1, 60),
        Some((Done::Swapped(true), 4)),
    );
    Ok(())
}
