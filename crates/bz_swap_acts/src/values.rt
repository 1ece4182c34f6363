//! Acts on the values of a swap's targets: what is asked for, what is put at the end, and the dirty bits; and fences.

ghost use Rattle.std.specs.Prelude.{◌≡◌, if◌then◌else◌, ◌==◌, ◌+◌, ◌<◌, ◌^◌, true, false, ℕ, length, slice_index};
ghost use Rattle.bz_swap_machine.specs.Machine.{Entries, entries_in};
ghost use Rattle.bz_swap_machine.specs.Changes.{fenced};
ghost use Rattle.bz_swap_machine.specs.HelpActs.{cleared_word, final_value as final_value_in};
ghost use Rattle.bz_swap_machine.specs.declared.place.HelpStep.TheVariants.{AskDirty, ClearDirty, AskTarget, FenceTargets, PutFinal, AskFinal, ClearFinal};
ghost use Rattle.bz_swap_machine.specs.declared.place.Next.TheVariants.{Step};
ghost use Rattle.bz_swap_cells.specs.Store.{Beside, IsStore, MayAsk, kind_at, typed};
ghost use Rattle.bz_swap_acts.specs.Parts.{IsHelp, IsMade, IsMadeBy};
ghost use Rattle.bz_swap_acts.specs.Ready.{IsUsable, LiesOutside};
ghost use Rattle.bz_swap_acts.specs.Rule.{is_fence_act};
ghost use Rattle.bz_swap_acts.specs.Writes.{StaysOutside};
ghost use Rattle.bz_swap_acts.specs.declared.acted.Act.TheVariants.{Fence};

use crate::acted::Act;
use crate::entry::{Aim, aim_of};
use crate::help::Helped;
use crate::words::{ask_word, cas_word, fence};
use bz_swap_cells::Cells;
use bz_swap_machine::{DescriptorWords, HelpStep, Next, Verdict, after_put_final, finished};
use bz_word::WordKind;

/// Changes a dirty value to the plain one.
pub(crate) fn clear_value(cells: &mut Cells, a: u32, value: u64) -> Act
    requires typed { IsStore cells.old }
    requires lies { LiesOutside cells.old a }
    requires value { value < 2 ^ 61 }
    ensures memory { (b : Beside) → typed cells.new b ≡ cleared_word (typed cells.old b) a value (kind_at cells.old.swaps cells.old.cached a) }
    ensures made { IsMade cells.old result cells.new }
    ensures flush { is_fence_act result ≡ false }
    ensures writes { StaysOutside cells.old.swaps result }
{
    cas_word(cells, a, WordKind::Dirty(value), WordKind::Value(value)).act
}

// The value that a verdict leaves at an entry.
fn final_value(aim: Aim, verdict: Verdict) -> u64
    requires expected { aim.expected < 2 ^ 61 }
    requires value { aim.value < 2 ^ 61 }
    ensures fits { result < 2 ^ 61 }
    ensures value { (x : Entries) (i : ℕ) → x.expected i ≡ aim.expected → x.value i ≡ aim.value → result ≡ final_value_in x i verdict }
{
    match verdict {
        Verdict::Succeeded => aim.value,
        Verdict::Failed => aim.expected,
    }
}

/// Makes a fence, after which this step follows.
pub(crate) fn fence_then(cells: &mut Cells, w: u8, step: HelpStep) -> Helped
    requires typed { IsStore cells.old }
    requires worker { w < length cells.old.next_tags }
    ensures memory { (b : Beside) → typed cells.new b ≡ fenced (typed cells.old b) w }
    ensures next { result.next ≡ Step step }
    ensures made { IsMadeBy cells.old w result.act cells.new }
    ensures flush { is_fence_act result.act ≡ true }
    ensures told { result.act ≡ Fence }
{
    Helped {
        act: fence(cells, w),
        next: Next::Step(step),
    }
}

/// Asks for the line of a target, where a dirty value stands.
pub(crate) fn ask_dirty(
    cells: &mut Cells,
    list: &DescriptorWords,
    w: u8,
    entry: u8,
    value: u64,
) -> Helped
    requires typed { IsStore cells.old }
    requires usable { IsUsable cells.old (entries_in (slice_index list.now.words)) entry }
    requires asker { MayAsk cells.old w }
    ensures { (s : ℕ) → IsHelp (entries_in (slice_index list.now.words)) cells.old w s (AskDirty entry value) result cells.new }
{
    let aim = aim_of(cells, list, entry);
    Helped {
        act: ask_word(cells, w, aim.target),
        next: Next::Step(HelpStep::FenceDirty { entry, value }),
    }
}

/// Changes the dirty value at a target to the plain one.
pub(crate) fn clear_dirty(
    cells: &mut Cells,
    list: &DescriptorWords,
    entry: u8,
    value: u64,
) -> Helped
    requires typed { IsStore cells.old }
    requires usable { IsUsable cells.old (entries_in (slice_index list.now.words)) entry }
    requires value { value < 2 ^ 61 }
    ensures { (w s : ℕ) → IsHelp (entries_in (slice_index list.now.words)) cells.old w s (ClearDirty entry value) result cells.new }
{
    let aim = aim_of(cells, list, entry);
    Helped {
        act: clear_value(cells, aim.target, value),
        next: Next::Step(HelpStep::InstallTag(entry)),
    }
}

// What follows the ask for a target.
fn after_ask_target(count: u8, entry: u8) -> HelpStep
    requires { entry < count }
    ensures { result ≡ (if entry + 1 == count then FenceTargets else AskTarget (entry + 1)) }
{
    if entry + 1 == count {
        HelpStep::FenceTargets
    } else {
        HelpStep::AskTarget(entry + 1)
    }
}

/// Asks for the line of a target, where the pointer stands.
pub(crate) fn ask_target(cells: &mut Cells, list: &DescriptorWords, w: u8, entry: u8) -> Helped
    requires typed { IsStore cells.old }
    requires usable { IsUsable cells.old (entries_in (slice_index list.now.words)) entry }
    requires asker { MayAsk cells.old w }
    ensures { (s : ℕ) → IsHelp (entries_in (slice_index list.now.words)) cells.old w s (AskTarget entry) result cells.new }
{
    let aim = aim_of(cells, list, entry);
    Helped {
        act: ask_word(cells, w, aim.target),
        next: Next::Step(after_ask_target(aim.count, entry)),
    }
}

/// Changes the pointer to the value that the verdict leaves, with the dirty bit.
pub(crate) fn put_final(
    cells: &mut Cells,
    list: &DescriptorWords,
    swap: u16,
    entry: u8,
    verdict: Verdict,
) -> Helped
    requires typed { IsStore cells.old }
    requires usable { IsUsable cells.old (entries_in (slice_index list.now.words)) entry }
    ensures { (w : ℕ) → IsHelp (entries_in (slice_index list.now.words)) cells.old w swap (PutFinal entry verdict) result cells.new }
{
    let aim = aim_of(cells, list, entry);
    let dirty = WordKind::Dirty(final_value(aim, verdict));
    let found = cas_word(cells, aim.target, WordKind::Swap(swap), dirty);
    Helped {
        act: found.act,
        next: after_put_final(swap, aim.count, entry, verdict, found.kind),
    }
}

/// Asks for the line of the final value.
pub(crate) fn ask_final(
    cells: &mut Cells,
    list: &DescriptorWords,
    w: u8,
    entry: u8,
    verdict: Verdict,
) -> Helped
    requires typed { IsStore cells.old }
    requires usable { IsUsable cells.old (entries_in (slice_index list.now.words)) entry }
    requires asker { MayAsk cells.old w }
    ensures { (s : ℕ) → IsHelp (entries_in (slice_index list.now.words)) cells.old w s (AskFinal entry verdict) result cells.new }
{
    let aim = aim_of(cells, list, entry);
    Helped {
        act: ask_word(cells, w, aim.target),
        next: Next::Step(HelpStep::FenceFinal { entry, verdict }),
    }
}

/// Clears the dirty bit of the final value.
pub(crate) fn clear_final(
    cells: &mut Cells,
    list: &DescriptorWords,
    entry: u8,
    verdict: Verdict,
) -> Helped
    requires typed { IsStore cells.old }
    requires usable { IsUsable cells.old (entries_in (slice_index list.now.words)) entry }
    ensures { (w s : ℕ) → IsHelp (entries_in (slice_index list.now.words)) cells.old w s (ClearFinal entry verdict) result cells.new }
{
    let aim = aim_of(cells, list, entry);
    Helped {
        act: clear_value(cells, aim.target, final_value(aim, verdict)),
        next: finished(aim.count, entry, verdict),
    }
}
