//! Acts that put a tag, look under it, and change it.

ghost use Rattle.std.specs.Prelude.{◌≡◌, ◌<◌, ◌≤◌, ◌^◌, ℕ, false, slice_index};
ghost use Rattle.bz_word.specs.Kinds.{IsKind};
ghost use Rattle.bz_swap_machine.specs.Machine.{Entries, Memory, entries_in};
ghost use Rattle.bz_swap_machine.specs.HelpActs.{after_install_tag as after_install_by, after_untag};
ghost use Rattle.bz_swap_machine.specs.Ranges.{IsTagger};
ghost use Rattle.bz_swap_machine.specs.declared.place.HelpStep.TheVariants.{InstallTag, LookUnderTag, InstallPointer, RemoveTag, SweepTag};
ghost use Rattle.bz_swap_cells.specs.Store.{Beside, IsStore, MayTag, kind_at, typed};
ghost use Rattle.bz_swap_acts.specs.Parts.{IsHelp, IsMade, is_other_value};
ghost use Rattle.bz_swap_acts.specs.Ready.{IsUsable, LiesOutside};
ghost use Rattle.bz_swap_acts.specs.Rule.{is_fence_act};
ghost use Rattle.bz_swap_acts.specs.Writes.{StaysOutside};

use crate::descriptor::load_status;
use crate::entry::aim_of;
use crate::help::Helped;
use crate::words::{FoundKind, cas_tag, cas_word};
use bz_swap_cells::Cells;
use bz_swap_machine::{
    DescriptorWords, HelpStep, Next, Verdict, after_install_tag, after_look_under, finished, passed,
};
use bz_word::WordKind;

/// A tag that was found: the entry that claims the word, and the worker that put it.
#[derive(Clone, Copy)]
pub(crate) struct OldTag {
    pub(crate) swap: u16,
    pub(crate) entry: u8,
    pub(crate) worker: u8,
    pub(crate) seq: u64,
}

impl OldTag {
    ghost use Rattle.std.specs.Prelude.{◌≡◌};

    /// The tag of these parts.
    pub(crate) fn new(swap: u16, entry: u8, worker: u8, seq: u64) -> OldTag
        ensures { result ≡ record { swap = swap; entry = entry; worker = worker; seq = seq } }
    {
        OldTag {
            swap,
            entry,
            worker,
            seq,
        }
    }
}

// Whether a plain value was found that is not the expected one.
fn is_miss(found: WordKind, expected: u64) -> bool
    ensures { result ≡ is_other_value found expected }
{
    match found {
        WordKind::Value(value) => value != expected,
        _ => false,
    }
}

// Puts a tag of the worker where the expected value stands; where another value stands, notes the miss.
fn put_tag(cells: &mut Cells, a: u32, expected: u64, swap: u16, entry: u8, worker: u8) -> FoundKind
    requires typed { IsStore cells.old }
    requires lies { LiesOutside cells.old a }
    requires expected { expected < 2 ^ 61 }
    requires entry { entry < 4 }
    requires worker { MayTag cells.old worker }
    requires descriptor { swap < cells.old.swaps }
    ensures found { result.kind ≡ kind_at cells.old.swaps cells.old.cached a }
    ensures memory { (x : Entries) (b : Beside) → x.target entry ≡ a → x.expected entry ≡ expected →
        typed cells.new b ≡ (after_install_by x (typed cells.old b) worker swap entry result.kind).memory }
    ensures made { IsMade cells.old result.act cells.new }
    ensures flush { is_fence_act result.act ≡ false }
    ensures writes { StaysOutside cells.old.swaps result.act }
{
    let found = cas_tag(cells, a, expected, swap, entry, worker);
    if is_miss(found.kind, expected) {
        cells.note_miss(swap);
    }
    found
}

/// Puts a fresh tag over the expected value of an entry.
pub(crate) fn install_tag(
    cells: &mut Cells,
    list: &DescriptorWords,
    swap: u16,
    entry: u8,
    worker: u8,
) -> Helped
    requires typed { IsStore cells.old }
    requires descriptor { swap < cells.old.swaps }
    requires usable { IsUsable cells.old (entries_in (slice_index list.now.words)) entry }
    requires worker { MayTag cells.old worker }
    ensures { IsHelp (entries_in (slice_index list.now.words)) cells.old worker swap (InstallTag entry) result cells.new }
{
    let aim = aim_of(cells, list, entry);
    let seq = cells.next_tag(worker);
    let found = put_tag(cells, aim.target, aim.expected, swap, entry, worker);
    Helped {
        act: found.act,
        next: after_install_tag(
            swap,
            aim.count,
            entry,
            aim.expected,
            worker,
            seq,
            found.kind,
        ),
    }
}

/// Loads the status while a tag stands.
pub(crate) fn look_under_tag(cells: &Cells, tag: OldTag) -> Helped
    requires typed { IsStore cells.now }
    requires descriptor { tag.swap < cells.now.swaps }
    ensures { (x : Entries) (w : ℕ) → IsHelp x cells.now w tag.swap (LookUnderTag tag.entry tag.worker tag.seq) result cells.now }
{
    let found = load_status(cells, tag.swap);
    Helped {
        act: found.act,
        next: Next::Step(after_look_under(tag.entry, tag.worker, tag.seq, found.status)),
    }
}

// Changes a tag to another word, and says what follows.
fn untag(
    cells: &mut Cells,
    a: u32,
    tag: OldTag,
    new: WordKind,
    changed: Next,
    unchanged: Next,
) -> Helped
    requires typed { IsStore cells.old }
    requires lies { LiesOutside cells.old a }
    requires entry { tag.entry < 4 }
    requires tagger { IsTagger tag.worker tag.seq }
    requires new_kind { IsKind new }
    ensures memory { (x : Entries) (b : Beside) → x.target tag.entry ≡ a →
        typed cells.new b ≡ (after_untag x (typed cells.old b) tag.swap tag.entry tag.worker tag.seq new changed unchanged (kind_at cells.old.swaps cells.old.cached a)).memory }
    ensures next { (x : Entries) (m : Memory) →
        result.next ≡ (after_untag x m tag.swap tag.entry tag.worker tag.seq new changed unchanged (kind_at cells.old.swaps cells.old.cached a)).next }
    ensures made { IsMade cells.old result.act cells.new }
    ensures flush { is_fence_act result.act ≡ false }
    ensures writes { StaysOutside cells.old.swaps result.act }
{
    let word = WordKind::Tag {
        swap: tag.swap,
        entry: tag.entry,
        worker: tag.worker,
        seq: tag.seq,
    };
    let found = cas_word(cells, a, word, new);
    Helped {
        act: found.act,
        next: if found.kind == word {
            changed
        } else {
            unchanged
        },
    }
}

/// Changes a tag to the pointer.
pub(crate) fn install_pointer(cells: &mut Cells, list: &DescriptorWords, tag: OldTag) -> Helped
    requires typed { IsStore cells.old }
    requires usable { IsUsable cells.old (entries_in (slice_index list.now.words)) tag.entry }
    requires tagger { IsTagger tag.worker tag.seq }
    ensures { (w : ℕ) → IsHelp (entries_in (slice_index list.now.words)) cells.old w tag.swap (InstallPointer tag.entry tag.worker tag.seq) result cells.new }
{
    let aim = aim_of(cells, list, tag.entry);
    let changed = Next::Step(passed(aim.count, tag.entry));
    let unchanged = Next::Step(HelpStep::InstallTag(tag.entry));
    untag(
        cells,
        aim.target,
        tag,
        WordKind::Swap(tag.swap),
        changed,
        unchanged,
    )
}

/// Changes a tag back to the expected value.
pub(crate) fn remove_tag(cells: &mut Cells, list: &DescriptorWords, tag: OldTag) -> Helped
    requires typed { IsStore cells.old }
    requires usable { IsUsable cells.old (entries_in (slice_index list.now.words)) tag.entry }
    requires tagger { IsTagger tag.worker tag.seq }
    ensures { (w : ℕ) → IsHelp (entries_in (slice_index list.now.words)) cells.old w tag.swap (RemoveTag tag.entry tag.worker tag.seq) result cells.new }
{
    let aim = aim_of(cells, list, tag.entry);
    let look = Next::Step(HelpStep::Look);
    untag(
        cells,
        aim.target,
        tag,
        WordKind::Value(aim.expected),
        look,
        look,
    )
}

/// Changes a late tag of a decided swap to the expected value.
pub(crate) fn sweep_tag(
    cells: &mut Cells,
    list: &DescriptorWords,
    verdict: Verdict,
    tag: OldTag,
) -> Helped
    requires typed { IsStore cells.old }
    requires usable { IsUsable cells.old (entries_in (slice_index list.now.words)) tag.entry }
    requires tagger { IsTagger tag.worker tag.seq }
    ensures { (w : ℕ) → IsHelp (entries_in (slice_index list.now.words)) cells.old w tag.swap (SweepTag tag.entry verdict tag.worker tag.seq) result cells.new }
{
    let aim = aim_of(cells, list, tag.entry);
    let changed = finished(aim.count, tag.entry, verdict);
    let unchanged = Next::Step(HelpStep::PutFinal {
        entry: tag.entry,
        verdict,
    });
    untag(
        cells,
        aim.target,
        tag,
        WordKind::Value(aim.expected),
        changed,
        unchanged,
    )
}
