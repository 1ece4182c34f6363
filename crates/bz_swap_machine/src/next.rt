//! What follows an act on a published swap, told by what the act found. `count` is the number of the swap's
//! entries.

ghost use Rattle.std.specs.Prelude.{◌≡◌, ◌<◌, ◌≤◌, ◌+◌};
ghost use Rattle.bz_swap_machine.specs.Machine.{Entries, Memory};
ghost use Rattle.bz_swap_machine.specs.HelpActs.{passed as passed_by, finished as finished_by, by_status as step_by, after_look_under as step_under, after_install_tag as after_install_by, after_put_final as after_put_by};
ghost use Rattle.bz_swap_machine.specs.declared.place.Next.TheVariants.{Step};
ghost use Rattle.bz_swap_machine.specs.declared.place.HelpStep.TheVariants.{LookUnderTag};

use crate::place::{HelpStep, Next};
use crate::status::{SwapStatus, Verdict};
use bz_word::WordKind;

/// What follows when the pointer of an entry stands.
pub fn passed(count: u8, entry: u8) -> HelpStep
    requires { entry < count }
    ensures { (x : Entries) → x.count ≡ count → result ≡ passed_by x entry }
{
    if entry + 1 == count {
        HelpStep::AskTarget(0)
    } else {
        HelpStep::InstallTag(entry + 1)
    }
}

/// What follows when an entry holds its final value.
pub fn finished(count: u8, entry: u8, verdict: Verdict) -> Next
    requires { entry < count }
    ensures { (x : Entries) → x.count ≡ count → result ≡ finished_by x entry verdict }
{
    if entry + 1 == count {
        Next::Complete(verdict)
    } else {
        Next::Step(HelpStep::PutFinal {
            entry: entry + 1,
            verdict,
        })
    }
}

/// What follows a load of the status, or a compare-and-swap that found it changed.
pub fn by_status(found: SwapStatus) -> HelpStep
    ensures { result ≡ step_by found }
{
    match found {
        SwapStatus::Free => HelpStep::InstallTag(0),
        SwapStatus::Undecided => HelpStep::InstallTag(0),
        SwapStatus::Deciding(verdict) => HelpStep::AskStatus(verdict),
        SwapStatus::Decided(verdict) => HelpStep::PutFinal { entry: 0, verdict },
    }
}

// A tag of the swap stands: load the status under it.
fn look_under(entry: u8, worker: u8, seq: u64) -> Next
    ensures { result ≡ Step (LookUnderTag entry worker seq) }
{
    Next::Step(HelpStep::LookUnderTag { entry, worker, seq })
}

/// What follows the load of the status under a tag.
pub fn after_look_under(entry: u8, worker: u8, seq: u64, found: SwapStatus) -> HelpStep
    ensures { result ≡ step_under entry worker seq found }
{
    match found {
        SwapStatus::Undecided => HelpStep::InstallPointer { entry, worker, seq },
        _ => HelpStep::RemoveTag { entry, worker, seq },
    }
}

/// What follows the compare-and-swap of an entry's expected value to this worker's tag `seq`.
pub fn after_install_tag(
    swap: u16,
    count: u8,
    entry: u8,
    expected: u64,
    worker: u8,
    seq: u64,
    found: WordKind,
) -> Next
    requires { entry < count }
    ensures { (x : Entries) (m : Memory) → x.count ≡ count → x.expected entry ≡ expected → m.next_tag worker ≡ seq →
        result ≡ (after_install_by x m worker swap entry found).next }
{
    match found {
        WordKind::Value(value) if value == expected => { look_under(entry, worker, seq) }
        WordKind::Value(_) => Next::Step(HelpStep::Decide(Verdict::Failed)),
        WordKind::Dirty(value) => Next::Step(HelpStep::AskDirty { entry, value }),
        WordKind::Swap(other) if other == swap => Next::Step(passed(count, entry)),
        WordKind::Swap(other) => Next::Meet(other),
        WordKind::Tag {
            swap: other,
            entry: _,
            worker: holder,
            seq: number,
        } => {
            if other == swap {
                look_under(entry, holder, number)
            } else {
                Next::Meet(other)
            }
        }
    }
}

/// What follows the compare-and-swap of an entry's pointer to the value that the verdict leaves.
pub fn after_put_final(swap: u16, count: u8, entry: u8, verdict: Verdict, found: WordKind) -> Next
    requires { entry < count }
    ensures { (x : Entries) (m : Memory) → x.count ≡ count → result ≡ (after_put_by x m swap entry verdict found).next }
{
    match found {
        WordKind::Swap(other) if other == swap => {
            Next::Step(HelpStep::AskFinal { entry, verdict })
        }
        WordKind::Tag {
            swap: other,
            entry: _,
            worker,
            seq,
        } if other == swap => Next::Step(HelpStep::SweepTag {
            entry,
            verdict,
            worker,
            seq,
        }),
        _ => finished(count, entry, verdict),
    }
}
