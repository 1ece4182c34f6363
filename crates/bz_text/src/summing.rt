//! Summing up a journal.
ghost use Rattle.std.specs.Prelude.{◌≡◌, ◌<◌, ◌+◌, ◌^◌, ℕ, OnOk, IfOk, length, Some};
ghost use Rattle.bz_call.specs.Map.{Map, apply};
ghost use Rattle.bz_call.specs.declared.calls.Call.{Call as Asked};
ghost use Rattle.bz_judge.specs.Held.{IsImage, IsImageOf};
ghost use Rattle.bz_layout.specs.declared.config.Config.{Config};
ghost use Rattle.bz_mark.specs.Moments.{at_moment, mark_at};
ghost use Rattle.bz_sound.specs.Calls.{map_after};
ghost use Rattle.bz_text.specs.Reading.{IsReadTo};
ghost use Rattle.bz_text.specs.Report.{ended_calls};
ghost use Rattle.bz_text.specs.Summary.{counts_of, pairs_left};
ghost use Rattle.bz_text.specs.Summing.{AreKeysOf, IsCountedTo};

use crate::counts::{Counts, count, count_none};
use crate::keys::{keys_at_start, take_step};
use bz_key::Key;
use bz_mark::{Journal, Mark};
use bz_oom::Memory;
use std::alloc::Global;
use std::collections::BTreeSet;

/// What the summary of a journal tells.
#[derive(Clone, Copy)]
pub(crate) struct Sums {
    pub counts: Counts,
    pub pairs: u64,
}

/// Sums up a journal, mark by mark.
pub(crate) fn sum_up(alloc: Global, journal: &Journal) -> Result<Sums, Memory>
    requires { IsImage journal.now.start }
    ensures counts { IfOk result (λ sums. sums.counts ≡ counts_of journal.now.past) }
    ensures pairs { (c : Config) → IsImageOf c journal.now.start → IfOk result (λ sums. sums.pairs ≡ pairs_left c journal.now) }
{
    let mut begins: [Option<u32>; 256] = [None; 256];
    let mut counts = count_none();
    let mut keys = keys_at_start(alloc, journal.start())?;
    for moment in 0..journal.length() {
        let mark = journal.mark(moment);
        follow_effect(journal, moment, &mark, &begins, &mut keys)?;
        sum_mark(journal, moment, &mark, &mut begins, &mut counts);
    }
    let pairs = keys.len() as u64;
    Ok(Sums { counts, pairs })
}

/// Looks at one mark: keeps where each open call began, and counts an End by its reply.
fn sum_mark(
    journal: &Journal,
    moment: u32,
    mark: &Mark,
    begins: &mut [Option<u32>; 256],
    counts: &mut Counts,
)
    requires within { moment < length journal.now.past }
    requires seen { mark_at moment journal.now.past ≡ Some mark.now }
    requires few { length journal.now.past < 2 ^ 32 }
    requires before { IsCountedTo journal.now.past moment begins.old counts.old }
    ensures { IsCountedTo journal.now.past (moment + 1) begins.new counts.new }
{
    match *mark {
        Mark::Begin { w, n: _, call: _ } => {
            begins[w as usize] = Some(moment);
        }
        Mark::End {
            w,
            n: _,
            reply,
            at: _,
        } => {
            begins[w as usize] = None;
            count(counts, reply);
        }
        Mark::Cut => {
            begins.fill(None);
        }
        _ => {}
    }
}

/// Looks at one mark: where it is an effect, makes the step of its call in the map.
pub(crate) fn follow_effect(
    journal: &Journal,
    moment: u32,
    mark: &Mark,
    begins: &[Option<u32>; 256],
    keys: &mut BTreeSet<Key>,
) -> Result<(), Memory>
    requires within { moment < length journal.now.past }
    requires seen { mark_at moment journal.now.past ≡ Some mark.now }
    requires table { IsReadTo journal.now.past moment begins.now (ended_calls (at_moment moment journal.now.past)) }
    ensures { OnOk result ((start : Map) → AreKeysOf (map_after start (at_moment moment journal.now.past)) keys.old.keys
        → AreKeysOf (map_after start (at_moment (moment + 1) journal.now.past)) keys.new.keys) }
{
    match *mark {
        Mark::Effect { w, n: _ } => match begins[w as usize] {
            Some(begun) => {
                take_effect(journal, begun, keys)?;
                Ok(())
            }
            None => Ok(()),
        },
        _ => Ok(()),
    }
}

/// Makes the step of the call that began at a moment.
fn take_effect(journal: &Journal, begun: u32, keys: &mut BTreeSet<Key>) -> Result<(), Memory>
    requires { begun < length journal.now.past }
    ensures { OnOk result ((w n : ℕ) (call : Asked) (map : Map) → mark_at begun journal.now.past ≡ Some (Mark.Begin w n call)
        → AreKeysOf map keys.old.keys → AreKeysOf (apply map call).map keys.new.keys) }
{
    match journal.mark(begun) {
        Mark::Begin { w: _, n: _, call } => take_step(keys, call),
        _ => Ok(()),
    }
}
