//! Writing the report.
ghost use Rattle.std.specs.Prelude.{◌≡◌, ◌≤◌, ◌<◌, ◌+◌, ◌++◌, ℕ, List, [], length, OnOk, IfOk, IsErrOf, Some};
ghost use Rattle.std.specs.List.{flat_map};
ghost use Rattle.std.specs.Io.KnownBytes.{Appends};
ghost use Rattle.bz_io.specs.Faults.{Rose};
ghost use Rattle.bz_io.specs.Transfers.{GrewByFront};
ghost use Rattle.bz_ring.specs.Fresh.{IsRing, fresh_words};
ghost use Rattle.bz_ring.specs.Journal.{at_moment, mark_at};
ghost use Rattle.bz_qtext.specs.Lines.{line_of, power_line};
ghost use Rattle.bz_qtext.specs.Reading.{AreTold, IsReadTo};
ghost use Rattle.bz_qtext.specs.Report.{in_order, items_at_on, parts_text, report_of, text_of};

use crate::count::{follow_effect, tell_power};
use crate::ended::{QEnded, read_mark};
use crate::lines::{put_line, put_power};
use crate::open::{put_open_calls, tell_effect};
use crate::order::sort_calls;
use bz_io::{Failed, Sink, write_all};
use bz_mark::Mark;
use bz_oom::Memory;
use bz_queue::{QMark, QueueWorld};
use bz_text::{TextError, put};
use std::alloc::Global;

fn put_lines(alloc: Global, out: &mut Vec<u8>, calls: &[QEnded]) -> Result<(), Memory>
    ensures { OnOk result (out.new.items ≡ out.old.items ++ flat_map line_of calls.now) }
{
    for ended in calls {
        put_line(alloc, out, *ended)?;
    }
    Ok(())
}

/// Puts a part, but for the calls that are open: how many items there were when the power came on, if it did, and these ended
/// calls in the order of their moments.
fn put_part(
    alloc: Global,
    out: &mut Vec<u8>,
    on: Option<u32>,
    ended: &[QEnded],
) -> Result<(), Memory>
    ensures { OnOk result (out.new.items ≡ out.old.items ++ (power_line on ++ flat_map line_of (in_order ended.now))) }
{
    put_power(alloc, out, on)?;
    let mut calls: Vec<QEnded> = Vec::new(alloc);
    calls.extend_from_slice(ended)?;
    sort_calls(&mut calls)?;
    put_lines(alloc, out, &calls)
}

/// Looks at one mark: where it is a cut, puts the part that it ends.
fn put_cut(
    alloc: Global,
    out: &mut Vec<u8>,
    queue: &QueueWorld,
    moment: u32,
    mark: &QMark,
    on: Option<u32>,
    ended: &[QEnded],
    begins: &[Option<u32>; 256],
    effects: &[bool; 256],
) -> Result<(), Memory>
    requires within { moment < length queue.now.log.past }
    requires seen { mark_at moment queue.now.log.past ≡ Some mark.now }
    requires table { IsReadTo queue.now.log.past moment begins.now ended.now }
    requires told { AreTold queue.now.log.past moment effects.now }
    ensures { OnOk result ((capacity : ℕ) (first : List ℕ) → on ≡ items_at_on capacity first (at_moment moment queue.now.log.past)
        → out.old.items ≡ parts_text capacity first (at_moment moment queue.now.log.past) → out.new.items ≡ parts_text capacity first (at_moment (moment + 1) queue.now.log.past)) }
{
    match *mark {
        QMark::Memory(memory) => match memory {
            Mark::Cut => {
                put_part(alloc, out, on, ended)?;
                put_open_calls(alloc, out, queue, moment, begins, effects)?;
                put(out, b"power cut\n")?;
                Ok(())
            }
            _ => Ok(()),
        },
        _ => Ok(()),
    }
}

/// The report of a queue of so many cells, whose list was empty at the start.
fn report_text(alloc: Global, queue: &QueueWorld, capacity: u32) -> Result<Vec<u8>, Memory>
    ensures { IfOk result (λ text. text.items ≡ text_of capacity [] queue.now.log.past) }
{
    let mut begins: [Option<u32>; 256] = [None; 256];
    let mut effects = [false; 256];
    let mut on: Option<u32> = None;
    let mut count = 0u32;
    let mut ended: Vec<QEnded> = Vec::new(alloc);
    let mut out: Vec<u8> = Vec::new(alloc);
    for moment in 0..queue.length() {
        let mark = queue.mark(moment);
        put_cut(
            alloc, &mut out, queue, moment, &mark, on, &ended, &begins, &effects,
        )?;
        tell_power(queue, moment, &mark, count, &mut on);
        count = follow_effect(queue, moment, &mark, &begins, capacity, count);
        tell_effect(queue, moment, &mark, &mut effects);
        read_mark(queue, moment, &mark, &mut begins, &mut ended)?;
    }
    put_part(alloc, &mut out, on, &ended)?;
    Ok(out)
}

/// Writes the report of a queue's journal, divided at each power cut: how many items there were when the power came on, a line for
/// each call that has ended, in the order of their moments, and at a cut a line for each call that was open. The queue has so many
/// cells, and was opened over fresh memory.
pub fn write_queue_report<K: Sink>(
    alloc: Global,
    queue: &QueueWorld,
    capacity: u32,
    sink: &mut K,
) -> Result<(), TextError>
    requires ring { IsRing queue.now.numbers.ring }
    requires capacity { capacity ≡ queue.now.numbers.ring.capacity }
    requires start { queue.now.log.start ≡ fresh_words queue.now.numbers.ring }
    ensures ok { OnOk result (Appends (K.held sink.old) (K.held sink.new) (report_of queue.now.numbers.ring queue.now.log.start queue.now.log.past)) }
    ensures write { IsErrOf result TextError.Write → Rose (K.faults sink.old) (K.faults sink.new) }
    ensures part { IsErrOf result TextError.Write → GrewByFront (K.held sink.old) (K.held sink.new) (report_of queue.now.numbers.ring queue.now.log.start queue.now.log.past) }
    ensures memory { IsErrOf result TextError.Memory → sink.new ≡ sink.old }
    ensures later { K.faults sink.old ≤ K.faults sink.new }
{
    let text = match report_text(alloc, queue, capacity) {
        Ok(text) => text,
        Err(Memory) => return Err(TextError::Memory),
    };
    match write_all(sink, &text) {
        Ok(()) => Ok(()),
        Err(Failed) => Err(TextError::Write),
    }
}
