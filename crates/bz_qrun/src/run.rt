//! Running a queue's script.
ghost use Rattle.std.specs.Prelude.{◌≡◌, ◌≤◌, ℕ, [], length, None, Some, Ok, IfOk, IfErr, IsErrOf};
ghost use Rattle.bz_layout.specs.declared.limits.TheConstants.{MIN_MARKS, MAX_MARKS};
ghost use Rattle.bz_qscript.specs.ItemLaws.{IsJob};
ghost use Rattle.bz_qscript.specs.Script.{job_of, script_of};
ghost use Rattle.bz_ring.specs.Fresh.{IsRing, fresh_words};
ghost use Rattle.bz_script.specs.declared.read.TheConstants.{SCRIPT_BYTES};
ghost use Rattle.bz_qrun.specs.Run.{size_in, IsNewFor, IsLineFault, Tells, HasRun, RunsJob, RunsScript, report_in};

use crate::fault::QueueFault;
use bz_io::Sink;
use bz_layout::{MAX_CALLS, MAX_WORKERS};
use bz_oom::Memory;
use bz_qsched::{ItemsEnd, Waiting, run_items};
use bz_qscript::laws::scripts_are_jobs;
use bz_qscript::{QScript, read_queue_script};
use bz_qtext::write_queue_report;
use bz_queue::{QOpenError, QueueWorld};
use bz_ring::Ring;
use bz_script::ScriptFault;
use bz_text::TextError;
use std::alloc::Global;

// The script that the bytes are, whose parts are in their ranges.
fn read(alloc: Global, bytes: &[u8]) -> Result<QScript, QueueFault>
    requires { length bytes.now ≤ SCRIPT_BYTES }
    ensures ok { IfOk result (λ script. script_of bytes.now ≡ Ok (job_of script)) }
    ensures job { IfOk result (λ script. IsJob (job_of script)) }
    ensures err { IfErr result (IsLineFault (script_of bytes.now)) }
{
    scripts_are_jobs();
    match read_queue_script(alloc, bytes) {
        Ok(script) => Ok(script),
        Err(ScriptFault::Rule { line, rule }) => Err(QueueFault::Line { line, rule }),
        Err(ScriptFault::Memory) => Err(QueueFault::Memory),
    }
}

// A queue over fresh memory, for a script.
fn open(alloc: Global, script: &QScript, marks: u32) -> Result<QueueWorld, Memory>
    requires job { IsJob (job_of script.now) }
    requires marks { (MIN_MARKS ≤ marks) × (marks ≤ MAX_MARKS) }
    ensures { IfOk result (IsNewFor (job_of script.now) marks) }
{
    match QueueWorld::open(
        alloc,
        script.capacity,
        script.swaps,
        MAX_WORKERS,
        marks,
        MAX_CALLS,
    ) {
        Ok(queue) => Ok(queue),
        Err(QOpenError::Memory) => Err(Memory),
        Err(_) => unreachable!(),
    }
}

// How many words the memory of a script has.
fn words_of(script: &QScript) -> u32
    requires { IsJob (job_of script.now) }
    ensures { result ≡ size_in (job_of script.now) }
{
    let ring = Ring {
        capacity: script.capacity,
        swaps: script.swaps,
    };
    ring.words()
}

// Writes the report, and answers how the run has ended.
fn tell<K: Sink>(
    alloc: Global,
    queue: &QueueWorld,
    capacity: u32,
    end: ItemsEnd,
    sink: &mut K,
) -> Result<(), QueueFault>
    requires ring { IsRing queue.now.numbers.ring }
    requires capacity { capacity ≡ queue.now.numbers.ring.capacity }
    requires start { queue.now.log.start ≡ fresh_words queue.now.numbers.ring }
    ensures told { Tells end (report_in (Some queue.now)) (K.held sink.old) (K.held sink.new) (K.faults sink.old) (K.faults sink.new) result }
    ensures memory { IsErrOf result QueueFault.Memory → sink.new ≡ sink.old }
    ensures later { K.faults sink.old ≤ K.faults sink.new }
{
    match write_queue_report(alloc, queue, capacity, sink) {
        Err(TextError::Write) => Err(QueueFault::Write),
        Err(TextError::Memory) => Err(QueueFault::Memory),
        Ok(()) => match end {
            ItemsEnd::Finished => Ok(()),
            ItemsEnd::Limit(which) => Err(QueueFault::Limit(which)),
        },
    }
}

// Runs a script over a queue in which nothing has happened.
fn run_over<K: Sink>(
    alloc: Global,
    script: &QScript,
    queue: QueueWorld,
    waiting: Waiting,
    sink: &mut K,
) -> (QueueWorld, Result<(), QueueFault>)
    requires job { IsJob (job_of script.now) }
    requires new { (marks : ℕ) × IsNewFor (job_of script.now) marks queue }
    requires none_wait { waiting.calls ≡ [] }
    requires room { length script.now.items.items ≤ waiting.room }
    ensures ran { (marks : ℕ) → IsNewFor (job_of script.now) marks queue → HasRun (job_of script.now) marks result.0 (K.held sink.old) (K.held sink.new) (K.faults sink.old) (K.faults sink.new) result.1 }
    ensures memory { IsErrOf result.1 QueueFault.Memory → sink.new ≡ sink.old }
    ensures later { K.faults sink.old ≤ K.faults sink.new }
{
    let mut queue = queue;
    let mut waiting = waiting;
    let end = run_items(&mut queue, &mut waiting, &script.items, words_of(script));
    let told = tell(alloc, &queue, script.capacity, end, sink);
    (queue, told)
}

// Runs a script, over fresh memory.
fn run_script<K: Sink>(
    alloc: Global,
    script: &QScript,
    marks: u32,
    sink: &mut K,
) -> (Option<QueueWorld>, Result<(), QueueFault>)
    requires job { IsJob (job_of script.now) }
    requires marks { (MIN_MARKS ≤ marks) × (marks ≤ MAX_MARKS) }
    ensures runs { RunsJob (job_of script.now) marks result.0 (K.held sink.old) (K.held sink.new) (K.faults sink.old) (K.faults sink.new) result.1 }
    ensures none { result.0 ≡ None → sink.new ≡ sink.old }
    ensures memory { IsErrOf result.1 QueueFault.Memory → sink.new ≡ sink.old }
    ensures later { K.faults sink.old ≤ K.faults sink.new }
{
    let waiting = match Waiting::open(alloc, script.items.len()) {
        Ok(waiting) => waiting,
        Err(Memory) => return (None, Err(QueueFault::Memory)),
    };
    match open(alloc, script, marks) {
        Ok(queue) => {
            let (queue, told) = run_over(alloc, script, queue, waiting, sink);
            (Some(queue), told)
        }
        Err(Memory) => (None, Err(QueueFault::Memory)),
    }
}

/// Reads a queue's script, runs it over fresh memory with 64 workers, so many marks and 65,536 calls, and writes its report. The
/// queue is given where it was opened. Without one the sink has taken nothing.
pub fn run_queue<K: Sink>(
    alloc: Global,
    bytes: &[u8],
    marks: u32,
    sink: &mut K,
) -> (Option<QueueWorld>, Result<(), QueueFault>)
    requires bytes { length bytes.now ≤ SCRIPT_BYTES }
    requires marks { (MIN_MARKS ≤ marks) × (marks ≤ MAX_MARKS) }
    // the answer, with its cause
    ensures runs { RunsScript bytes.now marks result.0 (K.held sink.old) (K.held sink.new) (K.faults sink.old) (K.faults sink.new) result.1 }
    // without a queue the sink is as it was, and where memory was wanting; the count of faults only grows
    ensures none { result.0 ≡ None → sink.new ≡ sink.old }
    ensures memory { IsErrOf result.1 QueueFault.Memory → sink.new ≡ sink.old }
    ensures later { K.faults sink.old ≤ K.faults sink.new }
{
    match read(alloc, bytes) {
        Ok(script) => run_script(alloc, &script, marks, sink),
        Err(fault) => (None, Err(fault)),
    }
}
