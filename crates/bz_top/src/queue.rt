//! The command `queue`.
ghost use Rattle.std.specs.Prelude.{◌≡◌, ◌≤◌, length};
ghost use Rattle.bz_layout.specs.declared.limits.TheConstants.{MIN_MARKS, MAX_MARKS};
ghost use Rattle.bz_top.specs.Parts.{given, sunk};
ghost use Rattle.bz_top.specs.QueueEndings.{IsRightIn, queue_limit_text};
ghost use Rattle.bz_top.specs.QueueParts.{IsTold, RanQueueBytes, RanQueueSource};
ghost use Rattle.bz_top.specs.Faults.{fault_line};

use crate::outcome::{Outcome, without_queue};
use crate::program::{no_memory, refuse, report_broken, written};
use bz_io::{ReadFault, Sink, Source, read_all};
use bz_qrun::{QueueFault, run_queue};
use bz_queue::{QLimit, QueueWorld};
use bz_script::SCRIPT_BYTES;
use std::alloc::Global;

// The fault line of a limit.
fn limit_line(which: QLimit) -> &'static [u8]
    ensures { result.now ≡ fault_line (queue_limit_text which) }
{
    match which {
        QLimit::Marks => b"fault: limit marks\n",
        QLimit::Calls => b"fault: limit calls\n",
    }
}

// The journal of a queue is sound. The call does nothing.
fn is_right(queue: &Option<QueueWorld>)
    ensures { IsRightIn queue.now }
{
    match queue {
        Some(queue) => {
            queue.length();
        }
        None => {}
    }
}

// Answers how a script was done. Behind a report stands the line of a limit; any other fault line stands alone.
fn tell<K: Sink>(
    alloc: Global,
    queue: Option<QueueWorld>,
    answer: Result<(), QueueFault>,
    sink: &mut K,
) -> Outcome
    ensures { IsTold queue answer
        (sunk (K.held sink.old) (K.held sink.new) (K.faults sink.old) (K.faults sink.new))
        result.status result.lab result.queue }
{
    match answer {
        Ok(()) => Outcome {
            status: 0,
            lab: None,
            queue,
        },
        Err(QueueFault::Limit(which)) => {
            let status = written(sink, limit_line(which), 5);
            Outcome {
                status,
                lab: None,
                queue,
            }
        }
        Err(QueueFault::Write) => Outcome {
            status: 4,
            lab: None,
            queue,
        },
        Err(QueueFault::Memory) => {
            let status = written(sink, b"fault: memory\n", 7);
            Outcome {
                status,
                lab: None,
                queue,
            }
        }
        Err(QueueFault::Line { line, rule }) => {
            without_queue(report_broken(alloc, line, rule, sink))
        }
    }
}

// Reads the bytes as the script of a queue and runs it, with this limit on marks.
fn run_bytes<K: Sink>(alloc: Global, marks: u32, bytes: &[u8], sink: &mut K) -> Outcome
    requires fits { length bytes.now ≤ SCRIPT_BYTES }
    requires marks { (MIN_MARKS ≤ marks) × (marks ≤ MAX_MARKS) }
    ensures { RanQueueBytes marks bytes.now
        (sunk (K.held sink.old) (K.held sink.new) (K.faults sink.old) (K.faults sink.new))
        result.status result.lab result.queue }
{
    let (queue, answer) = run_queue(alloc, bytes, marks, sink);
    is_right(&queue);
    tell(alloc, queue, answer, sink)
}

/// Runs the script of a queue that the source gives, with this limit on marks.
pub(crate) fn run_queue_source<S: Source, K: Sink>(
    alloc: Global,
    marks: u32,
    source: &mut S,
    sink: &mut K,
) -> Outcome
    requires marks { (MIN_MARKS ≤ marks) × (marks ≤ MAX_MARKS) }
    ensures { RanQueueSource marks
        (given (S.left source.old) (S.left source.new) (S.faults source.old) (S.faults source.new))
        (sunk (K.held sink.old) (K.held sink.new) (K.faults sink.old) (K.faults sink.new))
        result.status result.lab result.queue }
{
    match read_all(alloc, source, SCRIPT_BYTES) {
        Ok(bytes) => run_bytes(alloc, marks, &bytes, sink),
        Err(ReadFault::Failed) => without_queue(refuse(sink, b"fault: read\n", 1)),
        Err(ReadFault::TooLong) => without_queue(refuse(sink, b"fault: script too long\n", 3)),
        Err(ReadFault::Memory) => without_queue(no_memory(sink)),
    }
}
