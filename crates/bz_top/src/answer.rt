//! What the program does without threads: all of it, but for the scripts that have a run on threads.
ghost use Rattle.std.specs.Prelude.{◌≡◌, ◌≤◌, length, map, None};
ghost use Rattle.bz_gen.specs.Workload.{workload_of};
ghost use Rattle.bz_gen.specs.declared.workload.TheConstants.{MOST_CALLS};
ghost use Rattle.bz_layout.specs.declared.limits.TheConstants.{MIN_MARKS, MAX_MARKS, MIN_WORKERS, MAX_WORKERS as MOST_WORKERS};
ghost use Rattle.bz_script.specs.Script.{job_of};
ghost use Rattle.bz_script.specs.ItemLaws.{IsJob};
ghost use Rattle.bz_top.specs.Answers.{AnswersScript, AnswersBytes, AnswersSource, IsAnswered, IsAnsweredInWorld};
ghost use Rattle.bz_top.specs.Bases.{IsBase, IsBaseOf};
ghost use Rattle.bz_top.specs.Commands.{config_of};
ghost use Rattle.bz_top.specs.Endings.{Outside};
ghost use Rattle.bz_top.specs.Parts.{given, sunk, RanScript};
ghost use Rattle.bz_top.specs.Threads.{needs_threads as is_threads, has_threads as some_threads};

use crate::load::load;
use crate::open::numbers_of;
use crate::outcome::{Outcome, without_queue};
use crate::program::{WorldEnd, no_memory, refuse, report_broken, run_script};
use crate::queue::run_queue_source;
use crate::turns::is_on_threads;
use bz_cli::{Command, CommandLine, WordsError, read_words};
use bz_gen::generate;
use bz_gen::laws::workloads_are_jobs;
use bz_image::Image;
use bz_io::{ReadFault, Sink, Source, read_all};
use bz_oom::Memory;
use bz_script::{Item, SCRIPT_BYTES, Script, ScriptFault, read_script};
use std::alloc::Global;

/// What came of the words of a command line without threads.
#[derive(Drop)]
pub enum Answer {
    /// The program has ended.
    Ended(Outcome),

    /// A script has a run on threads: nothing of it was run, and nothing was written.
    NeedsThreads(Waiting),
}

/// The same of a command that has no queue.
#[derive(Drop)]
pub(crate) enum WorldAnswer {
    /// The program has ended.
    Ended(WorldEnd),

    /// A script has a run on threads: nothing of it was run, and nothing was written.
    NeedsThreads(Waiting),
}

/// A script that waits for threads: the command line, the image that it runs over if there is one, and the script.
#[derive(Drop)]
pub struct Waiting {
    pub(crate) line: CommandLine,
    pub(crate) base: Option<Image>,
    pub(crate) script: Script,
}

// Whether an item is a run on threads.
fn needs_threads(item: &Item) -> bool
    ensures { result ≡ is_threads item.now }
{
    match item {
        Item::Run(plan) => is_on_threads(plan),
        Item::Queue(_, _) => false,
        Item::Arm { flush: _, seed: _ } => false,
        Item::Power => false,
    }
}

// Whether one of the items is.
fn has_threads(items: &[Item]) -> bool
    ensures { result ≡ some_threads items.now }
{
    for item in items {
        if needs_threads(item) {
            return true;
        }
    }
    false
}

// Runs a script, or hands it back where it has a run on threads.
fn answer_script<K: Sink>(
    alloc: Global,
    line: CommandLine,
    base: Option<Image>,
    script: Script,
    sink: &mut K,
) -> WorldAnswer
    requires script { IsJob (job_of script) }
    requires marks { (MIN_MARKS ≤ line.marks) × (line.marks ≤ MAX_MARKS) }
    requires base { IsBaseOf (config_of line.marks script.nodes script.swaps) base }
    ensures { AnswersScript line base (job_of script)
        (sunk (K.held sink.old) (K.held sink.new) (K.faults sink.old) (K.faults sink.new))
        result }
{
    if has_threads(script.items.items()) {
        return WorldAnswer::NeedsThreads(Waiting { line, base, script });
    }
    WorldAnswer::Ended(run_script(alloc, line, base, &script, sink))
}

/// Reads the bytes as a script and runs it, with this limit on marks.
fn run_bytes<K: Sink>(
    alloc: Global,
    line: CommandLine,
    base: Option<Image>,
    bytes: &[u8],
    sink: &mut K,
) -> WorldAnswer
    requires fits { length bytes.now ≤ SCRIPT_BYTES }
    requires marks { (MIN_MARKS ≤ line.marks) × (line.marks ≤ MAX_MARKS) }
    requires base { IsBase line.marks base }
    ensures { AnswersBytes line base bytes.now
        (sunk (K.held sink.old) (K.held sink.new) (K.faults sink.old) (K.faults sink.new))
        result }
{
    match read_script(alloc, bytes, numbers_of(&base)) {
        Ok(script) => answer_script(alloc, line, base, script, sink),
        Err(ScriptFault::Rule { line, rule }) => {
            WorldAnswer::Ended(report_broken(alloc, line, rule, sink))
        }
        Err(ScriptFault::Memory) => WorldAnswer::Ended(no_memory(sink)),
    }
}

/// Runs the script that the source has left, with this limit on marks.
pub(crate) fn run_source<S: Source, K: Sink>(
    alloc: Global,
    line: CommandLine,
    base: Option<Image>,
    source: &mut S,
    sink: &mut K,
) -> WorldAnswer
    requires marks { (MIN_MARKS ≤ line.marks) × (line.marks ≤ MAX_MARKS) }
    requires base { IsBase line.marks base }
    ensures { AnswersSource line base
        (given (S.left source.old) (S.left source.new) (S.faults source.old) (S.faults source.new))
        (sunk (K.held sink.old) (K.held sink.new) (K.faults sink.old) (K.faults sink.new))
        result }
{
    match read_all(alloc, source, SCRIPT_BYTES) {
        Ok(bytes) => run_bytes(alloc, line, base, &bytes, sink),
        Err(ReadFault::Failed) => WorldAnswer::Ended(refuse(sink, b"fault: read\n", 1)),
        Err(ReadFault::TooLong) => WorldAnswer::Ended(refuse(sink, b"fault: script too long\n", 3)),
        Err(ReadFault::Memory) => WorldAnswer::Ended(no_memory(sink)),
    }
}

/// Makes the workload of a seed and runs it.
fn run_workload<K: Sink>(
    alloc: Global,
    line: CommandLine,
    seed: u64,
    calls: u32,
    workers: u32,
    sink: &mut K,
) -> WorldEnd
    requires calls { (1 ≤ calls) × (calls ≤ MOST_CALLS) }
    requires workers { (MIN_WORKERS ≤ workers) × (workers ≤ MOST_WORKERS) }
    requires marks { (MIN_MARKS ≤ line.marks) × (line.marks ≤ MAX_MARKS) }
    ensures { RanScript line.command line.marks None (workload_of seed calls workers)
        (sunk (K.held sink.old) (K.held sink.new) (K.faults sink.old) (K.faults sink.new))
        result.status result.lab }
{
    workloads_are_jobs();
    match generate(alloc, seed, calls, workers) {
        Ok(script) => run_script(alloc, line, None, &script, sink),
        Err(Memory) => no_memory(sink),
    }
}

// The answer of a command that has no queue, as that of any command.
fn answer_of(answer: WorldAnswer) -> Answer
    ensures { (o : Outside) → IsAnsweredInWorld o answer → IsAnswered o result }
{
    match answer {
        WorldAnswer::Ended(end) => Answer::Ended(without_queue(end)),
        WorldAnswer::NeedsThreads(waiting) => Answer::NeedsThreads(waiting),
    }
}

/// All that the program does without threads: a script that has a run on threads is handed back, and each other command is
/// done. It has no handle, so it comes back. `words` are the command line's words without the program's name.
pub fn top_without_threads<S: Source, K: Sink>(
    alloc: Global,
    words: &[&str],
    source: &mut S,
    sink: &mut K,
) -> Answer
    ensures answered { IsAnswered
        (record {
          words = map (λ word. word.now) words.now;
          left = S.left source.old;
          left_after = S.left source.new;
          read_faults = S.faults source.old;
          read_faults_after = S.faults source.new;
          held = K.held sink.old;
          held_after = K.held sink.new;
          write_faults = K.faults sink.old;
          write_faults_after = K.faults sink.new;
        })
        result }
{
    let line = match read_words(alloc, words) {
        Ok(line) => line,
        Err(WordsError::Usage) => {
            return answer_of(WorldAnswer::Ended(refuse(sink, b"fault: usage\n", 2)));
        }
        Err(WordsError::Memory) => return answer_of(WorldAnswer::Ended(no_memory(sink))),
    };
    match line.command {
        Command::Run => answer_of(run_source(alloc, line, None, source, sink)),
        Command::Dump => answer_of(run_source(alloc, line, None, source, sink)),
        Command::Trace => answer_of(run_source(alloc, line, None, source, sink)),
        Command::Load => answer_of(load(alloc, line, source, sink)),
        Command::Queue => Answer::Ended(run_queue_source(alloc, line.marks, source, sink)),
        Command::Work {
            seed,
            calls,
            workers,
        } => answer_of(WorldAnswer::Ended(run_workload(alloc, line, seed, calls, workers, sink))),
    }
}
