//! The top call.
ghost use Rattle.std.specs.Prelude.{◌≡◌, ◌≢◌, ◌≤◌, ◌++◌, [], length, map, not, Some, None, codes};
ghost use Rattle.bz_layout.specs.declared.limits.TheConstants.{MIN_MARKS, MAX_MARKS, MAX_WORKERS as MOST_WORKERS};
ghost use Rattle.bz_judge.specs.Held.{IsImageOf};
ghost use Rattle.bz_sched.specs.Sums.{IsStockedAtFirst};
ghost use Rattle.bz_mark.specs.declared.power.Power.TheVariants.{Recovering};
ghost use Rattle.bz_top.specs.Commands.{config_of};
ghost use Rattle.bz_sound.specs.Power.Sound.{IsSound};
ghost use Rattle.bz_script.specs.Script.{job_of};
ghost use Rattle.bz_script.specs.ItemLaws.{IsJob};
ghost use Rattle.bz_script.specs.Order.{takes_no_cut};
ghost use Rattle.bz_text.specs.Report.{report_of};
ghost use Rattle.bz_text.specs.Summary.{summary_of};
ghost use Rattle.bz_top.specs.Faults.{fault_line, limit_text, broken_text};
ghost use Rattle.bz_top.specs.Bases.{Base, IsBaseOf};
ghost use Rattle.bz_top.specs.Endings.{IsMadeFor, printed, printed_before};
ghost use Rattle.bz_top.specs.QueueEndings.{EndsBy};
ghost use Rattle.bz_top.specs.Parts.{sunk, Says, SaysOrWants, Prints, RanWorld, RanScript};
ghost use Rattle.bz_top.specs.Threads.{AreRunBy};

use crate::answer::{Answer, Waiting, top_without_threads};
use crate::dump::dump;
use crate::faults::{broken_line, limit_line};
use crate::items::{ItemsEnd, run_items};
use crate::open::open_world;
use crate::outcome::{Outcome, without_queue};
use crate::threads::run_on_threads;
use crate::trace::trace;
use bz_cli::{Command, CommandLine};
use bz_image::Image;
use bz_io::{Failed, Sink, Source, write_all};
use bz_layout::{Config, MAX_CALLS, MAX_PAGES, MAX_WORKERS};
use bz_oom::Memory;
use bz_sched::{LimitKind, Queue, World};
use bz_script::{Script, ScriptRule};
use bz_text::{TextError, write_report, write_summary};
use bz_threads::Gate;
use std::alloc::Global;
use std::sync::Wait;
use std::thread::Threads;

/// How a command ended that has no queue: the exit status, and the world as the run left it, if there was one.
#[derive(Drop)]
pub(crate) struct WorldEnd {
    pub(crate) status: u8,
    pub(crate) lab: Option<World>,
}

/// Writes a text to its end, and answers the status that goes with it, or 4 where the sink fails.
pub(crate) fn written<K: Sink>(sink: &mut K, text: &[u8], status: u8) -> u8
    ensures { Says
        (sunk (K.held sink.old) (K.held sink.new) (K.faults sink.old) (K.faults sink.new))
        status text.now result }
{
    match write_all(sink, text) {
        Ok(()) => status,
        Err(Failed) => 4,
    }
}

/// Runs a script in a world that was opened for it.
fn run_world<K: Sink>(
    alloc: Global,
    line: CommandLine,
    script: &Script,
    world: World,
    mut queue: Queue,
    sink: &mut K,
) -> WorldEnd
    requires script { IsJob (job_of script.now) }
    requires runs { AreRunBy (λ plan. not (takes_no_cut plan)) (job_of script.now).items }
    requires first { world.at_start ≢ Recovering }
    requires new { world.log.past ≡ [] }
    requires workers { world.config.workers ≡ MOST_WORKERS }
    requires stocked { IsStockedAtFirst world }
    requires image { IsImageOf world.config world.log.start }
    requires none_wait { queue.calls ≡ [] }
    requires room { queue.room ≡ length (job_of script.now).items }
    ensures { (base : Base) → IsMadeFor line.marks base (job_of script.now) world → RanWorld line.command line.marks base (job_of script.now)
        (sunk (K.held sink.old) (K.held sink.new) (K.faults sink.old) (K.faults sink.new))
        result.status result.lab }
{
    let (world, end) = run_items(world, &mut queue, script.items.items());
    world.journal();
    match end {
        ItemsEnd::Finished => print(alloc, line.command, world, sink),
        ItemsEnd::Limit(which) => print_limit(alloc, line.command, world, which, sink),
        ItemsEnd::Memory => hold_up(world, sink),
    }
}

/// The numbers of a world with this limit on marks and these sizes.
pub(crate) fn config_for(marks: u32, nodes: u32, swaps: u32) -> Config
    ensures { result ≡ config_of marks nodes swaps }
{
    Config {
        nodes,
        swaps,
        workers: MAX_WORKERS,
        marks,
        calls: MAX_CALLS,
        pages: MAX_PAGES,
    }
}

/// Runs the script of a command over fresh memory or an image, with its limit on marks.
pub(crate) fn run_script<K: Sink>(
    alloc: Global,
    line: CommandLine,
    base: Option<Image>,
    script: &Script,
    sink: &mut K,
) -> WorldEnd
    requires script { IsJob (job_of script.now) }
    requires runs { AreRunBy (λ plan. not (takes_no_cut plan)) (job_of script.now).items }
    requires marks { (MIN_MARKS ≤ line.marks) × (line.marks ≤ MAX_MARKS) }
    requires base { IsBaseOf (config_of line.marks script.now.nodes script.now.swaps) base }
    ensures { RanScript line.command line.marks base (job_of script.now)
        (sunk (K.held sink.old) (K.held sink.new) (K.faults sink.old) (K.faults sink.new))
        result.status result.lab }
{
    let config = config_for(line.marks, script.nodes, script.swaps);
    let queue = match Queue::open(alloc, script.items.items().len()) {
        Ok(queue) => queue,
        Err(Memory) => return no_memory(sink),
    };
    match open_world(alloc, &config, base) {
        Ok(world) => run_world(alloc, line, script, world, queue, sink),
        Err(Memory) => no_memory(sink),
    }
}

/// Answers want of memory before there is a world.
pub(crate) fn no_memory<K: Sink>(sink: &mut K) -> WorldEnd
    ensures lab { result.lab ≡ None }
    ensures wrote { Says
        (sunk (K.held sink.old) (K.held sink.new) (K.faults sink.old) (K.faults sink.new))
        7 (fault_line (codes "memory")) result.status }
{
    refuse(sink, b"fault: memory\n", 7)
}

/// Answers want of memory for a report.
pub(crate) fn give_up<K: Sink>(world: World, sink: &mut K) -> WorldEnd
    ensures lab { result.lab ≡ Some world }
    ensures wrote { Says
        (sunk (K.held sink.old) (K.held sink.new) (K.faults sink.old) (K.faults sink.new))
        7 (fault_line (codes "memory")) result.status }
{
    let status = written(sink, b"fault: memory\n", 7);
    let lab = Some(world);
    WorldEnd { status, lab }
}

/// Answers want of memory for threads.
pub(crate) fn hold_up<K: Sink>(world: World, sink: &mut K) -> WorldEnd
    ensures lab { result.lab ≡ Some world }
    ensures sound { IsSound world.config world.at_start world.log }
    ensures wrote { Says
        (sunk (K.held sink.old) (K.held sink.new) (K.faults sink.old) (K.faults sink.new))
        7 (fault_line (codes "memory")) result.status }
{
    let _journal = world.journal();
    give_up(world, sink)
}

/// Writes the report of a run that is done.
fn report<K: Sink>(alloc: Global, world: World, sink: &mut K) -> WorldEnd
    requires image { IsImageOf world.config world.log.start }
    ensures lab { result.lab ≡ Some world }
    ensures sound { IsSound world.config world.at_start world.log }
    ensures wrote { SaysOrWants
        (sunk (K.held sink.old) (K.held sink.new) (K.faults sink.old) (K.faults sink.new))
        0 (report_of world.config world.log) result.status }
{
    match write_report(alloc, world.journal(), sink) {
        Ok(()) => WorldEnd {
            status: 0,
            lab: Some(world),
        },
        Err(TextError::Write) => WorldEnd {
            status: 4,
            lab: Some(world),
        },
        Err(TextError::Memory) => give_up(world, sink),
    }
}

/// Writes the report of a run that met a limit, and then its fault line.
fn report_limit<K: Sink>(alloc: Global, world: World, which: LimitKind, sink: &mut K) -> WorldEnd
    requires image { IsImageOf world.config world.log.start }
    ensures lab { result.lab ≡ Some world }
    ensures sound { IsSound world.config world.at_start world.log }
    ensures wrote { SaysOrWants
        (sunk (K.held sink.old) (K.held sink.new) (K.faults sink.old) (K.faults sink.new))
        5 (report_of world.config world.log ++ fault_line (limit_text which)) result.status }
{
    match write_report(alloc, world.journal(), sink) {
        Ok(()) => {
            let status = written(sink, limit_line(which), 5);
            WorldEnd {
                status,
                lab: Some(world),
            }
        }
        Err(TextError::Write) => WorldEnd {
            status: 4,
            lab: Some(world),
        },
        Err(TextError::Memory) => give_up(world, sink),
    }
}

/// Writes the summary of a workload that is done.
fn summarize<K: Sink>(
    alloc: Global,
    calls: u32,
    workers: u32,
    world: World,
    sink: &mut K,
) -> WorldEnd
    requires image { IsImageOf world.config world.log.start }
    ensures lab { result.lab ≡ Some world }
    ensures sound { IsSound world.config world.at_start world.log }
    ensures wrote { SaysOrWants
        (sunk (K.held sink.old) (K.held sink.new) (K.faults sink.old) (K.faults sink.new))
        0 (summary_of world.config calls workers world.log) result.status }
{
    match write_summary(alloc, world.journal(), calls, workers, sink) {
        Ok(()) => WorldEnd {
            status: 0,
            lab: Some(world),
        },
        Err(TextError::Write) => WorldEnd {
            status: 4,
            lab: Some(world),
        },
        Err(TextError::Memory) => give_up(world, sink),
    }
}

/// Writes what a command writes of a run that is done.
pub(crate) fn print<K: Sink>(
    alloc: Global,
    command: Command,
    world: World,
    sink: &mut K,
) -> WorldEnd
    requires image { IsImageOf world.config world.log.start }
    ensures lab { result.lab ≡ Some world }
    ensures sound { IsSound world.config world.at_start world.log }
    ensures wrote { Prints command world
        (sunk (K.held sink.old) (K.held sink.new) (K.faults sink.old) (K.faults sink.new))
        0 (printed command world) result.status }
{
    match command {
        Command::Run => report(alloc, world, sink),
        Command::Load => report(alloc, world, sink),
        Command::Queue => report(alloc, world, sink),
        Command::Dump => dump(world, sink),
        Command::Trace => trace(alloc, world, sink),
        Command::Work {
            seed: _,
            calls,
            workers,
        } => summarize(alloc, calls, workers, world, sink),
    }
}

/// Writes the fault line of a limit alone.
fn tell_limit<K: Sink>(world: World, which: LimitKind, sink: &mut K) -> WorldEnd
    ensures lab { result.lab ≡ Some world }
    ensures sound { IsSound world.config world.at_start world.log }
    ensures wrote { SaysOrWants
        (sunk (K.held sink.old) (K.held sink.new) (K.faults sink.old) (K.faults sink.new))
        5 (fault_line (limit_text which)) result.status }
{
    let _journal = world.journal();
    let status = written(sink, limit_line(which), 5);
    WorldEnd {
        status,
        lab: Some(world),
    }
}

/// Writes what a command writes of a run that met a limit: the fault line, and before it the report of `run` and `load`.
pub(crate) fn print_limit<K: Sink>(
    alloc: Global,
    command: Command,
    world: World,
    which: LimitKind,
    sink: &mut K,
) -> WorldEnd
    requires image { IsImageOf world.config world.log.start }
    ensures lab { result.lab ≡ Some world }
    ensures sound { IsSound world.config world.at_start world.log }
    ensures wrote { Prints command world
        (sunk (K.held sink.old) (K.held sink.new) (K.faults sink.old) (K.faults sink.new))
        5 (printed_before command world ++ fault_line (limit_text which)) result.status }
{
    match command {
        Command::Run => report_limit(alloc, world, which, sink),
        Command::Load => report_limit(alloc, world, which, sink),
        Command::Queue => report_limit(alloc, world, which, sink),
        Command::Dump => tell_limit(world, which, sink),
        Command::Trace => tell_limit(world, which, sink),
        Command::Work {
            seed: _,
            calls: _,
            workers: _,
        } => tell_limit(world, which, sink),
    }
}

/// Writes the fault line of a broken rule.
pub(crate) fn report_broken<K: Sink>(
    alloc: Global,
    line: u32,
    rule: ScriptRule,
    sink: &mut K,
) -> WorldEnd
    ensures lab { result.lab ≡ None }
    ensures wrote { SaysOrWants
        (sunk (K.held sink.old) (K.held sink.new) (K.faults sink.old) (K.faults sink.new))
        3 (fault_line (broken_text line rule)) result.status }
{
    match broken_line(alloc, line, rule) {
        Ok(text) => {
            let status = written(sink, text.as_bytes(), 3);
            WorldEnd { status, lab: None }
        }
        Err(Memory) => no_memory(sink),
    }
}

/// Ends a run that has read nothing that it can run.
pub(crate) fn refuse<K: Sink>(sink: &mut K, text: &[u8], status: u8) -> WorldEnd
    ensures lab { result.lab ≡ None }
    ensures wrote { Says
        (sunk (K.held sink.old) (K.held sink.new) (K.faults sink.old) (K.faults sink.new))
        status text.now result.status }
{
    let status = written(sink, text, status);
    WorldEnd { status, lab: None }
}

/// All that the program does: `words` are the command line's words without the program's name. Of the runtime it asks only for a
/// script with a run on threads.
pub fn top<R: Threads + Wait + Sync, S: Source, K: Sink, G: Gate + Sync>(
    rt: &R,
    alloc: Global,
    words: &[&str],
    source: &mut S,
    sink: &mut K,
    gate: &G,
) -> Outcome
    ensures ended { EndsBy
        (record {
          words = map (λ word. word.now) words.now;
          left = S.left source.old;
          left_after = S.left source.new;
          read_faults = S.faults source.old;
          read_faults_after = S.faults source.new;
          held = K.held sink.old;
          held_after = K.held sink.new;
          write_faults = K.faults sink.old;
          write_faults_after = K.faults sink.new;
        })
        result.status result.lab result.queue }
{
    match top_without_threads(alloc, words, source, sink) {
        Answer::Ended(outcome) => outcome,
        Answer::NeedsThreads(waiting) => {
            let Waiting { line, base, script } = waiting;
            without_queue(run_on_threads(rt, alloc, line, base, &script, sink, gate))
        }
    }
}
