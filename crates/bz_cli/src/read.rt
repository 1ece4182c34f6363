//! Reading the words.
ghost use Rattle.std.specs.Prelude.{◌≡◌, ◌≤◌, ◌-◌, ◌^◌, IfOk, IfSome, IsTrue, map, option_map};
ghost use Rattle.bz_gen.specs.declared.workload.TheConstants.{MOST_CALLS as most_calls};
ghost use Rattle.bz_layout.specs.declared.limits.TheConstants.{MIN_MARKS as least_marks, MAX_MARKS as most_marks, MIN_WORKERS as least_workers, MAX_WORKERS as most_workers};
ghost use Rattle.bz_script.specs.Number.{number_of, within};
ghost use Rattle.bz_cli.specs.CommandLine.{IsCommandLine, InRange, usual_marks};
ghost use Rattle.bz_cli.specs.Inside.Arrangement.{number_in, workload_by, command_by, limit_of, IsArranged};
ghost use Rattle.bz_cli.specs.Inside.Founds.{seen_of};

use crate::arrangement::is_arranged;
use crate::command::{Command, CommandLine, RUN_MARKS, WORK_MARKS};
use crate::error::WordsError;
use crate::parser::{Found, find};
use bz_gen::MOST_CALLS;
use bz_layout::{MAX_MARKS, MAX_WORKERS, MIN_MARKS, MIN_WORKERS};
use bz_script::read_number;
use std::alloc::Global;

// The number that a text says, if it lies in a range.
fn number_within(text: &str, low: u64, high: u64) -> Option<u64>
    ensures in_range { IfSome result (λ number. (low ≤ number) × (number ≤ high)) }
    ensures number { result ≡ within low high (number_of text.now) }
{
    let Some(number) = read_number(text.as_bytes()) else {
        return None;
    };
    if number < low {
        return None;
    }
    if number > high {
        return None;
    }
    Some(number)
}

// The same of a text that is there.
fn number_found(text: Option<&str>, low: u64, high: u64) -> Option<u64>
    ensures in_range { IfSome result (λ number. (low ≤ number) × (number ≤ high)) }
    ensures number { result ≡ number_in low high (option_map (λ text. text.now) text.entry) }
{
    match text {
        None => None,
        Some(text) => number_within(text, low, high),
    }
}

// The workload that was found.
fn workload_found(found: &Found) -> Option<Command>
    ensures command { result ≡ workload_by
        (number_in 0 (2 ^ 64 - 1) (seen_of found.now).seed)
        (number_in 1 most_calls (seen_of found.now).calls)
        (number_in least_workers most_workers (seen_of found.now).workers) }
    ensures in_range { IfSome result InRange }
{
    let Some(seed) = number_found(found.seed, 0, u64::MAX) else {
        return None;
    };
    let Some(calls) = number_found(found.calls, 1, u64::from(MOST_CALLS)) else {
        return None;
    };
    let (low, high) = (u64::from(MIN_WORKERS), u64::from(MAX_WORKERS));
    let Some(workers) = number_found(found.workers, low, high) else {
        return None;
    };
    Some(Command::Work {
        seed,
        calls: calls as u32,
        workers: workers as u32,
    })
}

// The command that was found.
fn command_found(found: &Found) -> Option<Command>
    ensures command { result ≡ command_by (seen_of found.now) }
    ensures in_range { IfSome result InRange }
{
    if found.name == "run" {
        return Some(Command::Run);
    }
    if found.name == "dump" {
        return Some(Command::Dump);
    }
    if found.name == "load" {
        return Some(Command::Load);
    }
    if found.name == "trace" {
        return Some(Command::Trace);
    }
    if found.name == "queue" {
        return Some(Command::Queue);
    }
    if found.name == "work" {
        return workload_found(found);
    }
    None
}

// The limit on marks where the words do not say one.
fn marks_unsaid(command: Command) -> u32
    ensures usual { result ≡ usual_marks command }
    ensures in_range { (least_marks ≤ result) × (result ≤ most_marks) }
{
    match command {
        Command::Run | Command::Dump | Command::Load | Command::Trace | Command::Queue => RUN_MARKS,
        Command::Work {
            seed: _,
            calls: _,
            workers: _,
        } => WORK_MARKS,
    }
}

// The limit on marks that this text says.
fn read_marks(text: &str) -> Option<u32>
    ensures in_range { IfSome result (λ marks. (least_marks ≤ marks) × (marks ≤ most_marks)) }
    ensures limit { result ≡ within least_marks most_marks (number_of text.now) }
{
    match number_within(text, u64::from(MIN_MARKS), u64::from(MAX_MARKS)) {
        Some(number) => Some(number as u32),
        None => None,
    }
}

// The limit on marks of a command.
fn limit(command: Command, marks: Option<&str>) -> Option<u32>
    ensures in_range { IfSome result (λ marks. (least_marks ≤ marks) × (marks ≤ most_marks)) }
    ensures limit { result ≡ limit_of command (option_map (λ word. word.now) marks.entry) }
{
    match marks {
        None => Some(marks_unsaid(command)),
        Some(text) => read_marks(text),
    }
}

/// What the words ask for; the program's name is not among them. This takes memory.
pub fn read_words(alloc: Global, words: &[&str]) -> Result<CommandLine, WordsError>
    ensures command { IfOk result (IsCommandLine (map (λ word. word.now) words.now)) }
    ensures in_range { IfOk result (λ line. (least_marks ≤ line.marks) × (line.marks ≤ most_marks)) }
    ensures numbers { IfOk result (λ line. InRange line.command) }
    ensures usage { result ≡ Err WordsError.Usage → (line : CommandLine)
        → ¬ IsCommandLine (map (λ word. word.now) words.now) line }
{
    let found = match find(alloc, words) {
        Ok(found) => found,
        Err(error) => return Err(error),
    };
    let Some(command) = command_found(&found) else {
        return Err(WordsError::Usage);
    };
    let Some(marks) = limit(command, found.marks) else {
        return Err(WordsError::Usage);
    };
    if !is_arranged(words, command, &found) {
        return Err(WordsError::Usage);
    }
    Ok(CommandLine { command, marks })
}
