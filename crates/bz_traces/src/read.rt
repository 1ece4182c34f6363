//! Reading a journal.
ghost use Rattle.std.specs.Prelude.{◌≡◌, ◌≢◌, ◌<◌, ◌≤◌, ◌+◌, ◌^◌, ◌∷◌, ◌++◌, [], ℕ, List, IfOk, OnOk, IfSome, IsErrOf, IsNone, MatchResult, drop, length, slice_index};
ghost use Rattle.bz_reading.specs.Heads.{IsStart};
ghost use Rattle.bz_layout.specs.declared.config.Config.{Config as ConfigValue};
ghost use Rattle.bz_mark.specs.Log.{Log};
ghost use Rattle.bz_lines.specs.Lines.{head_line, lines_of, text_of};
ghost use Rattle.bz_traces.specs.Journals.{HasLines, IsSameJournal, BreaksAt};
ghost use Rattle.bz_traces.specs.Opened.{IsOpened};
ghost use Rattle.bz_traces.specs.Steps.{HasSpace, AreCounts, HasRoomFor, feeds, LineTaken, NoNext};

use crate::error::ReadError;
use crate::read_marks::{Counts, read_mark};
use bz_key::PageBuf;
use bz_layout::{Config, MAX_CALLS, MAX_MARKS, MAX_PAGES};
use bz_mark::Journal;
use bz_oom::Memory;
use bz_reading::{LineFault, read_head};
use std::alloc::Global;

/// The place of the first line feed.
fn first_feed(bytes: &[u8]) -> Option<usize>
    ensures within { IfSome result (λ end. end < length bytes.now) }
    ensures feed { IfSome result (λ end. slice_index bytes.now end ≡ 10) }
    ensures before { IfSome result (λ end. (k : ℕ) → k < end → slice_index bytes.now k ≢ 10) }
    ensures none { IsNone result → (k : ℕ) → k < length bytes.now → slice_index bytes.now k ≢ 10 }
{
    for (i, byte) in bytes.iter().enumerate() {
        if *byte == b'\n' {
            return Some(i);
        }
    }
    None
}

/// How many line feeds there are.
fn line_feeds(bytes: &[u8]) -> usize
    ensures { result ≡ feeds bytes.now }
{
    bytes.iter().filter(|byte| **byte == b'\n').count()
}

/// A journal with room for so many marks, and for as many calls and pages as there may be.
fn open_journal(alloc: Global, start: &[u64], lines: usize) -> Result<Journal, Memory>
    ensures { IfOk result (λ j. IsOpened start.now lines j) }
{
    let marks = lines.min(MAX_MARKS as usize) as u32;
    Journal::open(alloc, start, marks, MAX_CALLS, MAX_PAGES)
}

/// The first line: what it tells, and how many bytes it takes.
fn read_first(alloc: Global, bytes: &[u8]) -> Result<(Config, Vec<u64>, usize), ReadError>
    ensures start { IfOk result (λ r. IsStart r.0 r.1.items) }
    ensures cut { IfOk result (λ r. (r.2 ≤ length bytes.now) × (bytes.now ≡ head_line r.0 r.1.items ++ 10 ∷ drop r.2 bytes.now)) }
    ensures line { (line : ℕ) → IsErrOf result (ReadError.Line line) → BreaksAt bytes.now line }
{
    let Some(end) = first_feed(bytes) else {
        return Err(ReadError::Line(1));
    };
    match read_head(alloc, &bytes[..end]) {
        Ok((config, start)) => Ok((config, start, end + 1)),
        Err(LineFault::Broken) => Err(ReadError::Line(1)),
        Err(LineFault::Memory) => Err(ReadError::Memory),
    }
}

/// Reads one more line, and answers the counts with its mark, and how many bytes it takes.
fn read_next(
    alloc: Global,
    last: u32,
    journal: &mut Journal,
    counts: Counts,
    buffer: &mut PageBuf,
    left: &[u8],
) -> Result<(Counts, usize), ReadError>
    requires fits { last + 1 < 2 ^ 32 }
    requires few { length journal.old.past ≤ MAX_MARKS }
    requires space { HasSpace journal.old }
    requires counts { AreCounts journal.old.past counts }
    ensures taken { IfOk result (λ r. LineTaken (last + 1) left.now journal.old journal.new r.0 r.1) }
    ensures number { (line : ℕ) → IsErrOf result (ReadError.Line line) → line ≡ length journal.old.past + 2 }
    ensures broken { (line : ℕ) → IsErrOf result (ReadError.Line line) → NoNext (last + 1) journal.old left.now }
{
    let number = journal.length() + 2;
    let Some(end) = first_feed(left) else {
        return Err(ReadError::Line(number));
    };
    match read_mark(alloc, last, journal, counts, buffer, &left[..end]) {
        Ok(counts) => Ok((counts, end + 1)),
        Err(LineFault::Broken) => Err(ReadError::Line(number)),
        Err(LineFault::Memory) => Err(ReadError::Memory),
    }
}

/// Reads all lines behind the first one.
fn read_rest(
    alloc: Global,
    config: &Config,
    journal: &mut Journal,
    rest: &[u8],
) -> Result<(), ReadError>
    requires lines { HasLines config.now journal.old }
    requires fresh { journal.old.past ≡ [] }
    requires room { HasRoomFor (feeds rest.now + 1) journal.old }
    ensures lines { OnOk result (HasLines config.now journal.new) }
    ensures read { OnOk result ((bytes : List ℕ) → bytes ≡ text_of (lines_of config.now journal.old) ++ rest.now → bytes ≡ text_of (lines_of config.now journal.new)) }
    ensures line { (line : ℕ) → IsErrOf result (ReadError.Line line) → (bytes : List ℕ) → bytes ≡ text_of (lines_of config.now journal.old) ++ rest.now → BreaksAt bytes line }
{
    let last = config.words() - 1;
    let mut buffer = match PageBuf::open(alloc) {
        Ok(buffer) => buffer,
        Err(Memory) => return Err(ReadError::Memory),
    };
    let mut counts = Counts { begins: 0, ends: 0 };
    let mut at = 0usize;
    while at < rest.len() {
        match read_next(alloc, last, journal, counts, &mut buffer, &rest[at..]) {
            Ok((more, taken)) => {
                counts = more;
                at += taken;
            }
            Err(error) => return Err(error),
        }
    }
    Ok(())
}

/// The journal whose lines the bytes are, and its configuration with the greatest limits.
pub fn read_journal(alloc: Global, bytes: &[u8]) -> Result<(Config, Journal), ReadError>
    ensures lines { IfOk result (λ r. HasLines r.0 r.1) }
    ensures text { IfOk result (λ r. bytes.now ≡ text_of (lines_of r.0 r.1)) }
    // the first line with which they are no lines of a journal any more
    ensures line { (line : ℕ) → IsErrOf result (ReadError.Line line) → BreaksAt bytes.now line }
    // what was written of a journal gives that journal again
    ensures again { (c : ConfigValue) (log : Log) → HasLines c log → bytes.now ≡ text_of (lines_of c log) → MatchResult result (λ r. IsSameJournal c r.0 log r.1) (λ e. e ≡ ReadError.Memory) }
{
    let (config, start, end) = match read_first(alloc, bytes) {
        Ok(first) => first,
        Err(error) => return Err(error),
    };
    let lines = line_feeds(bytes);
    let mut journal = match open_journal(alloc, &start, lines) {
        Ok(journal) => journal,
        Err(Memory) => return Err(ReadError::Memory),
    };
    match read_rest(alloc, &config, &mut journal, &bytes[end..]) {
        Ok(()) => Ok((config, journal)),
        Err(error) => Err(error),
    }
}
