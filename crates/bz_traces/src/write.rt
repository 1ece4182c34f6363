//! Writing the lines.
ghost use Rattle.std.specs.Prelude.{◌≡◌, ◌<◌, ◌≤◌, ◌++◌, ◌∷◌, [], IfOk, OnOk, IfErr, IsErrOf, length};
ghost use Rattle.std.specs.Io.KnownBytes.{Appends};
ghost use Rattle.bz_io.specs.Faults.{Rose};
ghost use Rattle.bz_io.specs.Transfers.{GrewByFront};
ghost use Rattle.bz_lines.specs.Lines.{head_line, line_of, lines_of, text_of, with_end};
ghost use Rattle.bz_traces.specs.Writes.{GrewByLines, WritesLine};

use crate::error::JsonError;
use bz_io::{Failed, Sink, write_all};
use bz_layout::Config;
use bz_lines::{head_text, mark_text};
use bz_mark::{Journal, Mark};
use bz_oom::Memory;
use std::alloc::Global;

/// The first line, with its line feed.
fn compose_head(alloc: Global, config: &Config, start: &[u64]) -> Result<Vec<u8>, Memory>
    ensures { IfOk result (λ line. line.items ≡ with_end (head_line config.now start.now)) }
{
    let mut line = head_text(alloc, config, start)?;
    line.push(b'\n')?;
    Ok(line)
}

/// The line of a mark, with its line feed.
fn compose_mark(alloc: Global, journal: &Journal, mark: Mark) -> Result<Vec<u8>, Memory>
    ensures { IfOk result (λ line. line.items ≡ with_end (line_of journal.now.pages mark)) }
{
    let mut line = mark_text(alloc, journal, mark)?;
    line.push(b'\n')?;
    Ok(line)
}

/// Writes the first line.
fn write_head<K: Sink>(
    alloc: Global,
    config: &Config,
    start: &[u64],
    sink: &mut K,
) -> Result<(), JsonError>
    ensures { WritesLine K.held K.faults sink.old sink.new (head_line config.now start.now) result }
{
    let line = match compose_head(alloc, config, start) {
        Ok(line) => line,
        Err(Memory) => return Err(JsonError::Memory),
    };
    match write_all(sink, &line) {
        Ok(()) => Ok(()),
        Err(Failed) => Err(JsonError::Write),
    }
}

/// Writes the line of a mark of the journal.
fn write_mark<K: Sink>(
    alloc: Global,
    journal: &Journal,
    mark: Mark,
    sink: &mut K,
) -> Result<(), JsonError>
    ensures { WritesLine K.held K.faults sink.old sink.new (line_of journal.now.pages mark) result }
{
    let line = match compose_mark(alloc, journal, mark) {
        Ok(line) => line,
        Err(Memory) => return Err(JsonError::Memory),
    };
    match write_all(sink, &line) {
        Ok(()) => Ok(()),
        Err(Failed) => Err(JsonError::Write),
    }
}

/// Writes the lines of a journal. Each line is composed whole before the sink is given any of it.
pub fn write_journal<K: Sink>(
    alloc: Global,
    config: &Config,
    journal: &Journal,
    sink: &mut K,
) -> Result<(), JsonError>
    ensures all { OnOk result (Appends (K.held sink.old) (K.held sink.new) (text_of (lines_of config.now journal.now))) }
    ensures front { IsErrOf result JsonError.Write → GrewByFront (K.held sink.old) (K.held sink.new) (text_of (lines_of config.now journal.now)) }
    ensures rose { IsErrOf result JsonError.Write → Rose (K.faults sink.old) (K.faults sink.new) }
    // want of memory leaves whole lines
    ensures whole { IsErrOf result JsonError.Memory → GrewByLines (K.held sink.old) (K.held sink.new) (lines_of config.now journal.now) }
    ensures later { K.faults sink.old ≤ K.faults sink.new }
{
    match write_head(alloc, config, journal.start(), sink) {
        Ok(()) => {}
        Err(fault) => return Err(fault),
    }
    for i in 0..journal.length() {
        let mark = journal.mark(i);
        match write_mark(alloc, journal, mark, sink) {
            Ok(()) => {}
            Err(fault) => return Err(fault),
        }
    }
    Ok(())
}
