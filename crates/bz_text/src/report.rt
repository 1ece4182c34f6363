//! Writing the report.
ghost use Rattle.std.specs.Prelude.{◌≡◌, ◌≤◌, ◌<◌, ◌+◌, ◌++◌, length, OnOk, IfOk, IsErrOf, Some};
ghost use Rattle.std.specs.List.{flat_map};
ghost use Rattle.std.specs.Io.KnownBytes.{Appends};
ghost use Rattle.bz_call.specs.Map.{Map};
ghost use Rattle.bz_io.specs.Faults.{Rose};
ghost use Rattle.bz_io.specs.Transfers.{GrewByFront};
ghost use Rattle.bz_judge.specs.Held.{IsImage, IsImageOf};
ghost use Rattle.bz_layout.specs.declared.config.Config.{Config};
ghost use Rattle.bz_mark.specs.Moments.{at_moment, mark_at};
ghost use Rattle.bz_sound.specs.Calls.{map_after};
ghost use Rattle.bz_sound.specs.Memory.Moments.{map_at_start};
ghost use Rattle.bz_text.specs.Lines.{line_of, power_line};
ghost use Rattle.bz_text.specs.Reading.{AreTold, IsReadTo};
ghost use Rattle.bz_text.specs.Report.{in_order, pairs_at_on, parts_text, report_of};
ghost use Rattle.bz_text.specs.Summing.{AreKeysOf};

use crate::ended::{EndedCall, read_mark};
use crate::keys::keys_at_start;
use crate::lines::{put, put_line, put_power};
use crate::open::{put_open_calls, tell_effect};
use crate::order::sort_calls;
use crate::summing::follow_effect;
use bz_io::{Failed, Sink, write_all};
use bz_key::Key;
use bz_mark::{Journal, Mark};
use bz_oom::Memory;
use std::alloc::Global;
use std::collections::BTreeSet;

/// Why the report is not written.
#[derive(Clone, Copy, PartialEq, Eq)]
pub enum TextError {
    /// The sink has failed; it has taken a part of the report.
    Write,

    /// There was no memory for the text; the sink has taken nothing.
    Memory,
}

fn put_lines(
    alloc: Global,
    out: &mut Vec<u8>,
    journal: &Journal,
    calls: &[EndedCall],
) -> Result<(), Memory>
    ensures { OnOk result (out.new.items ≡ out.old.items ++ flat_map (line_of journal.now.pages) calls.now) }
{
    for ended in calls {
        put_line(alloc, out, journal, *ended)?;
    }
    Ok(())
}

/// Puts a part, but for the calls that are open: how many pairs there were when the power came on, if it did, and these ended
/// calls in the order of their moments.
fn put_part(
    alloc: Global,
    out: &mut Vec<u8>,
    journal: &Journal,
    on: Option<u64>,
    ended: &[EndedCall],
) -> Result<(), Memory>
    ensures { OnOk result (out.new.items ≡ out.old.items ++ (power_line on ++ flat_map (line_of journal.now.pages) (in_order ended.now))) }
{
    put_power(alloc, out, on)?;
    let mut calls: Vec<EndedCall> = Vec::new(alloc);
    calls.extend_from_slice(ended)?;
    sort_calls(&mut calls)?;
    put_lines(alloc, out, journal, &calls)
}

/// Looks at one mark: where it is a cut, puts the part that it ends.
fn put_cut(
    alloc: Global,
    out: &mut Vec<u8>,
    journal: &Journal,
    moment: u32,
    mark: &Mark,
    on: Option<u64>,
    ended: &[EndedCall],
    begins: &[Option<u32>; 256],
    effects: &[bool; 256],
) -> Result<(), Memory>
    requires within { moment < length journal.now.past }
    requires seen { mark_at moment journal.now.past ≡ Some mark.now }
    requires table { IsReadTo journal.now.past moment begins.now ended.now }
    requires told { AreTold journal.now.past moment effects.now }
    ensures { OnOk result ((c : Config) → on ≡ pairs_at_on (map_at_start c journal.now.start) (at_moment moment journal.now.past)
        → out.old.items ≡ parts_text c journal.now (at_moment moment journal.now.past) → out.new.items ≡ parts_text c journal.now (at_moment (moment + 1) journal.now.past)) }
{
    match *mark {
        Mark::Cut => {
            put_part(alloc, out, journal, on, ended)?;
            put_open_calls(alloc, out, journal, moment, begins, effects)?;
            put(out, b"power cut\n")?;
            Ok(())
        }
        _ => Ok(()),
    }
}

/// Looks at one mark: keeps how many pairs there were when the power came on, if it did since the last cut.
fn tell_power(
    journal: &Journal,
    moment: u32,
    mark: &Mark,
    keys: &BTreeSet<Key>,
    on: &mut Option<u64>,
)
    requires within { moment < length journal.now.past }
    requires seen { mark_at moment journal.now.past ≡ Some mark.now }
    ensures { (start : Map) → AreKeysOf (map_after start (at_moment moment journal.now.past)) keys.now.keys
        → on.old ≡ pairs_at_on start (at_moment moment journal.now.past) → on.new ≡ pairs_at_on start (at_moment (moment + 1) journal.now.past) }
{
    match *mark {
        Mark::On => {
            *on = Some(keys.len() as u64);
        }
        Mark::Cut => {
            *on = None;
        }
        _ => {}
    }
}

/// The report of a journal.
fn report_text(alloc: Global, journal: &Journal) -> Result<Vec<u8>, Memory>
    requires { IsImage journal.now.start }
    ensures { (c : Config) → IsImageOf c journal.now.start → IfOk result (λ text. text.items ≡ report_of c journal.now) }
{
    let mut begins: [Option<u32>; 256] = [None; 256];
    let mut effects = [false; 256];
    let mut on: Option<u64> = None;
    let mut ended: Vec<EndedCall> = Vec::new(alloc);
    let mut out: Vec<u8> = Vec::new(alloc);
    let mut keys = keys_at_start(alloc, journal.start())?;
    for moment in 0..journal.length() {
        let mark = journal.mark(moment);
        put_cut(
            alloc, &mut out, journal, moment, &mark, on, &ended, &begins, &effects,
        )?;
        tell_power(journal, moment, &mark, &keys, &mut on);
        follow_effect(journal, moment, &mark, &begins, &mut keys)?;
        tell_effect(journal, moment, &mark, &mut effects);
        read_mark(journal, moment, &mark, &mut begins, &mut ended)?;
    }
    put_part(alloc, &mut out, journal, on, &ended)?;
    Ok(out)
}

/// Writes the report of a journal, divided at each power cut: how many pairs there were when the power came on, a line for
/// each call that has ended, in the order of their moments, and at a cut a line for each call that was open.
/// Linear in the journal, but for the sort of the lines, and for a set of the keys of the map, which each effect looks up.
pub fn write_report<K: Sink>(
    alloc: Global,
    journal: &Journal,
    sink: &mut K,
) -> Result<(), TextError>
    // the journal goes on from a well-formed image
    requires { IsImage journal.now.start }
    ensures ok { (c : Config) → IsImageOf c journal.now.start
        → OnOk result (Appends (K.held sink.old) (K.held sink.new) (report_of c journal.now)) }
    ensures write { IsErrOf result TextError.Write → Rose (K.faults sink.old) (K.faults sink.new) }
    ensures part { (c : Config) → IsImageOf c journal.now.start → IsErrOf result TextError.Write
        → GrewByFront (K.held sink.old) (K.held sink.new) (report_of c journal.now) }
    ensures memory { IsErrOf result TextError.Memory → sink.new ≡ sink.old }
    ensures later { K.faults sink.old ≤ K.faults sink.new }
{
    let text = match report_text(alloc, journal) {
        Ok(text) => text,
        Err(Memory) => return Err(TextError::Memory),
    };
    match write_all(sink, &text) {
        Ok(()) => Ok(()),
        Err(Failed) => Err(TextError::Write),
    }
}
