//! Writing the summary of a workload.
ghost use Rattle.std.specs.Prelude.{◌≡◌, ◌≤◌, ◌++◌, OnOk, IfOk, IsErrOf};
ghost use Rattle.std.specs.Fmt.{decimal};
ghost use Rattle.std.specs.Io.KnownBytes.{Appends};
ghost use Rattle.bz_io.specs.Faults.{Rose};
ghost use Rattle.bz_io.specs.Transfers.{GrewByFront};
ghost use Rattle.bz_judge.specs.Held.{IsImage, IsImageOf};
ghost use Rattle.bz_layout.specs.declared.config.Config.{Config};
ghost use Rattle.bz_text.specs.Summary.{asked_text, counts_text, pairs_text, summary_of};

use crate::counts::Counts;
use crate::lines::{put, put_number};
use crate::report::TextError;
use crate::summing::sum_up;
use bz_io::{Failed, Sink, write_all};
use bz_mark::Journal;
use bz_oom::Memory;
use std::alloc::Global;

/// Puts a name and the number behind it.
fn put_count(alloc: Global, out: &mut Vec<u8>, name: &[u8], count: u32) -> Result<(), Memory>
    ensures { OnOk result (out.new.items ≡ out.old.items ++ (name.now ++ decimal count)) }
{
    put(out, name)?;
    put_number(alloc, out, u64::from(count))
}

fn put_asked(alloc: Global, out: &mut Vec<u8>, calls: u32, workers: u32) -> Result<(), Memory>
    ensures { OnOk result (out.new.items ≡ out.old.items ++ asked_text calls workers) }
{
    put_count(alloc, out, b"work ", calls)?;
    put_count(alloc, out, b" calls ", workers)?;
    put(out, b" workers\n")
}

fn put_counts(alloc: Global, out: &mut Vec<u8>, counts: Counts) -> Result<(), Memory>
    ensures { OnOk result (out.new.items ≡ out.old.items ++ counts_text counts) }
{
    put_count(alloc, out, b"inserted ", counts.inserted)?;
    put_count(alloc, out, b" exists ", counts.exists)?;
    put_count(alloc, out, b" deleted ", counts.deleted)?;
    put_count(alloc, out, b" updated ", counts.updated)?;
    put_count(alloc, out, b" missing ", counts.missing)?;
    put_count(alloc, out, b" value ", counts.value)?;
    put_count(alloc, out, b" page ", counts.page)?;
    put_count(alloc, out, b" full ", counts.full)?;
    put(out, b"\n")?;
    Ok(())
}

fn put_pair_count(alloc: Global, out: &mut Vec<u8>, pairs: u64) -> Result<(), Memory>
    ensures { OnOk result (out.new.items ≡ out.old.items ++ pairs_text pairs) }
{
    put(out, b"pairs ")?;
    put_number(alloc, out, pairs)?;
    put(out, b"\n")
}

/// The summary of a journal.
fn summary_text(
    alloc: Global,
    journal: &Journal,
    calls: u32,
    workers: u32,
) -> Result<Vec<u8>, Memory>
    requires { IsImage journal.now.start }
    ensures { (c : Config) → IsImageOf c journal.now.start → IfOk result (λ text. text.items ≡ summary_of c calls workers journal.now) }
{
    let sums = sum_up(alloc, journal)?;
    let mut out: Vec<u8> = Vec::new(alloc);
    put_asked(alloc, &mut out, calls, workers)?;
    put_counts(alloc, &mut out, sums.counts)?;
    put_pair_count(alloc, &mut out, sums.pairs)?;
    Ok(out)
}

/// Writes the summary of a workload of so many calls of so many workers, by the journal to which it led.
/// Linear in the journal, but for a set of the keys of the map, which each effect looks up.
pub fn write_summary<K: Sink>(
    alloc: Global,
    journal: &Journal,
    calls: u32,
    workers: u32,
    sink: &mut K,
) -> Result<(), TextError>
    // the journal goes on from a well-formed image
    requires { IsImage journal.now.start }
    ensures ok { (c : Config) → IsImageOf c journal.now.start
        → OnOk result (Appends (K.held sink.old) (K.held sink.new) (summary_of c calls workers journal.now)) }
    ensures write { IsErrOf result TextError.Write → Rose (K.faults sink.old) (K.faults sink.new) }
    ensures part { (c : Config) → IsImageOf c journal.now.start → IsErrOf result TextError.Write
        → GrewByFront (K.held sink.old) (K.held sink.new) (summary_of c calls workers journal.now) }
    ensures memory { IsErrOf result TextError.Memory → sink.new ≡ sink.old }
    ensures later { K.faults sink.old ≤ K.faults sink.new }
{
    let text = match summary_text(alloc, journal, calls, workers) {
        Ok(text) => text,
        Err(Memory) => return Err(TextError::Memory),
    };
    match write_all(sink, &text) {
        Ok(()) => Ok(()),
        Err(Failed) => Err(TextError::Write),
    }
}
