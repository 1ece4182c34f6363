//! Reading the line of a mark.
ghost use Rattle.std.specs.Prelude.{◌≡◌, ◌↔◌, ◌<◌, ◌+◌, ◌^◌, ℕ, List, None, true, length, IfOk, IfSome, OnOk, IsErrOf, IsTrue, Some, false, ◌∷◌, ◌-◌};
ghost use Rattle.std.specs.Bool.{OnTrue};
ghost use Rattle.serde_json.specs.View.{view};
ghost use Rattle.bz_mark.specs.declared.marks.Mark.{Mark as MarkValue};
ghost use Rattle.bz_traces.specs.Journals.{IsNext, HasCallRoom, pages_with};
ghost use Rattle.bz_lines.specs.Lines.{line_of};
ghost use Rattle.bz_lines.specs.Objects.{data_of};
ghost use Rattle.bz_lines.specs.Ranges.{IsInRange, IsNumbered, tells_page};
ghost use Rattle.bz_reading.specs.Reading.{page_in as page_of};
ghost use Rattle.bz_traces.specs.Steps.{HasSpace, AreCounts, HasPlace, PageAdded, MarkAdded};

use bz_call::Reply;
use bz_key::PageBuf;
use bz_layout::{MAX_CALLS, MAX_MARKS, MAX_PAGES};
use bz_lines::mark_text;
use bz_mark::{Journal, Mark};
use bz_oom::Memory;
use bz_reading::{LineFault, mark_in, page_in, value_of};
use serde_json::Value;
use std::alloc::Global;

/// How many calls have begun and ended.
#[derive(Clone, Copy)]
pub(crate) struct Counts {
    pub(crate) begins: u32,
    pub(crate) ends: u32,
}

/// Whether a mark is an End that names a page.
fn tells(mark: &Mark) -> bool
    ensures { result ≡ tells_page mark.now }
{
    match *mark {
        Mark::End {
            w: _,
            n: _,
            reply,
            at: _,
        } => match reply {
            Reply::Page { page: _, next: _ } => true,
            _ => false,
        },
        _ => false,
    }
}

/// Whether there may be one call more, where the mark is a Begin or an End.
fn has_call_room(counts: Counts, mark: &Mark) -> bool
    ensures { (past : List MarkValue) → AreCounts past counts → IsTrue result ↔ HasCallRoom past mark.now }
{
    match *mark {
        Mark::Begin {
            w: _,
            n: _,
            call: _,
        } => counts.begins < MAX_CALLS,
        Mark::End {
            w: _,
            n: _,
            reply: _,
            at: _,
        } => counts.ends < MAX_CALLS,
        _ => true,
    }
}

/// Whether there may be one mark more.
fn has_place(journal: &Journal, counts: Counts, mark: &Mark) -> bool
    requires { AreCounts journal.now.past counts }
    ensures { IsTrue result ↔ HasPlace journal.now mark.now }
{
    journal.length() < MAX_MARKS
        && has_call_room(counts, mark)
        && (!tells(mark) || journal.page_count() < MAX_PAGES)
}

/// The counts with one mark more.
fn counted(journal: &Journal, counts: Counts, mark: &Mark) -> Counts
    requires counts { AreCounts journal.now.past counts }
    requires room { HasCallRoom journal.now.past mark.now }
    ensures { AreCounts (mark.now ∷ journal.now.past) result }
{
    let _length = journal.length();
    match *mark {
        Mark::Begin {
            w: _,
            n: _,
            call: _,
        } => Counts {
            begins: counts.begins + 1,
            ends: counts.ends,
        },
        Mark::End {
            w: _,
            n: _,
            reply: _,
            at: _,
        } => Counts {
            begins: counts.begins,
            ends: counts.ends + 1,
        },
        _ => counts,
    }
}

/// Adds the page of a mark, if the mark tells one, and answers whether its object has it.
fn add_page(value: &Value, mark: &Mark, journal: &mut Journal, buffer: &mut PageBuf) -> bool
    requires space { HasSpace journal.old }
    requires place { HasPlace journal.old mark.now }
    ensures added { OnTrue result (PageAdded (view value.now) mark.now journal.old journal.new) }
    ensures told { result ≡ false → tells_page mark.now ≡ true }
    ensures none { result ≡ false → page_of (view value.now) ≡ None }
{
    if !tells(mark) {
        return true;
    }
    if !page_in(value, buffer) {
        return false;
    }
    journal.add_page(buffer.pairs());
    true
}

/// Whether a line is that of a mark.
fn is_mark(alloc: Global, journal: &Journal, mark: Mark, line: &[u8]) -> Result<bool, Memory>
    ensures { IfOk result (λ same. IsTrue same ↔ (line.now ≡ line_of journal.now.pages mark)) }
{
    let text = mark_text(alloc, journal, mark)?;
    Ok(line == text.as_slice())
}

/// The mark that a value tells, where there may be one mark more.
fn told_mark(value: &Value, last: u32, journal: &Journal, counts: Counts) -> Option<Mark>
    requires { AreCounts journal.now.past counts }
    ensures place { IfSome result (HasPlace journal.now) }
    ensures range { IfSome result (IsInRange (last + 1) (length journal.now.past)) }
    ensures numbered { IfSome result (IsNumbered (length journal.now.pages)) }
    ensures told { (mark : MarkValue) (pairs : List (List ℕ × List ℕ)) → IsNext (last + 1) journal.now.past journal.now.pages mark pairs
        → view value.now ≡ data_of (pages_with journal.now.pages mark pairs) mark → result ≡ Some mark }
{
    let Some(mark) = mark_in(value, last, journal.length(), journal.page_count()) else {
        return None;
    };
    if has_place(journal, counts, &mark) {
        Some(mark)
    } else {
        None
    }
}

/// The mark that a value tells, where it may come next. Its page is added, if it tells one.
fn take_mark(
    value: &Value,
    last: u32,
    journal: &mut Journal,
    counts: Counts,
    buffer: &mut PageBuf,
) -> Option<Mark>
    requires space { HasSpace journal.old }
    requires counts { AreCounts journal.old.past counts }
    ensures place { IfSome result (HasPlace journal.old) }
    ensures range { IfSome result (IsInRange (last + 1) (length journal.old.past)) }
    ensures page { IfSome result (λ mark. PageAdded (view value.now) mark journal.old journal.new) }
    ensures numbered { IfSome result (IsNumbered (length journal.old.pages)) }
    ensures told { (mark : MarkValue) (pairs : List (List ℕ × List ℕ)) → IsNext (last + 1) journal.old.past journal.old.pages mark pairs
        → view value.now ≡ data_of (pages_with journal.old.pages mark pairs) mark → result ≡ Some mark }
{
    let Some(mark) = told_mark(value, last, journal, counts) else {
        return None;
    };
    if add_page(value, &mark, journal, buffer) {
        Some(mark)
    } else {
        None
    }
}

/// Reads the line of a mark and adds the mark to the journal.
pub(crate) fn read_mark(
    alloc: Global,
    last: u32,
    journal: &mut Journal,
    counts: Counts,
    buffer: &mut PageBuf,
    line: &[u8],
) -> Result<Counts, LineFault>
    requires fits { last + 1 < 2 ^ 32 }
    requires space { HasSpace journal.old }
    requires counts { AreCounts journal.old.past counts }
    ensures added { OnOk result (MarkAdded (last + 1) line.now journal.old journal.new) }
    ensures counted { IfOk result (AreCounts journal.new.past) }
    ensures broken { IsErrOf result LineFault.Broken → (mark : MarkValue) (pairs : List (List ℕ × List ℕ)) → IsNext (last + 1) journal.old.past journal.old.pages mark pairs
        → line.now ≡ line_of (pages_with journal.old.pages mark pairs) mark → ⊥ }
{
    let value = match value_of(alloc, line) {
        Ok(value) => value,
        Err(fault) => return Err(fault),
    };
    let Some(mark) = take_mark(&value, last, journal, counts, buffer) else {
        return Err(LineFault::Broken);
    };
    match is_mark(alloc, journal, mark, line) {
        Ok(same) => {
            if same {
                let counts = counted(journal, counts, &mark);
                journal.push(mark);
                Ok(counts)
            } else {
                Err(LineFault::Broken)
            }
        }
        Err(Memory) => Err(LineFault::Memory),
    }
}
