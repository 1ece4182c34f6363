//! Marks that were read.
ghost use Rattle.std.specs.Borrow.{Bor};
ghost use Rattle.std.specs.Prelude.{◌≡◌, ◌+◌, ◌*◌, ◌<◌, ◌≤◌, ℕ, List, IfSome, option_map};
ghost use Rattle.serde_json.specs.View.{view};
ghost use Rattle.bz_lines.specs.Ranges.{IsInRange, IsNumbered};
ghost use Rattle.bz_reading.specs.Reading.{begin_in as begin_of, end_in as end_of, load_in as load_of, store_in as store_of, cas_in as cas_of, line_in as place_of, kind_text, act_in as act_of, event_in as event_of, mark_in as mark_of};

use crate::calls_in::{call_in, reply_in};
use crate::numbers_in::{is_text, name_in, number_in, word_in, worker_in};
use bz_layout::{LINE_WORDS, MAX_WORKERS};
use bz_mark::Mark;
use serde_json::Value;

fn begin_in(value: &Value) -> Option<Mark>
    ensures mark { result ≡ begin_of (view value.now) }
    ensures range { (words before : ℕ) → IfSome result (IsInRange words before) }
    ensures numbered { (number : ℕ) → IfSome result (IsNumbered number) }
{
    let (w, n) = name_in(value)?;
    let words = value.get("call")?;
    let call = call_in(words)?;
    Some(Mark::Begin { w, n, call })
}

fn end_in(value: &Value, before: u32, page: u32) -> Option<Mark>
    ensures mark { result ≡ end_of before page (view value.now) }
    ensures range { (words : ℕ) → IfSome result (IsInRange words before) }
    ensures numbered { IfSome result (IsNumbered page) }
{
    let (w, n) = name_in(value)?;
    let words = value.get("reply")?;
    let reply = reply_in(words, page)?;
    let at = number_in(value, "at", 0, u64::from(before))?;
    Some(Mark::End {
        w,
        n,
        reply,
        at: at as u32,
    })
}

fn load_in(value: &Value, last: u32) -> Option<Mark>
    ensures mark { result ≡ load_of last (view value.now) }
    ensures range { (before : ℕ) → IfSome result (IsInRange (last + 1) before) }
    ensures numbered { (number : ℕ) → IfSome result (IsNumbered number) }
{
    let w = worker_in(value)?;
    let a = number_in(value, "a", 0, u64::from(last))?;
    let v = word_in(value, "v")?;
    Some(Mark::Load { w, a: a as u32, v })
}

fn store_in(value: &Value, last: u32) -> Option<Mark>
    ensures mark { result ≡ store_of last (view value.now) }
    ensures range { (before : ℕ) → IfSome result (IsInRange (last + 1) before) }
    ensures numbered { (number : ℕ) → IfSome result (IsNumbered number) }
{
    let w = worker_in(value)?;
    let a = number_in(value, "a", 0, u64::from(last))?;
    let v = word_in(value, "v")?;
    Some(Mark::Store { w, a: a as u32, v })
}

fn cas_in(value: &Value, last: u32) -> Option<Mark>
    ensures mark { result ≡ cas_of last (view value.now) }
    ensures range { (before : ℕ) → IfSome result (IsInRange (last + 1) before) }
    ensures numbered { (number : ℕ) → IfSome result (IsNumbered number) }
{
    let old = word_in(value, "old")?;
    let new = word_in(value, "new")?;
    let found = word_in(value, "found")?;
    let w = worker_in(value)?;
    let a = number_in(value, "a", 0, u64::from(last))?;
    Some(Mark::Cas {
        w,
        a: a as u32,
        old,
        new,
        found,
    })
}

/// The worker and the line of an ask.
fn line_in(value: &Value, last: u32) -> Option<(u8, u32)>
    ensures place { result ≡ place_of last (view value.now) }
    ensures worker { IfSome result (λ place. place.0 ≤ MAX_WORKERS) }
    ensures line { IfSome result (λ place. place.1 * 8 < last + 1) }
{
    let w = worker_in(value)?;
    let line = number_in(value, "line", 0, u64::from(last / LINE_WORDS))?;
    Some((w, line as u32))
}

fn text_of_kind(value: &Value) -> Option<&str>
    ensures { option_map (λ (s : Bor (List ℕ)). s.now) result ≡ kind_text (view value.now) }
{
    value.get("mark").and_then(Value::as_str)
}

/// A mark of an act.
fn act_in(kind: Option<&str>, value: &Value, last: u32) -> Option<Mark>
    ensures mark { result ≡ act_of (option_map (λ (s : Bor (List ℕ)). s.now) kind.entry) last (view value.now) }
    ensures range { (before : ℕ) → IfSome result (IsInRange (last + 1) before) }
    ensures numbered { (number : ℕ) → IfSome result (IsNumbered number) }
{
    if is_text(kind, "load") {
        return load_in(value, last);
    }
    if is_text(kind, "store") {
        return store_in(value, last);
    }
    if is_text(kind, "cas") {
        return cas_in(value, last);
    }
    if is_text(kind, "ask") {
        let (w, line) = line_in(value, last)?;
        return Some(Mark::Ask { w, line });
    }
    if is_text(kind, "fence") {
        let w = worker_in(value)?;
        return Some(Mark::Fence { w });
    }
    None
}

/// A mark that is no act of a worker.
fn event_in(kind: Option<&str>, value: &Value, last: u32) -> Option<Mark>
    ensures mark { result ≡ event_of (option_map (λ (s : Bor (List ℕ)). s.now) kind.entry) last (view value.now) }
    ensures range { (before : ℕ) → IfSome result (IsInRange (last + 1) before) }
    ensures numbered { (number : ℕ) → IfSome result (IsNumbered number) }
{
    if is_text(kind, "evict") {
        let a = number_in(value, "a", 0, u64::from(last))?;
        return Some(Mark::Evict { a: a as u32 });
    }
    if is_text(kind, "effect") {
        let (w, n) = name_in(value)?;
        return Some(Mark::Effect { w, n });
    }
    if is_text(kind, "cut") {
        return Some(Mark::Cut);
    }
    if is_text(kind, "on") {
        return Some(Mark::On);
    }
    if is_text(kind, "ready") {
        return Some(Mark::Ready);
    }
    None
}

/// The mark that an object tells, of a memory with this last address, behind so many marks; a page gets this number.
pub fn mark_in(value: &Value, last: u32, before: u32, page: u32) -> Option<Mark>
    ensures mark { result ≡ mark_of last before page (view value.now) }
    ensures range { IfSome result (IsInRange (last + 1) before) }
    ensures numbered { IfSome result (IsNumbered page) }
{
    let kind = text_of_kind(value);
    if is_text(kind, "begin") {
        return begin_in(value);
    }
    if is_text(kind, "end") {
        return end_in(value, before, page);
    }
    match act_in(kind, value, last) {
        Some(mark) => Some(mark),
        None => event_in(kind, value, last),
    }
}
