//! The object of each mark.
ghost use Rattle.std.specs.Prelude.{◌≡◌, [], ◌∷◌, codes, IfOk};
ghost use Rattle.serde_json.specs.Data.{string};
ghost use Rattle.serde_json.specs.View.{view};
ghost use Rattle.bz_lines.specs.Objects.{number_data, fields, data_of};

use crate::call_lines::call_words;
use crate::reply_lines::reply_words;
use bz_call::{Call, Reply};
use bz_mark::{Journal, Mark};
use bz_oom::Memory;
use serde_json::{Map, Value, json, put};
use std::alloc::Global;

fn begin_object(alloc: Global, w: u8, n: u32, call: Call) -> Result<Value, Memory>
    ensures { IfOk result (λ v. view v ≡ data_of [] (Mark.Begin w n call)) }
{
    let words = call_words(alloc, call)?;
    Ok(json!(in alloc; {"call": words, "mark": "begin", "n": n, "w": w})?)
}

fn end_fields(alloc: Global, w: u8, n: u32, words: Value, at: u32) -> Result<Value, Memory>
    ensures { IfOk result (λ v. view v ≡ fields ((codes "at", number_data at) ∷ (codes "mark", string (codes "end")) ∷ (codes "n", number_data n) ∷ (codes "reply", view words) ∷ (codes "w", number_data w) ∷ [])) }
{
    let kind = Value::try_from_str(alloc, "end")?;
    let mut map: Map<String, Value> = Map::new(alloc);
    put(&mut map, alloc, "at", Value::from(at))?;
    put(&mut map, alloc, "mark", kind)?;
    put(&mut map, alloc, "n", Value::from(n))?;
    put(&mut map, alloc, "reply", words)?;
    put(&mut map, alloc, "w", Value::from(w))?;
    Ok(Value::Object(map))
}

fn end_object(
    alloc: Global,
    journal: &Journal,
    w: u8,
    n: u32,
    reply: Reply,
    at: u32,
) -> Result<Value, Memory>
    ensures { IfOk result (λ v. view v ≡ data_of journal.now.pages (Mark.End w n reply at)) }
{
    let words = reply_words(alloc, journal, reply)?;
    end_fields(alloc, w, n, words, at)
}

/// A load or a store.
fn word_object(alloc: Global, kind: &str, w: u8, a: u32, v: u64) -> Result<Value, Memory>
    ensures { IfOk result (λ it. view it ≡ fields ((codes "a", number_data a) ∷ (codes "mark", string kind.now) ∷ (codes "v", number_data v) ∷ (codes "w", number_data w) ∷ [])) }
{
    Ok(json!(in alloc; {"a": a, "mark": kind, "v": v, "w": w})?)
}

fn cas_object(alloc: Global, w: u8, a: u32, old: u64, new: u64, found: u64) -> Result<Value, Memory>
    ensures { IfOk result (λ v. view v ≡ data_of [] (Mark.Cas w a old new found)) }
{
    Ok(json!(in alloc; {"a": a, "found": found, "mark": "cas", "new": new, "old": old, "w": w})?)
}

/// An ask for a line.
fn line_object(alloc: Global, kind: &str, w: u8, line: u32) -> Result<Value, Memory>
    ensures { IfOk result (λ v. view v ≡ fields ((codes "line", number_data line) ∷ (codes "mark", string kind.now) ∷ (codes "w", number_data w) ∷ [])) }
{
    Ok(json!(in alloc; {"line": line, "mark": kind, "w": w})?)
}

fn fence_object(alloc: Global, w: u8) -> Result<Value, Memory>
    ensures { IfOk result (λ v. view v ≡ data_of [] (Mark.Fence w)) }
{
    Ok(json!(in alloc; {"mark": "fence", "w": w})?)
}

fn evict_object(alloc: Global, a: u32) -> Result<Value, Memory>
    ensures { IfOk result (λ v. view v ≡ data_of [] (Mark.Evict a)) }
{
    Ok(json!(in alloc; {"a": a, "mark": "evict"})?)
}

/// A power cut, a power on or the end of a recovery.
fn power_object(alloc: Global, kind: &str) -> Result<Value, Memory>
    ensures { IfOk result (λ v. view v ≡ fields ((codes "mark", string kind.now) ∷ [])) }
{
    Ok(json!(in alloc; {"mark": kind})?)
}

fn effect_object(alloc: Global, w: u8, n: u32) -> Result<Value, Memory>
    ensures { IfOk result (λ v. view v ≡ data_of [] (Mark.Effect w n)) }
{
    Ok(json!(in alloc; {"mark": "effect", "n": n, "w": w})?)
}

/// The object of a mark of the journal.
pub(crate) fn mark_object(alloc: Global, journal: &Journal, mark: Mark) -> Result<Value, Memory>
    ensures { IfOk result (λ v. view v ≡ data_of journal.now.pages mark) }
{
    match mark {
        Mark::Begin { w, n, call } => begin_object(alloc, w, n, call),
        Mark::End { w, n, reply, at } => end_object(alloc, journal, w, n, reply, at),
        Mark::Load { w, a, v } => word_object(alloc, "load", w, a, v),
        Mark::Store { w, a, v } => word_object(alloc, "store", w, a, v),
        Mark::Cas {
            w,
            a,
            old,
            new,
            found,
        } => cas_object(alloc, w, a, old, new, found),
        Mark::Ask { w, line } => line_object(alloc, "ask", w, line),
        Mark::Fence { w } => fence_object(alloc, w),
        Mark::Evict { a } => evict_object(alloc, a),
        Mark::Cut => power_object(alloc, "cut"),
        Mark::On => power_object(alloc, "on"),
        Mark::Ready => power_object(alloc, "ready"),
        Mark::Effect { w, n } => effect_object(alloc, w, n),
    }
}
