//! The first line, read.
ghost use Rattle.std.specs.Prelude.{◌≡◌, ◌≤◌, ◌<◌, ℕ, map, option_map, IfOk, IfSome, length, if◌then◌else◌, Vec};
ghost use Rattle.serde_json.specs.View.{view, items_view};
ghost use Rattle.bz_layout.specs.Config.{IsConfig};
ghost use Rattle.bz_reading.specs.Heads.{item_number as number_of, placed, filled, config_in as config_of, start_items, start_in as start_of};
ghost use Rattle.std.specs.declared.alloc.Global.{Global};

use crate::numbers_in::number_in;
use bz_layout::{Config, MAX_CALLS, MAX_MARKS, MAX_NODES, MAX_PAGES, MAX_SWAPS, MAX_WORKERS};
use bz_oom::Memory;
use serde_json::Value;
use std::alloc::Global;

/// The configuration that a first line tells: its sizes, and the greatest limits.
pub(crate) fn config_in(value: &Value) -> Option<Config>
    ensures config { result ≡ config_of (view value.now) }
    ensures range { IfSome result IsConfig }
{
    let nodes = number_in(value, "nodes", 1, u64::from(MAX_NODES))?;
    let swaps = number_in(value, "swaps", 1, u64::from(MAX_SWAPS))?;
    Some(Config {
        nodes: nodes as u32,
        swaps: swaps as u32,
        workers: MAX_WORKERS,
        marks: MAX_MARKS,
        calls: MAX_CALLS,
        pages: MAX_PAGES,
    })
}

/// The number of an item, at most this one.
fn item_number(value: &Value, place: usize, most: u64) -> Option<u64>
    ensures value { result ≡ number_of place most (view value.now) }
    ensures most { IfSome result (λ n. n ≤ most) }
{
    let Some(number) = value.get(place).and_then(Value::as_u64) else {
        return None;
    };
    if number > most {
        return None;
    }
    Some(number)
}

/// Puts the word of a pair at its address, and answers whether there was one.
fn put_word(pair: &Value, words: &mut Vec<u64>) -> bool
    requires { 0 < length words.old.items }
    ensures { placed (view pair.now) words.old.items ≡ (if result then Some words.new.items else None) }
{
    let last = words.len() - 1;
    let Some(a) = item_number(pair, 0, last as u64) else {
        return false;
    };
    let Some(word) = item_number(pair, 1, u64::MAX) else {
        return false;
    };
    words[a as usize] = word;
    true
}

/// Puts the words of all pairs at their addresses, and answers whether all had one.
fn put_words(pairs: &[Value], words: &mut Vec<u64>) -> bool
    requires { 0 < length words.old.items }
    ensures { filled (map view pairs.now) words.old.items ≡ (if result then Some words.new.items else None) }
{
    for pair in pairs {
        if !put_word(pair, words) {
            return false;
        }
    }
    true
}

/// The pairs of the start image, as they were read.
fn start_list(value: &Value) -> Option<&Vec<Value>>
    ensures { option_map (λ v. items_view v.now.items) result ≡ start_items (view value.now) }
{
    value.get("start").and_then(Value::as_array)
}

/// The start image that a first line tells, of so many words. The error is want of memory.
pub(crate) fn start_in(alloc: Global, value: &Value, words: u32) -> Result<Option<Vec<u64>>, Memory>
    requires { 0 < words }
    ensures { IfOk result (λ start. option_map (λ (v : Vec ℕ Global). v.items) start ≡ start_of words (view value.now)) }
{
    let mut start = vec![in alloc; 0u64; words as usize]?;
    match start_list(value) {
        Some(pairs) => {
            if put_words(pairs, &mut start) {
                Ok(Some(start))
            } else {
                Ok(None)
            }
        }
        None => Ok(None),
    }
}
