//! The forms of a line.
ghost use Rattle.std.specs.Prelude.{◌≡◌};
ghost use Rattle.bz_script.specs.Reads.{Reads};
ghost use Rattle.bz_script.specs.Words.{texts_of};
ghost use Rattle.bz_qscript.specs.Forms.{memory_of, item_number, put_of, take_of, call_of, alone_of, list_of, run_of, cut_item_of, power_of, line_of};

use crate::item::{QItem, QPlan};
use bz_layout::{MAX_CAPACITY, MAX_SWAPS};
use bz_ring::QCall;
use bz_script::{
    LineFault, ScriptRule, has_alone_form, has_power_form, is_word, number_to, read_cut, read_list,
    read_number, read_worker, word,
};
use std::alloc::Global;

/// The greatest number that a put takes: 2^60 less 1.
const MOST_ITEM: u64 = 1_152_921_504_606_846_975;

/// The numbers of a `memory` line.
#[derive(Clone, Copy)]
pub(crate) struct QSizes {
    pub(crate) capacity: u32,
    pub(crate) swaps: u32,
}

/// A line that breaks none of the rules that it can break by itself.
#[derive(Drop)]
pub(crate) enum QLine {
    Memory(QSizes),
    Entry(QItem),
}

// `memory CAP SWAPS`.
pub(crate) fn read_memory(words: &[&[u8]]) -> Result<QSizes, ScriptRule>
    ensures { result ≡ memory_of (texts_of words.now) }
{
    if words.len() != 3 {
        return Err(ScriptRule::Words);
    }
    let Some(capacity) = number_to(word(words, 1), u64::from(MAX_CAPACITY)) else {
        return Err(ScriptRule::Number);
    };
    let Some(swaps) = number_to(word(words, 2), u64::from(MAX_SWAPS)) else {
        return Err(ScriptRule::Number);
    };
    Ok(QSizes {
        capacity: capacity as u32,
        swaps: swaps as u32,
    })
}

// The number that a put takes, 0 to 2^60 less 1.
fn read_item(text: &[u8]) -> Option<u64>
    ensures { result ≡ item_number text.now }
{
    let Some(number) = read_number(text) else {
        return None;
    };
    if number > MOST_ITEM {
        return None;
    }
    Some(number)
}

// `w N put X`.
fn read_put(words: &[&[u8]]) -> Result<QItem, ScriptRule>
    ensures { result ≡ put_of (texts_of words.now) }
{
    if words.len() != 4 {
        return Err(ScriptRule::Words);
    }
    let Some(worker) = read_worker(word(words, 1)) else {
        return Err(ScriptRule::Worker);
    };
    let Some(number) = read_item(word(words, 3)) else {
        return Err(ScriptRule::Number);
    };
    Ok(QItem::Queue(worker, QCall::Put(number)))
}

// `w N take`.
fn read_take(words: &[&[u8]]) -> Result<QItem, ScriptRule>
    ensures { result ≡ take_of (texts_of words.now) }
{
    if words.len() != 3 {
        return Err(ScriptRule::Words);
    }
    let Some(worker) = read_worker(word(words, 1)) else {
        return Err(ScriptRule::Worker);
    };
    Ok(QItem::Queue(worker, QCall::Take))
}

// A line that begins with `w`.
fn read_call(words: &[&[u8]]) -> Result<QItem, ScriptRule>
    ensures { result ≡ call_of (texts_of words.now) }
{
    if words.len() < 3 {
        return Err(ScriptRule::Words);
    }
    if is_word(words, 2, b"put") {
        return read_put(words);
    }
    if is_word(words, 2, b"take") {
        return read_take(words);
    }
    Err(ScriptRule::Unknown)
}

// `run alone`.
fn read_alone(words: &[&[u8]]) -> Result<QItem, ScriptRule>
    ensures { result ≡ alone_of (texts_of words.now) }
{
    if !has_alone_form(words) {
        return Err(ScriptRule::Words);
    }
    Ok(QItem::Run(QPlan::Alone))
}

// `run list T T T`.
fn read_listed(alloc: Global, words: &[&[u8]]) -> Result<QItem, LineFault>
    ensures { Reads (list_of (texts_of words.now)) result }
{
    let turns = read_list(alloc, words)?;
    Ok(QItem::Run(QPlan::List(turns)))
}

// A line that begins with `run`.
fn read_run(alloc: Global, words: &[&[u8]]) -> Result<QItem, LineFault>
    ensures { Reads (run_of (texts_of words.now)) result }
{
    if words.len() < 2 {
        return Err(LineFault::Rule(ScriptRule::Words));
    }
    if is_word(words, 1, b"alone") {
        return Ok(read_alone(words)?);
    }
    if is_word(words, 1, b"list") {
        return read_listed(alloc, words);
    }
    Err(LineFault::Rule(ScriptRule::Unknown))
}

// `cut FENCE SEED`.
fn read_armed(words: &[&[u8]]) -> Result<QItem, ScriptRule>
    ensures { result ≡ cut_item_of (texts_of words.now) }
{
    let cut = read_cut(words)?;
    Ok(QItem::Arm(cut))
}

// `power`.
fn read_power(words: &[&[u8]]) -> Result<QItem, ScriptRule>
    ensures { result ≡ power_of (texts_of words.now) }
{
    if !has_power_form(words) {
        return Err(ScriptRule::Words);
    }
    Ok(QItem::Power)
}

/// A line, by its first word.
pub(crate) fn read_line(alloc: Global, words: &[&[u8]]) -> Result<QLine, LineFault>
    ensures { Reads (line_of (texts_of words.now)) result }
{
    if is_word(words, 0, b"memory") {
        let sizes = read_memory(words)?;
        return Ok(QLine::Memory(sizes));
    }
    if is_word(words, 0, b"w") {
        let item = read_call(words)?;
        return Ok(QLine::Entry(item));
    }
    if is_word(words, 0, b"run") {
        let item = read_run(alloc, words)?;
        return Ok(QLine::Entry(item));
    }
    if is_word(words, 0, b"cut") {
        let item = read_armed(words)?;
        return Ok(QLine::Entry(item));
    }
    if is_word(words, 0, b"power") {
        let item = read_power(words)?;
        return Ok(QLine::Entry(item));
    }
    Err(LineFault::Rule(ScriptRule::Unknown))
}
