//! The forms of a line.
ghost use Rattle.std.specs.Prelude.{◌≡◌};
ghost use Rattle.bz_script.specs.Forms.{memory_of, put_of, keyed_of, call_of, line_of};
ghost use Rattle.bz_script.specs.Asks.{call_putting, call_asking};
ghost use Rattle.bz_script.specs.Reads.{Reads};
ghost use Rattle.bz_script.specs.Words.{texts_of};

use crate::cut_plan::CutPlan;
use crate::fault::{LineFault, ScriptRule};
use crate::item::Item;
use crate::number::{number_to, read_worker};
use crate::power_forms::{has_power_form, read_cut};
use crate::run_forms::read_run;
use crate::words::{is_word, word};
use bz_call::Call;
use bz_key::{read_key, read_payload};
use std::alloc::Global;

const MOST_NODES: u64 = 16_384;

const MOST_SWAPS: u64 = 65_536;

/// The numbers of a `memory` line.
#[derive(Clone, Copy)]
pub(crate) struct Sizes {
    pub(crate) nodes: u32,
    pub(crate) swaps: u32,
}

/// A line that breaks none of the rules that it can break by itself.
#[derive(Drop)]
pub(crate) enum Line {
    Memory(Sizes),
    Entry(Item),
}

// `memory NODES SWAPS`.
pub(crate) fn read_memory(words: &[&[u8]]) -> Result<Sizes, ScriptRule>
    ensures { result ≡ memory_of (texts_of words.now) }
{
    if words.len() != 3 {
        return Err(ScriptRule::Words);
    }
    let Some(nodes) = number_to(word(words, 1), MOST_NODES) else {
        return Err(ScriptRule::Number);
    };
    let Some(swaps) = number_to(word(words, 2), MOST_SWAPS) else {
        return Err(ScriptRule::Number);
    };
    Ok(Sizes {
        nodes: nodes as u32,
        swaps: swaps as u32,
    })
}

/// What a call on a key puts there, if it puts something.
#[derive(Clone, Copy)]
enum Put {
    Insert,
    Update,
    Upsert,
}

/// What a call asks of a key.
#[derive(Clone, Copy)]
enum Ask {
    Delete,
    Get,
    Page,
}

// `w N insert K V`, and likewise `update` and `upsert`.
fn read_put(put: Put, words: &[&[u8]]) -> Result<Item, ScriptRule>
    ensures { result ≡ put_of (call_putting put) (texts_of words.now) }
{
    if words.len() != 5 {
        return Err(ScriptRule::Words);
    }
    let Some(worker) = read_worker(word(words, 1)) else {
        return Err(ScriptRule::Worker);
    };
    let Some(key) = read_key(word(words, 3)) else {
        return Err(ScriptRule::Key);
    };
    let Some(payload) = read_payload(word(words, 4)) else {
        return Err(ScriptRule::Payload);
    };
    let call = match put {
        Put::Insert => Call::Insert(key, payload),
        Put::Update => Call::Update(key, payload),
        Put::Upsert => Call::Upsert(key, payload),
    };
    Ok(Item::Queue(worker, call))
}

// `w N get K`, and likewise `delete` and `page`.
fn read_ask(ask: Ask, words: &[&[u8]]) -> Result<Item, ScriptRule>
    ensures { result ≡ keyed_of (call_asking ask) (texts_of words.now) }
{
    if words.len() != 4 {
        return Err(ScriptRule::Words);
    }
    let Some(worker) = read_worker(word(words, 1)) else {
        return Err(ScriptRule::Worker);
    };
    let Some(key) = read_key(word(words, 3)) else {
        return Err(ScriptRule::Key);
    };
    let call = match ask {
        Ask::Delete => Call::Delete(key),
        Ask::Get => Call::Get(key),
        Ask::Page => Call::Page(key),
    };
    Ok(Item::Queue(worker, call))
}

// A line that begins with `w`.
fn read_call(words: &[&[u8]]) -> Result<Item, ScriptRule>
    ensures { result ≡ call_of (texts_of words.now) }
{
    if words.len() < 3 {
        return Err(ScriptRule::Words);
    }
    if is_word(words, 2, b"insert") {
        return read_put(Put::Insert, words);
    }
    if is_word(words, 2, b"delete") {
        return read_ask(Ask::Delete, words);
    }
    if is_word(words, 2, b"update") {
        return read_put(Put::Update, words);
    }
    if is_word(words, 2, b"upsert") {
        return read_put(Put::Upsert, words);
    }
    if is_word(words, 2, b"get") {
        return read_ask(Ask::Get, words);
    }
    if is_word(words, 2, b"page") {
        return read_ask(Ask::Page, words);
    }
    Err(ScriptRule::Unknown)
}

/// A line, by its first word.
pub(crate) fn read_line(alloc: Global, words: &[&[u8]]) -> Result<Line, LineFault>
    ensures { Reads (line_of (texts_of words.now)) result }
{
    if is_word(words, 0, b"memory") {
        let sizes = read_memory(words)?;
        return Ok(Line::Memory(sizes));
    }
    if is_word(words, 0, b"w") {
        let item = read_call(words)?;
        return Ok(Line::Entry(item));
    }
    if is_word(words, 0, b"run") {
        let item = read_run(alloc, words)?;
        return Ok(Line::Entry(item));
    }
    if is_word(words, 0, b"cut") {
        let CutPlan { flush, seed } = read_cut(words)?;
        return Ok(Line::Entry(Item::Arm { flush, seed }));
    }
    if is_word(words, 0, b"power") {
        if !has_power_form(words) {
            return Err(LineFault::Rule(ScriptRule::Words));
        }
        return Ok(Line::Entry(Item::Power));
    }
    Err(LineFault::Rule(ScriptRule::Unknown))
}
