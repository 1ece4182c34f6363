//! The forms of a line that runs calls.
ghost use Rattle.std.specs.Prelude.{◌≡◌, ◌==◌, Some};
ghost use Rattle.bz_script.specs.Number.{worker_of};
ghost use Rattle.bz_script.specs.Reads.{Reads};
ghost use Rattle.bz_script.specs.RunForms.{first_star as star_of, times_by, count_of, turn_of, turns_of, is_alone, alone_of, list_turns, list_of, drawn_of, threads_of, run_of};
ghost use Rattle.bz_script.specs.Words.{texts_of};

use crate::fault::{LineFault, ScriptRule};
use crate::item::{Item, Plan};
use crate::number::{number_to, read_number, read_worker};
use crate::turn_list::{Turn, TurnList};
use crate::words::{is_word, word};
use std::alloc::Global;

const MOST_TURNS: u64 = 65_536;

// The place of the first star of a word.
fn first_star(text: &[u8]) -> Option<usize>
    ensures { result ≡ star_of text.now }
{
    text.iter().position(|b| *b == b'*')
}

// `N`.
fn read_once(worker: &[u8]) -> Result<Turn, ScriptRule>
    ensures { result ≡ times_by (worker_of worker.now) (Some 1) }
{
    let Some(worker) = read_worker(worker) else {
        return Err(ScriptRule::Worker);
    };
    Ok(Turn::Times(worker, 1))
}

// `N*K`.
fn read_times(worker: &[u8], count: &[u8]) -> Result<Turn, ScriptRule>
    ensures { result ≡ times_by (worker_of worker.now) (count_of count.now) }
{
    let Some(worker) = read_worker(worker) else {
        return Err(ScriptRule::Worker);
    };
    let Some(count) = number_to(count, MOST_TURNS) else {
        return Err(ScriptRule::Number);
    };
    Ok(Turn::Times(worker, count as u32))
}

// A turn word. It is cut at its first star.
fn read_turn(text: &[u8]) -> Result<Turn, ScriptRule>
    ensures { result ≡ turn_of text.now }
{
    match first_star(text) {
        Some(star) => read_times(&text[..star], &text[star + 1..]),
        None => read_once(text),
    }
}

// Turn words.
fn read_turns(alloc: Global, words: &[&[u8]]) -> Result<TurnList, LineFault>
    ensures { Reads (turns_of (texts_of words.now)) result }
{
    let mut turns: Vec<Turn> = Vec::with_capacity(alloc, words.len())?;
    for text in words {
        let turn = read_turn(text)?;
        turns.push(turn)?;
    }
    Ok(TurnList::of(turns))
}

/// Whether a line that begins with `run alone` has as many words as that form.
pub fn has_alone_form(words: &[&[u8]]) -> bool
    ensures { result ≡ is_alone (texts_of words.now) }
{
    words.len() == 2
}

// `run alone`.
fn read_alone(words: &[&[u8]]) -> Result<Item, ScriptRule>
    ensures { result ≡ alone_of (texts_of words.now) }
{
    if !has_alone_form(words) {
        return Err(ScriptRule::Words);
    }
    Ok(Item::Run(Plan::Alone))
}

/// The turns of `run list T T T`.
pub fn read_list(alloc: Global, words: &[&[u8]]) -> Result<TurnList, LineFault>
    ensures { Reads (list_turns (texts_of words.now)) result }
{
    if words.len() < 3 {
        return Err(LineFault::Rule(ScriptRule::Words));
    }
    read_turns(alloc, &words[2..])
}

// `run list T T T`.
fn read_listed(alloc: Global, words: &[&[u8]]) -> Result<Item, LineFault>
    ensures { Reads (list_of (texts_of words.now)) result }
{
    let turns = read_list(alloc, words)?;
    Ok(Item::Run(Plan::List(turns)))
}

// `run turns SEED`.
fn read_drawn(words: &[&[u8]]) -> Result<Item, ScriptRule>
    ensures { result ≡ drawn_of (texts_of words.now) }
{
    if words.len() != 3 {
        return Err(ScriptRule::Words);
    }
    let Some(seed) = read_number(word(words, 2)) else {
        return Err(ScriptRule::Number);
    };
    Ok(Item::Run(Plan::Turns(seed)))
}

// `run threads`.
fn read_threads(words: &[&[u8]]) -> Result<Item, ScriptRule>
    ensures { result ≡ threads_of (texts_of words.now) }
{
    if words.len() != 2 {
        return Err(ScriptRule::Words);
    }
    Ok(Item::Run(Plan::Threads))
}

/// A line that begins with `run`.
pub(crate) fn read_run(alloc: Global, words: &[&[u8]]) -> Result<Item, LineFault>
    ensures { Reads (run_of (texts_of words.now)) result }
{
    if words.len() < 2 {
        return Err(LineFault::Rule(ScriptRule::Words));
    }
    if is_word(words, 1, b"alone") {
        return Ok(read_alone(words)?);
    }
    if is_word(words, 1, b"list") {
        return read_listed(alloc, words);
    }
    if is_word(words, 1, b"turns") {
        return Ok(read_drawn(words)?);
    }
    if is_word(words, 1, b"threads") {
        return Ok(read_threads(words)?);
    }
    Err(LineFault::Rule(ScriptRule::Unknown))
}
