//! Reading a script.
ghost use Rattle.std.specs.Prelude.{◌≡◌, ◌≤◌, ◌<◌, ◌+◌, length, MatchResult, Ok};
ghost use Rattle.bz_script.specs.Order.{at_first as first};
ghost use Rattle.bz_script.specs.Reads.{Reads};
ghost use Rattle.bz_script.specs.Script.{script_of, script_of_lines, items_of, item_of, first_of, unended, job_of, IsFault};
ghost use Rattle.bz_script.specs.Words.{texts_of};

use crate::fault::{LineFault, ScriptFault, ScriptRule};
use crate::forms::{Line, Sizes, read_line, read_memory};
use crate::item::Item;
use crate::item_list::ItemList;
use crate::order::{Standing, at_first, follow, may_stand};
use crate::script::Script;
use crate::words::{is_word, parts};
use std::alloc::Global;

/// The greatest length of a script, in bytes.
pub const SCRIPT_BYTES: usize = 1_048_576;

// The sizes that the first line gives. Where an image is given, its numbers are those of the line.
fn read_sizes(words: &[&[u8]], image: Option<(u32, u32)>) -> Result<Sizes, ScriptRule>
    ensures { result ≡ first_of image (texts_of words.now) }
{
    if !is_word(words, 0, b"memory") {
        return Err(ScriptRule::NoMemoryLine);
    }
    let sizes = read_memory(words)?;
    let Some((nodes, swaps)) = image else {
        return Ok(sizes);
    };
    if sizes.nodes != nodes {
        return Err(ScriptRule::Number);
    }
    if sizes.swaps != swaps {
        return Err(ScriptRule::Number);
    }
    Ok(sizes)
}

// The item that a later line gives.
fn read_item(alloc: Global, words: &[&[u8]], standing: Standing) -> Result<Item, LineFault>
    ensures { Reads (item_of standing (texts_of words.now)) result }
{
    match read_line(alloc, words)? {
        Line::Memory(_) => Err(LineFault::Rule(ScriptRule::Order)),
        Line::Entry(item) => {
            if !may_stand(standing, &item) {
                return Err(LineFault::Rule(ScriptRule::Order));
            }
            Ok(item)
        }
    }
}

// The items of the later lines. The last part is what stands behind the last line feed.
fn read_items(alloc: Global, lines: &[&[u8]]) -> Result<ItemList, ScriptFault>
    requires some { 0 < length lines.now }
    requires fits { length lines.now ≤ SCRIPT_BYTES }
    ensures { MatchResult result (λ list. items_of 2 first (texts_of lines.now) ≡ Ok list.items) (IsFault (items_of 2 first (texts_of lines.now))) }
{
    let last = lines.len() - 1;
    let mut items = ItemList::open(alloc, last)?;
    let mut standing = at_first();
    for place in 0..last {
        let words = parts(alloc, lines[place], b' ')?;
        match read_item(alloc, &words, standing) {
            Ok(item) => {
                standing = follow(standing, &item);
                items.push(item);
            }
            Err(LineFault::Rule(rule)) => {
                return Err(ScriptFault::Rule {
                    line: place as u32 + 2,
                    rule,
                });
            }
            Err(LineFault::Memory) => return Err(ScriptFault::Memory),
        }
    }
    if !lines[last].is_empty() {
        return Err(ScriptFault::Rule {
            line: last as u32 + 2,
            rule: ScriptRule::NoEnd,
        });
    }
    Ok(items)
}

/// The rule that the one part of bytes without a line feed breaks.
pub fn unended_rule(line: &[u8]) -> ScriptRule
    ensures { result ≡ unended line.now }
{
    if line.is_empty() {
        ScriptRule::NoMemoryLine
    } else {
        ScriptRule::NoEnd
    }
}

// The script that these lines are.
fn read_lines(
    alloc: Global,
    lines: &[&[u8]],
    image: Option<(u32, u32)>,
) -> Result<Script, ScriptFault>
    requires some { 0 < length lines.now }
    requires fits { length lines.now ≤ SCRIPT_BYTES + 1 }
    ensures { MatchResult result (λ script. script_of_lines image (texts_of lines.now) ≡ Ok (job_of script)) (IsFault (script_of_lines image (texts_of lines.now))) }
{
    if lines.len() == 1 {
        return Err(ScriptFault::Rule {
            line: 1,
            rule: unended_rule(lines[0]),
        });
    }
    let words = parts(alloc, lines[0], b' ')?;
    let sizes = match read_sizes(&words, image) {
        Ok(sizes) => sizes,
        Err(rule) => return Err(ScriptFault::Rule { line: 1, rule }),
    };
    let items = read_items(alloc, &lines[1..])?;
    Ok(Script {
        nodes: sizes.nodes,
        swaps: sizes.swaps,
        items,
    })
}

/// The script that the bytes are, or the first rule that they break.
///
/// `memory` is the numbers of node slots and of descriptors of an image that is there already: where it
/// is given, the first line has to give the same.
pub fn read_script(
    alloc: Global,
    bytes: &[u8],
    memory: Option<(u32, u32)>,
) -> Result<Script, ScriptFault>
    requires { length bytes.now ≤ SCRIPT_BYTES }
    ensures { MatchResult result (λ script. script_of memory bytes.now ≡ Ok (job_of script)) (IsFault (script_of memory bytes.now)) }
{
    let lines = parts(alloc, bytes, b'\n')?;
    read_lines(alloc, &lines, memory)
}
