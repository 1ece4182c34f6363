//! Reading a queue's script.
ghost use Rattle.std.specs.Prelude.{◌≡◌, ◌≤◌, ◌<◌, ◌+◌, length, MatchResult, Ok};
ghost use Rattle.bz_script.specs.Order.{at_first as first};
ghost use Rattle.bz_script.specs.Reads.{Reads};
ghost use Rattle.bz_script.specs.Script.{IsFault};
ghost use Rattle.bz_script.specs.Words.{texts_of};
ghost use Rattle.bz_script.specs.declared.read.TheConstants.{SCRIPT_BYTES};
ghost use Rattle.bz_qscript.specs.Script.{script_of, script_of_lines, items_of, item_of, first_of, job_of};

use crate::forms::{QLine, QSizes, read_line, read_memory};
use crate::item::{QItem, QScript};
use crate::order::kind_of;
use bz_script::{
    LineFault, ScriptFault, ScriptRule, Standing, at_first, follow_kind, is_word, may_come, parts,
    unended_rule,
};
use std::alloc::Global;

// The sizes that the first line gives.
fn read_sizes(words: &[&[u8]]) -> Result<QSizes, ScriptRule>
    ensures { result ≡ first_of (texts_of words.now) }
{
    if !is_word(words, 0, b"memory") {
        return Err(ScriptRule::NoMemoryLine);
    }
    read_memory(words)
}

// The item that a later line gives.
fn read_item(alloc: Global, words: &[&[u8]], standing: Standing) -> Result<QItem, LineFault>
    ensures { Reads (item_of standing (texts_of words.now)) result }
{
    match read_line(alloc, words)? {
        QLine::Memory(_) => Err(LineFault::Rule(ScriptRule::Order)),
        QLine::Entry(item) => {
            if !may_come(standing, kind_of(&item)) {
                return Err(LineFault::Rule(ScriptRule::Order));
            }
            Ok(item)
        }
    }
}

// The items of the later lines. The last part is what stands behind the last line feed.
fn read_items(alloc: Global, lines: &[&[u8]]) -> Result<Vec<QItem>, ScriptFault>
    requires some { 0 < length lines.now }
    requires fits { length lines.now ≤ SCRIPT_BYTES }
    ensures { MatchResult result (λ items. items_of 2 first (texts_of lines.now) ≡ Ok items.items) (IsFault (items_of 2 first (texts_of lines.now))) }
{
    let last = lines.len() - 1;
    let mut items: Vec<QItem> = Vec::with_capacity(alloc, last)?;
    let mut standing = at_first();
    for place in 0..last {
        let words = parts(alloc, lines[place], b' ')?;
        match read_item(alloc, &words, standing) {
            Ok(item) => {
                standing = follow_kind(standing, kind_of(&item));
                items.push_reserved(item);
            }
            Err(LineFault::Rule(rule)) => {
                return Err(ScriptFault::Rule {
                    line: place as u32 + 2,
                    rule,
                });
            }
            Err(LineFault::Memory) => return Err(ScriptFault::Memory),
        }
    }
    if !lines[last].is_empty() {
        return Err(ScriptFault::Rule {
            line: last as u32 + 2,
            rule: ScriptRule::NoEnd,
        });
    }
    Ok(items)
}

// The script that these lines are.
fn read_lines(alloc: Global, lines: &[&[u8]]) -> Result<QScript, ScriptFault>
    requires some { 0 < length lines.now }
    requires fits { length lines.now ≤ SCRIPT_BYTES + 1 }
    ensures { MatchResult result (λ script. script_of_lines (texts_of lines.now) ≡ Ok (job_of script)) (IsFault (script_of_lines (texts_of lines.now))) }
{
    if lines.len() == 1 {
        return Err(ScriptFault::Rule {
            line: 1,
            rule: unended_rule(lines[0]),
        });
    }
    let words = parts(alloc, lines[0], b' ')?;
    let sizes = match read_sizes(&words) {
        Ok(sizes) => sizes,
        Err(rule) => return Err(ScriptFault::Rule { line: 1, rule }),
    };
    let items = read_items(alloc, &lines[1..])?;
    Ok(QScript {
        capacity: sizes.capacity,
        swaps: sizes.swaps,
        items,
    })
}

/// The script of a queue that the bytes are, or the first rule that they break.
pub fn read_queue_script(alloc: Global, bytes: &[u8]) -> Result<QScript, ScriptFault>
    requires { length bytes.now ≤ SCRIPT_BYTES }
    ensures { MatchResult result (λ script. script_of bytes.now ≡ Ok (job_of script)) (IsFault (script_of bytes.now)) }
{
    let lines = parts(alloc, bytes, b'\n')?;
    read_lines(alloc, &lines)
}
