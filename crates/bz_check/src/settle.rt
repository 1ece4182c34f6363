//! Making words durable, and the cached ones durable ones again.
ghost use Rattle.std.specs.Prelude.{◌≡◌, ℕ, ◌+◌, ◌*◌, ◌<◌, ◌≤◌, ◌^◌, [], length, replicate, IfOk};
ghost use Rattle.std.specs.List.{AllByRecursion};
ghost use Rattle.bz_pm.specs.After.{Dated, settled_word, settled_words, line_words};
ghost use Rattle.bz_check.specs.Asks.{AreWithin, settled};
ghost use Rattle.bz_check.specs.Restored.{restored};

use crate::asks::{Asked, Asks};
use bz_oom::Memory;
use std::alloc::Global;

pub(crate) const LINE_WORDS: usize = 8;

/// Makes a word of a moment durable, unless the durable one dates from then or later.
pub(crate) fn settle_word(a: usize, moment: u32, word: u64, durable: &mut [u64], since: &mut [u32])
    requires within { a < length durable.old }
    requires dated { length since.old ≡ length durable.old }
    ensures { let was : Dated = record { durable = durable.old; since = since.old } in
        record { durable = durable.new; since = since.new } ≡ settled_word a moment word was }
{
    if since[a] < moment {
        durable[a] = word;
        since[a] = moment;
    }
}

/// Makes the words of a line durable as they were at a moment, each unless the durable one dates from then or later.
fn settle_line(ask: &Asked, durable: &mut [u64], since: &mut [u32])
    requires within { ask.now.line * 8 + 8 ≤ length durable.old }
    requires dated { length since.old ≡ length durable.old }
    requires eight { length ask.now.words ≡ 8 }
    ensures { let was : Dated = record { durable = durable.old; since = since.old } in
        record { durable = durable.new; since = since.new } ≡ settled_words (ask.now.line * 8) ask.now.moment ask.now.words was }
{
    let start = ask.line as usize * LINE_WORDS;
    for offset in 0..LINE_WORDS {
        settle_word(
            start + offset,
            ask.moment,
            ask.words[offset],
            durable,
            since,
        );
    }
}

/// Makes the words of each of these asks durable.
pub(crate) fn settle(asks: &[Asked], durable: &mut [u64], since: &mut [u32])
    requires asks { AreWithin (length durable.old) asks.now }
    requires dated { length since.old ≡ length durable.old }
    ensures { let was : Dated = record { durable = durable.old; since = since.old } in
        record { durable = durable.new; since = since.new } ≡ settled asks.now was }
{
    for ask in asks {
        settle_line(ask, durable, since);
    }
}

/// The eight words of a line.
pub(crate) fn words_of(words: &[u64], line: usize) -> [u64; 8]
    requires { line * 8 + 8 ≤ length words.now }
    ensures words { result ≡ line_words line words.now }
    ensures eight { length result ≡ 8 }
{
    let start = line * LINE_WORDS;
    let end = start + LINE_WORDS;
    let mut line_words = [0u64; LINE_WORDS];
    line_words.copy_from_slice(&words[start..end]);
    line_words
}

/// Makes the cached words at these addresses the durable ones.
pub(crate) fn restore(stored: &[u32], cached: &mut [u64], durable: &[u64])
    requires within { AllByRecursion (λ a. a < length durable.now) stored.now }
    requires same { length cached.old ≡ length durable.now }
    ensures { cached.new ≡ restored stored.now cached.old durable.now }
{
    for a in stored {
        cached[*a as usize] = durable[*a as usize];
    }
}

/// So many workers, none of which asked for anything. The error is want of memory.
pub(crate) fn no_asks(alloc: Global, workers: usize) -> Result<Vec<Asks>, Memory>
    requires { workers < 2 ^ 32 }
    ensures { IfOk result (λ all. all.items ≡ replicate workers []) }
{
    let mut all = Vec::new(alloc);
    for _ in 0..workers {
        all.push(Asks::none(alloc))?;
    }
    Ok(all)
}

/// Forgets what each worker asked for.
pub(crate) fn forget(all: &mut [Asks])
    ensures { all.new ≡ replicate (length all.old) [] }
{
    for w in 0..all.len() {
        all[w].clear();
    }
}
