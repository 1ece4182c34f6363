//! Making words durable that were asked for.

ghost use Rattle.std.specs.Prelude.{◌≡◌, ℕ, ◌+◌, ◌*◌, ◌<◌, ◌≤◌, length};
ghost use Rattle.bz_pm.specs.State.{AreAsks};
ghost use Rattle.bz_pm.specs.After.{Dated, settled_word, settled_words, settled};

use crate::asks::Ask;
use crate::line::LINE_WORDS;

// Makes a word durable that was asked for at a moment, unless the durable one dates from then or later.
fn settle_word(a: usize, moment: u64, word: u64, durable: &mut [u64], since: &mut [u64])
    requires within { a < length durable.old }
    requires dated { length since.old ≡ length durable.old }
    ensures { let was : Dated = record { durable = durable.old; since = since.old } in
        record { durable = durable.new; since = since.new } ≡ settled_word a moment word was }
{
    if since[a] < moment {
        durable[a] = word;
        since[a] = moment;
    }
}

// Makes the words of a line durable that were asked for at a moment, each unless the durable one dates from then or later.
fn settle_line(ask: &Ask, durable: &mut [u64], since: &mut [u64])
    requires within { ask.now.line * 8 + 8 ≤ length durable.old }
    requires dated { length since.old ≡ length durable.old }
    requires eight { length ask.now.words ≡ 8 }
    ensures { let was : Dated = record { durable = durable.old; since = since.old } in
        record { durable = durable.new; since = since.new } ≡ settled_words (ask.now.line * 8) ask.now.moment ask.now.words was }
{
    let start = ask.line as usize * LINE_WORDS;
    for offset in 0..LINE_WORDS {
        settle_word(
            start + offset,
            ask.moment,
            ask.words[offset],
            durable,
            since,
        );
    }
}

// Makes the words of each of these asks durable.
pub(crate) fn settle(asks: &[Ask], durable: &mut [u64], since: &mut [u64])
    requires asks { (acts : ℕ) × AreAsks (length durable.old) acts asks.now }
    requires dated { length since.old ≡ length durable.old }
    ensures { let was : Dated = record { durable = durable.old; since = since.old } in
        record { durable = durable.new; since = since.new } ≡ settled asks.now was }
{
    for ask in asks {
        settle_line(ask, durable, since);
    }
}
