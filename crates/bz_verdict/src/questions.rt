//! What pages show is asked of earlier moments: which moment each End asks of is known beforehand.
ghost use Rattle.std.specs.Prelude.{◌≡◌, ◌↔◌, ◌<◌, ◌≤◌, ◌+◌, ◌^◌, ℕ, Option, IsTrue, IfOk, IfSome, IsSomeAnd, Some, false, true, length, slice_index};
ghost use Rattle.bz_layout.specs.declared.config.Config.{Config as Numbers};
ghost use Rattle.bz_call.specs.Map.{Map};
ghost use Rattle.bz_judge.specs.Held.{IsImage, IsImageOf};
ghost use Rattle.bz_mark.specs.Moments.{at_moment, mark_at};
ghost use Rattle.bz_mark.specs.declared.marks.Mark.{Mark as MarkWord};
ghost use Rattle.bz_sound.specs.Calls.{Open};
ghost use Rattle.bz_sound.specs.Memory.Moments.{IsAfterLoad};
ghost use Rattle.bz_check.specs.Pairs.{Holds};
ghost use Rattle.bz_verdict.specs.Pages.{page_key, ShowsNumber, ShowsReply, ShowsMark};
ghost use Rattle.bz_verdict.specs.Questions.{is_load_of, page_read_by, page_read, Asks, AreAsked, noted, AreCalls, stands_for, is_shown_by, is_shown_in, with_page};

use crate::pages::is_shown;
use bz_call::{Call, Reply};
use bz_check::{JudgeRule, Pass};
use bz_key::Key;
use bz_mark::{Journal, Mark};
use bz_oom::Memory;
use std::alloc::Global;

/// Whether a mark is a load of this worker.
fn is_load(mark: &Mark, w: u8) -> bool
    ensures { result ≡ is_load_of w mark.now }
{
    match *mark {
        Mark::Load { w: v, a: _, v: _ } => v == w,
        _ => false,
    }
}

/// The worker and the moment, where the reply to a worker's call is a page.
fn page_by(w: u8, at: u32, reply: &Reply) -> Option<(u8, u32)>
    ensures { result ≡ page_read_by w at reply.now }
{
    match *reply {
        Reply::Page { page: _, next: _ } => Some((w, at)),
        _ => None,
    }
}

/// The worker and the moment of an End with a page.
fn page_of(mark: &Mark) -> Option<(u8, u32)>
    ensures { result ≡ page_read mark.now }
{
    match *mark {
        Mark::End { w, n: _, reply, at } => page_by(w, at, &reply),
        _ => None,
    }
}

/// Whether the mark before a moment is a load of this worker.
fn is_loaded(journal: &Journal, at: u32, w: u8) -> bool
    requires { at ≤ length journal.now.past }
    ensures { IsTrue result ↔ IsAfterLoad w (at_moment at journal.now.past) }
{
    if at == 0 {
        return false;
    }
    let mark = journal.mark(at - 1);
    is_load(&mark, w)
}

/// The moment at which a mark asks what its page shows, if it does.
fn asked_at(journal: &Journal, i: u32) -> Option<u32>
    requires { i < length journal.now.past }
    ensures within { IfSome result (λ at. at ≤ i) }
    ensures asks { (at : ℕ) → Asks journal.now.past i at ↔ result ≡ Some at }
{
    let mark = journal.mark(i);
    let Some(read) = page_of(&mark) else {
        return None;
    };
    if read.1 > i {
        return None;
    }
    let loaded = is_loaded(journal, read.1, read.0);
    if loaded { Some(read.1) } else { None }
}

/// Notes the moment that a mark asks of, unless it was noted before.
fn note(asked: &mut Vec<u32>, at: Option<u32>, i: u32)
    requires within { IfSome at (λ moment. moment < length asked.old.items) }
    requires few { i + 1 < 2 ^ 32 }
    ensures { asked.new.items ≡ noted asked.old.items at i }
{
    let Some(moment) = at else {
        return;
    };
    if asked[moment as usize] == 0 {
        asked[moment as usize] = i + 1;
    }
}

/// For each moment the first End that asks what its page shows there, counted from 1, and 0 where none does.
pub(crate) fn questions(alloc: Global, journal: &Journal) -> Result<Vec<u32>, Memory>
    ensures { IfOk result (λ asked. AreAsked journal.now.past (length journal.now.past) asked.items) }
{
    let count = journal.length();
    let mut asked = vec![in alloc; 0u32; count as usize + 1]?;
    for i in 0..count {
        let at = asked_at(journal, i);
        note(&mut asked, at, i);
    }
    Ok(asked)
}

/// The key from which a call asks for a page, if it does.
fn key_of_page(call: Call) -> Option<Key>
    ensures { result ≡ page_key call }
{
    match call {
        Call::Page(from) => Some(from),
        _ => None,
    }
}

/// Whether the page with this number shows what a worker's open call asks for.
fn is_number_shown(journal: &Journal, pass: &Pass, w: u8, page: u32, next: &Option<Key>) -> bool
    requires workers { length pass.now.table.callers ≡ 256 }
    requires image { IsImage pass.now.words.durable }
    ensures { (c : Numbers) (at : Map) (calls : ℕ → Option Open) → IsImageOf c pass.now.words.durable → Holds at pass.now.pairs → AreCalls calls pass.now.table →
        (IsTrue result ↔ IsSomeAnd (calls w) (λ opened. ShowsNumber c (slice_index pass.now.words.durable) at journal.now.pages page next.now opened.call)) }
{
    let Some(call) = pass.open_call(w) else {
        return false;
    };
    let Some(from) = key_of_page(call) else {
        return false;
    };
    if page >= journal.page_count() {
        return false;
    }
    is_shown(pass.durable(), pass.map(), &from, next, journal.page(page))
}

/// Whether a reply names a page that shows what a worker's open call asks for.
fn is_reply_shown(journal: &Journal, pass: &Pass, w: u8, reply: &Reply) -> bool
    requires workers { length pass.now.table.callers ≡ 256 }
    requires image { IsImage pass.now.words.durable }
    ensures { (c : Numbers) (at : Map) (calls : ℕ → Option Open) → IsImageOf c pass.now.words.durable → Holds at pass.now.pairs → AreCalls calls pass.now.table →
        (IsTrue result ↔ ShowsReply c (slice_index pass.now.words.durable) at journal.now.pages (calls w) reply.now) }
{
    match *reply {
        Reply::Page { page, next } => is_number_shown(journal, pass, w, page, &next),
        _ => false,
    }
}

/// Whether a mark is an End whose page shows what the open call of its worker asks for.
fn is_mark_shown(journal: &Journal, pass: &Pass, mark: &Mark) -> bool
    requires workers { length pass.now.table.callers ≡ 256 }
    requires image { IsImage pass.now.words.durable }
    ensures { (c : Numbers) (at : Map) (calls : ℕ → Option Open) → IsImageOf c pass.now.words.durable → Holds at pass.now.pairs → AreCalls calls pass.now.table →
        (IsTrue result ↔ ShowsMark c (slice_index pass.now.words.durable) at journal.now.pages calls mark.now) }
{
    match *mark {
        Mark::End {
            w,
            n: _,
            reply,
            at: _,
        } => is_reply_shown(journal, pass, w, &reply),
        _ => false,
    }
}

/// What is left of a moment's question at that moment: it stands where the End's page shows what its call asks for. At an inner moment
/// nothing is looked at.
pub(crate) fn answer(journal: &Journal, pass: &Pass, inner: bool, question: u32) -> u32
    requires few { question ≤ length journal.now.past }
    requires workers { length pass.now.table.callers ≡ 256 }
    requires image { inner ≡ false → IsImage pass.now.words.durable }
    ensures at_most { result ≤ question }
    ensures inner { inner ≡ true → result ≡ question }
    ensures shown { (c : Numbers) (at : Map) (calls : ℕ → Option Open) → inner ≡ false → IsImageOf c pass.now.words.durable → Holds at pass.now.pairs → AreCalls calls pass.now.table → (e : ℕ) (mark : MarkWord) → question ≡ e + 1 →
        mark_at e journal.now.past ≡ Some mark → (result ≡ e + 1 ↔ ShowsMark c (slice_index pass.now.words.durable) at journal.now.pages calls mark) }
{
    if inner {
        return question;
    }
    if question == 0 {
        return 0;
    }
    let mark = journal.mark(question - 1);
    let shown = is_mark_shown(journal, pass, &mark);
    if shown { question } else { 0 }
}

/// Whether the question of an End with a page still stands.
fn is_reply_answered(asked: &[u32], i: u32, at: u32, reply: &Reply) -> bool
    requires { i + 1 < 2 ^ 32 }
    ensures { result ≡ is_shown_by asked.now i at reply.now }
{
    match *reply {
        Reply::Page { page: _, next: _ } => match asked.get(at as usize).copied() {
            Some(question) => question == i + 1,
            None => false,
        },
        _ => true,
    }
}

/// Whether the question of a mark that is an End with a page still stands.
fn is_answered(asked: &[u32], i: u32, mark: &Mark) -> bool
    requires { i + 1 < 2 ^ 32 }
    ensures { result ≡ is_shown_in asked.now i mark.now }
{
    match *mark {
        Mark::End {
            w: _,
            n: _,
            reply,
            at,
        } => is_reply_answered(asked, i, at, &reply),
        _ => true,
    }
}

/// The first rule that a mark breaks, by what was told of it but for its page, and by the questions that still stand.
pub(crate) fn fault_with_page(
    asked: &[u32],
    i: u32,
    mark: &Mark,
    fault: Option<JudgeRule>,
) -> Option<JudgeRule>
    requires { i + 1 < 2 ^ 32 }
    ensures { result ≡ with_page fault (is_shown_in asked.now i mark.now) }
{
    let shown = is_answered(asked, i, mark);
    match fault {
        Some(rule) => Some(rule),
        None => { if shown { None } else { Some(JudgeRule::Reply) } }
    }
}
