//! Whether the reply of an End is right, as far as the map and counts tell.
ghost use Rattle.std.specs.Prelude.{◌≡◌, Some, None, length};
ghost use Rattle.bz_check.specs.Answers.{reply_by, same_reply, tells, answers_so, is_payload, stays_in, is_write_in};
ghost use Rattle.bz_check.specs.Sights.{found_of, is_read_in, paged_in, may_page_in, may_be_full_in, may_read_in, is_effective_in, answers_in, reply_in, replies_in};

use crate::counter::{Counter, Standing};
use crate::sights::{Sight, Sights};
use crate::table::{OpenCall, Table};
use bz_call::{Call, Reply, Spent};
use bz_key::Payload;
use bz_mark::Mark;

/// What a map answers that has no payload at the call's key.
fn reply_without(call: &Call) -> Option<Reply>
    ensures { result ≡ reply_by None call.now }
{
    match *call {
        Call::Insert(_, _) => Some(Reply::Inserted),
        Call::Delete(_) => Some(Reply::Missing),
        Call::Update(_, _) => Some(Reply::Missing),
        Call::Upsert(_, _) => Some(Reply::Inserted),
        Call::Get(_) => Some(Reply::Missing),
        Call::Page(_) => None,
    }
}

/// What a map answers that has this payload there.
fn reply_with(had: Payload, call: &Call) -> Option<Reply>
    ensures { result ≡ reply_by (Some had) call.now }
{
    match *call {
        Call::Insert(_, _) => Some(Reply::Exists),
        Call::Delete(_) => Some(Reply::Deleted(had)),
        Call::Update(_, _) => Some(Reply::Updated(had)),
        Call::Upsert(_, _) => Some(Reply::Updated(had)),
        Call::Get(_) => Some(Reply::Value(had)),
        Call::Page(_) => None,
    }
}

/// Whether two replies are one, where the first names no page and is no Full.
fn is_same(one: Reply, other: &Reply) -> bool
    ensures { result ≡ same_reply one other.now }
{
    match one {
        Reply::Inserted => match *other {
            Reply::Inserted => true,
            _ => false,
        },
        Reply::Exists => match *other {
            Reply::Exists => true,
            _ => false,
        },
        Reply::Deleted(had) => match *other {
            Reply::Deleted(told) => had == told,
            _ => false,
        },
        Reply::Updated(had) => match *other {
            Reply::Updated(told) => had == told,
            _ => false,
        },
        Reply::Missing => match *other {
            Reply::Missing => true,
            _ => false,
        },
        Reply::Value(had) => match *other {
            Reply::Value(told) => had == told,
            _ => false,
        },
        _ => false,
    }
}

/// Whether there is an answer and the reply is this one.
fn is_told(answer: Option<Reply>, reply: &Reply) -> bool
    ensures { result ≡ tells answer reply.now }
{
    match answer {
        Some(one) => is_same(one, reply),
        None => false,
    }
}

/// Whether a map that has this at the call's key answers the call so.
fn is_answer(found: &Option<Payload>, call: &Call, reply: &Reply) -> bool
    ensures { result ≡ answers_so found.now call.now reply.now }
{
    match *found {
        Some(had) => is_told(reply_with(had, call), reply),
        None => is_told(reply_without(call), reply),
    }
}

/// Whether the payload that stands there is this one, or none does and that is enough.
fn is_there(enough: bool, found: &Option<Payload>, payload: Payload) -> bool
    ensures { result ≡ is_payload enough found.now payload }
{
    match *found {
        Some(had) => had == payload,
        None => enough,
    }
}

/// Whether a call leaves a map as it is that has this at the call's key.
fn stays(found: &Option<Payload>, call: &Call) -> bool
    ensures { result ≡ stays_in found.now call.now }
{
    match *call {
        Call::Insert(_, _) => found.is_some(),
        Call::Delete(_) => !found.is_some(),
        Call::Update(_, payload) => is_there(true, found, payload),
        Call::Upsert(_, payload) => is_there(false, found, payload),
        Call::Get(_) => true,
        Call::Page(_) => true,
    }
}

/// Whether a load of this worker saw what answers the call so, and leaves the map as it is.
fn is_read(w: u8, before: Option<Sight>, call: &Call, reply: &Reply) -> bool
    ensures { result ≡ is_read_in w before call.now reply.now }
{
    let Some(sight) = before else {
        return false;
    };
    let loads = sight.load && sight.w == w;
    let answers = is_answer(&sight.found, call, reply);
    let same = stays(&sight.found, call);
    loads && (answers && same)
}

/// Whether a call may change a map.
fn is_write(call: &Call) -> bool
    ensures { result ≡ is_write_in call.now }
{
    match *call {
        Call::Insert(_, _) => true,
        Call::Delete(_) => true,
        Call::Update(_, _) => true,
        Call::Upsert(_, _) => true,
        Call::Get(_) => false,
        Call::Page(_) => false,
    }
}

/// Whether a call asks for a page, and gets the next number behind a load of this worker.
fn is_paged(here: &Standing, w: u8, before: Option<Sight>, call: &Call, page: u32) -> bool
    ensures { result ≡ may_page_in here.now w before call.now page }
{
    let Some(sight) = before else {
        return false;
    };
    let loaded = sight.load && sight.w == w;
    let right = loaded && page == here.page;
    match *call {
        Call::Page(_) => right,
        _ => false,
    }
}

/// Whether the End of a Full is its moment, its call may change a map, and descriptors are spent where it says so.
fn is_full(here: &Standing, at: u32, call: &Call, spent: Spent) -> bool
    ensures { result ≡ may_be_full_in here.now at call.now spent }
{
    let writes = is_write(call);
    let may = at == here.moment && writes;
    match spent {
        Spent::Swaps => may && here.spent,
        _ => may,
    }
}

/// Whether a call that took no effect is answered so.
fn may_read(
    here: &Standing,
    w: u8,
    at: u32,
    before: Option<Sight>,
    call: &Call,
    reply: &Reply,
) -> bool
    ensures { result ≡ may_read_in here.now w at before call.now reply.now }
{
    match *reply {
        Reply::Page { page, next: _ } => is_paged(here, w, before, call, page),
        Reply::Full(spent) => is_full(here, at, call, spent),
        _ => is_read(w, before, call, reply),
    }
}

/// The payload that was seen, if one was.
fn payload_of(here: Option<Sight>) -> Option<Payload>
    ensures { result ≡ found_of here }
{
    let Some(sight) = here else {
        return None;
    };
    sight.found
}

/// Whether the moment is that of the Effect, which saw what answers the call so.
fn is_effective(at: u32, effect: u32, here: Option<Sight>, call: &Call, reply: &Reply) -> bool
    ensures { result ≡ is_effective_in at effect here call.now reply.now }
{
    let found = payload_of(here);
    let answers = is_answer(&found, call, reply);
    at == effect && answers
}

/// Whether a call that is answered at this moment is answered so.
fn is_answered(
    sights: &Sights,
    here: &Standing,
    w: u8,
    at: u32,
    call: &OpenCall,
    reply: &Reply,
) -> bool
    ensures { result ≡ answers_in sights.now here.now w at call.now.call reply.now call.now.effect }
{
    match call.effect {
        Some(effect) => is_effective(at, effect, sights.at(effect), &call.call, reply),
        None => may_read(
            here,
            w,
            at,
            sights.at(at.saturating_sub(1)),
            &call.call,
            reply,
        ),
    }
}

/// Whether a reply to a worker's open call is right.
fn is_reply(
    sights: &Sights,
    here: &Standing,
    w: u8,
    at: u32,
    reply: &Reply,
    last: Option<OpenCall>,
) -> bool
    ensures { result ≡ reply_in sights.now here.now w at reply.now last }
{
    let Some(call) = last else {
        return false;
    };
    let answered = is_answered(sights, here, w, at, &call, reply);
    call.begun < at && (at <= here.moment && answered)
}

/// Whether a mark that is an End has a right reply, as far as the map and counts tell.
pub(crate) fn is_right(
    table: &Table,
    sights: &Sights,
    counter: &Counter,
    now: u32,
    mark: &Mark,
) -> bool
    requires { length table.now.callers ≡ 256 }
    ensures { result ≡ replies_in table.now sights.now counter.now now mark.now }
{
    match *mark {
        Mark::End { w, n: _, reply, at } => {
            let here = counter.standing(table, now, w);
            is_reply(sights, &here, w, at, &reply, table.open_call(w))
        }
        _ => true,
    }
}
