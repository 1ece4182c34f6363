//! Lines of the report.
ghost use Rattle.std.specs.Prelude.{◌≡◌, ◌≤◌, ◌<◌, ◌*◌, ◌++◌, ◌∷◌, [], OnOk, length};
ghost use Rattle.std.specs.List.{flat_map};
ghost use Rattle.std.proofs.Common.{get_or};
ghost use Rattle.std.specs.Fmt.{decimal};
ghost use Rattle.bz_key.specs.Spelling.{spelled};
ghost use Rattle.bz_text.specs.Lines.{call_text, next_text, spent_text, reply_text, pair_text, name_of, line_start, line_of, fate_text, fate_line, power_line};

use crate::ended::EndedCall;
use bz_call::{Call, Reply, Spent};
use bz_key::{Key, Payload, SPELLED_BYTES, spell};
use bz_mark::Journal;
use bz_oom::Memory;
use std::alloc::Global;

/// Puts bytes at the end of a text.
pub fn put(out: &mut Vec<u8>, bytes: &[u8]) -> Result<(), Memory>
    ensures { OnOk result (out.new.items ≡ out.old.items ++ bytes.now) }
{
    out.extend_from_slice(bytes)?;
    Ok(())
}

/// Puts a number, in decimal.
pub fn put_number(alloc: Global, out: &mut Vec<u8>, number: u64) -> Result<(), Memory>
    ensures { OnOk result (out.new.items ≡ out.old.items ++ decimal number) }
{
    let text = number.to_string(alloc)?;
    put(out, text.as_bytes())
}

/// Puts the spelling of a key's or a payload's bytes.
fn put_spelled(out: &mut Vec<u8>, bytes: &[u8]) -> Result<(), Memory>
    requires { 3 * length bytes.now ≤ SPELLED_BYTES }
    ensures { OnOk result (out.new.items ≡ out.old.items ++ spelled bytes.now) }
{
    let mut text = [0u8; SPELLED_BYTES];
    let count = spell(bytes, &mut text);
    put(out, &text[..count])
}

fn put_key(out: &mut Vec<u8>, key: Key) -> Result<(), Memory>
    ensures { OnOk result (out.new.items ≡ out.old.items ++ spelled key) }
{
    put_spelled(out, key.bytes())
}

fn put_payload(out: &mut Vec<u8>, payload: Payload) -> Result<(), Memory>
    ensures { OnOk result (out.new.items ≡ out.old.items ++ spelled payload) }
{
    put_spelled(out, payload.bytes())
}

fn put_both(out: &mut Vec<u8>, key: Key, payload: Payload) -> Result<(), Memory>
    ensures { OnOk result (out.new.items ≡ out.old.items ++ (spelled key ++ (32 ∷ spelled payload))) }
{
    put_key(out, key)?;
    put(out, b" ")?;
    put_payload(out, payload)
}

fn put_call(out: &mut Vec<u8>, call: Call) -> Result<(), Memory>
    ensures { OnOk result (out.new.items ≡ out.old.items ++ call_text call) }
{
    match call {
        Call::Insert(key, payload) => {
            put(out, b"insert ")?;
            put_both(out, key, payload)
        }
        Call::Delete(key) => {
            put(out, b"delete ")?;
            put_key(out, key)
        }
        Call::Update(key, payload) => {
            put(out, b"update ")?;
            put_both(out, key, payload)
        }
        Call::Upsert(key, payload) => {
            put(out, b"upsert ")?;
            put_both(out, key, payload)
        }
        Call::Get(key) => {
            put(out, b"get ")?;
            put_key(out, key)
        }
        Call::Page(key) => {
            put(out, b"page ")?;
            put_key(out, key)
        }
    }
}

fn put_spent(out: &mut Vec<u8>, spent: Spent) -> Result<(), Memory>
    ensures { OnOk result (out.new.items ≡ out.old.items ++ spent_text spent) }
{
    match spent {
        Spent::Nodes => put(out, b"full nodes"),
        Spent::Swaps => put(out, b"full swaps"),
        Spent::Height => put(out, b"full height"),
    }
}

fn put_pairs(out: &mut Vec<u8>, pairs: &[(Key, Payload)]) -> Result<(), Memory>
    ensures { OnOk result (out.new.items ≡ out.old.items ++ flat_map pair_text pairs.now) }
{
    for (key, payload) in pairs {
        put(out, b" ")?;
        put_key(out, *key)?;
        put(out, b"=")?;
        put_payload(out, *payload)?;
    }
    Ok(())
}

fn put_next(out: &mut Vec<u8>, next: Option<Key>) -> Result<(), Memory>
    ensures { OnOk result (out.new.items ≡ out.old.items ++ next_text next) }
{
    match next {
        Some(key) => {
            put(out, b" next ")?;
            put_key(out, key)
        }
        None => put(out, b" end"),
    }
}

/// Puts the pairs of a page of the journal, and nothing for a number that no page has.
fn put_page(out: &mut Vec<u8>, journal: &Journal, page: u32) -> Result<(), Memory>
    ensures { OnOk result (out.new.items ≡ out.old.items ++ flat_map pair_text (get_or journal.now.pages page [])) }
{
    if page >= journal.page_count() {
        return put(out, b"");
    }
    put_pairs(out, journal.page(page))
}

fn put_reply(out: &mut Vec<u8>, journal: &Journal, reply: Reply) -> Result<(), Memory>
    ensures { OnOk result (out.new.items ≡ out.old.items ++ reply_text journal.now.pages reply) }
{
    match reply {
        Reply::Inserted => put(out, b"inserted"),
        Reply::Exists => put(out, b"exists"),
        Reply::Deleted(payload) => {
            put(out, b"deleted ")?;
            put_payload(out, payload)
        }
        Reply::Updated(payload) => {
            put(out, b"updated ")?;
            put_payload(out, payload)
        }
        Reply::Missing => put(out, b"missing"),
        Reply::Value(payload) => {
            put(out, b"value ")?;
            put_payload(out, payload)
        }
        Reply::Page { page, next } => {
            put(out, b"page")?;
            put_page(out, journal, page)?;
            put_next(out, next)
        }
        Reply::Full(spent) => put_spent(out, spent),
    }
}

/// Puts the name of a call: its worker and its number.
pub fn put_name(alloc: Global, out: &mut Vec<u8>, worker: u8, number: u32) -> Result<(), Memory>
    ensures { OnOk result (out.new.items ≡ out.old.items ++ name_of worker number) }
{
    put(out, b"w")?;
    put_number(alloc, out, u64::from(worker))?;
    put(out, b".")?;
    put_number(alloc, out, u64::from(number))
}

/// Puts what stands before the result in the line of a call.
fn put_start(
    alloc: Global,
    out: &mut Vec<u8>,
    worker: u8,
    number: u32,
    call: Call,
) -> Result<(), Memory>
    ensures { OnOk result (out.new.items ≡ out.old.items ++ line_start worker number call) }
{
    put_name(alloc, out, worker, number)?;
    put(out, b" ")?;
    put_call(out, call)?;
    put(out, b" = ")
}

/// Puts the line of a call that has ended.
pub(crate) fn put_line(
    alloc: Global,
    out: &mut Vec<u8>,
    journal: &Journal,
    ended: EndedCall,
) -> Result<(), Memory>
    ensures { OnOk result (out.new.items ≡ out.old.items ++ line_of journal.now.pages ended) }
{
    put_start(alloc, out, ended.worker, ended.number, ended.call)?;
    put_reply(out, journal, ended.reply)?;
    put(out, b"\n")
}

/// Puts what became of a call that was open when the power was cut.
pub fn put_fate(out: &mut Vec<u8>, effective: bool) -> Result<(), Memory>
    ensures { OnOk result (out.new.items ≡ out.old.items ++ fate_text effective) }
{
    if effective {
        put(out, b"kept")
    } else {
        put(out, b"lost")
    }
}

/// Puts the line of a call that was open when the power was cut: it is kept where it had taken effect, and lost otherwise.
pub(crate) fn put_fate_line(
    alloc: Global,
    out: &mut Vec<u8>,
    worker: u8,
    number: u32,
    call: Call,
    effective: bool,
) -> Result<(), Memory>
    ensures { OnOk result (out.new.items ≡ out.old.items ++ fate_line worker number call effective) }
{
    put_start(alloc, out, worker, number, call)?;
    put_fate(out, effective)?;
    put(out, b"\n")
}

/// Puts the line of the power, if it came on.
pub(crate) fn put_power(alloc: Global, out: &mut Vec<u8>, pairs: Option<u64>) -> Result<(), Memory>
    ensures { OnOk result (out.new.items ≡ out.old.items ++ power_line pairs) }
{
    match pairs {
        Some(pairs) => {
            put(out, b"power on ")?;
            put_number(alloc, out, pairs)?;
            put(out, b" pairs\n")
        }
        None => put(out, b""),
    }
}
