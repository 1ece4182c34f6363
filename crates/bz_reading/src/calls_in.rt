//! Calls and replies that were read.
ghost use Rattle.std.specs.Borrow.{Bor};
ghost use Rattle.serde_json.specs.declared.value.Value.{Value};
ghost use Rattle.std.specs.Prelude.{◌≡◌, IfSome, option_map};
ghost use Rattle.serde_json.specs.Find.{at};
ghost use Rattle.serde_json.specs.View.{view};
ghost use Rattle.bz_key.specs.Bytes.{IsKey};
ghost use Rattle.bz_lines.specs.Ranges.{IsCallInRange, IsReplyInRange, HasNumber};
ghost use Rattle.bz_reading.specs.Reading.{call_in as call_of, spent_in as spent_of, next_in as next_of, reply_in as reply_of};

use crate::numbers_in::{is_text, key_at, payload_at, text_at};
use bz_call::{Call, Reply, Spent};
use bz_key::{Key, read_key};
use serde_json::Value;

/// The call that a list of words asks for.
pub(crate) fn call_in(words: &Value) -> Option<Call>
    ensures call { result ≡ call_of (view words.now) }
    ensures range { IfSome result IsCallInRange }
{
    let kind = text_at(words, 0);
    if is_text(kind, "insert") {
        let key = key_at(words, 1)?;
        let payload = payload_at(words, 2)?;
        return Some(Call::Insert(key, payload));
    }
    if is_text(kind, "delete") {
        let key = key_at(words, 1)?;
        return Some(Call::Delete(key));
    }
    if is_text(kind, "update") {
        let key = key_at(words, 1)?;
        let payload = payload_at(words, 2)?;
        return Some(Call::Update(key, payload));
    }
    if is_text(kind, "upsert") {
        let key = key_at(words, 1)?;
        let payload = payload_at(words, 2)?;
        return Some(Call::Upsert(key, payload));
    }
    if is_text(kind, "get") {
        let key = key_at(words, 1)?;
        return Some(Call::Get(key));
    }
    if is_text(kind, "page") {
        let key = key_at(words, 1)?;
        return Some(Call::Page(key));
    }
    None
}

fn spent_in(words: &Value) -> Option<Spent>
    ensures { result ≡ spent_of (view words.now) }
{
    let spent = text_at(words, 1);
    if is_text(spent, "nodes") {
        return Some(Spent::Nodes);
    }
    if is_text(spent, "swaps") {
        return Some(Spent::Swaps);
    }
    if is_text(spent, "height") {
        return Some(Spent::Height);
    }
    None
}

/// The key at which the next page begins, or that there is none.
fn next_in(next: Option<&Value>) -> Option<Option<Key>>
    ensures next { result ≡ next_of (option_map (λ (v : Bor Value). view v.now) next.entry) }
    ensures range { IfSome result (λ next. IfSome next IsKey) }
{
    let Some(next) = next else {
        return None;
    };
    match next {
        Value::Null => Some(None),
        Value::String(text) => match read_key(text.as_bytes()) {
            Some(key) => Some(Some(key)),
            None => None,
        },
        _ => None,
    }
}

/// The reply that a list of words tells; a page gets this number.
pub(crate) fn reply_in(words: &Value, page: u32) -> Option<Reply>
    ensures reply { result ≡ reply_of page (view words.now) }
    ensures range { IfSome result IsReplyInRange }
    ensures numbered { IfSome result (HasNumber page) }
{
    let kind = text_at(words, 0);
    if is_text(kind, "inserted") {
        return Some(Reply::Inserted);
    }
    if is_text(kind, "exists") {
        return Some(Reply::Exists);
    }
    if is_text(kind, "deleted") {
        let payload = payload_at(words, 1)?;
        return Some(Reply::Deleted(payload));
    }
    if is_text(kind, "updated") {
        let payload = payload_at(words, 1)?;
        return Some(Reply::Updated(payload));
    }
    if is_text(kind, "missing") {
        return Some(Reply::Missing);
    }
    if is_text(kind, "value") {
        let payload = payload_at(words, 1)?;
        return Some(Reply::Value(payload));
    }
    if is_text(kind, "page") {
        let next = next_in(words.get(2usize))?;
        return Some(Reply::Page { page, next });
    }
    if is_text(kind, "full") {
        let spent = spent_in(words)?;
        return Some(Reply::Full(spent));
    }
    None
}
