//! The words of a reply.
ghost use Rattle.std.specs.Prelude.{◌≡◌, [], ◌∷◌, map, IfOk};
ghost use Rattle.std.proofs.Common.{get_or};
ghost use Rattle.serde_json.specs.Data.{string};
ghost use Rattle.serde_json.specs.View.{view};
ghost use Rattle.bz_lines.specs.Objects.{list_of, spelling, pair_data, next_data, spent_data, reply_data};

use crate::texts::{key_text, one_word, payload_text, three, two};
use bz_call::{Reply, Spent};
use bz_key::{Key, Payload};
use bz_mark::Journal;
use bz_oom::Memory;
use serde_json::{Value, json};
use std::alloc::Global;

/// A reply that tells a payload.
fn telling(alloc: Global, kind: &str, payload: Payload) -> Result<Value, Memory>
    ensures { IfOk result (λ v. view v ≡ list_of (string kind.now ∷ spelling payload ∷ [])) }
{
    let kind = Value::try_from_str(alloc, kind)?;
    let payload = payload_text(alloc, payload)?;
    two(alloc, kind, payload)
}

fn spent_words(alloc: Global, spent: Spent) -> Result<Value, Memory>
    ensures { IfOk result (λ v. view v ≡ spent_data spent) }
{
    match spent {
        Spent::Nodes => Ok(json!(in alloc; ["full", "nodes"])?),
        Spent::Swaps => Ok(json!(in alloc; ["full", "swaps"])?),
        Spent::Height => Ok(json!(in alloc; ["full", "height"])?),
    }
}

fn pair_words(alloc: Global, key: Key, payload: Payload) -> Result<Value, Memory>
    ensures { IfOk result (λ v. view v ≡ pair_data (key, payload)) }
{
    let key = key_text(alloc, key)?;
    let payload = payload_text(alloc, payload)?;
    two(alloc, key, payload)
}

/// The pairs of a page, each a list of two.
fn pairs_list(alloc: Global, pairs: &[(Key, Payload)]) -> Result<Value, Memory>
    ensures { IfOk result (λ v. view v ≡ list_of (map pair_data pairs.now)) }
{
    let mut list: Vec<Value> = Vec::new(alloc);
    for (key, payload) in pairs {
        let pair = pair_words(alloc, *key, *payload)?;
        list.push(pair)?;
    }
    Ok(Value::Array(list))
}

/// The pairs of the page with this number, and none where no page has it.
fn page_list(alloc: Global, journal: &Journal, page: u32) -> Result<Value, Memory>
    ensures { IfOk result (λ v. view v ≡ list_of (map pair_data (get_or journal.now.pages page []))) }
{
    if page >= journal.page_count() {
        return pairs_list(alloc, &[]);
    }
    pairs_list(alloc, journal.page(page))
}

/// The key of the next page, or null.
fn next_text(alloc: Global, next: Option<Key>) -> Result<Value, Memory>
    ensures { IfOk result (λ v. view v ≡ next_data next) }
{
    match next {
        Some(key) => key_text(alloc, key),
        None => Ok(Value::Null),
    }
}

fn page_words(
    alloc: Global,
    journal: &Journal,
    page: u32,
    next: Option<Key>,
) -> Result<Value, Memory>
    ensures { IfOk result (λ v. view v ≡ reply_data journal.now.pages (Reply.Page page next)) }
{
    let kind = Value::try_from_str(alloc, "page")?;
    let pairs = page_list(alloc, journal, page)?;
    let next = next_text(alloc, next)?;
    three(alloc, kind, pairs, next)
}

/// The words of a reply.
pub(crate) fn reply_words(alloc: Global, journal: &Journal, reply: Reply) -> Result<Value, Memory>
    ensures { IfOk result (λ v. view v ≡ reply_data journal.now.pages reply) }
{
    match reply {
        Reply::Inserted => one_word(alloc, "inserted"),
        Reply::Exists => one_word(alloc, "exists"),
        Reply::Deleted(payload) => telling(alloc, "deleted", payload),
        Reply::Updated(payload) => telling(alloc, "updated", payload),
        Reply::Missing => one_word(alloc, "missing"),
        Reply::Value(payload) => telling(alloc, "value", payload),
        Reply::Page { page, next } => page_words(alloc, journal, page, next),
        Reply::Full(spent) => spent_words(alloc, spent),
    }
}
