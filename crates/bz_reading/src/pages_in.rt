//! The pairs of a page that were read.
ghost use Rattle.std.specs.Prelude.{◌≡◌, ◌<◌, [], map, option_map, if◌then◌else◌};
ghost use Rattle.serde_json.specs.View.{view, items_view};
ghost use Rattle.bz_reading.specs.Reading.{pair_in as pair_of, added, pairs_in as pairs_of, page_items, page_in as page_of};

use crate::numbers_in::{key_at, payload_at};
use bz_key::{Key, PAGE_PAIRS, PageBuf, Payload};
use serde_json::Value;

fn pair_in(words: &Value) -> Option<(Key, Payload)>
    ensures { result ≡ pair_of (view words.now) }
{
    let key = key_at(words, 0)?;
    let payload = payload_at(words, 1)?;
    Some((key, payload))
}

/// Adds the pair of an item, and answers whether there was room and one.
fn add_pair(words: &Value, buffer: &mut PageBuf) -> bool
    ensures { added (view words.now) buffer.old ≡ (if result then Some buffer.new else None) }
{
    if buffer.pairs().len() >= PAGE_PAIRS {
        return false;
    }
    match pair_in(words) {
        Some((key, payload)) => {
            buffer.push(key, payload);
            true
        }
        None => false,
    }
}

/// Adds the pairs of all items, and answers whether there was room and each was one.
fn add_pairs(list: &[Value], buffer: &mut PageBuf) -> bool
    ensures { pairs_of (map view list.now) buffer.old ≡ (if result then Some buffer.new else None) }
{
    for words in list {
        if !add_pair(words, buffer) {
            return false;
        }
    }
    true
}

/// The pairs of the page that an End tells, as they were read.
fn page_list(value: &Value) -> Option<&Vec<Value>>
    ensures { option_map (λ v. items_view v.now.items) result ≡ page_items (view value.now) }
{
    let Some(words) = value.get("reply") else {
        return None;
    };
    words.get(1usize).and_then(Value::as_array)
}

/// Puts the pairs of the page that an End tells into the buffer, and answers whether it tells one.
pub fn page_in(value: &Value, buffer: &mut PageBuf) -> bool
    ensures { page_of (view value.now) ≡ (if result then Some buffer.new else None) }
{
    buffer.clear();
    match page_list(value) {
        Some(list) => add_pairs(list, buffer),
        None => false,
    }
}
