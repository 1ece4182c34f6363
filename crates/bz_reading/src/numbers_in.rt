//! Numbers and texts of an object that was read.
ghost use Rattle.std.specs.Borrow.{Bor};
ghost use Rattle.std.specs.Prelude.{◌≡◌, ℕ, List, ◌≤◌, ◌-◌, ◌^◌, IfSome, option_map, option_and_then};
ghost use Rattle.serde_json.specs.View.{view};
ghost use Rattle.bz_key.specs.Bytes.{IsKey, IsPayload};
ghost use Rattle.bz_lines.specs.Ranges.{IsName};
ghost use Rattle.bz_reading.specs.Reading.{number_at, number_in as number_of, text_at as text_of, is_text as text_is, key_at as key_of, payload_at as payload_of, worker_in as worker_of, name_in as name_of, word_in as word_of};

use bz_key::{Key, Payload, read_key, read_payload};
use bz_layout::MAX_WORKERS;
use serde_json::Value;

/// The number of a member, in a range.
pub(crate) fn number_in(value: &Value, key: &str, low: u64, high: u64) -> Option<u64>
    ensures value { result ≡ number_at key.now low high (view value.now) }
    ensures low { IfSome result (λ n. low ≤ n) }
    ensures high { IfSome result (λ n. n ≤ high) }
{
    let Some(number) = value.get(key).and_then(Value::as_u64) else {
        return None;
    };
    if number < low {
        return None;
    }
    if number > high {
        return None;
    }
    Some(number)
}

/// The text of an item.
pub(crate) fn text_at(value: &Value, place: usize) -> Option<&str>
    ensures { option_map (λ s. s.now) result ≡ text_of place (view value.now) }
{
    value.get(place).and_then(Value::as_str)
}

/// Whether a text is there and is this one.
pub(crate) fn is_text(found: Option<&str>, text: &str) -> bool
    ensures { result ≡ text_is (option_map (λ (s : Bor (List ℕ)). s.now) found.entry) text.now }
{
    match found {
        Some(found) => found == text,
        None => false,
    }
}

pub(crate) fn key_at(value: &Value, place: usize) -> Option<Key>
    ensures key { result ≡ key_of place (view value.now) }
    ensures range { IfSome result IsKey }
{
    let Some(text) = text_at(value, place) else {
        return None;
    };
    read_key(text.as_bytes())
}

pub(crate) fn payload_at(value: &Value, place: usize) -> Option<Payload>
    ensures payload { result ≡ payload_of place (view value.now) }
    ensures range { IfSome result IsPayload }
{
    let Some(text) = text_at(value, place) else {
        return None;
    };
    read_payload(text.as_bytes())
}

pub(crate) fn worker_in(value: &Value) -> Option<u8>
    ensures value { result ≡ worker_of (view value.now) }
    ensures range { IfSome result (λ w. w ≤ MAX_WORKERS) }
{
    let Some(w) = number_in(value, "w", 0, u64::from(MAX_WORKERS)) else {
        return None;
    };
    Some(w as u8)
}

/// A call's worker and number.
pub(crate) fn name_in(value: &Value) -> Option<(u8, u32)>
    ensures value { result ≡ name_of (view value.now) }
    ensures range { IfSome result (λ name. IsName name.0 name.1) }
{
    let Some(w) = worker_in(value) else {
        return None;
    };
    let Some(n) = number_in(value, "n", 1, u64::from(u32::MAX)) else {
        return None;
    };
    Some((w, n as u32))
}

pub(crate) fn word_in(value: &Value, key: &str) -> Option<u64>
    ensures { result ≡ word_of key.now (view value.now) }
{
    number_in(value, key, 0, u64::MAX)
}
