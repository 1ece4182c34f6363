//! A plain map of six keys, and what it answers.

ghost use Rattle.std.specs.Prelude.{◌<◌, IfSome};

use bz_call::{Call, Reply};
use bz_key::{Key, Payload};
use bz_world::World;

/// The keys are k00 to k05.
pub(crate) const KEYS: u8 = 6;

/// Of each key, in the order of the keys, a number for its payload; 0 where the key is absent.
pub(crate) type Map = [u32; 6];

/// How many keys are there.
pub(crate) fn count(map: &Map) -> u32 {
    let mut count = 0u32;
    for number in map {
        if *number != 0 {
            count = count.saturating_add(1);
        }
    }
    count
}

/// A reply, with numbers for payloads.
#[derive(Clone, Copy, Debug, PartialEq, Eq)]
pub(crate) enum Told {
    Inserted,
    Exists,
    Deleted(u32),
    Updated(u32),
    Missing,
    Value(u32),
    Other,
}

/// The number of a payload, which is one byte so many times.
pub(crate) fn number_of(payload: &Payload) -> u32 {
    let bytes = payload.bytes();
    let first = bytes.first().copied().unwrap_or(0);
    if bytes.iter().any(|byte| *byte != first) {
        return u32::MAX;
    }
    1 + 256 * (bytes.len() as u32 % 32) + u32::from(first)
}

/// The key of a call.
pub(crate) fn key_of(call: &Call) -> Key {
    match call {
        Call::Insert(key, _)
        | Call::Delete(key)
        | Call::Update(key, _)
        | Call::Upsert(key, _)
        | Call::Get(key)
        | Call::Page(key) => *key,
    }
}

/// The place of a key in a map.
pub(crate) fn place_of(key: &Key) -> Option<usize>
    ensures { IfSome result (λ place. place < 6) }
{
    match key.bytes() {
        [b'k', b'0', digit] if *digit >= b'0' && *digit <= b'5' => Some((*digit - b'0') as usize),
        _ => None,
    }
}

/// What a reply tells.
pub(crate) fn told_by(reply: &Reply) -> Told {
    match reply {
        Reply::Inserted => Told::Inserted,
        Reply::Exists => Told::Exists,
        Reply::Deleted(old) => Told::Deleted(number_of(old)),
        Reply::Updated(old) => Told::Updated(number_of(old)),
        Reply::Missing => Told::Missing,
        Reply::Value(value) => Told::Value(number_of(value)),
        _ => Told::Other,
    }
}

/// What a map with this number at the call's key answers, and the number after it.
pub(crate) fn step(call: &Call, had: u32) -> (Told, u32) {
    match call {
        Call::Insert(_, new) | Call::Upsert(_, new) if had == 0 => (Told::Inserted, number_of(new)),
        Call::Insert(..) => (Told::Exists, had),
        Call::Page(_) => (Told::Other, had),
        _ if had == 0 => (Told::Missing, 0),
        Call::Delete(_) => (Told::Deleted(had), 0),
        Call::Update(_, new) | Call::Upsert(_, new) => (Told::Updated(had), number_of(new)),
        Call::Get(_) => (Told::Value(had), had),
    }
}

/// Whether a page of the journal is all that a map has from a place on.
pub(crate) fn is_page(world: &World, map: Map, page: u32, first: usize) -> bool {
    let journal = world.journal();
    if page >= journal.page_count() {
        return false;
    }
    let mut shown = [0; 6];
    let mut least = 0;
    for (key, payload) in journal.page(page) {
        let Some(place) = place_of(key) else {
            return false;
        };
        if place < least {
            return false;
        }
        least = place + 1;
        shown[place] = number_of(payload);
    }
    let mut wanted = map;
    for (place, number) in wanted.iter_mut().enumerate() {
        if place < first {
            *number = 0;
        }
    }
    shown == wanted
}
