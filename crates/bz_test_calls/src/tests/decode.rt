//! A plain decoder of the memory's own words.

ghost use Rattle.std.specs.Prelude.{◌<◌, IfSome};

use super::bench::durable;
use super::map::{Map, number_of, place_of};
use bz_key::{Key, Payload};
use bz_layout::{META_AT, NODE_WORDS, PAYLOAD_WORDS};
use bz_word::{Meta, Status, WordKind, kind_of};
use bz_world::World;

// A word of an entry of a descriptor: its target at 0, its expected value at 1, its new one at 2.
fn entry_word(world: &World, swap: u16, entry: u8, word: u32) -> u64 {
    let at = 18 + 16 * u32::from(swap) + 3 * u32::from(entry);
    durable(world, at.saturating_add(word))
}

// What a pointer to a descriptor at this address stands for.
fn through(world: &World, swap: u16, a: u32) -> u64 {
    let at = 16 + 16 * u32::from(swap);
    let count = durable(world, at + 1).min(4) as u8;
    let won = durable(world, at) % (1 << 63) == 2;
    for entry in 0..count {
        if entry_word(world, swap, entry, 0) == u64::from(a) {
            return entry_word(world, swap, entry, if won { 2 } else { 1 });
        }
    }
    u64::MAX
}

// The value at an address.
fn resolve(world: &World, a: u32) -> u64 {
    match kind_of(durable(world, a)) {
        Some(WordKind::Value(value)) => value,
        Some(WordKind::Dirty(value)) => value,
        Some(WordKind::Swap(swap)) => through(world, swap, a),
        Some(WordKind::Tag { swap, entry, .. }) => entry_word(world, swap, entry, 1),
        None => u64::MAX,
    }
}

// As many words from an address on as a key or a payload has at most.
fn words(world: &World, at: u32) -> [u64; PAYLOAD_WORDS as usize] {
    let mut words = [0; PAYLOAD_WORDS as usize];
    for (i, word) in words.iter_mut().enumerate() {
        *word = resolve(world, at.saturating_add(i as u32));
    }
    words
}

// The place of the key of so many bytes at an address.
fn place_at(world: &World, at: u32, length: u32) -> Option<usize>
    ensures { IfSome result (λ place. place < 6) }
{
    let length = length as usize;
    let words = words(world, at);
    let key = Key::from_words(length, words.get(..length.div_ceil(7))?)?;
    place_of(&key)
}

// The number of the payload of so many bytes at an address.
fn number_at(world: &World, at: u32, length: u32) -> Option<u32> {
    let length = length as usize;
    let words = words(world, at);
    let payload = Payload::from_words(length, words.get(..length.div_ceil(7))?)?;
    Some(number_of(&payload))
}

// The record at an address, with lengths of its key, and of key and payload.
fn record(world: &World, at: u32, key: u32, total: u32) -> Option<(usize, u32)>
    ensures { IfSome result (λ read. read.0 < 6) }
{
    let place = place_at(world, at, key)?;
    let length = total.checked_sub(key)?;
    let number = number_at(world, at.saturating_add(key.div_ceil(7)), length)?;
    Some((place, number))
}

// Where the slot begins to which a pointer leads.
fn slot_of(world: &World, pointer: u64) -> u32 {
    let slot = pointer.saturating_sub(1).min(0xFFFF) as u32;
    let first = world.config().swaps.saturating_mul(16).saturating_add(16);
    first.saturating_add(slot.saturating_mul(NODE_WORDS))
}

// Where the root's slot begins.
fn root(world: &World) -> u32 {
    slot_of(world, resolve(world, 1))
}

/// The map that the root leaf is in the memory itself; none where it is not a leaf of the reader's keys.
pub(crate) fn decode(world: &World) -> Option<Map> {
    let node = root(world);
    let status = Status::unpack(resolve(world, node))?;
    let mut map = [0; 6];
    for i in 0..status.count {
        let a = node.saturating_add(META_AT).saturating_add(i);
        if let Meta::Visible(extent) = Meta::unpack(resolve(world, a))? {
            let at = node.saturating_add(extent.offset);
            let (place, number) = record(world, at, extent.key, extent.total)?;
            if map[place] != 0 {
                return None;
            }
            map[place] = number;
        }
    }
    Some(map)
}
