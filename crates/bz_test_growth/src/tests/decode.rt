//! A plain decoder of the memory's own words.

use super::bench::durable;
use bz_key::Key;
use bz_layout::{FENCE_WORDS, META_AT, NODE_WORDS};
use bz_word::{Header, Meta, Status, WordKind, kind_of};
use bz_world::World;

// A word of an entry of a descriptor: its target at 0, its expected value at 1, its new one at 2.
fn entry_word(world: &World, swap: u16, entry: u8, word: u32) -> u64 {
    let at = 18 + 16 * u32::from(swap) + 3 * u32::from(entry);
    durable(world, at.saturating_add(word))
}

// What a pointer to a descriptor at this address stands for.
fn through(world: &World, swap: u16, a: u32) -> u64 {
    let at = 16 + 16 * u32::from(swap);
    let count = durable(world, at + 1).min(4) as u8;
    let won = durable(world, at) % (1 << 63) == 2;
    for entry in 0..count {
        if entry_word(world, swap, entry, 0) == u64::from(a) {
            return entry_word(world, swap, entry, if won { 2 } else { 1 });
        }
    }
    u64::MAX
}

/// The value at an address.
pub(super) fn resolve(world: &World, a: u32) -> u64 {
    match kind_of(durable(world, a)) {
        Some(WordKind::Value(value)) => value,
        Some(WordKind::Dirty(value)) => value,
        Some(WordKind::Swap(swap)) => through(world, swap, a),
        Some(WordKind::Tag { swap, entry, .. }) => entry_word(world, swap, entry, 1),
        None => u64::MAX,
    }
}

/// As many words from an address on as a key has at most.
pub(super) fn words(world: &World, at: u32) -> [u64; FENCE_WORDS as usize] {
    let mut words = [0; FENCE_WORDS as usize];
    for (i, word) in words.iter_mut().enumerate() {
        *word = resolve(world, at.saturating_add(i as u32));
    }
    words
}

// Where the slot begins to which a pointer leads.
fn slot_of(world: &World, pointer: u64) -> u32 {
    let slot = pointer.saturating_sub(1).min(0xFFFF) as u32;
    let first = world.config().swaps.saturating_mul(16).saturating_add(16);
    first.saturating_add(slot.saturating_mul(NODE_WORDS))
}

/// Where the root's slot begins.
pub(super) fn root(world: &World) -> u32 {
    slot_of(world, resolve(world, 1))
}

// Notes the key of a record, `k` and two digits, which was not noted yet.
fn note(world: &World, at: u32, length: u32, seen: &mut [bool; 100]) -> Option<()> {
    let length = length as usize;
    let first = words(world, at);
    let key = Key::from_words(length, first.get(..length.div_ceil(7))?)?;
    let &[b'k', tens, ones] = key.bytes() else {
        return None;
    };
    let tens = (tens as usize).checked_sub(48)?;
    let ones = (ones as usize).checked_sub(48)?;
    let noted = seen.get_mut(10 * tens + ones)?;
    if *noted {
        return None;
    }
    *noted = true;
    Some(())
}

// Notes the visible records of a leaf.
fn note_leaf(world: &World, node: u32, seen: &mut [bool; 100]) -> Option<()> {
    let status = Status::unpack(resolve(world, node))?;
    for i in 0..status.count {
        let a = node.saturating_add(META_AT).saturating_add(i);
        if let Meta::Visible(extent) = Meta::unpack(resolve(world, a))? {
            note(world, node.saturating_add(extent.offset), extent.key, seen)?;
        }
    }
    Some(())
}

/// Where the slot begins of the child with this number in its parent; none where there is no such record.
pub(super) fn child_of(world: &World, node: u32, number: u32) -> Option<u32> {
    let a = node.saturating_add(META_AT).saturating_add(number);
    let Meta::Visible(extent) = Meta::unpack(resolve(world, a))? else {
        return None;
    };
    let at = node.saturating_add(extent.offset);
    let pointer = resolve(world, at.saturating_add(extent.key.div_ceil(7)));
    Some(slot_of(world, pointer))
}

// Notes those of the leaves below a parent.
fn note_children(world: &World, node: u32, seen: &mut [bool; 100]) -> Option<()> {
    let status = Status::unpack(resolve(world, node))?;
    for i in 0..status.count {
        note_leaf(world, child_of(world, node, i)?, seen)?;
    }
    Some(())
}

/// Which numbers the keys have of a tree of one level or two in the memory itself; none where a key is there twice.
pub(crate) fn decode_keys(world: &World) -> Option<[bool; 100]> {
    let mut seen = [false; 100];
    let node = root(world);
    let header = Header::unpack(resolve(world, node.saturating_add(1)))?;
    if header.level == 0 {
        note_leaf(world, node, &mut seen)?;
    } else {
        note_children(world, node, &mut seen)?;
    }
    Some(seen)
}

/// The level of the root in the memory itself, and how many records or children it has.
pub(crate) fn decode_root(world: &World) -> Option<(u32, u32)> {
    let node = root(world);
    let header = Header::unpack(resolve(world, node.saturating_add(1)))?;
    let status = Status::unpack(resolve(world, node))?;
    Some((header.level, status.count))
}
