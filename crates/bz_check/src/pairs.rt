//! The map of a journal, and what a call makes of it.
ghost use Rattle.std.specs.Prelude.{◌≡◌, OnOk};
ghost use Rattle.std.specs.FinMap.{insert};
ghost use Rattle.bz_call.specs.Map.{Map, apply};
ghost use Rattle.bz_check.specs.Pairs.{Holds, payload_at, found_in, may_change};

use bz_call::Call;
use bz_key::{Key, Payload};
use bz_oom::Memory;
use std::collections::BTreeMap;

/// Whether a call changes the map.
pub(crate) fn changes(map: &BTreeMap<Key, Payload>, call: Call) -> bool
    ensures { result ≡ may_change (found_in map.now.entries call) call }
{
    match call {
        Call::Insert(key, _) => !map.contains_key(&key),
        Call::Delete(key) => map.contains_key(&key),
        Call::Update(key, _) => map.contains_key(&key),
        Call::Upsert(_, _) => true,
        Call::Get(_) => false,
        Call::Page(_) => false,
    }
}

/// What stands at a key.
fn at_key(map: &BTreeMap<Key, Payload>, key: Key) -> Option<Payload>
    ensures { result ≡ payload_at map.now.entries key }
{
    map.get(&key).copied()
}

/// What a call finds at its key.
pub(crate) fn found_at(map: &BTreeMap<Key, Payload>, call: Call) -> Option<Payload>
    ensures { result ≡ found_in map.now.entries call }
{
    match call {
        Call::Insert(key, _) => at_key(map, key),
        Call::Delete(key) => at_key(map, key),
        Call::Update(key, _) => at_key(map, key),
        Call::Upsert(key, _) => at_key(map, key),
        Call::Get(key) => at_key(map, key),
        Call::Page(key) => at_key(map, key),
    }
}

/// Puts a payload at a key.
fn put(map: &mut BTreeMap<Key, Payload>, key: Key, payload: Payload) -> Result<(), Memory>
    ensures { (at : Map) → Holds at map.old.entries → OnOk result (Holds (insert at key payload) map.new.entries) }
{
    map.insert(key, payload)?;
    Ok(())
}

/// Makes the step of a call.
pub(crate) fn step(map: &mut BTreeMap<Key, Payload>, call: Call) -> Result<(), Memory>
    ensures { (at : Map) → Holds at map.old.entries → OnOk result (Holds (apply at call).map map.new.entries) }
{
    match call {
        Call::Insert(key, payload) => {
            if map.contains_key(&key) {
                Ok(())
            } else {
                put(map, key, payload)
            }
        }
        Call::Delete(key) => {
            map.remove(&key);
            Ok(())
        }
        Call::Update(key, payload) => {
            if map.contains_key(&key) {
                put(map, key, payload)
            } else {
                Ok(())
            }
        }
        Call::Upsert(key, payload) => put(map, key, payload),
        Call::Get(_) => Ok(()),
        Call::Page(_) => Ok(()),
    }
}
