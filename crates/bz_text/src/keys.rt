//! The keys of the map to which a journal leads.
ghost use Rattle.std.specs.Prelude.{OnOk, IfOk};
ghost use Rattle.bz_call.specs.Map.{Map, apply};
ghost use Rattle.bz_judge.specs.Held.{IsImage, IsImageOf};
ghost use Rattle.bz_layout.specs.declared.config.Config.{Config};
ghost use Rattle.bz_sound.specs.Memory.Moments.{map_at_start};
ghost use Rattle.bz_text.specs.Summing.{AreKeysOf};

use bz_call::Call;
use bz_judge::pairs;
use bz_key::Key;
use bz_oom::Memory;
use std::alloc::Global;
use std::collections::BTreeSet;

/// The keys of the map that a well-formed image holds.
pub(crate) fn keys_at_start(alloc: Global, start: &[u64]) -> Result<BTreeSet<Key>, Memory>
    requires { IsImage start.now }
    ensures { IfOk result (λ keys. (c : Config) → IsImageOf c start.now → AreKeysOf (map_at_start c start.now) keys.keys) }
{
    let held = pairs(alloc, start)?;
    let mut keys: BTreeSet<Key> = BTreeSet::new(alloc);
    let mut left = held.len();
    while left > 0 {
        left -= 1;
        let (key, _) = held[left];
        keys.insert(key)?;
    }
    Ok(keys)
}

/// The keys of a map after a call's step.
pub(crate) fn take_step(keys: &mut BTreeSet<Key>, call: Call) -> Result<(), Memory>
    ensures { OnOk result ((map : Map) → AreKeysOf map keys.old.keys → AreKeysOf (apply map call).map keys.new.keys) }
{
    match call {
        Call::Insert(key, _) => {
            keys.insert(key)?;
            Ok(())
        }
        Call::Upsert(key, _) => {
            keys.insert(key)?;
            Ok(())
        }
        Call::Delete(key) => {
            keys.remove(&key);
            Ok(())
        }
        Call::Update(_, _) => Ok(()),
        Call::Get(_) => Ok(()),
        Call::Page(_) => Ok(()),
    }
}
