//! Maps of pairs, and the map that an image holds.
ghost use Rattle.std.specs.Prelude.{◌≡◌, ◌↔◌, List, ℕ, IfOk, IsTrue, slice_index};
ghost use Rattle.std.specs.FinMap.{from_entries};
ghost use Rattle.bz_layout.specs.declared.config.Config.{Config as Numbers};
ghost use Rattle.bz_content.specs.Map.{map_in};
ghost use Rattle.bz_judge.specs.Held.{IsImage, IsImageOf};
ghost use Rattle.bz_check.specs.Pairs.{Holds};
ghost use Rattle.bz_verdict.specs.Images.{AreOneMap};

use bz_judge::pairs;
use bz_key::{Key, Payload};
use bz_oom::Memory;
use std::alloc::Global;
use std::collections::BTreeMap;

/// The map of a list of pairs. Of two with one key the first counts.
fn map_of(alloc: Global, pairs: &[(Key, Payload)]) -> Result<BTreeMap<Key, Payload>, Memory>
    ensures { IfOk result (λ map. Holds (from_entries pairs.now) map.entries) }
{
    let mut map = BTreeMap::new(alloc);
    let count = pairs.len();
    for i in 0..count {
        let pair = pairs[count - 1 - i];
        map.insert(pair.0, pair.1)?;
    }
    Ok(map)
}

/// Whether two maps have the same pairs.
pub(crate) fn is_same(one: &BTreeMap<Key, Payload>, other: &BTreeMap<Key, Payload>) -> bool
    ensures { IsTrue result ↔ AreOneMap one.now.entries other.now.entries }
{
    if one.len() != other.len() {
        return false;
    }
    *one == *other
}

/// The map that a well-formed image holds.
pub(crate) fn map_held(alloc: Global, image: &[u64]) -> Result<BTreeMap<Key, Payload>, Memory>
    requires { IsImage image.now }
    ensures { (c : Numbers) → IsImageOf c image.now → IfOk result (λ map. Holds (map_in c (slice_index image.now)) map.entries) }
{
    let held = pairs(alloc, image)?;
    map_of(alloc, &held)
}
