//! What a page shows of an image and of a map.
ghost use Rattle.std.specs.Prelude.{◌≡◌, ◌↔◌, ◌&&◌, IsTrue, slice_index, bytes_eq};
ghost use Rattle.std.specs.BTreeMap.Range.{IsLeBy, IsLtBy, entries_between};
ghost use Rattle.std.specs.Cmp.Lexicographic.{slice_cmp};
ghost use Rattle.std.specs.Ordering.{nat_cmp, is_lt};
ghost use Rattle.std.specs.Range.Bound.{IsForward};
ghost use Rattle.std.specs.declared.ops.Bound.TheVariants.{Included};
ghost use Rattle.bz_layout.specs.declared.config.Config.{Config as Numbers};
ghost use Rattle.bz_call.specs.Map.{Map};
ghost use Rattle.bz_judge.specs.Held.{IsImage, IsImageOf};
ghost use Rattle.bz_check.specs.Pairs.{Holds};
ghost use Rattle.bz_verdict.specs.Pages.{kept_within, same_end, ShowsPage};

use bz_judge::leaf_end;
use bz_key::{Key, Payload};
use std::cmp::Ordering;
use std::collections::BTreeMap;
use std::ops::Bound;

/// Whether a pair is this key with this payload.
fn is_pair(pair: &(Key, Payload), key: &Key, payload: &Payload) -> bool
    ensures { result ≡ (bytes_eq pair.now.0 key.now && bytes_eq pair.now.1 payload.now) }
{
    let same_key = pair.0 == *key;
    let same_payload = pair.1 == *payload;
    same_key && same_payload
}

/// Whether one key is before another.
fn precedes(one: &Key, other: &Key) -> bool
    ensures { result ≡ is_lt (slice_cmp nat_cmp one.now other.now) }
{
    match one.cmp(other) {
        Ordering::Less => true,
        Ordering::Equal => false,
        Ordering::Greater => false,
    }
}

/// Whether two ends of a leaf are one.
fn is_end(one: &Option<Key>, other: &Option<Key>) -> bool
    ensures { result ≡ same_end one.now other.now }
{
    match *one {
        None => match *other {
            None => true,
            Some(_) => false,
        },
        Some(key) => match *other {
            None => false,
            Some(end) => key == end,
        },
    }
}

/// Whether these are the pairs of a map from a key on and up to a bound.
fn are_pairs_between(
    map: &BTreeMap<Key, Payload>,
    from: Key,
    end: Bound<Key>,
    shown: &[(Key, Payload)],
) -> bool
    requires { IsForward (IsLeBy (slice_cmp nat_cmp)) (IsLtBy (slice_cmp nat_cmp)) (Included from) end }
    ensures { IsTrue result ↔ shown.now ≡ entries_between (slice_cmp nat_cmp) (Included from) end map.now.entries }
{
    let mut i = 0;
    for (key, payload) in map.range((Bound::Included(from), end)) {
        if i >= shown.len() {
            return false;
        }
        let pair = shown[i];
        let same = is_pair(&pair, key, payload);
        if !same {
            return false;
        }
        i += 1;
    }
    i >= shown.len()
}

/// Whether these are the pairs of a map in a page's range.
fn are_pairs_within(
    map: &BTreeMap<Key, Payload>,
    from: &Key,
    next: &Option<Key>,
    shown: &[(Key, Payload)],
) -> bool
    ensures { IsTrue result ↔ shown.now ≡ kept_within from.now next.now map.now.entries }
{
    match *next {
        None => are_pairs_between(map, *from, Bound::Unbounded, shown),
        Some(end) => {
            let ends = precedes(&end, from);
            if ends {
                return shown.len() == 0;
            }
            are_pairs_between(map, *from, Bound::Excluded(end), shown)
        }
    }
}

/// Whether a page shows all that a map has from a key on, up to the end of the key's leaf in a well-formed image.
pub(crate) fn is_shown(
    image: &[u64],
    map: &BTreeMap<Key, Payload>,
    from: &Key,
    next: &Option<Key>,
    shown: &[(Key, Payload)],
) -> bool
    requires { IsImage image.now }
    ensures { (c : Numbers) (at : Map) → IsImageOf c image.now → Holds at map.now.entries → (IsTrue result ↔ ShowsPage c (slice_index image.now) at from.now next.now shown.now) }
{
    let _count = map.len();
    let end = leaf_end(image, from);
    let same = is_end(next, &end);
    if !same {
        return false;
    }
    are_pairs_within(map, from, next, shown)
}
