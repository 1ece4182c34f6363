//! The order of keys, where a record that has no key has the least.
ghost use Rattle.std.specs.Prelude.{◌≡◌, bytes_eq};
ghost use Rattle.bz_node.specs.Layout.{bound_of};
ghost use Rattle.bz_tree.specs.Order.{is_before as before, is_at_least as at_least, is_above as above, is_below as below};

use bz_key::Key;
use std::cmp::Ordering;

// Whether one key is before another.
#[tactic(auto, unfolding(bz_tree::specs::Order::is_before))]
fn precedes(a: &Key, b: &Key) -> bool
    ensures { result ≡ before a.now b.now }
{
    match a.cmp(b) {
        Ordering::Less => true,
        Ordering::Equal => false,
        Ordering::Greater => false,
    }
}

/// Whether one key is before another.
pub(crate) fn is_before(a: &Option<Key>, b: &Option<Key>) -> bool
    ensures { result ≡ before (bound_of a.now) (bound_of b.now) }
{
    match b {
        None => false,
        Some(second) => match a {
            None => {
                let _some = second.bytes();
                true
            }
            Some(first) => precedes(first, second),
        },
    }
}

/// Whether two keys are one.
pub(crate) fn is_same(a: &Option<Key>, b: &Option<Key>) -> bool
    ensures { result ≡ bytes_eq (bound_of a.now) (bound_of b.now) }
{
    match a {
        None => match b {
            None => true,
            Some(second) => second.bytes().is_empty(),
        },
        Some(first) => match b {
            None => first.bytes().is_empty(),
            Some(second) => first == second,
        },
    }
}

/// Whether a key is not before the low bound.
pub(crate) fn is_at_least(key: &Option<Key>, low: &Option<Key>) -> bool
    ensures { result ≡ at_least (bound_of key.now) low.now }
{
    match low {
        None => true,
        Some(_) => !is_before(key, low),
    }
}

/// Whether a key is after the low bound.
pub(crate) fn is_above(key: &Option<Key>, low: &Option<Key>) -> bool
    ensures { result ≡ above (bound_of key.now) low.now }
{
    match low {
        None => true,
        Some(_) => is_before(low, key),
    }
}

/// Whether a key is before the high bound.
pub(crate) fn is_below(key: &Option<Key>, high: &Option<Key>) -> bool
    ensures { result ≡ below (bound_of key.now) high.now }
{
    match high {
        None => true,
        Some(_) => is_before(key, high),
    }
}
