//! Pages, read one after the other.

use super::bench::{holds, mark, whole};
use bz_call::{Call, Reply};
use bz_key::Key;
use bz_mark::Mark;
use bz_world::World;
use std::process::Abort;

/// The page and the next key of the last reply.
pub(super) fn last_page(world: &World) -> Option<(u32, Option<Key>)> {
    let last = world.journal().length().saturating_sub(1);
    match mark(world, last) {
        Some(
            Mark::End {
                reply: Reply::Page { page, next },
                ..
            },
        ) => Some((page, next)),
        _ => None,
    }
}

/// How many pairs the page from a key on has, which is there, and the key with which the next one begins.
pub(super) fn read_page(rt: &impl Abort, world: &mut World, key: Key) -> (usize, Option<Key>) {
    whole(world, 1, Call::Page(key));
    let (page, next) = last_page(world).expect(rt, "a page");
    let journal = world.journal();
    assert!(rt; page < journal.page_count());
    let pairs = journal.page(page);
    holds(rt, pairs.first().is_some_and(|pair| pair.0 == key));
    (pairs.len(), next)
}
