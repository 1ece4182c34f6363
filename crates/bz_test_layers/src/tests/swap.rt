//! Swaps of one to four words: lists of entries that are made in each order of their targets, and what becomes of the swaps.

ghost use Rattle.std.specs.Prelude.{◌≡◌, ◌≢◌, ◌∷◌, []};
ghost use Rattle.bz_swap.specs.EntryLists.{inserted};

mod bound;
mod crossing;
mod cuts;
mod driver;
mod insert;
mod random;
mod record;
mod recover;
mod recovery;
mod resolve;
mod sleeper;
mod watched;
mod world;

use super::bench::{holds, same};
use bz_swap::EntryList;
use bz_word::Entry;
use cuts::{steps, zeros};
use std::alloc::Global;
use std::process::Abort;
use std::test::Fail;
use world::World;

const FIRST: Entry = Entry {
    target: 10,
    expected: 11,
    new: 12,
};

const SECOND: Entry = Entry {
    target: 50,
    expected: 51,
    new: 52,
};

const THIRD: Entry = Entry {
    target: 60,
    expected: 61,
    new: 62,
};

// What the swap of the three writes into the first descriptor after its status.
const WORDS: [u64; 13] = [3, 10, 11, 12, 50, 51, 52, 60, 61, 62, 0, 0, 0];

// Begins a swap of a list that has the three entries, and makes its acts.
fn swapped(rt: &impl Abort, alloc: Global, list: EntryList) -> World
    requires { list ≡ FIRST ∷ SECOND ∷ THIRD ∷ [] }
{
    let mut world = zeros(alloc).expect(rt, "a memory");
    same(
        rt,
        world.start(1, list, &[FIRST, SECOND, THIRD]),
        Some(Ok(0)),
    );
    steps(&mut world, 100, &[]);
    world
}

// The list of three entries that come in this order spells them in the order of their targets.
fn rises(rt: &impl Abort, alloc: Global, first: Entry, second: Entry, third: Entry)
    requires second { first.target ≢ second.target }
    requires third { first.target ≢ third.target }
    requires others { second.target ≢ third.target }
    requires list { inserted third (inserted second (first ∷ [])) ≡ FIRST ∷ SECOND ∷ THIRD ∷ [] }
{
    let list = EntryList::one(first).with(second).with(third);
    let world = swapped(rt, alloc, list);
    for (k, word) in WORDS.iter().enumerate() {
        same(rt, world.cached(17 + k as u32), *word);
    }
}

#[test]
fn targets_rise_in_any_order(rt: HostRuntime) {
    rises(&rt, rt.alloc(), FIRST, SECOND, THIRD);
    rises(&rt, rt.alloc(), FIRST, THIRD, SECOND);
    rises(&rt, rt.alloc(), SECOND, FIRST, THIRD);
    rises(&rt, rt.alloc(), SECOND, THIRD, FIRST);
    rises(&rt, rt.alloc(), THIRD, FIRST, SECOND);
    rises(&rt, rt.alloc(), THIRD, SECOND, FIRST);
}
