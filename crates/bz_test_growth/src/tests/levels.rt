//! Random runs over long keys, in which inner nodes are split, or leaves merged, with evictions throughout: the tree in the memory itself has at every
//! moment the keys that the effects tell.

ghost use Rattle.std.specs.Prelude.{◌<◌, IfSome};

use super::bench::{begin, holds, mark, payload, restart};
use super::decode::{child_of, decode_root, resolve, root, words};
use super::inner::{inserts, long};
use super::neighbours::evict_written;
use super::random::Random;
use bz_call::Call;
use bz_key::Key;
use bz_layout::{Config, META_AT};
use bz_mark::Mark;
use bz_word::{Header, Meta, Status};
use bz_world::{Applied, Event, World};
use std::alloc::Global;
use std::process::Abort;

// Which keys are there, by their numbers.
type Keys = [bool; 1_000];

// The number of a key of fifty-six bytes, of which the last three are digits.
fn number_of(key: &Key) -> Option<usize>
    ensures { IfSome result (λ number. number < 1000) }
{
    let mut number = 0usize;
    for digit in key.bytes().get(53..56)? {
        number = 10 * (number % 100) + (*digit as usize).checked_sub(48)?.min(9);
    }
    if number < 1_000 { Some(number) } else { None }
}

// Notes the visible records of a leaf; none where a key was noted already.
fn note_leaf(world: &World, node: u32, keys: &mut Keys) -> Option<()> {
    let status = Status::unpack(resolve(world, node))?;
    for i in 0..status.count {
        let a = node.saturating_add(META_AT).saturating_add(i);
        if let Meta::Visible(extent) = Meta::unpack(resolve(world, a))? {
            let read = words(world, node.saturating_add(extent.offset));
            let key = Key::from_words(56, &read)?;
            let noted = keys.get_mut(number_of(&key)?)?;
            if *noted {
                return None;
            }
            *noted = true;
        }
    }
    Some(())
}

// And those of the leaves below a parent.
fn note_parent(world: &World, node: u32, keys: &mut Keys) -> Option<()> {
    let status = Status::unpack(resolve(world, node))?;
    for i in 0..status.count {
        note_leaf(world, child_of(world, node, i)?, keys)?;
    }
    Some(())
}

// And those of the parents below a node.
fn note_above(world: &World, node: u32, keys: &mut Keys) -> Option<()> {
    let status = Status::unpack(resolve(world, node))?;
    for i in 0..status.count {
        note_parent(world, child_of(world, node, i)?, keys)?;
    }
    Some(())
}

// The keys of a tree of two or three levels in the memory itself; none where a key is there twice.
fn decode_long(world: &World) -> Option<Keys> {
    let mut keys = [false; 1_000];
    let node = root(world);
    match Header::unpack(resolve(world, node.saturating_add(1)))?.level {
        1 => note_parent(world, node, &mut keys)?,
        2 => note_above(world, node, &mut keys)?,
        _ => return None,
    }
    Some(keys)
}

/// What was read of a journal of up to eight workers: which keys are there after its effects, and each worker's last call.
#[derive(Drop)]
pub(super) struct Effects {
    keys: Keys,
    calls: [Option<Call>; 9],
    read: u32,
}

impl Effects {
    /// Nothing was read yet.
    pub(super) fn unread() -> Effects {
        Effects {
            keys: [false; 1_000],
            calls: [None; 9],
            read: 0,
        }
    }

    // An effect of a worker: its call's key is there, or is not.
    fn read_effect(&mut self, w: u8) {
        match self.calls.get(w as usize) {
            Some(Some(Call::Insert(key, _))) => {
                if let Some(number) = number_of(key) {
                    self.keys[number] = true;
                }
            }
            Some(Some(Call::Delete(key))) => {
                if let Some(number) = number_of(key) {
                    self.keys[number] = false;
                }
            }
            _ => {}
        }
    }

    // Reads the marks that were not read yet.
    fn read_on(&mut self, world: &World) {
        for i in self.read..world.journal().length() {
            match mark(world, i) {
                Some(Mark::Begin { w, call, .. }) => {
                    if let Some(last) = self.calls.get_mut(w as usize) {
                        *last = Some(call);
                    }
                }
                Some(Mark::Effect { w, .. }) => self.read_effect(w),
                _ => {}
            }
            self.read = i.saturating_add(1);
        }
    }

    /// The memory has the keys.
    pub(super) fn agree(&mut self, rt: &impl Abort, world: &World) {
        self.read_on(world);
        holds(rt, decode_long(world) == Some(self.keys));
    }
}

// A call with a random key: of eight so many are deletes, one is an update, and the others are inserts.
fn some_call(rt: &impl Abort, random: &mut Random, deletes: u8) -> Call {
    let (key, new) = (long(rt, random.draw() % 1_000), payload(rt, b"w"));
    let kind = random.below(8);
    if kind < deletes {
        Call::Delete(key)
    } else if kind == deletes {
        Call::Update(key, new)
    } else {
        Call::Insert(key, new)
    }
}

// A step of one of four workers, or a begin; and often what it has written is evicted.
fn act(rt: &impl Abort, world: &mut World, random: &mut Random, deletes: u8) {
    let w = 1 + random.below(4);
    if world.apply(Event::Step(w)) == Applied::Idle {
        let call = some_call(rt, random, deletes);
        begin(world, w, call);
    } else if random.below(2) == 0 {
        evict_written(world);
    }
}

// How a run begins and ends: so many keys rising by a step, of eight calls so many deletes, and how many children its root has at the
// end, at least.
#[derive(Clone, Copy)]
struct Growth {
    keys: u32,
    step: u32,
    deletes: u8,
    widest: u32,
}

// A world of four workers with so many keys.
fn grown(rt: &impl Abort, alloc: Global, growth: Growth) -> World {
    let config = Config {
        nodes: 800,
        swaps: 3_000,
        workers: 4,
        marks: 1 << 19,
        calls: 2_048,
        pages: 1,
    };
    let mut world = World::open(alloc, &config).expect(rt, "a world");
    for number in 1..=growth.keys {
        inserts(rt, &mut world, 1, number.saturating_mul(growth.step));
    }
    world
}

// Five hundred random events.
fn acts(rt: &impl Abort, world: &mut World, random: &mut Random, deletes: u8) {
    for _ in 0..500 {
        act(rt, world, random, deletes);
    }
}

// Random events: after every five hundred of them the memory has the keys that the effects tell; and so it has after a power cut.
fn agrees(rt: &impl Abort, world: &mut World, growth: Growth) {
    let mut random = Random {
        state: u64::from(growth.keys),
    };
    let mut effects = Effects::unread();
    for _ in 0..200 {
        acts(rt, world, &mut random, growth.deletes);
        effects.agree(rt, world);
    }
    restart(rt, world);
    effects.agree(rt, world);
}

// The root is so wide at least.
fn is_wide(rt: &impl Abort, world: &World, widest: u32) {
    let root = decode_root(world).expect(rt, "a root");
    holds(rt, root.0 == 2 && root.1 >= widest);
}

// A run, and how wide its root is at the end.
fn run(rt: &impl Abort, alloc: Global, growth: Growth) {
    let mut world = grown(rt, alloc, growth);
    agrees(rt, &mut world, growth);
    is_wide(rt, &world, growth.widest);
}

#[test]
fn random_runs_over_a_tree_that_grows_or_shrinks(rt: HostRuntime) {
    let rows = [
        // the root has twenty-four leaves, and is split
        (299, 3, 1, 2),
        // the second of two nodes has twenty-four leaves, and is split
        (455, 2, 1, 3),
        // deletes, after which leaves are merged
        (455, 2, 6, 1),
    ];
    for (keys, step, deletes, widest) in rows {
        let growth = Growth {
            keys,
            step,
            deletes,
            widest,
        };
        run(&rt, rt.alloc(), growth);
    }
}
