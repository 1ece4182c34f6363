//! A recovery by hand after a power cut, and a swap after it.

use super::cuts::{FIRST, SECOND, steps, zeros};
use super::resolve::resolve;
use super::world::World;
use bz_oom::Memory;
use bz_swap::Phase;
use bz_word::Entry;
use std::alloc::Global;
use std::test::Fail;

// The step of a swap of two words whose fence makes its success durable.
const EFFECT: u32 = 23;

// Stores a word, asks for its line and fences it.
fn put(world: &mut World, a: u32, v: u64) -> bool {
    world.store(0, a, v).is_some() && world.flush(0, a).is_some() && world.step(0).is_some()
}

// Makes both targets the values that they stand for and both descriptors free, and gives the descriptors back.
fn recover(world: &mut World) -> bool {
    let first = resolve(world, FIRST.target);
    let second = resolve(world, SECOND.target);
    let targets = put(world, FIRST.target, first) && put(world, SECOND.target, second);
    targets && put(world, 16, 0) && put(world, 32, 0) && world.renew()
}

// A swap of both targets from the values that they stand for to greater ones; the descriptor that it took.
fn begin_next(world: &mut World) -> Option<u16> {
    let first = resolve(world, FIRST.target);
    let second = resolve(world, SECOND.target);
    let first = Entry {
        expected: first,
        new: 21,
        ..FIRST
    };
    let second = Entry {
        expected: second,
        new: 22,
        ..SECOND
    };
    world.begin(1, &[first, second])?.ok()
}

// What both targets stand for.
fn values(world: &World) -> (u64, u64) {
    (resolve(world, FIRST.target), resolve(world, SECOND.target))
}

// A cut after so many steps, a recovery, and a swap after it: what the targets stand for after the recovery and in the
// end; none where a call may not come.
fn recover_and_swap(alloc: Global, count: u32) -> Result<Option<((u64, u64), (u64, u64))>, Memory> {
    let mut world = zeros(alloc)?;
    let begun = world.begin(1, &[FIRST, SECOND]);
    steps(&mut world, count, &[]);
    world.cut();
    let recovered = recover(&mut world) && world.phase() == Phase::Running;
    let between = values(&world);
    let next = begin_next(&mut world);
    let told = steps(&mut world, 32, &[]);
    let done = begun == Some(Ok(0)) && recovered && next == Some(0) && told == 1;
    Ok(if done {
        Some((between, values(&world)))
    } else {
        None
    })
}

#[test]
fn a_recovery_gives_the_descriptors_back(rt: HostRuntime) -> Result<(), Fail> {
    for count in 0..=32 {
        let between = if count < EFFECT { (0, 0) } else { (11, 12) };
        let is = recover_and_swap(rt.alloc(), count)?;
        assert_eq!(rt; is, Some((between, (21, 22))), "{count} steps");
    }
    Ok(())
}
