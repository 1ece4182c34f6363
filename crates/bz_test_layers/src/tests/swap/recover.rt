//! A recovery, cut at random and begun again.

use super::driver::evict_some;
use super::random::Random;
use super::resolve::resolve;
use super::watched::Watched;

// Perhaps an eviction and a power cut; whether the power stayed on.
fn goes_on(watched: &mut Watched, random: &mut Random) -> bool {
    watched.compare();
    if random.below(8) == 0 {
        evict_some(watched, random);
        watched.compare();
    }
    let stays = random.below(150) != 0;
    if !stays {
        watched.cut();
    }
    stays
}

// Stores a word, asks for its line and fences it; false where the power failed.
fn put(watched: &mut Watched, random: &mut Random, a: u32, v: u64) -> bool {
    if watched.world.store(0, a, v).is_none() || !goes_on(watched, random) {
        return false;
    }
    if watched.world.flush(0, a).is_none() || !goes_on(watched, random) {
        return false;
    }
    watched.world.step(0).is_some() && goes_on(watched, random)
}

// Makes each word outside the descriptors the value that it stands for, and then each descriptor free.
fn recover_once(watched: &mut Watched, random: &mut Random) -> bool {
    let first = watched.world.first();
    for a in first..watched.world.words() {
        let v = resolve(&watched.world, a);
        if !put(watched, random, a, v) {
            return false;
        }
    }
    for s in 0..watched.world.swaps() {
        if !put(watched, random, s.saturating_mul(16).saturating_add(16), 0) {
            return false;
        }
    }
    true
}

/// Recovers the words, and gives the descriptors back; false where that does not come to an end.
pub(crate) fn recover(watched: &mut Watched, random: &mut Random) -> bool {
    for _ in 0..100 {
        if recover_once(watched, random) {
            return watched.world.renew();
        }
    }
    false
}
