//! Cutting the power where a cut is armed.
ghost use Rattle.std.specs.Prelude.{◌≡◌, ◌≢◌, ◌<◌, true, false};
ghost use Rattle.bz_ring.specs.Content.{size_of};
ghost use Rattle.bz_mark.specs.declared.power.Power.TheVariants.{Off};
ghost use Rattle.bz_queue.specs.QueueView.{power_in};
ghost use Rattle.bz_qsched.specs.Cuts.{differs_at, state_behind};
ghost use Rattle.bz_qsched.specs.Cutting.{WordEvicted, HasNoPlace, WordPassed, PassStopped, WordsPassed, PassesStopped, AreEvicted, EvictionsStopped, IsCutOff};

use crate::running::RunEnd;
use bz_queue::{QApplied, QEvent, QLimit, QueueWorld};
use bz_script::{EVICTED_FROM, next_draw};

/// Has a word become durable by itself, and tells whether a place was left in the journal for that.
pub(crate) fn evict_word(world: &mut QueueWorld, a: u32) -> bool
    requires in_range { a < size_of world.old.numbers.ring }
    requires powered { power_in world.old ≢ Off }
    ensures evicted { result ≡ true → WordEvicted world.old a world.new }
    ensures refused { result ≡ false → HasNoPlace world.old world.new }
{
    match world.apply(QEvent::Evict(a)) {
        QApplied::Evicted => true,
        QApplied::Limit => false,
        _ => unreachable!(),
    }
}

// Passes a word: draws for it where it differs, and has it evicted where the draw says so.
fn pass_word(world: &mut QueueWorld, a: u32, state: &mut u64) -> bool
    requires in_range { a < size_of world.old.numbers.ring }
    requires powered { power_in world.old ≢ Off }
    ensures passed { result ≡ true → WordPassed a state.old world.old world.new }
    ensures state { result ≡ true → state.new ≡ state_behind (differs_at world.old.log.start world.old.log.past a) state.old }
    ensures stopped { result ≡ false → PassStopped a state.old world.old world.new }
{
    if !world.differs(a) {
        return true;
    }
    if next_draw(state) < EVICTED_FROM {
        return true;
    }
    evict_word(world, a)
}

// Passes all words, by the draws from a seed.
fn pass_words(world: &mut QueueWorld, seed: u64, words: u32) -> bool
    requires powered { power_in world.old ≢ Off }
    requires words { words ≡ size_of world.old.numbers.ring }
    ensures passed { result ≡ true → WordsPassed (size_of world.old.numbers.ring) seed world.old world.new }
    ensures stopped { result ≡ false → PassesStopped (size_of world.old.numbers.ring) seed world.old world.new }
{
    let mut state = seed;
    for a in 0..words {
        if !pass_word(world, a, &mut state) {
            return false;
        }
    }
    true
}

// Has the words evicted that the draws from a seed name, and none where it is 0.
fn evict_drawn(world: &mut QueueWorld, seed: u64, words: u32) -> bool
    requires powered { power_in world.old ≢ Off }
    requires words { words ≡ size_of world.old.numbers.ring }
    ensures evicted { result ≡ true → AreEvicted (size_of world.old.numbers.ring) seed world.old world.new }
    ensures stopped { result ≡ false → EvictionsStopped (size_of world.old.numbers.ring) seed world.old world.new }
{
    if seed == 0 {
        return true;
    }
    pass_words(world, seed, words)
}

/// Cuts the power, after the evictions by the draws from a seed where it is not 0.
pub(crate) fn cut_off(world: &mut QueueWorld, seed: u64, words: u32) -> RunEnd
    requires powered { power_in world.old ≢ Off }
    requires words { words ≡ size_of world.old.numbers.ring }
    ensures { IsCutOff seed world.old result world.new }
{
    if !evict_drawn(world, seed, words) {
        return RunEnd::Limit(QLimit::Marks);
    }
    match world.apply(QEvent::Cut) {
        QApplied::Cut => RunEnd::Cut,
        QApplied::Limit => RunEnd::Limit(QLimit::Marks),
        _ => unreachable!(),
    }
}
