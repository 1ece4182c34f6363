//! The generator of a run by turns.
ghost use Rattle.std.specs.Prelude.{◌≡◌};
ghost use Rattle.bz_script.specs.Draws.{next_state, draw_of};

// The multiplier and the increment of Knuth's MMIX, of the full period 2^64.
const MULTIPLIER: u64 = 6_364_136_223_846_793_005;

const INCREMENT: u64 = 1_442_695_040_888_963_407;

/// In a cut of the power a word is evicted where its draw is at least this: half of the draws.
pub const EVICTED_FROM: u32 = 2_147_483_648;

/// Moves the generator on and draws. Its state at the start is the seed.
pub fn next_draw(x: &mut u64) -> u32
    ensures state { x.new ≡ next_state x.old }
    ensures draw { result ≡ draw_of x.new }
{
    *x = x.wrapping_mul(MULTIPLIER).wrapping_add(INCREMENT);
    (*x >> 32) as u32
}
