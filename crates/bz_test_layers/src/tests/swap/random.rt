//! Numbers that look random, the same in each run.

ghost use Rattle.std.specs.Prelude.{◌<◌};

#[derive(Clone, Copy)]
pub(crate) struct Random {
    state: u64,
}

impl Random {
    pub(crate) fn from_seed(seed: u64) -> Random {
        let mut random = Random {
            state: seed.wrapping_mul(0x9E37_79B9_7F4A_7C15),
        };
        random.below(2);
        random
    }

    /// The next number, which is below this one.
    pub(crate) fn below(&mut self, limit: u32) -> u32
        requires { 0 < limit }
        ensures { result < limit }
    {
        // the constants of Knuth's MMIX
        let product = self.state.wrapping_mul(6_364_136_223_846_793_005);
        self.state = product.wrapping_add(1_442_695_040_888_963_407);
        (self.state / (1 << 33)) as u32 % limit
    }
}
