//! Random numbers.

ghost use Rattle.std.specs.Prelude.{◌<◌};

/// The generator of scripts.
#[derive(Clone, Copy)]
pub(super) struct Random {
    pub(super) state: u64,
}

impl Random {
    /// The next number.
    pub(super) fn draw(&mut self) -> u32 {
        let product = self.state.wrapping_mul(6_364_136_223_846_793_005);
        self.state = product.wrapping_add(1_442_695_040_888_963_407);
        (self.state >> 32) as u32
    }

    /// A number below this limit.
    pub(super) fn below(&mut self, limit: u8) -> u8
        requires { 0 < limit }
        ensures { result < limit }
    {
        (self.draw() % u32::from(limit)) as u8
    }
}
