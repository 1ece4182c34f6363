//! Turns over one value: threads that hold a pass change it one after the other, and each knows what it has seen.
#![tactic(auto)]

ghost use Rattle.std.specs.Prelude.{◌≡◌, ℕ, List, length};

mod bells;
mod bus;
mod calls;
mod passes;
mod plays;
mod rule;
mod steps;

pub use bus::{Bus, Pass};

/// The most passes that a bus may have. Their numbers are those below it, and an entry with this owner is nobody's.
pub const PASSES: usize = 65;

/// A value that means a fixed part, which no action changes, and a list of entries that only grows.
pub trait Chronicle {
    /// What the list is made of. No call makes an entry.
    type Entry;

    /// What stays as it is. No call makes a value of it.
    type Fixed;

    ghost fixed: { Self → Self.Fixed };

    // The newest entry first.
    ghost entries: { Self → List Self.Entry };

    // The number of a pass, or PASSES for nobody.
    ghost owner: { Self.Entry → ℕ };

    /// How many entries there are.
    fn length(&self) -> u32
        ensures { result ≡ length (entries self.now) };
}

/// What a turn does to the value.
pub trait Action<T: Chronicle> {
    // What it asks of the fixed part and of the list that it finds.
    ghost asks: { Self → T.Fixed → List T.Entry → Type 0 };

    // What it does: itself before, the fixed part, the list found, the list left, itself after.
    ghost does: { Self → T.Fixed → List T.Entry → List T.Entry → Self → Type 0 };

    /// Changes the value, of which the fixed part stays.
    fn run(&mut self, value: &mut T)
        requires { asks self.old (T.fixed value.old) (T.entries value.old) }
        ensures does { does self.old (T.fixed value.old) (T.entries value.old) (T.entries value.new) self.new }
        ensures fixed { T.fixed value.new ≡ T.fixed value.old };
}
