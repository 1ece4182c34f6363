//! What an address stands for, read from the memory itself.

ghost use Rattle.std.specs.Prelude.{◌<◌, IfSome};

use super::world::World;

const VALUES: u64 = 1 << 61;

// The word of an entry of a descriptor, in the memory itself.
fn entry_word(world: &World, swap: u32, entry: u32, word: u32) -> u64
    requires { (swap < 65536) × (entry < 4) × (word < 3) }
{
    world.durable(16 + 16 * swap + 2 + 3 * entry + word)
}

// The place of the first entry with this target, in the memory itself.
fn entry_at(world: &World, swap: u32, a: u32) -> Option<u32>
    requires { swap < 65536 }
    ensures { IfSome result (λ i. i < 4) }
{
    let count = world.durable(16 + 16 * swap + 1);
    (0..4u32).find(|i| (*i as u64) < count && entry_word(world, swap, *i, 0) == a as u64)
}

/// The value that an address stands for, read from the memory itself.
pub(crate) fn resolve(world: &World, a: u32) -> u64 {
    let word = world.durable(a);
    let swap = (word % 65_536) as u32;
    match word / VALUES {
        0 | 4 => word % VALUES,
        1 => entry_word(world, swap, (word / 65_536 % 4) as u32, 1),
        _ => {
            let succeeded = world.durable(16 + 16 * swap) % VALUES == 2;
            let word = if succeeded { 2 } else { 1 };
            match entry_at(world, swap, a) {
                Some(entry) => entry_word(world, swap, entry, word),
                None => u64::MAX,
            }
        }
    }
}
