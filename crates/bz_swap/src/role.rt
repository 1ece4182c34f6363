//! What the word at an address is to the machine.

ghost use Rattle.std.specs.Prelude.{◌≤◌, ◌^◌};
ghost use Rattle.bz_swap.specs.Inside.Roles.{HasRole};

use bz_layout::{SUPERBLOCK_WORDS, SWAP_COUNT_AT, SWAP_STATUS_AT, SWAP_WORDS};

/// A word outside the descriptors, a descriptor's status, or another word of a descriptor, counted from the number of
/// entries.
#[derive(Clone, Copy)]
pub(crate) enum WordRole {
    Outside,
    Status(u16),
    Field { swap: u16, number: u8 },
}

/// The role of the word at an address, where there are so many descriptors.
pub(crate) fn role_of(a: u32, swaps: u32) -> WordRole
    requires { swaps ≤ 2 ^ 16 }
    ensures { HasRole swaps a result }
{
    if a < SUPERBLOCK_WORDS {
        return WordRole::Outside;
    }
    let swap = (a - SUPERBLOCK_WORDS) / SWAP_WORDS;
    if swap >= swaps {
        return WordRole::Outside;
    }
    let word = (a - SUPERBLOCK_WORDS) % SWAP_WORDS;
    if word == SWAP_STATUS_AT {
        return WordRole::Status(swap as u16);
    }
    WordRole::Field {
        swap: swap as u16,
        number: (word - SWAP_COUNT_AT) as u8,
    }
}
