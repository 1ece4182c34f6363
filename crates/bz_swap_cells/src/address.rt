//! Where a descriptor's words stand.

ghost use Rattle.std.specs.Prelude.{◌≡◌, ◌<◌};
ghost use Rattle.bz_layout.specs.Addresses.{swap_address};
ghost use Rattle.bz_swap_cells.specs.Store.{field_address, field_count};

use bz_layout::{SUPERBLOCK_WORDS, SWAP_COUNT_AT, SWAP_WORDS};

/// The address of a descriptor's status.
pub fn swap_at(swap: u16) -> u32
    ensures { result ≡ swap_address swap }
{
    SUPERBLOCK_WORDS + SWAP_WORDS * u32::from(swap)
}

/// The address of a word of a descriptor after its status, counted from the number of entries.
pub fn field_at(swap: u16, number: u8) -> u32
    requires { number < field_count }
    ensures { result ≡ field_address swap number }
{
    swap_at(swap) + SWAP_COUNT_AT + u32::from(number)
}
