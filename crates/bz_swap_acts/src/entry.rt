//! An entry of the current swap, as a worker's list has it.

ghost use Rattle.std.specs.Prelude.{◌≡◌, slice_index};
ghost use Rattle.bz_swap_machine.specs.Machine.{entries_in};
ghost use Rattle.bz_swap_machine.specs.HelpActs.{final_value as final_value_in};
ghost use Rattle.bz_swap_cells.specs.Store.{IsStore};
ghost use Rattle.bz_swap_acts.specs.Parts.{IsAim};
ghost use Rattle.bz_swap_acts.specs.Ready.{IsUsable};

use bz_swap_cells::Cells;
use bz_swap_machine::{DescriptorWords, Verdict};

/// What an act on an entry aims at, and the number of the swap's entries.
#[derive(Clone, Copy)]
pub(crate) struct Aim {
    pub(crate) count: u8,
    pub(crate) target: u32,
    pub(crate) expected: u64,
    pub(crate) value: u64,
}

/// Entry `entry` of a list.
pub(crate) fn aim_of(cells: &Cells, list: &DescriptorWords, entry: u8) -> Aim
    requires typed { IsStore cells.now }
    requires usable { IsUsable cells.now (entries_in (slice_index list.now.words)) entry }
    ensures { IsAim cells.now (entries_in (slice_index list.now.words)) entry result }
{
    let first = 3 * entry as usize;
    Aim {
        count: list.words[0] as u8,
        target: list.words[first + 1] as u32,
        expected: list.words[first + 2],
        value: list.words[first + 3],
    }
}
