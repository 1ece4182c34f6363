//! Evictions.

ghost use Rattle.std.specs.Prelude.{◌≡◌, ◌<◌, length};
ghost use Rattle.bz_layout.specs.Addresses.{swap_address};
ghost use Rattle.bz_swap_cells.specs.Store.{IsStore};
ghost use Rattle.bz_swap.specs.Inside.Evicted.{IsEvicted};

use crate::access::Access;
use crate::phase::Phase;
use crate::role::{WordRole, role_of};
use crate::step::told_effect;
use bz_swap_cells::Cells;

// Makes a descriptor's status durable, and tells its swap where that took effect.
fn evict_status(cells: &mut Cells, swap: u16) -> Option<u16>
    requires typed { IsStore cells.old }
    requires descriptor { swap < cells.old.swaps }
    ensures { IsEvicted cells.old (swap_address swap) result cells.new }
{
    let had_effect = cells.has_effect(swap);
    cells.evict_status(swap);
    let has_effect = cells.has_effect(swap);
    told_effect(swap, had_effect, has_effect)
}

// Makes a word durable, and tells the swap that took effect with it.
fn evict_typed(cells: &mut Cells, a: u32) -> Option<u16>
    requires typed { IsStore cells.old }
    requires within { a < length cells.old.cached }
    ensures { IsEvicted cells.old a result cells.new }
{
    match role_of(a, cells.swaps()) {
        WordRole::Outside => {
            cells.evict_word(a);
            None
        }
        WordRole::Status(swap) => evict_status(cells, swap),
        WordRole::Field { swap, number } => {
            cells.evict_field(swap, number);
            None
        }
    }
}

impl Access {
    ghost use Rattle.std.specs.Prelude.{◌≡◌, ◌<◌, length};
    ghost use Rattle.bz_swap.specs.Evictions.{IsEviction};
    ghost use Rattle.bz_swap.specs.Held.{Holds};

    /// Makes the cached word at an address durable, and tells the swap that took effect with it.
    pub fn evict(&mut self, a: u32) -> Option<u16>
        requires { a < length self.old.cached }
        ensures evicted { IsEviction self.old a result self.new }
        ensures held { Holds self.new }
    {
        match self.phase {
            Phase::Recovering => {
                self.cells.evict(a);
                None
            }
            Phase::Opened | Phase::Running => evict_typed(&mut self.cells, a),
        }
    }
}
