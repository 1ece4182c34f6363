//! The slots that the two fresh nodes go into.

ghost use Rattle.std.specs.Prelude.{◌≡◌, ◌<◌, ℕ, List, IfSome, IfNone, length, slice_index};
ghost use Rattle.bz_layout.specs.declared.thresholds.TheConstants.{MERGE_SLOTS};
ghost use Rattle.bz_renew.specs.Nodes.{AreSlotsTaken};

use bz_layout::{MERGE_SLOTS, Slots};

/// Takes the first two of the free slots, if there are so many.
pub(crate) fn take_two(slots: &mut Slots) -> Option<[u16; 3]>
    ensures taken { IfSome result (λ taken. (image : ℕ → List ℕ) → AreSlotsTaken (record { count = MERGE_SLOTS; slot = slice_index taken; image = image }) slots.old slots.new) }
    ensures nodes { slots.new.nodes ≡ slots.old.nodes }
    ensures none { IfNone result (length slots.old.free < MERGE_SLOTS) }
    ensures same { IfNone result (slots.new ≡ slots.old) }
{
    bz_layout::taken_slots_are_gone();
    let mut taken = [0; 3];
    if slots.take(MERGE_SLOTS as usize, &mut taken) {
        Some(taken)
    } else {
        None
    }
}
