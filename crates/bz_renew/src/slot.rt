//! The slots that fresh nodes go into.

ghost use Rattle.std.specs.Prelude.{◌≡◌, ◌<◌, ℕ, List, IfSome, IfNone, length, slice_index};
ghost use Rattle.bz_renew.specs.Nodes.{AreSlotsTaken};

use bz_layout::Slots;

/// Takes the first three of the free slots, if there are so many.
pub fn take_three(slots: &mut Slots) -> Option<[u16; 3]>
    ensures taken { IfSome result (λ taken. (image : ℕ → List ℕ) → AreSlotsTaken (record { count = 3; slot = slice_index taken; image = image }) slots.old slots.new) }
    ensures nodes { slots.new.nodes ≡ slots.old.nodes }
    ensures none { IfNone result (length slots.old.free < 3) }
    ensures same { IfNone result (slots.new ≡ slots.old) }
{
    bz_layout::taken_slots_are_gone();
    let mut taken = [0; 3];
    if slots.take(3, &mut taken) {
        Some(taken)
    } else {
        None
    }
}
