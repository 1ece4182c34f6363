//! Another look at the guard, and the slots that are taken then.

ghost use Rattle.std.specs.Prelude.{◌≤◌, slice_index};
ghost use Rattle.bz_layout.specs.declared.thresholds.TheConstants.{SPLIT_SLOTS};
ghost use Rattle.bz_writer.specs.Phases.{HasLooked};

use crate::phase::WritePhase;
use crate::seen::is_read;
use bz_layout::Slots;
use bz_task::Seen;

/// What another look at the guard led to.
#[derive(Clone, Copy, Drop)]
pub struct Begun {
    /// The slots that were taken, if they were.
    pub slots: [u16; 3],
    /// What is asked for next.
    pub phase: WritePhase,
}

/// What another look at the guard leads to: so many slots are taken where it is as it was read.
pub fn look(count: u32, status: u64, seen: Seen, slots: &mut Slots) -> Begun
    requires { (1 ≤ count) × (count ≤ SPLIT_SLOTS) }
    ensures { HasLooked count status (slice_index result.slots) seen result.phase slots.old slots.new }
{
    bz_layout::taken_slots_are_gone();
    let mut taken = [0; 3];
    if !is_read(seen, status) {
        return Begun {
            slots: taken,
            phase: WritePhase::Restart,
        };
    }
    if slots.take(count as usize, &mut taken) {
        Begun {
            slots: taken,
            phase: WritePhase::Store(0),
        }
    } else {
        Begun {
            slots: taken,
            phase: WritePhase::NoSlot,
        }
    }
}
