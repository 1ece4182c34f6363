// The bus: a value, the words by which its passes take turns, and the bells that wake them.
ghost use Rattle.std.specs.Prelude.{◌≡◌, ◌<◌, ◌≤◌, []};
ghost use Rattle.bz_bus.specs.declared.TheConstants.{PASSES};
ghost use Rattle.bz_bus.specs.declared.rule.Stage.TheVariants.{Idle};

use crate::bells::Bells;
use crate::rule::{Turns, View};
use crate::{Chronicle, PASSES};
use atomic_table::{Seat, Table};
use std::alloc::Global;

pub(crate) type ViewOf<T> = View<<T as Chronicle>::Entry, <T as Chronicle>::Fixed>;

pub(crate) type SeatOf<T> = Seat<Option<T>, ViewOf<T>>;

/// A value that threads change in turns, each with a pass.
#[derive(Drop)]
pub struct Bus<T: Chronicle> {
    pub(crate) table: Table<Option<T>, ViewOf<T>, T, Turns<T>, Global>,
    pub(crate) passes: u32,
    pub(crate) bells: Bells,
    ghost sized: { (table.shared.table_id.words ≡ 3) × (table.shared.table_id.slots ≡ 1) },
    ghost numbered: { passes ≤ PASSES },
}

/// What a thread takes its turns with: its number, and in the proofs alone what it has seen.
/// A pass that is dropped keeps its number.
#[derive(Drop)]
pub struct Pass<T: Chronicle> {
    pub(crate) seat: SeatOf<T>,
    pub(crate) number: u32,
    // Of the first pass: for each number whether no pass has it.
    pub(crate) free: [bool; PASSES],
    ghost rests: { (seat.me.1 ≡ []) × (seat.me.0.stage ≡ Idle) },
    ghost agrees: { (seat.me.0.number ≡ number) × (seat.me.0.free ≡ free) × (number < PASSES) },
}
