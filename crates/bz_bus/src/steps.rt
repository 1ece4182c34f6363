// The single steps of the calls. Each keeps the rule.
ghost use Rattle.std.specs.Prelude.{◌≡◌, ◌<◌, ◌%◌, ◌^◌, ℕ, length, None, Some, [], ◌∷◌};
ghost use Rattle.atomic_table.specs.Table.{step};
ghost use Rattle.bz_bus.specs.Entries.{IsFreeIn, MayLeave};
ghost use Rattle.bz_bus.specs.Inside.Plays.{drew, looked, filled, raised, gave, learnt};
ghost use Rattle.bz_bus.specs.Inside.Steps.{HasValue, IsWaiting, IsHolding, IsServed};
ghost use Rattle.bz_bus.specs.Inside.Views.{lent, newcomer, both, staged};
ghost use Rattle.bz_bus.specs.declared.rule.Gain.{Gain};
ghost use mathlib.Core.Option.{none};

use crate::bus::{Bus, SeatOf};
use crate::plays::{Cut, Draw, Fill, GiveBack, Glue, Learn, Look, Numbered, Raise};
use crate::rule::Stage;
use crate::{Action, Chronicle, PASSES};
use std::hint::spin_loop;
use std::sync::Wait;

const TICKET: usize = 0;

const SERVING: usize = 1;

const COUNT: usize = 2;

const VALUE: usize = 0;

// How often a thread that waits looks before it sleeps.
const LOOKS: u32 = 64;

impl<T: Chronicle> Bus<T> {
    pub(crate) fn draw(&self, seat: &mut SeatOf<T>) -> u64
        requires bus { seat.old.table_id ≡ self.now.table.shared.table_id }
        requires idle { seat.old.me.0.stage ≡ Stage.Idle }
        ensures bus { (seat.new.table_id ≡ seat.old.table_id) × (seat.new.id ≡ seat.old.id) }
        ensures drawn { drew (step 1 0 1 0 none) seat.old.me result seat.new.me }
    {
        self.table.shared.fetch_add::<Draw>(seat, TICKET, 1)
    }

    fn look(&self, seat: &mut SeatOf<T>) -> u64
        requires bus { seat.old.table_id ≡ self.now.table.shared.table_id }
        requires waits { (t : ℕ) × (seat.old.me.0.stage ≡ Stage.Waits t) }
        ensures bus { (seat.new.table_id ≡ seat.old.table_id) × (seat.new.id ≡ seat.old.id) }
        ensures looked { looked T.entries T.fixed T.owner (step 1 1 0 0 none) seat.old.me result seat.new.me }
    {
        self.table.shared.load::<Look>(seat, SERVING)
    }

    // Waits until the ticket is served, and takes the slot.
    pub(crate) fn wait<R: Wait>(&self, rt: &R, seat: &mut SeatOf<T>, ticket: u64)
        requires bus { seat.old.table_id ≡ self.now.table.shared.table_id }
        requires waits { IsWaiting seat.old.me.0 ticket × (seat.old.me.1 ≡ []) }
        ensures bus { (seat.new.table_id ≡ seat.old.table_id) × (seat.new.id ≡ seat.old.id) }
        ensures served { IsServed T.entries T.fixed T.owner seat.old.me seat.new.me }
    {
        let mut looks = 0;
        for _ in rt.forever() {
            if looks >= LOOKS {
                self.bells.set(ticket);
            }
            if self.look(seat) == ticket {
                return;
            }
            if looks < LOOKS {
                looks += 1;
                spin_loop();
            } else {
                self.bells.sleep(rt, ticket);
            }
        }
        unreachable!()
    }

    // The value changes in place, which is no step. Answers how many entries it has then.
    pub(crate) fn change<A: Action<T>>(&self, seat: &mut SeatOf<T>, action: &mut A) -> u64
        requires bus { seat.old.table_id ≡ self.now.table.shared.table_id }
        requires held { HasValue seat.old.me (λ y. A.asks action.old (T.fixed y) (T.entries y)) }
        ensures bus { (seat.new.table_id ≡ seat.old.table_id) × (seat.new.id ≡ seat.old.id) }
        ensures view { seat.new.me.0 ≡ seat.old.me.0 }
        ensures changed { HasValue seat.old.me (λ y. HasValue seat.new.me (λ z. A.does action.old (T.fixed y) (T.entries y) (T.entries z) action.new × (T.fixed z ≡ T.fixed y) × (result ≡ length (T.entries z)))) }
    {
        match seat.slot_mut(&self.table.shared, VALUE) {
            Some(value) => {
                action.run(value);
                value.length() as u64
            }
            None => unreachable!(),
        }
    }

    pub(crate) fn raise(&self, seat: &mut SeatOf<T>, count: u64)
        requires bus { seat.old.table_id ≡ self.now.table.shared.table_id }
        requires holds { IsHolding seat.old.me.0 }
        requires held { HasValue seat.old.me (λ y. MayLeave T.owner seat.old.me.0.number seat.old.me.0.seen (T.entries y) × (count ≡ length (T.entries y))) }
        ensures bus { (seat.new.table_id ≡ seat.old.table_id) × (seat.new.id ≡ seat.old.id) }
        ensures raised { raised T.entries (step 1 2 count 0 none) seat.old.me count seat.new.me }
    {
        self.table.shared.store::<Raise>(seat, COUNT, count)
    }

    // Answers the ticket that was served.
    pub(crate) fn give_back(&self, seat: &mut SeatOf<T>) -> u64
        requires bus { seat.old.table_id ≡ self.now.table.shared.table_id }
        requires holds { IsHolding seat.old.me.0 }
        requires held { HasValue seat.old.me (λ y. (T.entries y ≡ seat.old.me.0.seen) × (seat.old.me.0.fixed ≡ Some (T.fixed y))) }
        ensures bus { (seat.new.table_id ≡ seat.old.table_id) × (seat.new.id ≡ seat.old.id) }
        ensures gave { seat.new.me ≡ (staged seat.old.me.0 Stage.Idle, []) }
    {
        self.table.shared.fetch_add::<GiveBack>(seat, SERVING, 1)
    }

    // Takes the empty slot, for the value to be put in.
    pub(crate) fn fill(&self, seat: &mut SeatOf<T>)
        requires bus { seat.old.table_id ≡ self.now.table.shared.table_id }
        requires opens { seat.old.me.0.stage ≡ Stage.Opens }
        ensures bus { (seat.new.table_id ≡ seat.old.table_id) × (seat.new.id ≡ seat.old.id) }
        ensures filled { seat.new.me ≡ (staged seat.old.me.0 (Stage.Holds 0), (0, None) ∷ seat.old.me.1) }
    {
        self.table.shared.load::<Fill>(seat, SERVING);
    }

    pub(crate) fn cut<N: Numbered>(&self, seat: &mut SeatOf<T>, _number: u32) -> SeatOf<T>
        requires bus { seat.old.table_id ≡ self.now.table.shared.table_id }
        requires picked { _number ≡ N.number }
        requires first { (seat.old.me.0.stage ≡ Stage.Idle) × (seat.old.me.0.number ≡ 0) × (length seat.old.me.0.free ≡ PASSES) }
        requires free { (_number < PASSES) × IsFreeIn seat.old.me.0.free _number }
        ensures bus { (seat.new.table_id ≡ seat.old.table_id) × (seat.new.id ≡ seat.old.id) × (result.table_id ≡ seat.old.table_id) }
        ensures lent { seat.new.me ≡ (lent _number seat.old.me.0, seat.old.me.1) }
        ensures given { result.me ≡ (newcomer _number seat.old.me.0, []) }
    {
        self.table.shared.split_seat::<Cut<N>>(seat)
    }

    pub(crate) fn glue(&self, seat: &mut SeatOf<T>, other: SeatOf<T>)
        requires bus { (seat.old.table_id ≡ self.now.table.shared.table_id) × (other.table_id ≡ self.now.table.shared.table_id) }
        requires first { (seat.old.me.0.stage ≡ Stage.Idle) × (seat.old.me.0.number ≡ 0) × (length seat.old.me.0.free ≡ PASSES) }
        requires other { (other.me.0.stage ≡ Stage.Idle) × (other.me.1 ≡ []) }
        ensures bus { (seat.new.table_id ≡ seat.old.table_id) × (seat.new.id ≡ seat.old.id) }
        ensures joined { seat.new.me ≡ (both seat.old.me.0 other.me.0, seat.old.me.1) }
    {
        self.table.shared.join_seat::<Glue>(seat, other)
    }

    // Looks at what a join has left.
    pub(crate) fn learn(&self, seat: &mut SeatOf<T>)
        requires bus { seat.old.table_id ≡ self.now.table.shared.table_id }
        requires joined { (g : Gain T.Entry) × (seat.old.me.0.stage ≡ Stage.Joined g) }
        ensures bus { (seat.new.table_id ≡ seat.old.table_id) × (seat.new.id ≡ seat.old.id) }
        ensures learnt { learnt T.owner (step 1 0 0 0 none) seat.old.me 0 seat.new.me }
    {
        self.table.shared.load::<Learn>(seat, TICKET);
    }
}
