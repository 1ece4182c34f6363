// The calls of a bus.
ghost use Rattle.std.specs.Prelude.{◌≡◌, ◌≢◌, ◌<◌, ◌≤◌, ◌⊎◌, ◌↔◌, ℕ, List, Some, [], IfOk, IfErr};
ghost use Rattle.bz_bus.specs.Entries.{MayFind, MayLeave, IsJoinOf};
ghost use Rattle.bz_bus.specs.Inside.Views.{staged};
ghost use Rattle.bz_bus.specs.Passes.{IsPassOf, IsFree, opened, passes_of, number_of, seen_by, free_in};

use crate::bells::Bells;
use crate::bus::{Bus, Pass, SeatOf};
use crate::rule::Stage;
use crate::{Action, Chronicle, PASSES};
use atomic_table::Table;
use bz_oom::Memory;
use std::alloc::Global;
use std::marker::Brand;
use std::sync::Wait;

impl<T: Chronicle> Bus<T> {
    /// A bus over the value, and its first pass. Where there is no memory the value comes back.
    pub fn open(alloc: Global, value: T, passes: u32) -> Result<(Bus<T>, Pass<T>), (T, Memory)>
        requires { (1 ≤ passes) × (passes ≤ PASSES) }
        ensures bus { IfOk result (λ r. (T.fixed (opened r.0) ≡ T.fixed value) × (passes_of r.0 ≡ passes)) }
        ensures pass { IfOk result (λ r. IsPassOf r.0 r.1 × (number_of r.1 ≡ 0) × (seen_by r.1 ≡ T.entries value)) }
        ensures free { IfOk result (λ r. (n : ℕ) → 0 < n → IsFree r.1 n) }
        ensures err { IfErr result (λ r. r.0 ≡ value) }
    {
        let words = [1, 0, value.length() as u64];
        match Table::vacant(alloc, &words, 1, &value) {
            Err(_) => Err((value, Memory)),
            Ok((table, mut seat)) => {
                let bus = Bus {
                    table,
                    passes,
                    bells: Bells::new(),
                };
                bus.put(&mut seat, value);
                let mut free = [true; PASSES];
                free[0] = false;
                let pass = Pass {
                    seat,
                    number: 0,
                    free,
                };
                Ok((bus, pass))
            }
        }
    }

    /// The value, once no pass but the first is out.
    pub fn close(self, pass: Pass<T>) -> T
        requires pass { IsPassOf self pass × (number_of pass ≡ 0) }
        requires free { (n : ℕ) → 0 < n → n < PASSES → IsFree pass n }
        ensures { (T.fixed result ≡ T.fixed (opened self)) × (T.entries result ≡ seen_by pass) }
    {
        let Bus {
            table,
            passes: _,
            bells: _,
        } = self;
        let Pass {
            seat,
            number: _,
            free: _,
        } = pass;
        let mut closed = table.close_with(seat);
        let value = closed.take(0);
        closed.free();
        match value {
            Some(value) => value,
            None => unreachable!(),
        }
    }

    fn put(&self, seat: &mut SeatOf<T>, value: T)
        requires bus { seat.old.table_id ≡ self.now.table.shared.table_id }
        requires opens { (seat.old.me.0.stage ≡ Stage.Opens) × (seat.old.me.1 ≡ []) }
        requires value { (T.entries value ≡ seat.old.me.0.seen) × (seat.old.me.0.fixed ≡ Some (T.fixed value)) }
        ensures bus { (seat.new.table_id ≡ seat.old.table_id) × (seat.new.id ≡ seat.old.id) }
        ensures put { seat.new.me ≡ (staged seat.old.me.0 Stage.Idle, []) }
    {
        self.fill(seat);
        let empty = self.table.shared.exchange(seat, 0, Some(value));
        let None = empty else { unreachable!() };
        self.give_back(seat);
    }

    /// A new pass with a number that is free, made from the first.
    pub fn split(&self, pass: &mut Pass<T>, number: u32) -> Pass<T>
        requires pass { IsPassOf self.now pass.old × (number_of pass.old ≡ 0) }
        requires number { (number < passes_of self.now) × IsFree pass.old number }
        ensures pass { IsPassOf self.now pass.new × (number_of pass.new ≡ 0) × (seen_by pass.new ≡ seen_by pass.old) }
        ensures new { IsPassOf self.now result × (number_of result ≡ number) × (seen_by result ≡ seen_by pass.old) }
        ensures free { (n : ℕ) → IsFree pass.new n ↔ (IsFree pass.old n × (n ≢ number)) }
    {
        prove!(number < self.passes);
        let seat = self.cut::<Brand>(&mut pass.seat, number);
        pass.free[number as usize] = false;
        Pass {
            seat,
            number,
            free: [false; PASSES],
        }
    }

    /// Takes a pass back into the first.
    pub fn join(&self, into: &mut Pass<T>, from: Pass<T>)
        requires pass { IsPassOf self.now into.old × (number_of into.old ≡ 0) }
        requires from { IsPassOf self.now from }
        ensures pass { IsPassOf self.now into.new × (number_of into.new ≡ 0) }
        ensures seen { IsJoinOf T.owner (seen_by into.old) (seen_by from) (number_of from) (free_in into.old) (seen_by into.new) }
        ensures free { (n : ℕ) → IsFree into.new n ↔ (IsFree into.old n ⊎ (n ≡ number_of from)) }
    {
        let Pass {
            seat,
            number,
            free: _,
        } = from;
        self.glue(&mut into.seat, seat);
        self.learn(&mut into.seat);
        into.free[number as usize] = true;
    }

    /// Draws a ticket, waits until it is served, lets the action change the value in place, and gives the value back.
    pub fn turn<A: Action<T>, R: Wait>(&self, rt: &R, pass: &mut Pass<T>, action: &mut A)
        requires pass { IsPassOf self.now pass.old }
        requires asks { (found : List T.Entry) → MayFind T.owner (number_of pass.old) (free_in pass.old) (seen_by pass.old) found → A.asks action.old (T.fixed (opened self.now)) found }
        requires leaves { (found left : List T.Entry) (after : A) → MayFind T.owner (number_of pass.old) (free_in pass.old) (seen_by pass.old) found → A.does action.old (T.fixed (opened self.now)) found left after → MayLeave T.owner (number_of pass.old) found left }
        ensures pass { IsPassOf self.now pass.new × (number_of pass.new ≡ number_of pass.old) × (free_in pass.new ≡ free_in pass.old) }
        ensures turned { (found : List T.Entry) × MayFind T.owner (number_of pass.old) (free_in pass.old) (seen_by pass.old) found × A.does action.old (T.fixed (opened self.now)) found (seen_by pass.new) action.new }
    {
        let seat = &mut pass.seat;
        let ticket = self.draw(seat);
        self.wait(rt, seat, ticket);
        let count = self.change(seat, action);
        self.raise(seat, count);
        let served = self.give_back(seat);
        self.bells.ring(served.wrapping_add(1));
    }
}
