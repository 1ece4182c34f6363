// A call: one begin, and then turns of one memory act each.
ghost use Rattle.std.specs.Prelude.{◌≡◌, ◌<◌, List};
ghost use Rattle.bz_bus.specs.Entries.{Extends};
ghost use Rattle.bz_index.specs.Calls.{IsAnswer, IsAnswered};
ghost use Rattle.bz_index.specs.Inside.Outcomes.{BeginLeaves, GoesOn};
ghost use Rattle.bz_index.specs.Inside.Running.{IsRunning};
ghost use Rattle.bz_index.specs.Passes.{origin_in, worker_of, seen_by, IsAtRest, IsPlaced, IsPassOf};
ghost use Rattle.bz_index.specs.declared.shared.IndexEntry.{IndexEntry};

use crate::answer::Answer;
use crate::index::{Index, IndexPass};
use crate::turns::{BeginTurn, StepTurn};
use bz_call::Call;
use bz_key::PageBuf;
use bz_world::Begun;
use std::sync::Wait;

/// What a thread does between two acts of a call.
pub trait Gate {
    /// The worker has made `steps` acts of its call, and the next turn will make another. No turn is under way.
    fn between<R: Wait>(&self, rt: &R, worker: u8, steps: u32);
}

/// Nothing.
#[derive(Clone, Copy)]
pub struct NoGate;

impl Gate for NoGate {
    fn between<R: Wait>(&self, _rt: &R, _worker: u8, _steps: u32) {}
}

impl Index {
    /// Makes a call of the pass's worker, and waits for the bus at each act. If the reply names a page, its pairs are put
    /// in place of what was in `out`.
    pub fn call<G: Gate, R: Wait>(
        &self,
        rt: &R,
        pass: &mut IndexPass,
        call: Call,
        out: &mut PageBuf,
        gate: &G,
    ) -> Answer
        requires { IsPassOf self.now pass.old × (0 < worker_of pass.old) }
        ensures pass { IsPassOf self.now pass.new × (worker_of pass.new ≡ worker_of pass.old) }
        ensures answered { IsAnswered (origin_in self.now) (worker_of pass.old) call (seen_by pass.old) (seen_by pass.new) out.new result }
    {
        match self.begin(rt, pass, call) {
            Begun::Begun(_) => self.finish(rt, pass, out, gate),
            Begun::Off => Answer::Off,
            Begun::Recovering => Answer::Recovering,
            Begun::Limit(which) => Answer::Limit(which),
            Begun::NoWorker | Begun::Busy => unreachable!(),
        }
    }

    // Begins the call.
    fn begin<R: Wait>(&self, rt: &R, pass: &mut IndexPass, call: Call) -> Begun
        requires { IsPassOf self.now pass.old × (0 < worker_of pass.old) }
        ensures placed { IsPlaced self.now pass.new × (worker_of pass.new ≡ worker_of pass.old) }
        ensures extends { Extends (seen_by pass.old) (seen_by pass.new) }
        ensures begun { BeginLeaves (origin_in self.now) (worker_of pass.old) call (seen_by pass.old) (seen_by pass.new) result }
    {
        let mut turn = BeginTurn {
            worker: pass.worker(),
            call,
            answer: Begun::Busy,
        };
        self.bus.turn(rt, &mut pass.pass, &mut turn);
        turn.answer
    }

    // Makes the acts of the call that has begun, until it is answered.
    fn finish<G: Gate, R: Wait>(
        &self,
        rt: &R,
        pass: &mut IndexPass,
        out: &mut PageBuf,
        gate: &G,
    ) -> Answer
        requires { IsPlaced self.now pass.old × (0 < worker_of pass.old) }
        ensures placed { IsPlaced self.now pass.new × (worker_of pass.new ≡ worker_of pass.old) }
        ensures extends { Extends (seen_by pass.old) (seen_by pass.new) }
        ensures answered { (call : Call) (first : List IndexEntry) → IsRunning (worker_of pass.old) call first (seen_by pass.old) → IsAnswer (origin_in self.now) (worker_of pass.old) call first (seen_by pass.new) out.new result × IsAtRest (origin_in self.now) (seen_by pass.new) (worker_of pass.old) }
    {
        let worker = pass.worker();
        let mut steps: u32 = 0;
        for _ in rt.forever() {
            if let Some(answer) = self.step(rt, pass, out) {
                return answer;
            }
            steps = steps.saturating_add(1);
            gate.between(rt, worker, steps);
        }
        unreachable!()
    }

    // Makes one act of the call.
    fn step<R: Wait>(&self, rt: &R, pass: &mut IndexPass, out: &mut PageBuf) -> Option<Answer>
        requires { IsPlaced self.now pass.old × (0 < worker_of pass.old) }
        ensures placed { IsPlaced self.now pass.new × (worker_of pass.new ≡ worker_of pass.old) }
        ensures extends { Extends (seen_by pass.old) (seen_by pass.new) }
        ensures goes { (call : Call) (first : List IndexEntry) → IsRunning (worker_of pass.old) call first (seen_by pass.old) → GoesOn (origin_in self.now) (worker_of pass.old) call first (seen_by pass.new) out.new result }
    {
        let mut turn = StepTurn {
            worker: pass.worker(),
            page: out,
            answer: None,
        };
        self.act(rt, pass, &mut turn);
        // Taken apart and not dropped, so that what it left in `out` is known.
        let StepTurn {
            worker: _worker,
            page: _page,
            answer,
        } = turn;
        answer
    }

    fn act<R: Wait>(&self, rt: &R, pass: &mut IndexPass, turn: &mut StepTurn<'_>)
        requires placed { IsPlaced self.now pass.old × (0 < worker_of pass.old) }
        requires worker { turn.old.worker ≡ worker_of pass.old }
        ensures page { turn.new.page.ghost_name ≡ turn.old.page.ghost_name }
        ensures placed { IsPlaced self.now pass.new × (worker_of pass.new ≡ worker_of pass.old) }
        ensures extends { Extends (seen_by pass.old) (seen_by pass.new) }
        ensures goes { (call : Call) (first : List IndexEntry) → IsRunning (worker_of pass.old) call first (seen_by pass.old) → GoesOn (origin_in self.now) (worker_of pass.old) call first (seen_by pass.new) turn.new.page.now turn.new.answer }
    {
        self.bus.turn(rt, &mut pass.pass, turn);
    }
}
