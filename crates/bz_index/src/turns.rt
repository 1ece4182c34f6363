// What a turn does to the world: it begins a call, makes a step of a worker, or makes an event of the first pass happen.
ghost use Rattle.std.specs.Prelude.{◌≡◌, ◌<◌, ◌≤◌};
ghost use Rattle.bz_index.specs.Inside.Outcomes.{HasStepped};
ghost use Rattle.bz_index.specs.Worlds.{HasBegun, HasMade};

use crate::answer::Answer;
use crate::replies::answer_of;
use crate::shared::Shared;
use bz_bus::Action;
use bz_call::Call;
use bz_key::PageBuf;
use bz_world::{Applied, Begun, Event};

/// Begins a call.
#[derive(Drop)]
pub(crate) struct BeginTurn {
    pub(crate) worker: u8,
    pub(crate) call: Call,
    // What the world answered, once the turn was made.
    pub(crate) answer: Begun,
}

impl Action<Shared> for BeginTurn {
    ghost asks = { λ turn origin found. Unit {0} };

    ghost does = { λ turn origin found left after. HasBegun origin found turn.worker turn.call after.answer left };

    fn run(&mut self, shared: &mut Shared) {
        shared.shows_sound();
        self.answer = shared.world.begin(self.worker, self.call);
        shared.shows_sound();
    }
}

/// Makes an event happen.
#[derive(Drop)]
pub(crate) struct EventTurn {
    pub(crate) event: Event,
    pub(crate) answer: Applied,
}

impl Action<Shared> for EventTurn {
    ghost asks = { λ turn origin found. Unit {0} };

    ghost does = { λ turn origin found left after. HasMade origin found turn.event after.answer left };

    fn run(&mut self, shared: &mut Shared) {
        shared.shows_sound();
        self.answer = shared.world.apply(self.event);
        shared.shows_sound();
    }
}

/// Makes an act of the worker's call.
pub(crate) struct StepTurn<'a> {
    pub(crate) worker: u8,
    // Where the pairs of the page go that the call's End may name.
    pub(crate) page: &'a mut PageBuf,
    // None while the call goes on.
    pub(crate) answer: Option<Answer>,
}

impl<'a> Action<Shared> for StepTurn<'a> {
    ghost asks = { λ turn origin found. (0 < turn.worker) × (turn.worker ≤ origin.config.workers) };

    ghost does = { λ turn origin found left after. (after.page.ghost_name ≡ turn.page.ghost_name) × HasStepped origin found turn.worker left after.page.now after.answer };

    fn run(&mut self, shared: &mut Shared) {
        shared.shows_sound();
        let applied = shared.world.apply(Event::Step(self.worker));
        shared.shows_sound();
        self.answer = answer_of(applied, shared.world.journal(), self.page);
    }
}
