//! The recovery.

ghost use Rattle.std.specs.Prelude.{◌≡◌, ◌+◌, ◌*◌, ◌<◌, ◌≤◌, ℕ, Option, Some, None};
ghost use Rattle.bz_layout.specs.Addresses.{words_of};
ghost use Rattle.bz_layout.specs.Config.{IsConfig};
ghost use Rattle.bz_layout.specs.Slots.{FreeSlots};
ghost use Rattle.bz_task.specs.Requests.{steps_in};
ghost use Rattle.bz_task.specs.Scene.{Stage, Waiting, Took};
ghost use Rattle.bz_task.specs.declared.todo.Outcome.TheVariants.{Recovered};
ghost use Rattle.bz_task.specs.declared.todo.Todo.{Todo};
ghost use Rattle.bz_task.specs.declared.todo.Todo.TheVariants.{Load, Store, Flush};
ghost use Rattle.bz_sweep.specs.Memory.{Memory, StoresWord, Flushes, Evicts};
ghost use Rattle.bz_recover.specs.Duties.{config_of, asks_of, end_of, left_of, acts_left, Knows, WalksIn, Hears, Tells, IsReady, todo_of as todo_in, answer_of as answer_in};
ghost use Rattle.bz_recover.specs.Laws.{IsAskable};
ghost use Rattle.bz_recover.specs.Places.{MOST_ACTS};
ghost use Rattle.bz_recover.specs.Sweep.{IsPoweredOn, IsImage, IsRecovered};
ghost use Rattle.bz_recover.specs.Walking.{IsTreeOf, AreReached};

use crate::walk::Walk;
use bz_layout::{Config, Slots};
use bz_sweep::{Answer, Area, Ask, Sweep, laws as sweep_laws};
use bz_task::{Outcome, Seen, Todo};

/// The recovery of a memory by worker 0, which has it alone: the sweep, and then the walk. It ends with Recovered.
#[derive(Drop)]
pub struct Recover {
    config: Config,
    sweep: Sweep,
    // asked for nothing yet until the sweep has ended
    walk: Walk,
}

impl Recover {
    /// A recovery of a memory of these sizes, from its first word on.
    pub fn new(config: &Config) -> Recover
        requires { IsConfig config.now }
        ensures ready { IsReady result }
        ensures config { config_of result ≡ config.now }
        ensures asks { asks_of result ≡ None }
        ensures left { (m : Memory) → acts_left result m < MOST_ACTS * words_of config.now }
        // of the slots it knows nothing yet
        ensures walks { (values : ℕ → ℕ) (slots : FreeSlots) → WalksIn result values slots }
        // it may begin in every memory whose power has come on again
        ensures knows { (values : ℕ → ℕ) (m : Memory) → IsPoweredOn config.now values m → Knows result values Took m }
    {
        sweep_laws::lawful_words_are_these();
        Recover {
            config: *config,
            sweep: Sweep::new(&Area::of(config)),
            walk: Walk::new(config),
        }
    }

    /// How it has ended: asked of a recovery that asks for nothing more.
    pub fn ended(&self) -> Option<Outcome>
        ensures { result ≡ end_of self.now }
    {
        if self.sweep.ended() {
            self.walk.ended()
        } else {
            None
        }
    }

    /// The next act, after what came of the last one. The slots change by the walk alone.
    pub fn next(&mut self, seen: Seen, slots: &mut Slots) -> Todo
        requires ready { IsReady self.old }
        requires slots { slots.old.nodes ≡ (config_of self.old).nodes }
        requires hears { Hears self.old seen }
        ensures ready { IsReady self.new }
        ensures slots { slots.new.nodes ≡ slots.old.nodes }
        ensures asked { asks_of self.new ≡ Some result }
        ensures nearer { left_of self.new + steps_in (asks_of self.new) ≤ left_of self.old }
        // and over a memory that it knows
        ensures sooner { (values : ℕ → ℕ) (m : Memory) → Knows self.old values Took m → acts_left self.new m + steps_in (asks_of self.new) ≤ acts_left self.old m }
        ensures config { config_of self.new ≡ config_of self.old }
        // a new one begins with the first word
        ensures first { asks_of self.old ≡ None → result ≡ Load 0 }
        // what it knows of every memory in which its act is made and the answer is true
        ensures learns { (values : ℕ → ℕ) (m : Memory) → Knows self.old values Took m → Tells self.old seen m → Knows self.new values Waiting m }
        // and of the slots
        ensures walked { (values : ℕ → ℕ) (m : Memory) → Knows self.old values Took m → Tells self.old seen m → WalksIn self.old values slots.old → WalksIn self.new values slots.new }
    {
        sweep_laws::sweeps_know();
        if self.sweep.ended() {
            return self.walk.next(seen, slots);
        }
        match todo_of(self.sweep.next(answer_of(seen))) {
            Some(todo) => todo,
            None => self.walk.next(Seen::Start, slots),
        }
    }

    /// Laws of what is known. Does nothing.
    pub fn learnt(&self)
        requires { IsReady self.now }
        // no eviction changes what is known, nor a load before it is answered
        ensures stable { (values : ℕ → ℕ) (stage : Stage) (old new : Memory) (a : ℕ) → Knows self.now values stage old → Evicts old new a → Knows self.now values stage new }
        ensures loaded { (values : ℕ → ℕ) (m : Memory) (a : ℕ) → asks_of self.now ≡ Some (Load a) → Knows self.now values Waiting m → Knows self.now values Took m }
        // at every moment the durable words resolve to the same values
        ensures image { (values : ℕ → ℕ) (stage : Stage) (m : Memory) → Knows self.now values stage m → IsImage (config_of self.now) values m.durable }
        // what is asked for may be asked for
        ensures askable { (values : ℕ → ℕ) (m : Memory) (todo : Todo) → Knows self.now values Waiting m → asks_of self.now ≡ Some todo → IsAskable (config_of self.now) todo }
        // at the end all words are plain and durable, and all descriptors free
        ensures ends { (values : ℕ → ℕ) (stage : Stage) (m : Memory) → Knows self.now values stage m → end_of self.now ≡ Some Recovered → IsRecovered (config_of self.now) values m }
        // and exactly the slots of the tree are held
        ensures reached { (values image : ℕ → ℕ) (slots : FreeSlots) → slots.nodes ≡ (config_of self.now).nodes → WalksIn self.now values slots → IsTreeOf (config_of self.now) values image → end_of self.now ≡ Some Recovered → AreReached (config_of self.now) image slots }
    {
        sweep_laws::lawful_words_are_these();
    }

    /// Laws of the acts by which the memory changes. Does nothing.
    pub fn acted(&self)
        requires { IsReady self.now }
        ensures stored { (values : ℕ → ℕ) (old new : Memory) (a x : ℕ) → asks_of self.now ≡ Some (Store a x) → Knows self.now values Waiting old → StoresWord old new a x → Knows self.now values Took new }
        ensures flushed { (values : ℕ → ℕ) (old new : Memory) (line : ℕ) → asks_of self.now ≡ Some (Flush line) → Knows self.now values Waiting old → Flushes old new line → Knows self.now values Took new }
    {
        sweep_laws::lawful_words_are_these();
    }
}

// What the sweep is told.
fn answer_of(seen: Seen) -> Answer
    ensures { result ≡ answer_in seen }
{
    match seen {
        Seen::Start | Seen::Swapped(_) | Seen::NoSwap => Answer::Start,
        Seen::Read(word) => Answer::Read(word),
        Seen::Stored => Answer::Stored,
        Seen::Flushed => Answer::Flushed,
    }
}

// The act that the sweep asks for, if it has not ended.
fn todo_of(ask: Ask) -> Option<Todo>
    ensures { result ≡ todo_in ask }
{
    match ask {
        Ask::Load(a) => Some(Todo::Load(a)),
        Ask::Store(a, word) => Some(Todo::Store(a, word)),
        Ask::Flush(line) => Some(Todo::Flush(line)),
        Ask::Finish => None,
    }
}
