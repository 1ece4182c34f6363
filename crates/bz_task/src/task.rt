//! What a task is.

ghost use Rattle.std.specs.Prelude.{◌≡◌, IsSome, Some};
ghost use Rattle.bz_task.specs.Contract.{MayHear, GoesOn, Learns, IsSound, ActsWell};
ghost use Rattle.bz_task.specs.TaskView.{TaskView};
ghost use Rattle.bz_task.specs.declared.todo.Todo.TheVariants.{Finish};

use crate::todo::{Outcome, Seen, Todo};
use bz_layout::Slots;

/// An operation on the tree, of one worker.
pub trait Task: Drop {
    /// What its contract says of it.
    ghost view: { Self → TaskView };

    /// Whether the swap that it asks for makes the change.
    fn publishes(&self) -> bool
        ensures { result ≡ (view self.now).publishing };

    /// How it has ended: asked of a task that asks for nothing more.
    fn ended(&self) -> Option<Outcome>
        ensures end { result ≡ (view self.now).end }
        ensures finish { (view self.now).asks ≡ Some Finish → IsSome result }
        ensures only { IsSome result → (view self.now).asks ≡ Some Finish };

    /// The next act, after what came of the last one. `moment` is the number of marks so far.
    fn next(&mut self, seen: Seen, slots: &mut Slots, moment: u32) -> Todo
        requires { MayHear (view self.old) seen moment slots.old }
        ensures goes { GoesOn (view self.old) (view self.new) seen slots.old slots.new result }
        ensures learns { Learns (view self.old) (view self.new) seen moment slots.old slots.new };

    /// Laws of what the task has learnt. Does nothing.
    fn learnt(&self)
        ensures { IsSound (view self.now) };

    /// Laws of the acts of its own by which the memory changes. Does nothing.
    fn acted(&self)
        ensures { ActsWell (view self.now) };
}
