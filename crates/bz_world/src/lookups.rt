//! Reading the leaf whole to which a path leads.
ghost use Rattle.std.specs.Prelude.{◌<◌, length};
ghost use Rattle.bz_world.specs.Inside.Going.{MustRead, WentOn};

use crate::answers::Applied;
use crate::calls::{called, key_of, set_froze, set_task};
use crate::going::begin_task;
use crate::laws::start_laws;
use crate::parts::Parts;
use bz_any_task::AnyTask;
use bz_task::Path;

/// Reads the leaf whole.
pub(crate) fn read_leaf(parts: &mut Parts, w: u8, path: Path) -> Applied
    requires path { MustRead parts.old w path }
    requires room { length parts.old.journal.past < parts.old.config.marks }
    ensures { WentOn parts.old w result parts.new }
{
    start_laws();
    let call = called(&parts.workers[w as usize]);
    let task = AnyTask::read_leaf(&parts.config, path, key_of(&call));
    task.laws();
    set_task(&mut parts.workers[w as usize], task, Some(path));
    begin_task(parts, w)
}

/// Reads the leaf whole that the call has frozen itself, which is to be made anew.
pub(crate) fn read_frozen(parts: &mut Parts, w: u8, path: Path) -> Applied
    requires path { MustRead parts.old w path }
    requires room { length parts.old.journal.past < parts.old.config.marks }
    ensures { WentOn parts.old w result parts.new }
{
    set_froze(&mut parts.workers[w as usize], false);
    read_leaf(parts, w, path)
}
