//! Ends of calls.
ghost use Rattle.std.specs.Prelude.{◌≡◌, ◌<◌, false, length};
ghost use Rattle.bz_call.specs.Pages.{names_page};
ghost use Rattle.bz_world.specs.Inside.Going.{MustEnd, MustEndPage, WentOn};

use crate::answers::Applied;
use crate::laws::end_laws;
use crate::parts::Parts;
use bz_call::Reply;
use bz_key::Key;
use bz_mark::Mark;

/// Ends the open call of a worker by a reply that names no page. `at` is the moment that the reply is of.
pub(crate) fn end(parts: &mut Parts, w: u8, reply: Reply, at: u32) -> Applied
    requires right { MustEnd parts.old w reply at }
    requires plain { names_page reply ≡ false }
    requires room { length parts.old.journal.past < parts.old.config.marks }
    ensures went { WentOn parts.old w result parts.new }
    ensures slots { parts.new.slots ≡ parts.old.slots }
{
    end_laws();
    let n = parts.numbers[w as usize];
    parts.workers[w as usize] = None;
    parts.journal.push(Mark::End { w, n, reply, at });
    Applied::Ended(n)
}

/// Ends it by the page that was put together. `next` is the key with which the next page begins.
pub(crate) fn end_page(parts: &mut Parts, w: u8, next: Option<Key>, at: u32) -> Applied
    requires right { MustEndPage parts.old w next at }
    requires room { length parts.old.journal.past < parts.old.config.marks }
    ensures went { WentOn parts.old w result parts.new }
    ensures slots { parts.new.slots ≡ parts.old.slots }
{
    end_laws();
    let n = parts.numbers[w as usize];
    let page = parts.journal.add_page(parts.page.pairs());
    let reply = Reply::Page { page, next };
    parts.workers[w as usize] = None;
    parts.journal.push(Mark::End { w, n, reply, at });
    Applied::Ended(n)
}
