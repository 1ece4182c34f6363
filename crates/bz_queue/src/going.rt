//! How a call goes on once its read or its swap has answered.
ghost use Rattle.std.specs.Prelude.{◌≡◌, ◌≢◌, ◌<◌, true, false};
ghost use Rattle.std.specs.Prelude.{length};
ghost use Rattle.bz_swap_machine.specs.Allowed.{for_word};
ghost use Rattle.bz_swap_machine.specs.declared.done.Done.TheVariants.{Busy, Read, Swapped};
ghost use Rattle.bz_change.specs.Changes.{Suits};
ghost use Rattle.bz_queue.specs.Inside.Acted.{HasEnded};
ghost use Rattle.bz_queue.specs.declared.serving.Place.TheVariants.{Cell};
ghost use Rattle.bz_queue.specs.Inside.Going.{MustGoOn, MustRead, MustLook, MustJudge, MustEnd, Starts, WentOn};

use crate::answers::QApplied;
use crate::parts::Parts;
use crate::serving::{OpenCall, Place};
use bz_change::{change_reply, counter_at, entries, none_reply, suits};
use bz_ring::{QMark, QReply};
use bz_swap::{Done, NoSwap};

// Ends the open call of a worker. `at` is the moment that the reply is of.
fn end(parts: &mut Parts, w: u8, _serving: OpenCall, reply: QReply, at: u32) -> QApplied
    requires right { MustEnd parts.old w _serving reply at }
    requires room { length parts.old.journal.past < parts.old.journal.most }
    ensures { WentOn parts.old w result parts.new }
{
    let n = parts.last[w as usize];
    parts.workers[w as usize] = None;
    parts.journal.push(QMark::End { w, n, reply, at });
    QApplied::Ended(n)
}

// The call goes on at another place, where it reads this word.
fn read_next(parts: &mut Parts, w: u8, serving: OpenCall, place: Place, a: u32) -> QApplied
    requires { MustRead parts.old w serving place a }
    ensures { WentOn parts.old w result parts.new }
{
    parts.workers[w as usize] = Some(OpenCall { place, ..serving });
    parts.access.start_read(w, a);
    QApplied::Stepped
}

// The call has read its counter, and goes on to the cell that this names.
fn look(parts: &mut Parts, w: u8, serving: OpenCall, counter: u64) -> QApplied
    requires look { MustLook parts.old w serving counter }
    requires pays { Starts parts.old w serving (Cell counter) for_word }
    ensures { WentOn parts.old w result parts.new }
{
    let cell = parts.numbers.ring.cell_at(counter);
    read_next(parts, w, serving, Place::Cell(counter), cell)
}

// The cell suits: the call's swap begins, unless no descriptor is left.
fn change(parts: &mut Parts, w: u8, serving: OpenCall, counter: u64, word: u64) -> QApplied
    requires judge { MustJudge parts.old w serving counter word }
    requires suits { Suits serving.call word }
    requires room { length parts.old.journal.past < parts.old.journal.most }
    ensures { WentOn parts.old w result parts.new }
{
    let entries = entries(&parts.numbers.ring, serving.call, counter, word);
    match parts.access.start_swap(w, entries) {
        Ok(swap) => {
            parts.owners[swap as usize] = w;
            let place = Place::Swap { counter, word };
            parts.workers[w as usize] = Some(OpenCall { place, ..serving });
            QApplied::Stepped
        }
        Err(NoSwap) => {
            let at = parts.journal.length();
            end(parts, w, serving, QReply::Spent, at)
        }
    }
}

// The call has read the cell of its counter.
fn judge(parts: &mut Parts, w: u8, serving: OpenCall, counter: u64, word: u64) -> QApplied
    requires judge { MustJudge parts.old w serving counter word }
    requires room { length parts.old.journal.past < parts.old.journal.most }
    ensures { WentOn parts.old w result parts.new }
{
    if suits(serving.call, word) {
        return change(parts, w, serving, counter, word);
    }
    let at = parts.journal.length();
    let place = Place::Again { counter, at };
    read_next(parts, w, serving, place, counter_at(serving.call))
}

// A read of the call has answered.
fn hear_read(parts: &mut Parts, w: u8, serving: OpenCall, value: u64) -> QApplied
    requires must { MustGoOn parts.old w serving (Read value) }
    requires room { length parts.old.journal.past < parts.old.journal.most }
    ensures { WentOn parts.old w result parts.new }
{
    match serving.place {
        Place::Counter => look(parts, w, serving, value),
        Place::Cell(counter) => judge(parts, w, serving, counter, value),
        Place::Again { counter, at } => {
            if value == counter {
                end(parts, w, serving, none_reply(serving.call), at)
            } else {
                look(parts, w, serving, value)
            }
        }
        Place::Swap { .. } => unreachable!(),
    }
}

// The swap of the call has had its effect.
fn changed(parts: &mut Parts, w: u8, serving: OpenCall) -> QApplied
    requires must { MustGoOn parts.old w serving (Swapped true) }
    requires room { length parts.old.journal.past < parts.old.journal.most }
    ensures { WentOn parts.old w result parts.new }
{
    let Place::Swap { word, .. } = serving.place else {
        unreachable!()
    };
    let Some(at) = serving.effect else {
        unreachable!()
    };
    end(parts, w, serving, change_reply(serving.call, word), at)
}

// The swap of the call has missed: it begins anew.
fn missed(parts: &mut Parts, w: u8, serving: OpenCall) -> QApplied
    requires { MustGoOn parts.old w serving (Swapped false) }
    ensures { WentOn parts.old w result parts.new }
{
    let counter = counter_at(serving.call);
    read_next(parts, w, serving, Place::Counter, counter)
}

/// Goes on with the open call of a worker, whose act has ended this.
pub(crate) fn go_on(parts: &mut Parts, w: u8, done: Done) -> QApplied
    requires ended { HasEnded parts.old w done }
    requires room { length parts.old.journal.past < parts.old.journal.most }
    ensures { WentOn parts.old w result parts.new }
{
    let Some(serving) = parts.workers[w as usize] else {
        unreachable!()
    };
    match done {
        Done::Read(value) => hear_read(parts, w, serving, value),
        Done::Swapped(true) => changed(parts, w, serving),
        Done::Swapped(false) => missed(parts, w, serving),
        Done::Busy | Done::Stored | Done::Flushed => unreachable!(),
    }
}
