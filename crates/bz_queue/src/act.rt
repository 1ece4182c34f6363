//! One memory act of a worker, or an eviction; its mark, and its effect.
ghost use Rattle.std.specs.Prelude.{◌≡◌, ◌≢◌, ◌<◌, ◌≤◌, ◌+◌, ◌^◌, length, None, Some, option_map};
ghost use Rattle.bz_swap_machine.specs.declared.done.Done.TheVariants.{Busy};
ghost use Rattle.bz_ring.specs.Calls.{open_call};
ghost use Rattle.bz_ring.specs.Content.{size_of};
ghost use Rattle.bz_ring.specs.declared.marks.QMark.TheVariants.{Memory};
ghost use Rattle.bz_mark.specs.declared.marks.Mark.TheVariants.{Evict};
ghost use Rattle.bz_swap.specs.SwapMemory.{Idle, doing_of};
ghost use Rattle.bz_swap.specs.declared.phase.Phase.TheVariants.{Recovering};
ghost use Rattle.bz_queue.specs.Inside.Acted.{IsActed, IsEvicted, IsStriking, HasActed, HasEnded, HasMarked};
ghost use Rattle.bz_queue.specs.Inside.Kept.{IsAwake, view_of};
ghost use Rattle.bz_queue.specs.Inside.Serving.{with_moment};
ghost use Rattle.bz_queue.specs.QueueView.{IsStruck, Evicts};
ghost use Rattle.bz_queue.specs.declared.answers.QApplied.TheVariants.{Evicted};

use crate::parts::Parts;
use crate::serving::OpenCall;
use bz_mark::Mark;
use bz_ring::QMark;
use bz_swap::{Done, Progress};
use bz_swap_marks::mark_of;

// The call with its moment, if one is open.
fn with_effect(slot: Option<OpenCall>, moment: u32) -> Option<OpenCall>
    ensures { result ≡ option_map (with_moment moment) slot }
{
    match slot {
        Some(serving) => Some(OpenCall {
            effect: Some(moment),
            ..serving
        }),
        None => None,
    }
}

// A swap has taken effect: the call whose it is has its effect.
fn mark_effect(parts: &mut Parts, swap: u16)
    requires striking { IsStriking parts.old swap }
    requires room { length parts.old.journal.past < parts.old.journal.most }
    ensures kept { IsAwake parts.new }
    ensures struck { IsStruck parts.old.journal.past parts.new.journal.past }
    ensures marked { HasMarked parts.old swap parts.new }
    ensures rest { parts.new ≡ record parts.old { journal = record parts.old.journal { past = parts.new.journal.past }; workers = parts.new.workers } }
{
    let w = parts.owners[swap as usize];
    let moment = parts.journal.length();
    let slot = parts.workers[w as usize];
    parts.workers[w as usize] = with_effect(slot, moment);
    let n = parts.last[w as usize];
    parts.journal.push(QMark::Effect { w, n });
}

// Makes the next act of a worker.
fn make_act(parts: &mut Parts, w: u8) -> Progress
    requires worker { w < length parts.old.access.workers }
    requires busy { doing_of parts.old.access w ≢ Idle }
    requires phase { parts.old.access.phase ≢ Recovering }
    requires steps { parts.old.access.steps < 2 ^ 36 }
    requires room { length parts.old.journal.past < parts.old.journal.most }
    ensures { IsActed parts.old w result.act result.done result.effect parts.new }
{
    let progress = parts.access.step(w);
    parts.journal.push(QMark::Memory(mark_of(w, progress.act)));
    progress
}

/// Makes the next act of a worker's open call, and notes its effect. Answers what the act has ended.
pub(crate) fn act(parts: &mut Parts, w: u8) -> Done
    requires kept { IsAwake parts.old }
    requires open { open_call w parts.old.journal.past ≢ None }
    requires room { length parts.old.journal.past + 2 ≤ parts.old.journal.most }
    ensures made { HasActed parts.old w parts.new }
    ensures busy { result ≡ Busy → IsAwake parts.new }
    ensures ended { result ≢ Busy → HasEnded parts.new w result }
{
    let progress = make_act(parts, w);
    if let Some(swap) = progress.effect {
        mark_effect(parts, swap);
        return Done::Busy;
    }
    progress.done
}

/// Makes a word durable.
pub(crate) fn make_eviction(parts: &mut Parts, a: u32) -> Option<u16>
    requires within { a < length parts.old.access.cached }
    requires room { length parts.old.journal.past < parts.old.journal.most }
    ensures { IsEvicted parts.old a result parts.new }
{
    let effect = parts.access.evict(a);
    parts.journal.push(QMark::Memory(Mark::Evict { a }));
    effect
}

/// Makes a cached word durable, and notes the effect that comes of it.
pub(crate) fn evict_word(parts: &mut Parts, a: u32)
    requires kept { IsAwake parts.old }
    requires within { a < size_of parts.old.numbers.ring }
    requires room { length parts.old.journal.past + 2 ≤ parts.old.journal.most }
    ensures kept { IsAwake parts.new }
    ensures evicts { Evicts (view_of parts.old) a Evicted (view_of parts.new) }
{
    if let Some(swap) = make_eviction(parts, a) {
        mark_effect(parts, swap);
    }
}
