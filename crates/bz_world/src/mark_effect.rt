//! The effect of a swap.
ghost use Rattle.std.specs.Prelude.{◌≡◌, ◌<◌, ◌+◌, ◌^◌, length};
ghost use Rattle.bz_world.specs.Inside.Acted.{IsStriking};
ghost use Rattle.bz_world.specs.Inside.Kept.{IsAwake};
ghost use Rattle.bz_world.specs.WorldView.{IsStruck};
ghost use Rattle.bz_world.specs.Inside.Serving.{noted, is_publishing, pairs_after};

use crate::going::effect_reply;
use crate::laws::strike_laws;
use crate::parts::Parts;
use crate::serving::OpenCall;
use bz_call::Reply;
use bz_mark::Mark;
use bz_task::Task;

// Notes the moment at the call that is served, if its task's swap makes its change. Answers whether it does.
fn note_effect(slot: &mut Option<OpenCall>, moment: u32) -> bool
    ensures publishes { result ≡ is_publishing slot.old }
    ensures noted { slot.new ≡ noted slot.old moment }
{
    match slot {
        None => false,
        Some(serving) => {
            let publishes = serving.task.publishes();
            if publishes {
                serving.effect = Some(moment);
            }
            publishes
        }
    }
}

// How many pairs there are once the call that is served has made its change.
fn count_pairs(slot: &Option<OpenCall>, pairs: u64) -> u64
    requires { pairs + 1 < 2 ^ 64 }
    ensures { result ≡ pairs_after slot.now pairs }
{
    let Some(serving) = slot else {
        return pairs;
    };
    match effect_reply(&serving.call, serving.had) {
        Reply::Inserted => pairs + 1,
        Reply::Deleted(_) => pairs.saturating_sub(1),
        Reply::Exists
        | Reply::Updated(_)
        | Reply::Missing
        | Reply::Value(_)
        | Reply::Page { .. }
        | Reply::Full(_) => pairs,
    }
}

/// A swap has taken effect. Where it makes the change of its call, that is marked.
pub(crate) fn mark_effect(parts: &mut Parts, swap: u16)
    requires striking { IsStriking parts.old swap }
    requires room { length parts.old.journal.past < parts.old.config.marks }
    ensures kept { IsAwake parts.new }
    ensures struck { IsStruck parts.old.journal.past parts.new.journal.past }
    ensures rest { parts.new ≡ record parts.old { journal = record parts.old.journal { past = parts.new.journal.past }; workers = parts.new.workers; pairs = parts.new.pairs } }
{
    strike_laws();
    let w = parts.owners[swap as usize];
    let moment = parts.journal.length();
    if note_effect(&mut parts.workers[w as usize], moment) {
        let n = parts.numbers[w as usize];
        parts.pairs = count_pairs(&parts.workers[w as usize], parts.pairs);
        parts.journal.push(Mark::Effect { w, n });
    }
}
