// What the world answered to a step, as the answer to the call.
ghost use Rattle.std.specs.Prelude.{◌≡◌, ◌≤◌, ℕ, length};
ghost use Rattle.bz_index.specs.Entries.{entries_in};
ghost use Rattle.bz_index.specs.Inside.Outcomes.{HasEnded, EndsWith, IsRead};
ghost use Rattle.bz_world.specs.declared.answers.Applied.TheVariants.{Ended};

use crate::answer::Answer;
use bz_call::Reply;
use bz_key::{Key, PAGE_PAIRS, PageBuf, Payload};
use bz_mark::{Journal, Mark};
use bz_world::{Applied, LimitKind};

// None while the call goes on.
pub(crate) fn answer_of(applied: Applied, journal: &Journal, page: &mut PageBuf) -> Option<Answer>
    requires { (n : ℕ) → applied ≡ Ended n → HasEnded journal.now }
    ensures { IsRead applied (entries_in journal.now) page.new result }
{
    match applied {
        Applied::Stepped => None,
        Applied::Ended(_) => Some(Answer::Reply(newest_reply(journal, page))),
        Applied::Limit => Some(Answer::Limit(LimitKind::Marks)),
        // No other step of a call is refused, unless the power was cut.
        _ => Some(Answer::Off),
    }
}

// The reply of the newest mark. If it names a page, its pairs are put in place of what was in `out`.
fn newest_reply(journal: &Journal, out: &mut PageBuf) -> Reply
    requires { HasEnded journal.now }
    ensures { EndsWith (entries_in journal.now) result out.new }
{
    let newest = journal.mark(journal.length() - 1);
    let Mark::End { reply, .. } = newest else {
        unreachable!()
    };
    if let Reply::Page { .. } = reply {
        fill(out, journal.page(journal.page_count() - 1));
    }
    reply
}

fn fill(page: &mut PageBuf, pairs: &[(Key, Payload)])
    requires { length pairs.now ≤ PAGE_PAIRS }
    ensures { page.new ≡ pairs.now }
{
    page.clear();
    for (key, payload) in pairs {
        page.push(*key, *payload);
    }
}
