//! What is known of calls by their numbers.
ghost use Rattle.std.specs.Prelude.{◌≡◌, ◌∷◌, List, None, Some};
ghost use Rattle.bz_call.specs.declared.replies.Reply.{Reply as Answered};
ghost use Rattle.bz_mark.specs.declared.marks.Mark.{Mark as Marked};
ghost use Rattle.bz_world.specs.Inside.Beginning.{world_view};
ghost use Rattle.bz_world.specs.Inside.Kept.{IsKept};
ghost use Rattle.bz_world.specs.WorldView.{open_number, reply_of};

use crate::parts::Parts;
use bz_call::Reply;
use bz_mark::{Journal, Mark};

/// The number of a worker's open call, if one is open.
pub(crate) fn number_of(parts: &Parts, w: u8) -> Option<u32>
    requires { IsKept parts.now }
    ensures { result ≡ open_number (world_view parts.now) w }
{
    if u32::from(w) > parts.config.workers {
        return None;
    }
    match &parts.workers[w as usize] {
        Some(_) => Some(parts.numbers[w as usize]),
        None => None,
    }
}

// The reply that a mark is the End of, if it ends the worker's call with this number.
fn told_by(mark: Mark, w: u8, n: u32) -> Option<Reply>
    ensures some { (past : List Marked) (reply : Answered) → result ≡ Some reply → reply_of w n (mark ∷ past) ≡ Some reply }
    ensures none { (past : List Marked) → result ≡ None → reply_of w n (mark ∷ past) ≡ reply_of w n past }
{
    match mark {
        Mark::End {
            w: worker,
            n: number,
            reply,
            ..
        } if worker == w && number == n => Some(reply),
        _ => None,
    }
}

/// The reply of a worker's call with this number, if it has ended.
pub(crate) fn reply_in(journal: &Journal, w: u8, n: u32) -> Option<Reply>
    ensures { result ≡ reply_of w n journal.now.past }
{
    let mut left = journal.length();
    while left > 0 {
        left -= 1;
        if let Some(reply) = told_by(journal.mark(left), w, n) {
            return Some(reply);
        }
    }
    None
}
