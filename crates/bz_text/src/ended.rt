//! The calls that have ended since the last cut.
ghost use Rattle.std.specs.Prelude.{◌≡◌, ◌<◌, ◌≤◌, ◌+◌, ◌++◌, length, OnOk, Some};
ghost use Rattle.bz_mark.specs.Moments.{mark_at};
ghost use Rattle.bz_text.specs.Reading.{IsReadTo, ended_since};

use bz_call::{Call, Reply};
use bz_mark::{Journal, Mark};
use bz_oom::Memory;

/// A call that has ended, with what its line shows.
#[derive(Clone, Copy)]
pub struct EndedCall {
    pub worker: u8,
    pub number: u32,
    pub call: Call,
    pub reply: Reply,
    pub at: u32,
}

/// Looks at one mark: keeps where each open call began, and the calls that have ended since the last cut.
pub(crate) fn read_mark(
    journal: &Journal,
    moment: u32,
    mark: &Mark,
    begins: &mut [Option<u32>; 256],
    ended: &mut Vec<EndedCall>,
) -> Result<(), Memory>
    requires within { moment < length journal.now.past }
    requires seen { mark_at moment journal.now.past ≡ Some mark.now }
    requires before { IsReadTo journal.now.past moment begins.old ended.old.items }
    ensures { OnOk result (IsReadTo journal.now.past (moment + 1) begins.new ended.new.items) }
{
    match *mark {
        Mark::Begin { w, n: _, call: _ } => {
            begins[w as usize] = Some(moment);
        }
        Mark::End { w, n: _, reply, at } => {
            let begun = begins[w as usize];
            begins[w as usize] = None;
            if let Some(begun) = begun {
                add_ended(journal, begun, w, reply, at, ended)?;
            }
        }
        Mark::Cut => {
            begins.fill(None);
            ended.clear();
        }
        _ => {}
    }
    Ok(())
}

/// Adds the call that began at a moment.
fn add_ended(
    journal: &Journal,
    begun: u32,
    w: u8,
    reply: Reply,
    at: u32,
    ended: &mut Vec<EndedCall>,
) -> Result<(), Memory>
    requires { begun < length journal.now.past }
    ensures { OnOk result (ended.new.items ≡ ended.old.items ++ ended_since w reply at (mark_at begun journal.now.past)) }
{
    match journal.mark(begun) {
        Mark::Begin { w: _, n, call } => {
            ended.extend_from_slice(&[EndedCall {
                worker: w,
                number: n,
                call,
                reply,
                at,
            }])?;
            Ok(())
        }
        _ => Ok(()),
    }
}
