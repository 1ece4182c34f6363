//! The calls that have ended since the last cut.
ghost use Rattle.std.specs.Prelude.{◌≡◌, ◌<◌, ◌≤◌, ◌+◌, ◌++◌, length, OnOk, Some};
ghost use Rattle.bz_ring.specs.Journal.{mark_at};
ghost use Rattle.bz_qtext.specs.Reading.{IsReadTo, ended_since};

use bz_mark::Mark;
use bz_oom::Memory;
use bz_queue::{QCall, QMark, QReply, QueueWorld};

/// A call that has ended, with what its line shows.
#[derive(Clone, Copy)]
pub struct QEnded {
    pub worker: u8,
    pub number: u32,
    pub call: QCall,
    pub reply: QReply,
    pub at: u32,
}

/// Looks at one mark: keeps where each open call began, and the calls that have ended since the last cut.
pub(crate) fn read_mark(
    queue: &QueueWorld,
    moment: u32,
    mark: &QMark,
    begins: &mut [Option<u32>; 256],
    ended: &mut Vec<QEnded>,
) -> Result<(), Memory>
    requires within { moment < length queue.now.log.past }
    requires seen { mark_at moment queue.now.log.past ≡ Some mark.now }
    requires before { IsReadTo queue.now.log.past moment begins.old ended.old.items }
    ensures { OnOk result (IsReadTo queue.now.log.past (moment + 1) begins.new ended.new.items) }
{
    match *mark {
        QMark::Begin { w, n: _, call: _ } => {
            begins[w as usize] = Some(moment);
        }
        QMark::End { w, n: _, reply, at } => {
            let begun = begins[w as usize];
            begins[w as usize] = None;
            if let Some(begun) = begun {
                add_ended(queue, begun, w, reply, at, ended)?;
            }
        }
        QMark::Memory(memory) => match memory {
            Mark::Cut => {
                begins.fill(None);
                ended.clear();
            }
            _ => {}
        },
        _ => {}
    }
    Ok(())
}

/// Adds the call that began at a moment.
fn add_ended(
    queue: &QueueWorld,
    begun: u32,
    w: u8,
    reply: QReply,
    at: u32,
    ended: &mut Vec<QEnded>,
) -> Result<(), Memory>
    requires { begun < length queue.now.log.past }
    ensures { OnOk result (ended.new.items ≡ ended.old.items ++ ended_since w reply at (mark_at begun queue.now.log.past)) }
{
    match queue.mark(begun) {
        QMark::Begin { w: _, n, call } => {
            ended.extend_from_slice(&[QEnded {
                worker: w,
                number: n,
                call,
                reply,
                at,
            }])?;
            Ok(())
        }
        _ => Ok(()),
    }
}
