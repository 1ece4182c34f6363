//! The calls that are open when the power is cut.
ghost use Rattle.std.specs.Prelude.{◌≡◌, ◌<◌, ◌≤◌, ◌+◌, ◌++◌, length, OnOk, Some};
ghost use Rattle.bz_ring.specs.Journal.{at_moment, mark_at};
ghost use Rattle.bz_ring.specs.Calls.{open_call};
ghost use Rattle.bz_qtext.specs.Lines.{open_line};
ghost use Rattle.bz_qtext.specs.Reading.{AreTold, IsReadTo, line_since};
ghost use Rattle.bz_qtext.specs.Report.{ended_calls, open_lines};

use crate::lines::put_fate_line;
use bz_oom::Memory;
use bz_queue::{QMark, QueueWorld};
use bz_text::put;
use std::alloc::Global;

/// Looks at one mark: keeps whether each open call has taken effect.
pub(crate) fn tell_effect(queue: &QueueWorld, moment: u32, mark: &QMark, effects: &mut [bool; 256])
    requires within { moment < length queue.now.log.past }
    requires seen { mark_at moment queue.now.log.past ≡ Some mark.now }
    requires before { AreTold queue.now.log.past moment effects.old }
    ensures { AreTold queue.now.log.past (moment + 1) effects.new }
{
    match *mark {
        QMark::Begin { w, n: _, call: _ } => {
            effects[w as usize] = false;
        }
        QMark::Effect { w, n: _ } => {
            effects[w as usize] = true;
        }
        _ => {}
    }
}

/// Puts the line of the open call that began at a moment.
fn put_since(
    alloc: Global,
    out: &mut Vec<u8>,
    queue: &QueueWorld,
    begun: u32,
    w: u8,
    effective: bool,
) -> Result<(), Memory>
    requires { begun < length queue.now.log.past }
    ensures { OnOk result (out.new.items ≡ out.old.items ++ line_since w effective (mark_at begun queue.now.log.past)) }
{
    match queue.mark(begun) {
        QMark::Begin { w: _, n, call } => put_fate_line(alloc, out, w, n, call, effective),
        _ => put(out, b""),
    }
}

/// Puts the line of a worker's open call, if one is open.
fn put_open(
    alloc: Global,
    out: &mut Vec<u8>,
    queue: &QueueWorld,
    moment: u32,
    begins: &[Option<u32>; 256],
    effects: &[bool; 256],
    w: u8,
) -> Result<(), Memory>
    requires within { moment ≤ length queue.now.log.past }
    requires table { IsReadTo queue.now.log.past moment begins.now (ended_calls (at_moment moment queue.now.log.past)) }
    requires told { AreTold queue.now.log.past moment effects.now }
    ensures { OnOk result (out.new.items ≡ out.old.items ++ open_line w (open_call w (at_moment moment queue.now.log.past))) }
{
    match begins[w as usize] {
        Some(begun) => {
            put_since(alloc, out, queue, begun, w, effects[w as usize])?;
            Ok(())
        }
        None => Ok(()),
    }
}

/// Puts the lines of the calls that are open before a moment.
pub(crate) fn put_open_calls(
    alloc: Global,
    out: &mut Vec<u8>,
    queue: &QueueWorld,
    moment: u32,
    begins: &[Option<u32>; 256],
    effects: &[bool; 256],
) -> Result<(), Memory>
    requires within { moment ≤ length queue.now.log.past }
    requires table { IsReadTo queue.now.log.past moment begins.now (ended_calls (at_moment moment queue.now.log.past)) }
    requires told { AreTold queue.now.log.past moment effects.now }
    ensures { OnOk result (out.new.items ≡ out.old.items ++ open_lines 256 (at_moment moment queue.now.log.past)) }
{
    for w in 0..256u32 {
        put_open(alloc, out, queue, moment, begins, effects, w as u8)?;
    }
    Ok(())
}
