//! The calls that are open when the power is cut.
ghost use Rattle.std.specs.Prelude.{◌≡◌, ◌<◌, ◌≤◌, ◌+◌, ◌++◌, length, OnOk, Some};
ghost use Rattle.bz_mark.specs.Moments.{at_moment, mark_at};
ghost use Rattle.bz_sound.specs.Calls.{open_call};
ghost use Rattle.bz_text.specs.Lines.{open_line};
ghost use Rattle.bz_text.specs.Reading.{AreTold, IsReadTo, line_since};
ghost use Rattle.bz_text.specs.Report.{ended_calls, open_lines};

use crate::lines::{put, put_fate_line};
use bz_mark::{Journal, Mark};
use bz_oom::Memory;
use std::alloc::Global;

/// Looks at one mark: keeps whether each open call has taken effect.
pub(crate) fn tell_effect(journal: &Journal, moment: u32, mark: &Mark, effects: &mut [bool; 256])
    requires within { moment < length journal.now.past }
    requires seen { mark_at moment journal.now.past ≡ Some mark.now }
    requires before { AreTold journal.now.past moment effects.old }
    ensures { AreTold journal.now.past (moment + 1) effects.new }
{
    match *mark {
        Mark::Begin { w, n: _, call: _ } => {
            effects[w as usize] = false;
        }
        Mark::Effect { w, n: _ } => {
            effects[w as usize] = true;
        }
        _ => {}
    }
}

/// Puts the line of the open call that began at a moment.
fn put_since(
    alloc: Global,
    out: &mut Vec<u8>,
    journal: &Journal,
    begun: u32,
    w: u8,
    effective: bool,
) -> Result<(), Memory>
    requires { begun < length journal.now.past }
    ensures { OnOk result (out.new.items ≡ out.old.items ++ line_since w effective (mark_at begun journal.now.past)) }
{
    match journal.mark(begun) {
        Mark::Begin { w: _, n, call } => put_fate_line(alloc, out, w, n, call, effective),
        _ => put(out, b""),
    }
}

/// Puts the line of a worker's open call, if one is open.
fn put_open(
    alloc: Global,
    out: &mut Vec<u8>,
    journal: &Journal,
    moment: u32,
    begins: &[Option<u32>; 256],
    effects: &[bool; 256],
    w: u8,
) -> Result<(), Memory>
    requires within { moment ≤ length journal.now.past }
    requires table { IsReadTo journal.now.past moment begins.now (ended_calls (at_moment moment journal.now.past)) }
    requires told { AreTold journal.now.past moment effects.now }
    ensures { OnOk result (out.new.items ≡ out.old.items ++ open_line w (open_call w (at_moment moment journal.now.past))) }
{
    match begins[w as usize] {
        Some(begun) => {
            put_since(alloc, out, journal, begun, w, effects[w as usize])?;
            Ok(())
        }
        None => Ok(()),
    }
}

/// Puts the lines of the calls that are open before a moment.
pub(crate) fn put_open_calls(
    alloc: Global,
    out: &mut Vec<u8>,
    journal: &Journal,
    moment: u32,
    begins: &[Option<u32>; 256],
    effects: &[bool; 256],
) -> Result<(), Memory>
    requires within { moment ≤ length journal.now.past }
    requires table { IsReadTo journal.now.past moment begins.now (ended_calls (at_moment moment journal.now.past)) }
    requires told { AreTold journal.now.past moment effects.now }
    ensures { OnOk result (out.new.items ≡ out.old.items ++ open_lines 256 (at_moment moment journal.now.past)) }
{
    for w in 0..256u32 {
        put_open(alloc, out, journal, moment, begins, effects, w as u8)?;
    }
    Ok(())
}
