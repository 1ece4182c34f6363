//! Two helpers that sleep while the swap that they help ends and another one brings the values back.

use super::watched::{Change, Fate, Watched};
use bz_oom::Memory;
use std::alloc::Global;
use std::test::Fail;

// How many acts the swap's own worker makes, then a helper that falls asleep, then a late one; and how many the late one
// makes before the sleeper wakes.
#[derive(Clone, Copy, Debug)]
struct Acts {
    own: u32,
    asleep: u32,
    late: u32,
    more: u32,
}

// How many words the swap changes, what the sleeper does itself, and whether the late helper ends the swap or its own
// worker does.
#[derive(Clone, Copy, Debug)]
struct Case {
    two: bool,
    sleeper_swaps: bool,
    late_ends: bool,
}

const ENOUGH: u32 = 400;

// Begins the swap of worker 1 from these values to other ones.
fn begin(watched: &mut Watched, two: bool, new: u64) {
    let first = Change::of(0, watched.value(0), new);
    if two {
        let second = Change::of(3, watched.value(3), new);
        watched.begin(1, &[first, second]);
    } else {
        watched.begin(1, &[first]);
    }
}

// Worker 1 begins its swap, and the helpers come to it and fall asleep.
fn fall_asleep(watched: &mut Watched, case: Case, acts: Acts) {
    begin(watched, case.two, 1);
    watched.steps(1, acts.own);
    if case.sleeper_swaps {
        watched.begin(2, &[Change::of(0, 0, 2)]);
    } else {
        watched.begin_read(2, 0);
    }
    watched.steps(2, acts.asleep);
    watched.begin_read(3, 0);
    watched.steps(3, acts.late);
}

// The swap ends, and another one brings the value back; then the late helper goes on, and the sleeper wakes.
fn wake(watched: &mut Watched, case: Case, acts: Acts) {
    if case.late_ends {
        watched.steps(3, ENOUGH);
    }
    watched.steps(1, ENOUGH);
    begin(watched, case.two, 0);
    watched.steps(1, ENOUGH);
    watched.steps(3, acts.more);
    watched.steps(2, ENOUGH);
    watched.steps(3, ENOUGH);
    watched.compare();
}

// Whether each swap took effect once and answered true, where the sleeper swaps nothing.
fn are_both_done(watched: &Watched) -> bool {
    watched.fate(0) == Fate::Answered(true) && watched.fate(1) == Fate::Answered(true)
}

// Whether a run with these numbers of acts goes well.
fn goes_well(alloc: Global, case: Case, acts: Acts) -> Result<bool, Memory> {
    let mut watched = Watched::open(alloc, 3, 3)?;
    fall_asleep(&mut watched, case, acts);
    wake(&mut watched, case, acts);
    let world = &watched.world;
    let ended = world.idle(1) && world.idle(2) && world.idle(3);
    let back = watched.value(0) == 0 && watched.value(3) == 0;
    let done = case.sleeper_swaps || are_both_done(&watched) && back;
    Ok(ended && done && watched.fault().is_none())
}

// The numbers of acts of the late helper at which a run goes wrong, if there are any.
fn first_bad(alloc: Global, case: Case, own: u32, asleep: u32) -> Result<Option<Acts>, Memory> {
    let longest = if case.late_ends {
        0
    } else if case.two {
        4
    } else {
        12
    };
    for late in 0..=25 {
        for more in 0..=longest {
            let acts = Acts {
                own,
                asleep,
                late,
                more,
            };
            if !goes_well(alloc, case, acts)? {
                return Ok(Some(acts));
            }
        }
    }
    Ok(None)
}

#[test]
fn sleeping_helpers_change_nothing(rt: HostRuntime) -> Result<(), Fail> {
    for (two, sleeper_swaps, late_ends) in [
        (false, false, false),
        (false, false, true),
        (false, true, false),
        (false, true, true),
        (true, false, false),
        (true, false, true),
    ] {
        let case = Case {
            two,
            sleeper_swaps,
            late_ends,
        };
        let (longest, last) = if two { (32, 46) } else { (21, 34) };
        for own in 0..=longest {
            for asleep in 0..=last {
                let bad = first_bad(rt.alloc(), case, own, asleep)?;
                assert!(rt; bad.is_none(), "{case:?} {bad:?}");
            }
        }
    }
    Ok(())
}
