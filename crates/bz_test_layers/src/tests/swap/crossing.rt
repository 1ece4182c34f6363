//! Two swaps over crossing targets, along many schedules of their acts.

use super::watched::{Change, Watched};
use bz_oom::Memory;
use bz_swap_machine::Done;
use std::alloc::Global;
use std::process::Abort;

// Which of the two swaps take effect.
#[derive(Clone, Copy, Debug, PartialEq, Eq)]
enum Winners {
    Either,
    First,
    FirstAndPerhapsSecond,
}

// Which worker makes an act, by its number.
#[derive(Clone, Copy, Debug)]
enum Schedule {
    // so many acts of worker 1, of worker 2, and of worker 1 again
    Turns(u32, u32, u32),
    // forty-eight acts in blocks of so many, each of which a bit gives to one of the workers
    Blocks(u32, u32),
}

impl Schedule {
    fn worker(self, n: u32) -> Option<u8> {
        match self {
            Schedule::Turns(first, second, third) => {
                if n < first {
                    Some(1)
                } else if n - first < second {
                    Some(2)
                } else if n - first - second < third {
                    Some(1)
                } else {
                    None
                }
            }
            Schedule::Blocks(length, bits) => {
                if n >= 48 {
                    return None;
                }
                let block = n / length.max(1) % 12;
                Some(if (bits >> block) % 2 == 1 { 2 } else { 1 })
            }
        }
    }
}

// Makes the acts of the schedule, and then those of each worker to its end.
fn play(watched: &mut Watched, schedule: Schedule) -> (Done, Done) {
    let mut answers = [Done::Busy; 2];
    for n in 0..140 {
        let Some(w) = schedule.worker(n) else {
            break;
        };
        let done = watched.step(w);
        if done != Done::Busy {
            answers[w as usize % 2] = done;
        }
    }
    for w in [2, 1] {
        let done = watched.steps(w, 400);
        if done != Done::Busy {
            answers[w as usize % 2] = done;
        }
    }
    watched.compare();
    (answers[1], answers[0])
}

// Whether exactly the swaps whose expected values stood take effect, and answer so.
fn goes_well(
    alloc: Global,
    swaps: (&[Change], &[Change]),
    winners: Winners,
    schedule: Schedule,
) -> Result<bool, Memory> {
    let mut watched = Watched::open(alloc, 2, 2)?;
    let begun = (watched.begin(1, swaps.0), watched.begin(2, swaps.1));
    let (first, second) = play(&mut watched, schedule);
    let right = match (first, second) {
        (Done::Swapped(first), Done::Swapped(second)) => match winners {
            Winners::Either => first != second,
            Winners::First => first && !second,
            Winners::FirstAndPerhapsSecond => first,
        },
        _ => false,
    };
    Ok(begun == (Some(0), Some(1)) && right && watched.fault().is_none())
}

// The schedule along which two swaps go wrong, if there is one.
fn first_bad(
    alloc: Global,
    swaps: (&[Change], &[Change]),
    winners: Winners,
) -> Result<Option<Schedule>, Memory> {
    for i in 0..=44 {
        for j in 0..=46 {
            for k in 0..=21 {
                let schedule = Schedule::Turns(i, j, 2 * k + (i + j) % 2);
                if !goes_well(alloc, swaps, winners, schedule)? {
                    return Ok(Some(schedule));
                }
            }
        }
    }
    for length in 1..=5 {
        for bits in 0..4_096 {
            let schedule = Schedule::Blocks(length, bits);
            if !goes_well(alloc, swaps, winners, schedule)? {
                return Ok(Some(schedule));
            }
        }
    }
    Ok(None)
}

// Exactly the swaps whose expected values stand take effect, along each schedule.
fn cross(rt: &impl Abort, alloc: Global, swaps: (&[Change], &[Change]), winners: Winners) {
    let bad = first_bad(alloc, swaps, winners).expect(rt, "a memory");
    assert!(rt; bad.is_none(), "{bad:?}");
}

#[test]
fn crossing_swaps_take_effect_as_their_values_stand(rt: HostRuntime) {
    let (a, b, c, d) = (0, 1, 2, 3);
    let a_b = [Change::of(a, 0, 1), Change::of(b, 0, 1)];
    let a_b_again = [Change::of(a, 0, 2), Change::of(b, 0, 2)];
    let a_b_c = [
        Change::of(a, 0, 1),
        Change::of(b, 0, 1),
        Change::of(c, 0, 1),
    ];
    let b_c_d = [
        Change::of(b, 0, 2),
        Change::of(c, 0, 2),
        Change::of(d, 0, 2),
    ];
    let b_c_d_later = [
        Change::of(b, 1, 2),
        Change::of(c, 1, 2),
        Change::of(d, 0, 2),
    ];
    let a_c_d_never = [
        Change::of(a, 0, 2),
        Change::of(c, 0, 2),
        Change::of(d, 9, 2),
    ];
    let alloc = rt.alloc();
    cross(&rt, alloc, (&a_b, &a_b_again), Winners::Either);
    cross(&rt, alloc, (&a_b_c, &b_c_d), Winners::Either);
    cross(&rt, alloc, (&b_c_d, &a_b_c), Winners::Either);
    cross(
        &rt,
        alloc,
        (&a_b_c, &b_c_d_later),
        Winners::FirstAndPerhapsSecond,
    );
    cross(&rt, alloc, (&a_b_c, &a_c_d_never), Winners::First);
    cross(&rt, alloc, (&a_b_c, &a_b), Winners::Either);
}
