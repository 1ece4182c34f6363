//! For every fence from the first on a call is cut before it, its recovery before each of its own, and the power comes on once more:
//! the pairs and the value are those of the table, and how often the recovery is cut makes no difference.

use super::bench::{Found, booted, call, find, recover};
use super::rows::{Row, answer_of, copy, merge, shrink, split};
use crate::tests::bench::{holds, same, same_at};
use bz_call::Reply;
use bz_world::World;
use std::alloc::Global;
use std::process::Abort;
use std::test::Fail;

// The call is cut before a fence up to this one, and its recovery up to the other: more than either makes is told apart.
const CUTS: u8 = 240;

const AGAIN: u8 = 20;

/// How a call may end.
#[derive(Clone, Copy, Debug, PartialEq, Eq, PartialOrd)]
pub(super) enum Verdict {
    Lost,
    Kept,
    Answered,
}

/// The verdict of what is found after a call with this reply, or with none.
pub(super) fn verdict_of(row: &Row, reply: Option<Reply>, found: &Found) -> Option<Verdict> {
    match reply {
        Some(reply) if *found == row.kept && answer_of(&reply) == row.answer => {
            Some(Verdict::Answered)
        }
        None if *found == row.kept => Some(Verdict::Kept),
        None if *found == row.lost => Some(Verdict::Lost),
        _ => None,
    }
}

// How the call ends in a world over the image with these cuts: the call's, and the recovery's, or none for 0.
fn ends(rt: &impl Abort, world: &mut World, row: &Row, cut: u8, again: u8) -> Option<Verdict> {
    recover(rt, world, 0);
    let reply = call(rt, world, &row.call, cut);
    recover(rt, world, again);
    recover(rt, world, 0);
    let found = find(rt, world, row.key);
    verdict_of(row, reply, &found)
}

// The same over the image.
fn cut_twice(rt: &impl Abort, alloc: Global, row: &Row, cut: u8, again: u8) -> Option<Verdict> {
    let mut world = booted(rt, alloc, &row.image);
    ends(rt, &mut world, row, cut, again)
}

// With the call cut before this fence, no cut of the recovery changes how it ends.
fn one_verdict(rt: &impl Abort, alloc: Global, row: &Row, cut: u8) -> Option<Verdict> {
    let first = cut_twice(rt, alloc, row, cut, 0);
    holds(rt, first.is_some());
    for again in 1..=AGAIN {
        let other = cut_twice(rt, alloc, row, cut, again);
        same(rt, other, first);
    }
    first
}

// Each cut of a call over an image: the first one loses it, none after one that keeps it does, and the last one comes after the answer.
fn each_cut(rt: &impl Abort, alloc: Global, row: &Row) {
    let mut last = one_verdict(rt, alloc, row, 1);
    same_at(rt, last, Some(Verdict::Lost), row.name);
    for cut in 2..=CUTS {
        let next = one_verdict(rt, alloc, row, cut);
        holds(rt, next >= last);
        last = next;
    }
    same_at(rt, last, Some(Verdict::Answered), row.name);
}

#[test]
fn a_split_is_whole_or_nothing(rt: HostRuntime) -> Result<(), Fail> {
    each_cut(&rt, rt.alloc(), &split(&rt, rt.alloc())?);
    Ok(())
}

#[test]
fn a_merge_is_whole_or_nothing(rt: HostRuntime) -> Result<(), Fail> {
    each_cut(&rt, rt.alloc(), &merge(&rt, rt.alloc())?);
    Ok(())
}

#[test]
fn fewer_levels_are_whole_or_nothing(rt: HostRuntime) -> Result<(), Fail> {
    each_cut(&rt, rt.alloc(), &shrink(&rt, rt.alloc())?);
    Ok(())
}

#[test]
fn a_copy_is_whole_or_nothing(rt: HostRuntime) -> Result<(), Fail> {
    each_cut(&rt, rt.alloc(), &copy(&rt, rt.alloc())?);
    Ok(())
}
