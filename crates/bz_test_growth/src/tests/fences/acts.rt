//! The same calls cut after each number of their acts, and their recoveries before a fence, with words evicted before both cuts.

use super::bench::{acts, begin, booted, evict, find, recover};
use super::rows::{Row, copy, merge, shrink, split};
use super::table::{Verdict, verdict_of};
use crate::tests::bench::{holds, same};
use bz_world::World;
use std::alloc::Global;
use std::process::Abort;
use std::test::Fail;

// More acts than any of the calls makes.
const MOST: u16 = 2_500;

// A recovery is cut before one of its first so many fences.
const FLUSHES: u16 = 9;

// How the call ends in a world over the image, cut after so many acts; and its recovery before a fence, or at its end for 0.
fn ends(rt: &impl Abort, world: &mut World, row: &Row, made: u16, again: u8) -> Option<Verdict> {
    recover(rt, world, 0);
    begin(rt, world, &row.call);
    let reply = acts(world, made);
    evict(world, u64::from(made));
    recover(rt, world, again);
    evict(world, u64::from(again));
    recover(rt, world, 0);
    let found = find(rt, world, row.key);
    verdict_of(row, reply, &found)
}

// The same over the image.
fn cut_after(rt: &impl Abort, alloc: Global, row: &Row, made: u16, again: u8) -> Option<Verdict> {
    let mut world = booted(rt, alloc, &row.image);
    ends(rt, &mut world, row, made, again)
}

// With the call cut after so many acts, a cut of the recovery does not change how it ends.
fn one_verdict(rt: &impl Abort, alloc: Global, row: &Row, made: u16) -> Option<Verdict> {
    let first = cut_after(rt, alloc, row, made, 0);
    holds(rt, first.is_some());
    let again = (made % FLUSHES) as u8 + 1;
    let other = cut_after(rt, alloc, row, made, again);
    same(rt, other, first);
    first
}

// Each number of acts of a call over an image, up to the last one.
fn each_act(rt: &impl Abort, alloc: Global, row: &Row) {
    for made in 0..MOST {
        if one_verdict(rt, alloc, row, made) == Some(Verdict::Answered) {
            return;
        }
    }
    panic!(rt; "{} does not end", row.name)
}

#[test]
fn a_split_is_whole_or_nothing_after_each_act(rt: HostRuntime) -> Result<(), Fail> {
    each_act(&rt, rt.alloc(), &split(&rt, rt.alloc())?);
    Ok(())
}

#[test]
fn a_merge_is_whole_or_nothing_after_each_act(rt: HostRuntime) -> Result<(), Fail> {
    each_act(&rt, rt.alloc(), &merge(&rt, rt.alloc())?);
    Ok(())
}

#[test]
fn fewer_levels_are_whole_or_nothing_after_each_act(rt: HostRuntime) -> Result<(), Fail> {
    each_act(&rt, rt.alloc(), &shrink(&rt, rt.alloc())?);
    Ok(())
}

#[test]
fn a_copy_is_whole_or_nothing_after_each_act(rt: HostRuntime) -> Result<(), Fail> {
    each_act(&rt, rt.alloc(), &copy(&rt, rt.alloc())?);
    Ok(())
}
