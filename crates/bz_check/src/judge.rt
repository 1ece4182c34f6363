//! One mark judged by the rules of truth and of calls, and its reply as far as the map and counts tell.
ghost use Rattle.std.specs.Prelude.{◌≡◌, ◌<◌, ◌+◌, ◌^◌, ℕ, List, ◌∷◌, IfOk, OnOk, length};
ghost use Rattle.bz_layout.specs.Config.{IsConfig};
ghost use Rattle.bz_layout.specs.declared.config.Config.{Config as Numbers};
ghost use Rattle.bz_call.specs.Map.{Map};
ghost use Rattle.bz_mark.specs.declared.power.Power.{Power as PowerWord};
ghost use Rattle.bz_mark.specs.declared.marks.Mark.{Mark as MarkWord};
ghost use Rattle.bz_mark.specs.Laws.{IsImage, IsOfMemory, AreOfMemory};
ghost use Rattle.bz_sound.specs.Calls.{map_after};
ghost use Rattle.bz_check.specs.Counts.{Counts, CountsWithin};
ghost use Rattle.bz_check.specs.Kept.{IsSized};
ghost use Rattle.bz_check.specs.Replays.{Replays};
ghost use Rattle.bz_check.specs.Knowing.{Knows, HasWorker, effect_changes, map_then, is_word, finds, fault_in, fault_by};
ghost use Rattle.bz_check.specs.Pairs.{Holds};
ghost use Rattle.bz_check.specs.Rules.{FollowsJudged};
ghost use Rattle.bz_check.specs.Sights.{seen_after};
ghost use Rattle.bz_check.specs.Verdicts.{TellsFirst};

use crate::counter::Counter;
use crate::pairs::{changes, step};
use crate::replay::Replay;
use crate::replies::is_right;
use crate::sights::Sights;
use crate::table::Table;
use crate::verdict::JudgeRule;
use bz_key::{Key, Payload};
use bz_mark::Mark;
use bz_oom::Memory;
use std::alloc::Global;
use std::collections::BTreeMap;

/// Whether a word is there and is this one.
fn is_this(found: Option<u64>, word: u64) -> bool
    ensures { result ≡ is_word found word }
{
    match found {
        Some(there) => there == word,
        None => false,
    }
}

/// Whether a load or a compare-and-swap found what stands there.
fn is_found(replay: &Replay, mark: &Mark) -> bool
    ensures { result ≡ finds replay.now.cached mark.now }
{
    match *mark {
        Mark::Load { w: _, a, v } => is_this(replay.load(a), v),
        Mark::Cas {
            w: _,
            a,
            old: _,
            new: _,
            found,
        } => is_this(replay.load(a), found),
        _ => true,
    }
}

/// Whether a mark is the Effect of a call that changes the map.
fn is_change(table: &Table, map: &BTreeMap<Key, Payload>, mark: &Mark) -> bool
    requires { length table.now.callers ≡ 256 }
    ensures { result ≡ effect_changes table.now map.now.entries mark.now }
{
    match *mark {
        Mark::Effect { w, n: _ } => match table.open_call(w) {
            Some(open) => changes(map, open.call),
            None => false,
        },
        _ => false,
    }
}

/// The rule that the three tests tell.
fn rule_of(found: bool, follows: bool, right: bool) -> Option<JudgeRule>
    ensures { result ≡ fault_by found follows right }
{
    if !found {
        return Some(JudgeRule::Truth);
    }
    if !follows {
        return Some(JudgeRule::Calls);
    }
    if !right {
        return Some(JudgeRule::Reply);
    }
    None
}

/// The first rule that a mark breaks, if it breaks one.
fn fault_of(
    replay: &Replay,
    table: &Table,
    map: &BTreeMap<Key, Payload>,
    sights: &Sights,
    counter: &Counter,
    now: u32,
    mark: &Mark,
) -> Option<JudgeRule>
    requires { length table.now.callers ≡ 256 }
    ensures { result ≡ fault_in replay.now table.now map.now.entries sights.now counter.now now mark.now }
{
    let found = is_found(replay, mark);
    let changes = is_change(table, map, mark);
    let follows = table.may_follow(changes, mark);
    let right = is_right(table, sights, counter, now, mark);
    rule_of(found, follows, right)
}

/// Makes the step of an Effect's call.
fn step_map(table: &Table, map: &mut BTreeMap<Key, Payload>, mark: &Mark) -> Result<(), Memory>
    requires { length table.now.callers ≡ 256 }
    ensures { (at : Map) → Holds at map.old.entries → OnOk result (Holds (map_then table.now mark.now at) map.new.entries) }
{
    match *mark {
        Mark::Effect { w, n: _ } => match table.open_call(w) {
            Some(open) => step(map, open.call),
            None => Ok(()),
        },
        _ => Ok(()),
    }
}

/// A mark names one of the workers that a table has.
fn names_worker(mark: &Mark)
    ensures { HasWorker mark.now }
{
    match *mark {
        Mark::Begin { w, n: _, call: _ } => {
            let _worker = w;
        }
        Mark::End {
            w,
            n: _,
            reply: _,
            at: _,
        } => {
            let _worker = w;
        }
        Mark::Load { w, a: _, v: _ } => {
            let _worker = w;
        }
        Mark::Store { w, a: _, v: _ } => {
            let _worker = w;
        }
        Mark::Cas {
            w,
            a: _,
            old: _,
            new: _,
            found: _,
        } => {
            let _worker = w;
        }
        Mark::Ask { w, line: _ } => {
            let _worker = w;
        }
        Mark::Fence { w } => {
            let _worker = w;
        }
        Mark::Effect { w, n: _ } => {
            let _worker = w;
        }
        _ => {}
    }
}

/// Takes a mark, with so many marks before it, and answers the first rule that it breaks, if it breaks one.
pub(crate) fn judge_mark(
    replay: &mut Replay,
    table: &mut Table,
    map: &mut BTreeMap<Key, Payload>,
    sights: &mut Sights,
    counter: &mut Counter,
    now: u32,
    mark: &Mark,
) -> Result<Option<JudgeRule>, Memory>
    requires sized { IsSized replay.old }
    requires workers { length table.old.callers ≡ 256 }
    requires named { IsOfMemory (length replay.old.cached) mark.now }
    requires few { now + 1 < 2 ^ 32 }
    requires counted { CountsWithin now counter.old }
    ensures words { (start : List ℕ) (past : List MarkWord) → now ≡ length past → IsImage start → IsOfMemory (length start) mark.now → Replays start past replay.old → OnOk result (Replays start (mark.now ∷ past) replay.new) }
    ensures calls { (at_start : PowerWord) (past : List MarkWord) → now ≡ length past → Knows at_start past table.old → OnOk result (Knows at_start (mark.now ∷ past) table.new) }
    ensures pairs { (at_start : PowerWord) (past : List MarkWord) (at : Map) → Knows at_start past table.old → Holds (map_after at past) map.old.entries → OnOk result (Holds (map_after at (mark.now ∷ past)) map.new.entries) }
    ensures seen { (at_start : PowerWord) (past : List MarkWord) (at : Map) → Knows at_start past table.old → Holds (map_after at past) map.old.entries → sights.old ≡ seen_after at past → OnOk result (sights.new ≡ seen_after at (mark.now ∷ past)) }
    ensures counts { (c : Numbers) (past : List MarkWord) → now ≡ length past → Counts c past counter.old → OnOk result (Counts c (mark.now ∷ past) counter.new) }
    ensures fault { (c : Numbers) (start : List ℕ) (at_start : PowerWord) (past : List MarkWord) (at : Map) → IsConfig c → now ≡ length past → IsImage start → AreOfMemory (length start) past → Replays start past replay.old →
        Knows at_start past table.old → Holds (map_after at past) map.old.entries → sights.old ≡ seen_after at past → Counts c past counter.old →
        IfOk result (λ fault. TellsFirst (FollowsJudged c at_start start at past mark.now) fault) }
{
    names_worker(mark);
    let fault = fault_of(replay, table, map, sights, counter, now, mark);
    sights.see(table, map, mark)?;
    step_map(table, map, mark)?;
    replay.take(now, mark)?;
    table.take(now, mark);
    counter.take(now, mark);
    Ok(fault)
}
