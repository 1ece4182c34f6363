//! The five rules, with the causes of a Full as far as counts tell, judged in one pass over the marks.
ghost use Rattle.std.specs.Prelude.{◌≡◌, ◌↔◌, ◌%◌, ◌<◌, ◌^◌, ◌||◌, ◌&&◌, IfOk, IsTrue, None, length, slice_index};
ghost use Rattle.bz_content.specs.Content.{image_fault};
ghost use Rattle.bz_layout.specs.Addresses.{words_of};
ghost use Rattle.bz_layout.specs.Config.{IsConfig};
ghost use Rattle.bz_mark.specs.Laws.{IsImage, AreOfMemory};
ghost use Rattle.bz_mark.specs.Moments.{IsInner};
ghost use Rattle.bz_check.specs.Verdicts.{IsVerdict};
ghost use Rattle.bz_verdict.specs.Rules.{KeepsSeen, may_change_image};
ghost use Rattle.bz_verdict.specs.Starts.{IsFirstOuter, IsBadStartVerdict};

use crate::image::{is_well_formed, moment_rule};
use crate::maps::map_held;
use crate::questions::{answer, fault_with_page, questions};
use bz_check::{JudgeRule, Pass, Verdict, first};
use bz_layout::Config;
use bz_mark::{Journal, Mark, Power};
use bz_oom::Memory;
use std::alloc::Global;

/// Whether a moment is an inner one: the next mark is an Effect.
fn is_inner(journal: &Journal, moment: u32) -> bool
    ensures { IsTrue result ↔ IsInner moment journal.now.past }
{
    if moment >= journal.length() {
        return false;
    }
    match journal.mark(moment) {
        Mark::Effect { w: _, n: _ } => true,
        _ => false,
    }
}

/// Whether the durable words or the map may have changed, where this mark came last.
fn is_changed(stale: bool, mark: &Mark) -> bool
    ensures { result ≡ (stale || may_change_image mark.now) }
{
    if stale {
        return true;
    }
    match *mark {
        Mark::Fence { w: _ } => true,
        Mark::Evict { a: _ } => true,
        Mark::Effect { w: _, n: _ } => true,
        _ => false,
    }
}

/// Whether a change is left that was not looked at: at an inner moment none is.
fn is_left(changed: bool, inner: bool) -> bool
    ensures { result ≡ (changed && inner) }
{
    changed && inner
}

/// A start is an image of a memory.
fn is_image(start: &[u64])
    requires lines { length start.now % 8 ≡ 0 }
    requires size { length start.now < 2 ^ 32 }
    ensures { IsImage start.now }
{
    let _count = start.len();
}

/// The least moment that is not an inner one.
fn first_outer(journal: &Journal) -> u32
    ensures { IsFirstOuter result journal.now.past }
{
    let count = journal.length();
    for i in 0..count {
        if !is_inner(journal, i) {
            return i;
        }
    }
    count
}

/// The verdict where the start is not well formed: shape is broken at moment 0. Where that is an inner one, Effects stand first, and calls
/// are broken behind them.
fn bad_start_verdict(journal: &Journal) -> Verdict
    ensures { IsBadStartVerdict journal.now.start journal.now.past result }
{
    let moment = first_outer(journal);
    if moment == 0 {
        return Verdict::Broken {
            rule: JudgeRule::Shape,
            moment,
        };
    }
    Verdict::Broken {
        rule: JudgeRule::Calls,
        moment,
    }
}

/// The same as the call below, where the start is well formed.
fn judge_from_good_start(
    alloc: Global,
    config: &Config,
    power: Power,
    journal: &Journal,
) -> Result<Verdict, Memory>
    requires config { IsConfig config.now }
    requires size { length journal.now.start ≡ words_of config.now }
    requires start { image_fault config.now (slice_index journal.now.start) ≡ None }
    requires marks { AreOfMemory (length journal.now.start) journal.now.past }
    ensures { IfOk result (λ verdict. IsVerdict (KeepsSeen config.now power journal.now.start journal.now.pages) journal.now.past verdict) }
{
    let start = journal.start();
    is_image(start);
    let map = map_held(alloc, start)?;
    let mut pass = Pass::open(alloc, config, power, map, start)?;
    let mut asked = questions(alloc, journal)?;
    let mut broken: Option<JudgeRule> = None;
    let mut stale = false;
    for i in 0..journal.length() {
        let mark = journal.mark(i);
        let plain = pass.take(i, &mark)?;
        let fault = fault_with_page(&asked, i, &mark, plain);
        let next = first(broken, fault);
        broken = next;
        let inner = is_inner(journal, i + 1);
        let changed = is_changed(stale, &mark);
        let told = moment_rule(alloc, config, &pass, inner, broken, changed)?;
        match told {
            Some(rule) => {
                return Ok(Verdict::Broken {
                    rule,
                    moment: i + 1,
                });
            }
            None => {}
        }
        let question = asked[i as usize + 1];
        let kept = answer(journal, &pass, inner, question);
        asked[i as usize + 1] = kept;
        let left = is_left(changed, inner);
        stale = left;
    }
    Ok(Verdict::Sound)
}

/// Judges a journal by the five rules, but for two causes: the least moment, those before an Effect left out, up to which one of the five
/// is broken, and the first of them that is broken there. Of a Full nothing is asked of its cause but where descriptors are spent. The
/// power at the start is given.
pub fn judge_all_but_causes(
    alloc: Global,
    config: &Config,
    power: Power,
    journal: &Journal,
) -> Result<Verdict, Memory>
    requires config { IsConfig config.now }
    requires size { length journal.now.start ≡ words_of config.now }
    requires marks { AreOfMemory (length journal.now.start) journal.now.past }
    ensures { IfOk result (λ verdict. IsVerdict (KeepsSeen config.now power journal.now.start journal.now.pages) journal.now.past verdict) }
{
    let good = is_well_formed(alloc, config, journal.start())?;
    if !good {
        return Ok(bad_start_verdict(journal));
    }
    judge_from_good_start(alloc, config, power, journal)
}
