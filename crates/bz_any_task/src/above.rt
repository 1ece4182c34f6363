//! The split of the node above, where a split lacked the room there.

ghost use Rattle.bz_layout.specs.declared.thresholds.TheConstants.{MAX_LEVELS};
ghost use Rattle.std.specs.Prelude.{◌≡◌, ◌<◌, ◌≤◌, ◌-◌, IfSome, IsSome, Some, slice_get};
ghost use Rattle.bz_ascent.specs.Ascents.{IsOneUp};
ghost use Rattle.bz_crown.specs.Due as crown;
ghost use Rattle.bz_fork.specs.Due as fork;
ghost use Rattle.bz_any_task.specs.Duties.{config_of, ascent_of};
ghost use Rattle.bz_any_task.specs.GoingUp.{HasOneUp, IsInScene, MayBeSplit, IsSplitAt, GoesUp};

use crate::running::AnyTask;
use bz_ascent::Ascent;
use bz_crown::SplitInnerRoot;
use bz_fork::SplitInner;
use bz_layout::Config;
use bz_task::Task;

// The split of the inner node to which an ascent has come, below a parent.
fn split_inner(config: &Config, ascent: Ascent) -> Option<AnyTask>
    requires few { ascent.path.depth ≤ MAX_LEVELS }
    requires within { ascent.place < MAX_LEVELS }
    requires below { 0 < ascent.place }
    requires node { slice_get ascent.path.links ascent.place ≡ Some ascent.node }
    ensures split { IfSome result (IsSplitAt config.now ascent) }
    ensures due { fork.IsDue ascent.path (ascent.place - 1) → IsSome result }
{
    let upper = ascent.place - 1;
    if !bz_fork::is_due(&ascent.path, upper) {
        return None;
    }
    let task = SplitInner::new(config, ascent.path, upper);
    Some(AnyTask::SplittingInner(task, ascent))
}

// The split of the inner root.
fn split_inner_root(config: &Config, ascent: Ascent) -> Option<AnyTask>
    requires few { ascent.path.depth ≤ MAX_LEVELS }
    requires root { ascent.place ≡ 0 }
    requires node { slice_get ascent.path.links ascent.place ≡ Some ascent.node }
    ensures split { IfSome result (IsSplitAt config.now ascent) }
    ensures due { crown.IsDue ascent.path → IsSome result }
{
    if !bz_crown::is_due(&ascent.path) {
        return None;
    }
    let task = SplitInnerRoot::new(config, ascent.path);
    Some(AnyTask::SplittingInnerRoot(task, ascent))
}

// The split of the node to which an ascent has come.
fn split_at(config: &Config, ascent: Ascent) -> Option<AnyTask>
    requires few { ascent.path.depth ≤ MAX_LEVELS }
    requires within { ascent.place < MAX_LEVELS }
    requires node { slice_get ascent.path.links ascent.place ≡ Some ascent.node }
    ensures split { IfSome result (IsSplitAt config.now ascent) }
    ensures due { MayBeSplit ascent → IsSome result }
{
    if ascent.place == 0 {
        split_inner_root(config, ascent)
    } else {
        split_inner(config, ascent)
    }
}

impl AnyTask {
    // How far up the way from a leaf it splits, if it does.
    #[tactic(auto, unfolding(crate::specs::Duties::ascent_of))]
    fn ascent(&self) -> Option<Ascent>
        ensures { result ≡ ascent_of self.now }
    {
        match self {
            AnyTask::SplittingBelow(_, ascent) => Some(*ascent),
            AnyTask::SplittingInner(_, ascent) => Some(*ascent),
            AnyTask::SplittingInnerRoot(_, ascent) => Some(*ascent),
            _ => None,
        }
    }

    /// The split of the node above, where this one has ended because that lacked the room. None where this is no split below a parent,
    /// or the path is not one by which that node may be split.
    pub fn above(&self, config: &Config) -> Option<AnyTask>
        requires config { config_of self.now ≡ config.now }
        requires known { IsInScene self.now }
        ensures up { IfSome result (GoesUp self.now) }
        // it is asked in vain only where no node stands above, or that may not be split
        ensures due { (a up : Ascent) → ascent_of self.now ≡ Some a → IsOneUp a up → MayBeSplit up → IsSome result }
        ensures stands { (a : Ascent) → ascent_of self.now ≡ Some a → 0 < a.place → HasOneUp a }
    {
        self.learnt();
        let ascent = self.ascent()?;
        if ascent.place == 0 {
            return None;
        }
        split_at(config, ascent.one_up())
    }
}
