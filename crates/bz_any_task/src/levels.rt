//! The tasks that take a level away: two inner nodes under the root become one, and a root with one child gives way to it.

ghost use Rattle.std.specs.Prelude.{◌≡◌, ℕ, List, Option, None, true};
ghost use Rattle.bz_inner.specs.JoinFacts.{joining_acts};
ghost use Rattle.bz_inner.specs.Lone.{IsLone};
ghost use Rattle.bz_inner.specs.LowerFacts.{LOWER_ACTS};
ghost use Rattle.bz_layout.specs.declared.swaps.TheConstants.{RENEWAL_SWAPS};
ghost use Rattle.bz_layout.specs.declared.thresholds.TheConstants.{MERGE_SLOTS};
ghost use Rattle.bz_task.specs.Outcomes.{IsPath};
ghost use Rattle.bz_task.specs.Scene.{Scene, Waiting, IsScene};
ghost use Rattle.bz_any_task.specs.Duties.{config_of, asks_of, left_of, swaps_of, made_of, needs_of, wants_of, facts_of, makes_no_change, goes_on};
ghost use Rattle.bz_any_task.specs.Hearing.{IsLookup};
ghost use Rattle.bz_any_task.specs.Kinds as kind;
ghost use Rattle.bz_any_task.specs.Kinds.{kind_of};

use crate::running::AnyTask;
use bz_inner::{Lower, MergeInner};
use bz_layout::Config;
use bz_task::Path;

impl AnyTask {
    /// The merge of the inner node of a path under the root with a neighbour, where there is such a node and it is small.
    #[tactic(auto, unfolding(crate::specs::Duties::view_of, crate::specs::Duties::wants_of, crate::specs::Duties::ascent_of, crate::specs::Duties::makes_no_change, crate::specs::Duties::goes_on, crate::specs::Kinds::kind_of))]
    pub fn merge_inner(config: &Config, path: Path) -> AnyTask
        ensures config { config_of result ≡ config.now }
        ensures kind { kind_of result ≡ kind.MergeNodes }
        ensures asks { asks_of result ≡ None }
        ensures left { left_of result ≡ joining_acts }
        ensures swaps { swaps_of result ≡ RENEWAL_SWAPS }
        ensures made { made_of result ≡ 0 }
        ensures needs { needs_of result ≡ MERGE_SLOTS }
        ensures wants { wants_of result ≡ MERGE_SLOTS }
        ensures silent { makes_no_change result ≡ true }
        ensures goes { goes_on result ≡ true }
        ensures facts { (key : List ℕ) (s : Scene) → s.past.config ≡ config.now → IsScene s → IsPath key path s.past → facts_of result Waiting s }
        ensures ends { (key : List ℕ) (way : Option Path) → IsLookup key way result }
    {
        AnyTask::MergingInner(MergeInner::new(config, path))
    }

    /// The lowering of the root of a path, which has one child as the path shows it.
    #[tactic(auto, unfolding(crate::specs::Duties::view_of, crate::specs::Duties::wants_of, crate::specs::Duties::ascent_of, crate::specs::Duties::makes_no_change, crate::specs::Duties::goes_on, crate::specs::Kinds::kind_of))]
    pub fn lower(config: &Config, path: Path) -> AnyTask
        requires lone { IsLone path }
        ensures config { config_of result ≡ config.now }
        ensures kind { kind_of result ≡ kind.LowerRoot }
        ensures asks { asks_of result ≡ None }
        ensures left { left_of result ≡ LOWER_ACTS }
        ensures swaps { swaps_of result ≡ RENEWAL_SWAPS }
        ensures made { made_of result ≡ 0 }
        ensures needs { needs_of result ≡ 0 }
        ensures wants { wants_of result ≡ 0 }
        ensures silent { makes_no_change result ≡ true }
        ensures goes { goes_on result ≡ true }
        ensures facts { (key : List ℕ) (s : Scene) → s.past.config ≡ config.now → IsScene s → IsPath key path s.past → facts_of result Waiting s }
        ensures ends { (key : List ℕ) (way : Option Path) → IsLookup key way result }
    {
        AnyTask::Lowering(Lower::new(config, path))
    }
}
