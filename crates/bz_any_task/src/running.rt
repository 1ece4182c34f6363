//! Whichever task it is.

ghost use Rattle.std.specs.Prelude.{◌≡◌, ◌+◌, ◌-◌, ◌<◌, ◌≢◌, ◌≤◌, ℕ, List, true, false, Option, None, Some, slice_get};
ghost use Rattle.bz_ascent.specs.FromBelow.Facts.{IsThawedAbove, LackedPart, below_acts};
ghost use Rattle.bz_consol.specs.Facts.{LeadsTo, consol_acts};
ghost use Rattle.bz_leaf.specs.Facts.{IsLastLink, leaf_acts};
ghost use Rattle.bz_layout.specs.declared.thresholds.TheConstants.{CONSOLIDATION_SLOTS, MERGE_BELOW, MERGE_SLOTS, SPLIT_ABOVE, SPLIT_SLOTS, MAX_LEVELS};
ghost use Rattle.bz_descend.specs.SeekFacts.{seek_reads};
ghost use Rattle.bz_find.specs.Facts.{find_acts};
ghost use Rattle.bz_freeze.specs.Facts.{freeze_left};
ghost use Rattle.bz_freeze.specs.declared.phase.FreezePhase.TheVariants.{Fresh as FreshFreeze};
ghost use Rattle.bz_insert.specs.Facts.{insert_acts};
ghost use Rattle.bz_merge.specs.Facts.{merge_acts};
ghost use Rattle.bz_merge.specs.FromSplit.Facts.{split_acts};
ghost use Rattle.bz_mutate.specs.DeleteFacts.{delete_left};
ghost use Rattle.bz_mutate.specs.UpdateFacts.{update_acts};
ghost use Rattle.bz_mutate.specs.declared.delete_phase.DeletePhase.TheVariants.{Fresh as FreshDelete};
ghost use Rattle.bz_merge.specs.FromPage.Pages.{IsLeafByItself};
ghost use Rattle.bz_insert.specs.FromRecord.Records.{words_for, LacksRoom};
ghost use Rattle.bz_slotted.specs.Readers.{live_of};
ghost use Rattle.bz_slotted.specs.ReadingLaws.{node_of};
ghost use Rattle.bz_word.specs.Statuses.{status};
ghost use Rattle.bz_task.specs.Outcomes.{payload_of, IsPath, IsView, IsKeyView};
ghost use Rattle.bz_task.specs.Requests.{Hears, IsKnown};
ghost use Rattle.bz_task.specs.Scene.{Past, Scene, Waiting, IsScene, HasFilled};
ghost use Rattle.bz_layout.specs.declared.swaps.TheConstants.{DELETE_SWAPS, FREEZE_SWAPS, INSERT_SWAPS, MERGE_SWAPS, RENEWAL_SWAPS, UPDATE_SWAPS};
ghost use Rattle.bz_task.specs.declared.path.Link.{Link as LastLink};
ghost use Rattle.bz_task.specs.declared.todo.Todo.TheVariants.{Read};
ghost use Rattle.bz_any_task.specs.Hearing.{IsLookup, HasHeard};
ghost use Rattle.bz_any_task.specs.Kinds as kind;
ghost use Rattle.bz_any_task.specs.Kinds.{kind_of, IsLeafSplit};
ghost use Rattle.bz_any_task.specs.Duties.{config_of, asks_of, left_of, swaps_of, made_of, change_swaps, needs_of, wants_of, change_of, facts_of, means_of, makes_no_change, leaves_few_of, view_of};
ghost use Rattle.bz_any_task.specs.Laws.{AreLaws};
ghost use Rattle.bz_any_task.specs.MadeFor.{IsMadeFor, IsMergeFor, IsSmallMerge};
ghost use Rattle.bz_any_task.specs.LookingUp.{ForWay, ForKey, look_of, reads_asked, HasCounted, LooksUpBriefly};

use bz_ascent::{Ascent, SplitBelow};
use bz_consol::Consolidate;
use bz_crown::SplitInnerRoot;
use bz_descend::Seek;
use bz_find::Find;
use bz_fork::SplitInner;
use bz_freeze::Freeze;
use bz_inner::{Lower, MergeInner};
use bz_insert::Insert;
use bz_key::{Key, PageBuf, Payload};
use bz_layout::{Config, ROOT_STATUS_AT, Slots};
use bz_leaf::ReadLeaf;
use bz_merge::{Merge, SplitRoot};
use bz_mutate::{Delete, Update};
use bz_task::{KeyView, LeafView, Link, Outcome, Path, Seen, Task, Todo};

/// A task on the tree.
#[derive(Drop)]
pub enum AnyTask {
    Seeking(Seek),
    Finding(Find),
    Reading(ReadLeaf),
    Inserting(Insert),
    Updating(Update),
    Deleting(Delete),
    Freezing(Freeze),
    Consolidating(Consolidate),
    Splitting(SplitRoot),
    SplittingBelow(SplitBelow, Ascent),
    SplittingInner(SplitInner, Ascent),
    SplittingInnerRoot(SplitInnerRoot, Ascent),
    Merging(Merge),
    MergingInner(MergeInner),
    Lowering(Lower),
}

impl AnyTask {
    /// The way to the leaf of a key, by halving. It asks for the root status first.
    #[tactic(auto, unfolding(crate::specs::Duties::view_of, crate::specs::Duties::wants_of, crate::specs::Duties::ascent_of, crate::specs::Duties::makes_no_change, crate::specs::LookingUp::look_of, crate::specs::LookingUp::reads_asked, crate::specs::Kinds::kind_of))]
    pub fn seek(config: &Config, key: Key) -> AnyTask
        ensures config { config_of result ≡ config.now }
        ensures kind { kind_of result ≡ kind.Seek }
        ensures asks { asks_of result ≡ Some (Read ROOT_STATUS_AT) }
        ensures left { left_of result ≡ seek_reads }
        ensures swaps { swaps_of result ≡ 0 }
        ensures made { made_of result ≡ 0 }
        ensures needs { needs_of result ≡ 0 }
        ensures wants { wants_of result ≡ 0 }
        ensures silent { makes_no_change result ≡ true }
        ensures look { look_of result ≡ ForWay }
        ensures reads { reads_asked result ≡ 1 }
        ensures facts { (s : Scene) → HasFilled s → facts_of result Waiting s }
        ensures ends { (way : Option Path) → IsLookup key way result }
    {
        AnyTask::Seeking(Seek::begun(config, key))
    }

    /// A look-up of a key in the last leaf of a path.
    #[tactic(auto, unfolding(crate::specs::Duties::view_of, crate::specs::Duties::wants_of, crate::specs::Duties::ascent_of, crate::specs::Duties::makes_no_change, crate::specs::LookingUp::look_of, crate::specs::LookingUp::reads_asked, crate::specs::Kinds::kind_of))]
    pub fn find(config: &Config, path: Path, key: Key) -> AnyTask
        requires some { 1 ≤ path.depth }
        requires few { path.depth ≤ MAX_LEVELS }
        ensures config { config_of result ≡ config.now }
        ensures kind { kind_of result ≡ kind.Find }
        ensures asks { asks_of result ≡ None }
        ensures left { left_of result ≡ find_acts }
        ensures swaps { swaps_of result ≡ 0 }
        ensures made { made_of result ≡ 0 }
        ensures needs { needs_of result ≡ 0 }
        ensures wants { wants_of result ≡ 0 }
        ensures silent { makes_no_change result ≡ true }
        ensures look { look_of result ≡ ForKey }
        ensures reads { reads_asked result ≡ 0 }
        ensures key { (change_of result).key ≡ key }
        ensures last { (link : LastLink) × IsLastLink path link }
        ensures facts { (s : Scene) → IsScene s → IsPath key path s.past → facts_of result Waiting s }
        ensures ends { IsLookup key (Some path) result }
    {
        AnyTask::Finding(Find::new(config, path, key))
    }

    /// A reading of the last leaf of a path.
    #[tactic(auto, unfolding(crate::specs::Duties::view_of, crate::specs::Duties::wants_of, crate::specs::Duties::ascent_of, crate::specs::Duties::makes_no_change, crate::specs::Kinds::kind_of))]
    pub fn read_leaf(config: &Config, path: Path, key: Key) -> AnyTask
        requires some { 1 ≤ path.depth }
        requires few { path.depth ≤ MAX_LEVELS }
        ensures config { config_of result ≡ config.now }
        ensures kind { kind_of result ≡ kind.ReadWhole }
        ensures asks { asks_of result ≡ None }
        ensures left { left_of result ≡ leaf_acts }
        ensures swaps { swaps_of result ≡ 0 }
        ensures made { made_of result ≡ 0 }
        ensures needs { needs_of result ≡ 0 }
        ensures wants { wants_of result ≡ 0 }
        ensures silent { makes_no_change result ≡ true }
        ensures facts { (s : Scene) → IsScene s → IsPath key path s.past → facts_of result Waiting s }
        ensures ends { IsLookup key (Some path) result }
    {
        AnyTask::Reading(ReadLeaf::new(config, path, key))
    }

    /// The insert of a key that was not found in its leaf.
    #[tactic(auto, unfolding(crate::specs::Duties::view_of, crate::specs::Duties::change_swaps, crate::specs::Duties::wants_of, crate::specs::Duties::ascent_of, crate::specs::Kinds::kind_of))]
    pub fn insert(config: &Config, path: Path, view: KeyView, key: Key, payload: Payload) -> AnyTask
        requires absent { view.found ≡ None }
        ensures config { config_of result ≡ config.now }
        ensures kind { kind_of result ≡ kind.Insert }
        ensures asks { asks_of result ≡ None }
        ensures left { left_of result ≡ insert_acts }
        ensures swaps { swaps_of result ≡ INSERT_SWAPS }
        ensures made { made_of result ≡ 0 }
        // its change takes so many swaps
        ensures takes { change_swaps result ≡ INSERT_SWAPS }
        ensures needs { needs_of result ≡ 0 }
        ensures wants { wants_of result ≡ 0 }
        ensures change { change_of result ≡ record { key = key; old = None; new = Some payload } }
        ensures facts { (s : Scene) → s.past.config ≡ config.now → s.effected ≡ false → IsScene s → IsKeyView key view s.past → facts_of result Waiting s }
        ensures ends { (way : Option Path) → IsLookup key way result }
        // NeedsRoom comes exactly where the viewed leaf lacks room
        ensures needs_room { (s : Scene) → means_of result Outcome.NeedsRoom s → LacksRoom view.status (words_for key payload) }
    {
        AnyTask::Inserting(Insert::new(config, path, view, key, payload))
    }

    /// The update of a key that was found in its leaf.
    #[tactic(auto, unfolding(crate::specs::Duties::view_of, crate::specs::Duties::change_swaps, crate::specs::Duties::wants_of, crate::specs::Duties::ascent_of, crate::specs::Kinds::kind_of))]
    pub fn update(config: &Config, path: Path, view: KeyView, key: Key, payload: Payload) -> AnyTask
        requires present { view.found ≢ None }
        ensures config { config_of result ≡ config.now }
        ensures kind { kind_of result ≡ kind.Update }
        ensures asks { asks_of result ≡ None }
        ensures left { left_of result ≡ update_acts }
        ensures swaps { swaps_of result ≡ UPDATE_SWAPS }
        ensures made { made_of result ≡ 0 }
        // its change takes so many swaps
        ensures takes { change_swaps result ≡ UPDATE_SWAPS }
        ensures needs { needs_of result ≡ 0 }
        ensures wants { wants_of result ≡ 0 }
        ensures change { change_of result ≡ record { key = key; old = payload_of view.found; new = Some payload } }
        ensures facts { (s : Scene) → s.past.config ≡ config.now → s.effected ≡ false → IsScene s → IsKeyView key view s.past → facts_of result Waiting s }
        ensures ends { (way : Option Path) → IsLookup key way result }
        // NeedsRoom comes exactly where the viewed leaf lacks room
        ensures needs_room { (s : Scene) → means_of result Outcome.NeedsRoom s → LacksRoom view.status (words_for key payload) }
    {
        AnyTask::Updating(Update::new(config, path, view, key, payload))
    }

    /// The delete of a key that was found in its leaf.
    #[tactic(auto, unfolding(crate::specs::Duties::view_of, crate::specs::Duties::change_swaps, crate::specs::Duties::wants_of, crate::specs::Duties::ascent_of, crate::specs::Kinds::kind_of))]
    pub fn delete(config: &Config, path: Path, view: KeyView, key: Key) -> AnyTask
        requires present { view.found ≢ None }
        ensures config { config_of result ≡ config.now }
        ensures kind { kind_of result ≡ kind.Delete }
        ensures asks { asks_of result ≡ None }
        ensures left { left_of result ≡ delete_left FreshDelete }
        ensures swaps { swaps_of result ≡ DELETE_SWAPS }
        ensures made { made_of result ≡ 0 }
        // its change takes so many swaps
        ensures takes { change_swaps result ≡ DELETE_SWAPS }
        ensures needs { needs_of result ≡ 0 }
        ensures wants { wants_of result ≡ 0 }
        ensures change { change_of result ≡ record { key = key; old = payload_of view.found; new = None } }
        ensures facts { (s : Scene) → s.past.config ≡ config.now → s.effected ≡ false → IsScene s → IsKeyView key view s.past → facts_of result Waiting s }
        ensures ends { (way : Option Path) → IsLookup key way result }
        // NeedsRoom comes exactly where the viewed leaf is frozen
        ensures needs_room { (s : Scene) → means_of result Outcome.NeedsRoom s → (status view.status).frozen ≡ true }
    {
        AnyTask::Deleting(Delete::new(config, path, view, key))
    }

    /// The freeze of a leaf that was not frozen when it was viewed.
    #[tactic(auto, unfolding(crate::specs::Duties::view_of, crate::specs::Duties::wants_of, crate::specs::Duties::ascent_of, crate::specs::Duties::makes_no_change, crate::specs::Kinds::kind_of))]
    pub fn freeze(config: &Config, path: Path, view: LeafView) -> AnyTask
        requires thawed { (status view.status).frozen ≡ false }
        ensures config { config_of result ≡ config.now }
        ensures kind { kind_of result ≡ kind.Freeze }
        ensures asks { asks_of result ≡ None }
        ensures left { left_of result ≡ freeze_left FreshFreeze }
        ensures swaps { swaps_of result ≡ FREEZE_SWAPS }
        ensures made { made_of result ≡ 0 }
        ensures needs { needs_of result ≡ 0 }
        ensures wants { wants_of result ≡ 0 }
        ensures silent { makes_no_change result ≡ true }
        ensures facts { (key : List ℕ) (s : Scene) → s.past.config ≡ config.now → IsScene s → IsView key view s.past → facts_of result Waiting s }
        ensures ends { (key : List ℕ) (way : Option Path) → IsLookup key way result }
        // it is made for the key of the leaf, where that lacks room for a record of so many words, and for these and its metadata word
        ensures made_for { (key : List ℕ) (words : ℕ) (p : Past) → IsView key view p → LacksRoom view.status words → IsMadeFor result key (words + 1) p }
    {
        AnyTask::Freezing(Freeze::new(config, path, view))
    }

    /// The consolidation of a frozen leaf, to which the path leads.
    #[tactic(auto, unfolding(crate::specs::Duties::view_of, crate::specs::Duties::wants_of, crate::specs::Duties::ascent_of, crate::specs::Duties::makes_no_change, crate::specs::Kinds::kind_of))]
    pub fn consolidate(config: &Config, path: Path, view: LeafView, page: &mut PageBuf) -> AnyTask
        requires some { 1 ≤ path.depth }
        requires few { path.depth ≤ MAX_LEVELS }
        requires frozen { (status view.status).frozen ≡ true }
        requires leads { LeadsTo path view.slot }
        requires alone { IsLeafByItself view.image.0 }
        ensures config { config_of result ≡ config.now }
        ensures kind { kind_of result ≡ kind.Copy }
        ensures asks { asks_of result ≡ None }
        ensures left { left_of result ≡ consol_acts }
        ensures swaps { swaps_of result ≡ RENEWAL_SWAPS }
        ensures made { made_of result ≡ 0 }
        ensures needs { needs_of result ≡ CONSOLIDATION_SLOTS }
        ensures wants { wants_of result ≡ CONSOLIDATION_SLOTS }
        ensures silent { makes_no_change result ≡ true }
        ensures facts { (key : List ℕ) (s : Scene) → s.past.config ≡ config.now → IsScene s → IsPath key path s.past → IsView key view s.past → facts_of result Waiting s }
        ensures ends { (key : List ℕ) (way : Option Path) → IsLookup key way result }
        // it is made for the key of the leaf, where that has no more live words than it may keep
        ensures made_for { (key : List ℕ) (words : ℕ) (p : Past) → IsView key view p → live_of (node_of view.image.0) ≤ SPLIT_ABOVE → IsMadeFor result key words p }
    {
        AnyTask::Consolidating(Consolidate::new(config, path, view, page))
    }

    /// The split of a frozen root leaf with more live words than it may keep, to which the path leads.
    #[tactic(auto, unfolding(crate::specs::Duties::view_of, crate::specs::Duties::wants_of, crate::specs::Duties::ascent_of, crate::specs::Duties::makes_no_change, crate::specs::Kinds::kind_of))]
    pub fn split_root(config: &Config, path: Path, view: LeafView, page: &mut PageBuf) -> AnyTask
        requires root { path.depth ≡ 1 }
        requires alone { IsLeafByItself view.image.0 }
        requires many { SPLIT_ABOVE < live_of (node_of view.image.0) }
        requires frozen { (status view.status).frozen ≡ true }
        requires leads { LeadsTo path view.slot }
        ensures config { config_of result ≡ config.now }
        ensures kind { kind_of result ≡ kind.SplitRootLeaf }
        ensures asks { asks_of result ≡ None }
        ensures left { left_of result ≡ split_acts }
        ensures swaps { swaps_of result ≡ RENEWAL_SWAPS }
        ensures made { made_of result ≡ 0 }
        ensures needs { needs_of result ≡ SPLIT_SLOTS }
        ensures wants { wants_of result ≡ SPLIT_SLOTS }
        ensures silent { makes_no_change result ≡ true }
        ensures facts { (key : List ℕ) (s : Scene) → s.past.config ≡ config.now → IsScene s → IsPath key path s.past → IsView key view s.past → facts_of result Waiting s }
        ensures ends { (key : List ℕ) (way : Option Path) → IsLookup key way result }
        ensures made_for { (key : List ℕ) (words : ℕ) (p : Past) → IsView key view p → IsMadeFor result key words p }
    {
        AnyTask::Splitting(SplitRoot::new(config, path, view, page))
    }

    /// The split of a frozen leaf below a parent, with more live words than it may keep, to which the path leads.
    #[tactic(auto, unfolding(crate::specs::Duties::view_of, crate::specs::Duties::wants_of, crate::specs::Duties::ascent_of, crate::specs::Duties::makes_no_change, crate::specs::Kinds::kind_of))]
    pub fn split_below(
        config: &Config,
        path: Path,
        view: LeafView,
        key: Key,
        page: &mut PageBuf,
    ) -> AnyTask
        requires deep { 2 ≤ path.depth }
        requires few { path.depth ≤ MAX_LEVELS }
        requires alone { IsLeafByItself view.image.0 }
        requires many { SPLIT_ABOVE < live_of (node_of view.image.0) }
        requires frozen { (status view.status).frozen ≡ true }
        requires leads { LeadsTo path view.slot }
        requires thawed { IsThawedAbove path }
        ensures config { config_of result ≡ config.now }
        ensures kind { IsLeafSplit key path (kind_of result) }
        ensures asks { asks_of result ≡ None }
        ensures left { left_of result ≡ below_acts }
        ensures swaps { swaps_of result ≡ RENEWAL_SWAPS }
        ensures made { made_of result ≡ 0 }
        ensures needs { needs_of result ≡ SPLIT_SLOTS }
        ensures wants { wants_of result ≡ SPLIT_SLOTS }
        ensures silent { makes_no_change result ≡ true }
        ensures facts { (s : Scene) → s.past.config ≡ config.now → IsScene s → IsPath key path s.past → IsView key view s.past → facts_of result Waiting s }
        ensures ends { (way : Option Path) → IsLookup key way result }
        // NeedsRoom comes only where the parent lacked room for the separator
        ensures needs_room { (upper lower : Link) (s : Scene) → slice_get path.links (path.depth - 2) ≡ Some upper → slice_get path.links (path.depth - 1) ≡ Some lower → means_of result Outcome.NeedsRoom s → LackedPart upper lower view s.past }
        ensures made_for { (words : ℕ) (p : Past) → IsView key view p → IsMadeFor result key words p }
    {
        let task = SplitBelow::new(config, path, view, page);
        AnyTask::SplittingBelow(task, Ascent::from_leaf(key, path))
    }

    /// The merge of a leaf below a parent, frozen or not, to which the path leads and which has too few live words to stand alone, with a
    /// neighbour.
    #[tactic(auto, unfolding(crate::specs::Duties::view_of, crate::specs::Duties::wants_of, crate::specs::Duties::ascent_of, crate::specs::Duties::makes_no_change, crate::specs::Kinds::kind_of))]
    pub fn merge(config: &Config, path: Path, view: LeafView) -> AnyTask
        requires deep { 2 ≤ path.depth }
        requires few { path.depth ≤ MAX_LEVELS }
        requires small { live_of (node_of view.image.0) < MERGE_BELOW }
        requires leads { LeadsTo path view.slot }
        requires thawed { IsThawedAbove path }
        ensures config { config_of result ≡ config.now }
        ensures kind { kind_of result ≡ kind.Merge }
        ensures asks { asks_of result ≡ None }
        ensures left { left_of result ≡ merge_acts }
        ensures swaps { swaps_of result ≡ MERGE_SWAPS }
        ensures made { made_of result ≡ 0 }
        ensures needs { needs_of result ≡ MERGE_SLOTS }
        ensures wants { wants_of result ≡ MERGE_SLOTS }
        ensures silent { makes_no_change result ≡ true }
        ensures facts { (key : List ℕ) (s : Scene) → s.past.config ≡ config.now → IsScene s → IsPath key path s.past → IsView key view s.past → facts_of result Waiting s }
        ensures ends { (key : List ℕ) (way : Option Path) → IsLookup key way result }
        // it is one for the key of the leaf, where that was frozen when it was viewed
        ensures merge_for { (key : List ℕ) (p : Past) → IsView key view p → (status view.status).frozen ≡ true → IsMergeFor result key p }
        // and of a leaf with too few live words
        ensures small_for { (key : List ℕ) (p : Past) → IsView key view p → IsSmallMerge result key p }
    {
        AnyTask::Merging(Merge::new(config, path, view))
    }

    /// Tells the task what came of its last act, and answers what it asks for next: `next`, and that one which makes no change makes none later.
    #[tactic(auto, unfolding(crate::specs::Duties::view_of, crate::specs::Duties::change_swaps, crate::specs::Duties::wants_of, crate::specs::Duties::ascent_of, crate::specs::Duties::makes_no_change, crate::specs::Duties::goes_on, crate::specs::MadeFor::IsMadeFor, crate::specs::MadeFor::IsMergeFor, crate::specs::MadeFor::IsSmallMerge, crate::specs::Kinds::kind_of))]
    pub fn hear(&mut self, seen: Seen, slots: &mut Slots, moment: u32) -> Todo
        requires hears { Hears (asks_of self.old) seen }
        requires known { IsKnown (config_of self.old) (facts_of self.old) (asks_of self.old) seen moment }
        requires memory { 0 < needs_of self.old → slots.old.nodes ≡ (config_of self.old).nodes }
        ensures heard { HasHeard self.old seen moment slots.old result self.new slots.new }
        // each read of a look-up is counted
        ensures counts { HasCounted self.old result self.new }
    {
        match self {
            AnyTask::Seeking(task) => task.next(seen, slots, moment),
            AnyTask::Finding(task) => task.next(seen, slots, moment),
            AnyTask::Reading(task) => task.next(seen, slots, moment),
            AnyTask::Inserting(task) => task.next(seen, slots, moment),
            AnyTask::Updating(task) => task.next(seen, slots, moment),
            AnyTask::Deleting(task) => task.next(seen, slots, moment),
            AnyTask::Freezing(task) => task.next(seen, slots, moment),
            AnyTask::Consolidating(task) => task.next(seen, slots, moment),
            AnyTask::Splitting(task) => task.next(seen, slots, moment),
            AnyTask::SplittingBelow(task, _) => task.next(seen, slots, moment),
            AnyTask::SplittingInner(task, _) => task.next(seen, slots, moment),
            AnyTask::SplittingInnerRoot(task, _) => task.next(seen, slots, moment),
            AnyTask::Merging(task) => task.next(seen, slots, moment),
            AnyTask::MergingInner(task) => task.next(seen, slots, moment),
            AnyTask::Lowering(task) => task.next(seen, slots, moment),
        }
    }

    /// Whether it is a delete that leaves so little in its leaf that this may be merged.
    #[tactic(auto, unfolding(crate::specs::Duties::leaves_few_of, crate::specs::Kinds::kind_of))]
    pub fn leaves_few(&self) -> bool
        ensures tells { result ≡ leaves_few_of self.now }
        ensures kind { result ≡ true → kind_of self.now ≡ kind.Delete }
    {
        match self {
            AnyTask::Deleting(task) => task.leaves_few(),
            _ => false,
        }
    }

    /// The laws of a look-up's reads. Does nothing.
    pub fn looks(&self)
        ensures { LooksUpBriefly self.now }
    {
        match self {
            AnyTask::Seeking(task) => {
                let _asked = task.asked();
            }
            AnyTask::Finding(task) => {
                let _asked = task.asked();
            }
            _ => {}
        }
    }

    /// The laws of what the task knows, and of its acts. Does nothing.
    pub fn laws(&self)
        ensures { AreLaws self.now }
    {
        let _ended = self.ended();
        self.learnt();
        self.acted();
    }
}

impl Task for AnyTask {
    ghost view = { view_of };

    #[tactic(auto, unfolding(crate::specs::Duties::view_of))]
    fn publishes(&self) -> bool {
        match self {
            AnyTask::Seeking(task) => task.publishes(),
            AnyTask::Finding(task) => task.publishes(),
            AnyTask::Reading(task) => task.publishes(),
            AnyTask::Inserting(task) => task.publishes(),
            AnyTask::Updating(task) => task.publishes(),
            AnyTask::Deleting(task) => task.publishes(),
            AnyTask::Freezing(task) => task.publishes(),
            AnyTask::Consolidating(task) => task.publishes(),
            AnyTask::Splitting(task) => task.publishes(),
            AnyTask::SplittingBelow(task, _) => task.publishes(),
            AnyTask::SplittingInner(task, _) => task.publishes(),
            AnyTask::SplittingInnerRoot(task, _) => task.publishes(),
            AnyTask::Merging(task) => task.publishes(),
            AnyTask::MergingInner(task) => task.publishes(),
            AnyTask::Lowering(task) => task.publishes(),
        }
    }

    #[tactic(auto, unfolding(crate::specs::Duties::view_of))]
    fn ended(&self) -> Option<Outcome> {
        match self {
            AnyTask::Seeking(task) => task.ended(),
            AnyTask::Finding(task) => task.ended(),
            AnyTask::Reading(task) => task.ended(),
            AnyTask::Inserting(task) => task.ended(),
            AnyTask::Updating(task) => task.ended(),
            AnyTask::Deleting(task) => task.ended(),
            AnyTask::Freezing(task) => task.ended(),
            AnyTask::Consolidating(task) => task.ended(),
            AnyTask::Splitting(task) => task.ended(),
            AnyTask::SplittingBelow(task, _) => task.ended(),
            AnyTask::SplittingInner(task, _) => task.ended(),
            AnyTask::SplittingInnerRoot(task, _) => task.ended(),
            AnyTask::Merging(task) => task.ended(),
            AnyTask::MergingInner(task) => task.ended(),
            AnyTask::Lowering(task) => task.ended(),
        }
    }

    #[tactic(auto, unfolding(crate::specs::Duties::view_of, crate::specs::Duties::wants_of))]
    fn next(&mut self, seen: Seen, slots: &mut Slots, moment: u32) -> Todo {
        match self {
            AnyTask::Seeking(task) => task.next(seen, slots, moment),
            AnyTask::Finding(task) => task.next(seen, slots, moment),
            AnyTask::Reading(task) => task.next(seen, slots, moment),
            AnyTask::Inserting(task) => task.next(seen, slots, moment),
            AnyTask::Updating(task) => task.next(seen, slots, moment),
            AnyTask::Deleting(task) => task.next(seen, slots, moment),
            AnyTask::Freezing(task) => task.next(seen, slots, moment),
            AnyTask::Consolidating(task) => task.next(seen, slots, moment),
            AnyTask::Splitting(task) => task.next(seen, slots, moment),
            AnyTask::SplittingBelow(task, _) => task.next(seen, slots, moment),
            AnyTask::SplittingInner(task, _) => task.next(seen, slots, moment),
            AnyTask::SplittingInnerRoot(task, _) => task.next(seen, slots, moment),
            AnyTask::Merging(task) => task.next(seen, slots, moment),
            AnyTask::MergingInner(task) => task.next(seen, slots, moment),
            AnyTask::Lowering(task) => task.next(seen, slots, moment),
        }
    }

    #[tactic(auto, unfolding(crate::specs::Duties::view_of, crate::specs::Duties::wants_of))]
    fn learnt(&self) {
        match self {
            AnyTask::Seeking(task) => task.learnt(),
            AnyTask::Finding(task) => task.learnt(),
            AnyTask::Reading(task) => task.learnt(),
            AnyTask::Inserting(task) => task.learnt(),
            AnyTask::Updating(task) => task.learnt(),
            AnyTask::Deleting(task) => task.learnt(),
            AnyTask::Freezing(task) => task.learnt(),
            AnyTask::Consolidating(task) => task.learnt(),
            AnyTask::Splitting(task) => task.learnt(),
            AnyTask::SplittingBelow(task, _) => task.learnt(),
            AnyTask::SplittingInner(task, _) => task.learnt(),
            AnyTask::SplittingInnerRoot(task, _) => task.learnt(),
            AnyTask::Merging(task) => task.learnt(),
            AnyTask::MergingInner(task) => task.learnt(),
            AnyTask::Lowering(task) => task.learnt(),
        }
    }

    #[tactic(auto, unfolding(crate::specs::Duties::view_of))]
    fn acted(&self) {
        match self {
            AnyTask::Seeking(task) => task.acted(),
            AnyTask::Finding(task) => task.acted(),
            AnyTask::Reading(task) => task.acted(),
            AnyTask::Inserting(task) => task.acted(),
            AnyTask::Updating(task) => task.acted(),
            AnyTask::Deleting(task) => task.acted(),
            AnyTask::Freezing(task) => task.acted(),
            AnyTask::Consolidating(task) => task.acted(),
            AnyTask::Splitting(task) => task.acted(),
            AnyTask::SplittingBelow(task, _) => task.acted(),
            AnyTask::SplittingInner(task, _) => task.acted(),
            AnyTask::SplittingInnerRoot(task, _) => task.acted(),
            AnyTask::Merging(task) => task.acted(),
            AnyTask::MergingInner(task) => task.acted(),
            AnyTask::Lowering(task) => task.acted(),
        }
    }
}
