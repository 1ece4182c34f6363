//! Running the items of a script.
ghost use Rattle.std.specs.Prelude.{◌≡◌, ◌≢◌, ◌≤◌, ◌<◌, Bool, List, [], ◌∷◌, length, not, None};
ghost use Rattle.bz_layout.specs.declared.limits.TheConstants.{MAX_WORKERS};
ghost use Rattle.bz_mark.specs.declared.power.Power.TheVariants.{On, Recovering};
ghost use Rattle.bz_sched.specs.FromWorld.WorldView.{power_in};
ghost use Rattle.bz_sched.specs.Enough.{count_wanting};
ghost use Rattle.bz_sched.specs.Runs.{point_of, IsCutPlan};
ghost use Rattle.bz_sched.specs.Sums.{calls_in, sum_of, SufficesFor, HasStockFor, IsStockedAtFirst, Affords, WantsNothingIf};
ghost use Rattle.bz_script.specs.ItemLaws.{AreItems};
ghost use Rattle.bz_script.specs.Order.{at_first, takes_no_cut, AreInOrder};
ghost use Rattle.bz_script.specs.declared.item.Item.{Item};
ghost use Rattle.bz_top.specs.Endings.{items_from};
ghost use Rattle.bz_top.specs.Items.{ItemsRan, ItemsDone, TurnsOn, IsReadyFor, HasDone, end_in, left_after};
ghost use Rattle.bz_top.specs.Threads.{RunBy, AreRunBy};
ghost use Rattle.bz_top.specs.declared.items.ItemsEnd.TheVariants.{Finished};

use crate::turns::run_turns;
use bz_sched::{CutPlan, LimitKind, Power, Queue, RunEnd, World, power};
use bz_script::Item;

/// How an item of a script ended, or all of them.
#[derive(Clone, Copy, PartialEq, Eq)]
pub enum ItemsEnd {
    Finished,

    /// A limit of the journal was met, and one more was needed.
    Limit(LimitKind),

    /// Want of memory, before a thread began.
    Memory,
}

/// How a run, or power on, ended; a cut that was armed is no reason to stop.
pub(crate) fn end_of(end: RunEnd) -> ItemsEnd
    ensures { result ≡ end_in end }
{
    match end {
        RunEnd::Limit(which) => ItemsEnd::Limit(which),
        RunEnd::Finished => ItemsEnd::Finished,
        RunEnd::Cut => ItemsEnd::Finished,
    }
}

/// Drops the calls that wait, where a cut of power on was made.
pub(crate) fn drop_after(queue: &mut Queue, end: RunEnd)
    ensures calls { queue.new.calls ≡ left_after end queue.old.calls }
    ensures room { queue.old.room ≤ queue.new.room }
{
    if let RunEnd::Cut = end {
        queue.clear();
    }
}

// Does what an item asks for. A cut is armed for the next run or power on.
fn do_item(
    world: World,
    queue: &mut Queue,
    armed: &mut Option<CutPlan>,
    item: &Item,
) -> (World, ItemsEnd)
    requires steady { power_in world ≢ Recovering }
    requires workers { world.config.workers ≡ MAX_WORKERS }
    requires room { 0 < queue.old.room }
    requires armed { IsCutPlan armed.old }
    requires item { IsReadyFor armed.old world item.now }
    requires runs { RunBy (λ plan. not (takes_no_cut plan)) item.now }
    ensures ends { HasDone armed.old world queue.old item.now result.1 armed.new result.0 queue.new }
    ensures enough { (supplied : Bool) (rest : List Item) → Affords supplied world queue.old.calls armed.old (item.now ∷ rest) → (result.1 ≡ Finished) × Affords supplied result.0 queue.new.calls armed.new rest }
{
    match item {
        Item::Queue(w, call) => {
            queue.push(*w, *call);
            (world, ItemsEnd::Finished)
        }
        Item::Arm { flush, seed } => {
            *armed = Some(CutPlan {
                flush: *flush,
                seed: *seed,
            });
            (world, ItemsEnd::Finished)
        }
        Item::Run(plan) => {
            let done = run_turns(world, queue, *armed, plan);
            *armed = None;
            done
        }
        Item::Power => {
            let mut world = world;
            let end = power(&mut world, *armed);
            *armed = None;
            drop_after(queue, end);
            (world, end_of(end))
        }
    }
}

// Does what the items ask for, one after the other, up to one that does not finish.
fn do_items(world: World, queue: &mut Queue, items: &[Item]) -> (World, ItemsEnd)
    requires steady { power_in world ≢ Recovering }
    requires powered { power_in world ≡ On }
    requires workers { world.config.workers ≡ MAX_WORKERS }
    requires room { length items.now ≤ queue.old.room }
    requires items { AreItems items.now }
    requires order { AreInOrder at_first items.now }
    requires runs { AreRunBy (λ plan. not (takes_no_cut plan)) items.now }
    ensures ends { ItemsDone (point_of world queue.old) world items.now result.1 result.0 }
    ensures enough { (supplied : Bool) → Affords supplied world queue.old.calls None items.now → (result.1 ≡ Finished) × WantsNothingIf supplied result.0 }
{
    let mut world = world;
    let mut armed: Option<CutPlan> = None;
    for item in items {
        let (next, end) = do_item(world, queue, &mut armed, item);
        world = next;
        match end {
            ItemsEnd::Finished => {}
            ItemsEnd::Limit(which) => return (world, ItemsEnd::Limit(which)),
            ItemsEnd::Memory => return (world, ItemsEnd::Memory),
        }
    }
    (world, ItemsEnd::Finished)
}

/// Turns the power on where it is off. Nothing has happened in the world.
pub(crate) fn turn_on(world: &mut World) -> ItemsEnd
    requires steady { power_in world.old ≢ Recovering }
    requires new { world.old.log.past ≡ [] }
    ensures ends { TurnsOn world.old result world.new }
    ensures enough { (supplied : Bool) (items : List Item) → Affords supplied world.old [] None (items_from world.old.at_start items) → (result ≡ Finished) × Affords supplied world.new [] None items }
{
    match world.power() {
        Power::On => ItemsEnd::Finished,
        Power::Off => end_of(power(world, None)),
        Power::Recovering => unreachable!(),
    }
}

/// Does what the items ask for, one after the other, over a world in which nothing has happened, up to one that does not
/// finish. Where the power is off it comes on before them.
pub fn run_items(world: World, queue: &mut Queue, items: &[Item]) -> (World, ItemsEnd)
    requires first { world.at_start ≢ Recovering }
    requires new { world.log.past ≡ [] }
    requires workers { world.config.workers ≡ MAX_WORKERS }
    requires none_wait { queue.old.calls ≡ [] }
    requires room { queue.old.room ≡ length items.now }
    requires items { AreItems items.now }
    requires order { AreInOrder at_first items.now }
    requires runs { AreRunBy (λ plan. not (takes_no_cut plan)) items.now }
    ensures ends { ItemsRan world items.now result.1 result.0 }
    ensures enough { SufficesFor world.config world.log.limits (items_from world.at_start items.now) → (result.1 ≡ Finished) × (IsStockedAtFirst world → HasStockFor world.config world.log.start (sum_of calls_in (items_from world.at_start items.now)) → count_wanting result.0.log.past ≡ 0) }
{
    let mut world = world;
    match turn_on(&mut world) {
        ItemsEnd::Finished => do_items(world, queue, items),
        ItemsEnd::Limit(which) => (world, ItemsEnd::Limit(which)),
        ItemsEnd::Memory => unreachable!(),
    }
}
