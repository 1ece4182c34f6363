//! Running the items of a script.
ghost use Rattle.std.specs.Prelude.{◌≡◌, ◌≢◌, ◌≤◌, ◌<◌, None, length};
ghost use Rattle.bz_layout.specs.declared.limits.TheConstants.{MAX_WORKERS};
ghost use Rattle.bz_mark.specs.declared.power.Power.TheVariants.{On, Recovering};
ghost use Rattle.bz_qscript.specs.declared.item.QItem.TheVariants.{Power};
ghost use Rattle.bz_qscript.specs.ItemLaws.{IsItem, AreItems, AreInOrder};
ghost use Rattle.bz_queue.specs.QueueView.{power_in};
ghost use Rattle.bz_ring.specs.Content.{size_of};
ghost use Rattle.bz_script.specs.Order.{at_first};
ghost use Rattle.bz_qsched.specs.Items.{IsReadyFor, HasDone, ItemsDone, end_in, left_after};
ghost use Rattle.bz_qsched.specs.Runs.{IsCutPlan, point_of};

use crate::power_on::power;
use crate::running::{RunEnd, run};
use crate::waiting::Waiting;
use bz_qscript::QItem;
use bz_queue::{QLimit, QueueWorld};
use bz_script::CutPlan;

/// How an item of a script ended, or all of them.
#[derive(Clone, Copy, PartialEq, Eq)]
pub enum ItemsEnd {
    Finished,

    /// A limit of the journal was met, and one more was needed.
    Limit(QLimit),
}

// How a run, or power on, ended; a cut that was armed is no reason to stop.
fn end_of(end: RunEnd) -> ItemsEnd
    ensures { result ≡ end_in end }
{
    match end {
        RunEnd::Limit(which) => ItemsEnd::Limit(which),
        RunEnd::Finished => ItemsEnd::Finished,
        RunEnd::Cut => ItemsEnd::Finished,
    }
}

// Drops the calls that wait, where a cut of power on was made.
fn drop_after(queue: &mut Waiting, end: RunEnd)
    ensures calls { queue.new.calls ≡ left_after end queue.old.calls }
    ensures room { queue.old.room ≤ queue.new.room }
{
    if let RunEnd::Cut = end {
        queue.clear();
    }
}

// Turns the power on. The calls that wait are dropped where a cut is made.
fn turn_on(
    world: &mut QueueWorld,
    queue: &mut Waiting,
    armed: Option<CutPlan>,
    words: u32,
) -> ItemsEnd
    requires steady { power_in world.old ≢ Recovering }
    requires armed { IsCutPlan armed }
    requires words { words ≡ size_of world.old.numbers.ring }
    ensures { HasDone armed world.old queue.old Power result None world.new queue.new }
{
    let end = power(world, armed, words);
    drop_after(queue, end);
    end_of(end)
}

// Does what an item asks for. A cut is armed for the next run or power on.
fn do_item(
    world: &mut QueueWorld,
    queue: &mut Waiting,
    armed: &mut Option<CutPlan>,
    item: &QItem,
    words: u32,
) -> ItemsEnd
    requires steady { power_in world.old ≢ Recovering }
    requires workers { world.old.numbers.workers ≡ MAX_WORKERS }
    requires room { 0 < queue.old.room }
    requires armed { IsCutPlan armed.old }
    requires item { IsItem item.now × IsReadyFor world.old item.now }
    requires words { words ≡ size_of world.old.numbers.ring }
    ensures { HasDone armed.old world.old queue.old item.now result armed.new world.new queue.new }
{
    match item {
        QItem::Queue(w, call) => {
            queue.push(*w, *call);
            ItemsEnd::Finished
        }
        QItem::Arm(cut) => {
            *armed = Some(*cut);
            ItemsEnd::Finished
        }
        QItem::Run(plan) => {
            let end = run(world, queue, plan, *armed, words);
            *armed = None;
            end_of(end)
        }
        QItem::Power => {
            let end = turn_on(world, queue, *armed, words);
            *armed = None;
            end
        }
    }
}

/// Does what the items ask for, one after the other, over a queue in which nothing has happened, up to one that does not finish.
pub fn run_items(
    world: &mut QueueWorld,
    queue: &mut Waiting,
    items: &[QItem],
    words: u32,
) -> ItemsEnd
    requires powered { power_in world.old ≡ On }
    requires workers { world.old.numbers.workers ≡ MAX_WORKERS }
    requires room { length items.now ≤ queue.old.room }
    requires items { AreItems items.now }
    requires order { AreInOrder at_first items.now }
    requires words { words ≡ size_of world.old.numbers.ring }
    ensures { ItemsDone (point_of world.old queue.old) world.old items.now result world.new }
{
    let mut armed: Option<CutPlan> = None;
    for item in items {
        match do_item(world, queue, &mut armed, item, words) {
            ItemsEnd::Finished => {}
            ItemsEnd::Limit(which) => return ItemsEnd::Limit(which),
        }
    }
    ItemsEnd::Finished
}
