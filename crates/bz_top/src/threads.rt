//! Scripts that have a run on threads, by the handles of a runtime.
ghost use Rattle.std.specs.Prelude.{◌≡◌, ◌≢◌, ◌≤◌, ◌<◌, Bool, List, [], ◌∷◌, length, None};
ghost use Rattle.bz_judge.specs.Held.{IsImageOf};
ghost use Rattle.bz_layout.specs.declared.limits.TheConstants.{MIN_MARKS, MAX_MARKS, MAX_WORKERS};
ghost use Rattle.bz_mark.specs.declared.power.Power.TheVariants.{On, Recovering};
ghost use Rattle.bz_sched.specs.FromWorld.WorldView.{power_in};
ghost use Rattle.bz_sched.specs.Enough.{count_wanting, AreClosed, HasEnough, HasSupply, AreServed, AreSupplied};
ghost use Rattle.bz_sched.specs.Runs.{point_of, IsCutPlan};
ghost use Rattle.bz_sched.specs.Sums.{calls_in, sum_of, SufficesFor, HasStockFor, IsStockedAtFirst, Affords, WantsNothingIf};
ghost use Rattle.bz_script.specs.ItemLaws.{AreItems, IsJob};
ghost use Rattle.bz_script.specs.Order.{at_first, AreInOrder};
ghost use Rattle.bz_script.specs.Script.{job_of};
ghost use Rattle.bz_script.specs.declared.item.Item.{Item};
ghost use Rattle.bz_script.specs.declared.item.Item.TheVariants.{Run};
ghost use Rattle.bz_script.specs.declared.item.Plan.TheVariants.{Alone};
ghost use Rattle.bz_top.specs.Bases.{Base, IsBaseOf};
ghost use Rattle.bz_top.specs.Commands.{config_of};
ghost use Rattle.bz_top.specs.Endings.{items_from, IsMadeFor};
ghost use Rattle.bz_top.specs.Items.{ItemsRan, ItemsDone, IsReadyFor, HasDone, end_of_threads};
ghost use Rattle.bz_top.specs.Parts.{sunk, RanWorld, RanScript};
ghost use Rattle.bz_top.specs.declared.items.ItemsEnd.TheVariants.{Finished};

use crate::items::{ItemsEnd, drop_after, end_of, turn_on};
use crate::open::open_world;
use crate::program::{WorldEnd, config_for, hold_up, no_memory, print, print_limit};
use crate::turns::is_on_threads;
use bz_cli::CommandLine;
use bz_image::Image;
use bz_io::Sink;
use bz_oom::Memory;
use bz_sched::{CutPlan, Queue, World, power, run};
use bz_script::{Item, Plan, Script};
use bz_threads::{Gate, ThreadsEnd, run_threads};
use std::alloc::Global;
use std::sync::Wait;
use std::thread::Threads;

// How a run on threads ended.
fn threads_end(end: ThreadsEnd) -> ItemsEnd
    ensures { result ≡ end_of_threads end }
{
    match end {
        ThreadsEnd::Limit(which) => ItemsEnd::Limit(which),
        ThreadsEnd::Memory => ItemsEnd::Memory,
        ThreadsEnd::Finished => ItemsEnd::Finished,
    }
}

// Runs by a plan, with the cut that is armed, if one is.
fn run_plan<R: Threads + Wait + Sync, G: Gate + Sync>(
    rt: &R,
    alloc: Global,
    world: World,
    queue: &mut Queue,
    armed: Option<CutPlan>,
    plan: &Plan,
    gate: &G,
) -> (World, ItemsEnd)
    requires workers { world.config.workers ≡ MAX_WORKERS }
    requires armed { IsCutPlan armed }
    requires item { IsReadyFor armed world (Run plan.now) }
    ensures ends { HasDone armed world queue.old (Run plan.now) result.1 None result.0 queue.new }
    ensures enough { armed ≡ None → plan.now ≡ Alone → AreClosed world.log.past → HasEnough world queue.old.calls → (result.1 ≡ Finished) × AreServed world queue.old result.0 queue.new × (HasSupply world queue.old.calls → AreSupplied world queue.old result.0 queue.new) }
{
    if is_on_threads(plan) {
        let (world, end) = run_threads(rt, alloc, world, queue, gate);
        (world, threads_end(end))
    } else {
        let mut world = world;
        let end = run(&mut world, queue, plan, armed);
        (world, end_of(end))
    }
}

// Does what an item asks for. A cut is armed for the next run or power on.
fn do_item<R: Threads + Wait + Sync, G: Gate + Sync>(
    rt: &R,
    alloc: Global,
    world: World,
    queue: &mut Queue,
    armed: &mut Option<CutPlan>,
    item: &Item,
    gate: &G,
) -> (World, ItemsEnd)
    requires steady { power_in world ≢ Recovering }
    requires workers { world.config.workers ≡ MAX_WORKERS }
    requires room { 0 < queue.old.room }
    requires armed { IsCutPlan armed.old }
    requires item { IsReadyFor armed.old world item.now }
    ensures ends { HasDone armed.old world queue.old item.now result.1 armed.new result.0 queue.new }
    ensures enough { (supplied : Bool) (rest : List Item) → Affords supplied world queue.old.calls armed.old (item.now ∷ rest) → (result.1 ≡ Finished) × Affords supplied result.0 queue.new.calls armed.new rest }
{
    match item {
        Item::Queue(w, call) => {
            queue.push(*w, *call);
            (world, ItemsEnd::Finished)
        }
        Item::Arm { flush, seed } => {
            *armed = Some(CutPlan {
                flush: *flush,
                seed: *seed,
            });
            (world, ItemsEnd::Finished)
        }
        Item::Run(plan) => {
            let done = run_plan(rt, alloc, world, queue, *armed, plan, gate);
            *armed = None;
            done
        }
        Item::Power => {
            let mut world = world;
            let end = power(&mut world, *armed);
            *armed = None;
            drop_after(queue, end);
            (world, end_of(end))
        }
    }
}

// Does what the items ask for, one after the other, up to one that does not finish.
fn do_items<R: Threads + Wait + Sync, G: Gate + Sync>(
    rt: &R,
    alloc: Global,
    world: World,
    queue: &mut Queue,
    items: &[Item],
    gate: &G,
) -> (World, ItemsEnd)
    requires steady { power_in world ≢ Recovering }
    requires powered { power_in world ≡ On }
    requires workers { world.config.workers ≡ MAX_WORKERS }
    requires room { length items.now ≤ queue.old.room }
    requires items { AreItems items.now }
    requires order { AreInOrder at_first items.now }
    ensures ends { ItemsDone (point_of world queue.old) world items.now result.1 result.0 }
    ensures enough { (supplied : Bool) → Affords supplied world queue.old.calls None items.now → (result.1 ≡ Finished) × WantsNothingIf supplied result.0 }
{
    let mut world = world;
    let mut armed: Option<CutPlan> = None;
    for item in items {
        let (next, end) = do_item(rt, alloc, world, queue, &mut armed, item, gate);
        world = next;
        match end {
            ItemsEnd::Finished => {}
            ItemsEnd::Limit(which) => return (world, ItemsEnd::Limit(which)),
            ItemsEnd::Memory => return (world, ItemsEnd::Memory),
        }
    }
    (world, ItemsEnd::Finished)
}

// Does what the items ask for, one after the other, over a world in which nothing has happened, up to one that does not
// finish. Where the power is off it comes on before them.
fn run_items<R: Threads + Wait + Sync, G: Gate + Sync>(
    rt: &R,
    alloc: Global,
    world: World,
    queue: &mut Queue,
    items: &[Item],
    gate: &G,
) -> (World, ItemsEnd)
    requires first { world.at_start ≢ Recovering }
    requires new { world.log.past ≡ [] }
    requires workers { world.config.workers ≡ MAX_WORKERS }
    requires none_wait { queue.old.calls ≡ [] }
    requires room { queue.old.room ≡ length items.now }
    requires items { AreItems items.now }
    requires order { AreInOrder at_first items.now }
    ensures ends { ItemsRan world items.now result.1 result.0 }
    ensures enough { SufficesFor world.config world.log.limits (items_from world.at_start items.now) → (result.1 ≡ Finished) × (IsStockedAtFirst world → HasStockFor world.config world.log.start (sum_of calls_in (items_from world.at_start items.now)) → count_wanting result.0.log.past ≡ 0) }
{
    let mut world = world;
    match turn_on(&mut world) {
        ItemsEnd::Finished => do_items(rt, alloc, world, queue, items, gate),
        ItemsEnd::Limit(which) => (world, ItemsEnd::Limit(which)),
        ItemsEnd::Memory => unreachable!(),
    }
}

// Runs a script in a world that was opened for it.
fn run_world<R: Threads + Wait + Sync, K: Sink, G: Gate + Sync>(
    rt: &R,
    alloc: Global,
    line: CommandLine,
    script: &Script,
    world: World,
    mut queue: Queue,
    sink: &mut K,
    gate: &G,
) -> WorldEnd
    requires script { IsJob (job_of script.now) }
    requires first { world.at_start ≢ Recovering }
    requires new { world.log.past ≡ [] }
    requires workers { world.config.workers ≡ MAX_WORKERS }
    requires stocked { IsStockedAtFirst world }
    requires image { IsImageOf world.config world.log.start }
    requires none_wait { queue.calls ≡ [] }
    requires room { queue.room ≡ length (job_of script.now).items }
    ensures { (base : Base) → IsMadeFor line.marks base (job_of script.now) world → RanWorld line.command line.marks base (job_of script.now)
        (sunk (K.held sink.old) (K.held sink.new) (K.faults sink.old) (K.faults sink.new))
        result.status result.lab }
{
    let (world, end) = run_items(rt, alloc, world, &mut queue, script.items.items(), gate);
    world.journal();
    match end {
        ItemsEnd::Finished => print(alloc, line.command, world, sink),
        ItemsEnd::Limit(which) => print_limit(alloc, line.command, world, which, sink),
        ItemsEnd::Memory => hold_up(world, sink),
    }
}

/// Runs the script of a command over fresh memory or an image, with its limit on marks.
pub(crate) fn run_on_threads<R: Threads + Wait + Sync, K: Sink, G: Gate + Sync>(
    rt: &R,
    alloc: Global,
    line: CommandLine,
    base: Option<Image>,
    script: &Script,
    sink: &mut K,
    gate: &G,
) -> WorldEnd
    requires script { IsJob (job_of script.now) }
    requires marks { (MIN_MARKS ≤ line.marks) × (line.marks ≤ MAX_MARKS) }
    requires base { IsBaseOf (config_of line.marks script.now.nodes script.now.swaps) base }
    ensures { RanScript line.command line.marks base (job_of script.now)
        (sunk (K.held sink.old) (K.held sink.new) (K.faults sink.old) (K.faults sink.new))
        result.status result.lab }
{
    let config = config_for(line.marks, script.nodes, script.swaps);
    let queue = match Queue::open(alloc, script.items.items().len()) {
        Ok(queue) => queue,
        Err(Memory) => return no_memory(sink),
    };
    match open_world(alloc, &config, base) {
        Ok(world) => run_world(rt, alloc, line, script, world, queue, sink, gate),
        Err(Memory) => no_memory(sink),
    }
}
