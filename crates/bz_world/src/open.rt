//! Openings: a world over fresh memory.
ghost use Rattle.std.specs.Prelude.{◌≡◌, ◌<◌, ◌^◌, IfOk, IfErr, replicate, None, length};
ghost use Rattle.std.specs.FinMap.{len};
ghost use Rattle.bz_layout.specs.Config.{IsConfig};
ghost use Rattle.bz_layout.specs.Addresses.{words_of};
ghost use Rattle.bz_sound.specs.Memory.Moments.{map_at_start};
ghost use Rattle.bz_world.specs.Inside.Beginning.{world_view};
ghost use Rattle.bz_world.specs.Inside.Kept.{IsKept};
ghost use Rattle.bz_world.specs.WorldView.{IsOpenFault, new_view};
ghost use Rattle.bz_world.specs.Inside.Opening.{fresh_slots, IsMadeOver};

use crate::answers::OpenError;
use crate::laws::begun_laws;
use crate::parts::Parts;
use crate::serving::OpenCall;
use arrayvec::ArrayVec;
use bz_key::PageBuf;
use bz_layout::{Config, Slots};
use bz_mark::{Journal, Power};
use bz_oom::Memory;
use bz_recover::Recover;
use bz_swap::Access;
use std::alloc::Global;

// A place for each worker, from worker 0 on, of which there are at most 64 beside it.
const PLACES: usize = 65;

// The slot of fresh memory's root.
const ROOT_SLOT: u16 = 0;

// A table with nothing in its places.
fn none_table<T: Drop>(alloc: Global, places: usize) -> Result<Vec<Option<T>>, Memory>
    ensures { IfOk result (λ table. table.items ≡ replicate places None) }
{
    let mut table: Vec<Option<T>> = Vec::with_capacity(alloc, places)?;
    for _ in 0..places {
        table.push(None)?;
    }
    Ok(table)
}

// The tables of a world in which nothing has happened.
#[derive(Drop)]
struct Tables {
    workers: Vec<Option<OpenCall>>,
    owners: Vec<u8>,
    numbers: Vec<u32>,
    page: PageBuf,
}

// Those of a world with so many descriptors.
fn open_tables(alloc: Global, swaps: u32) -> Result<Tables, Memory>
    ensures workers { IfOk result (λ tables. tables.workers.items ≡ replicate 65 None) }
    ensures owners { IfOk result (λ tables. tables.owners.items ≡ replicate swaps 0) }
    ensures numbers { IfOk result (λ tables. tables.numbers.items ≡ replicate 65 0) }
{
    let page = PageBuf::open(alloc)?;
    let numbers = vec![in alloc; 0u32; PLACES]?;
    let owners = vec![in alloc; 0u8; swaps as usize]?;
    let workers = none_table(alloc, PLACES)?;
    Ok(Tables {
        workers,
        owners,
        numbers,
        page,
    })
}

/// The parts of a world over these words, in which nothing has happened.
pub(crate) fn parts_over(
    alloc: Global,
    config: &Config,
    start: &[u64],
    at_start: Power,
    slots: Slots,
    pairs: u64,
) -> Result<Parts, Memory>
    requires config { IsConfig config.now }
    requires whole { length start.now ≡ words_of config.now }
    requires counted { pairs ≡ len (map_at_start config.now start.now) }
    requires few { pairs < 2 ^ 63 }
    ensures config { IfOk result (λ parts. parts.config ≡ config.now) }
    ensures slots { IfOk result (λ parts. parts.slots ≡ slots) }
    ensures made { IfOk result (IsMadeOver start.now at_start) }
{
    bz_layout::addresses_fit();
    let access = Access::open(alloc, start, config.swaps, config.workers)?;
    let journal = Journal::open(alloc, start, config.marks, config.calls, config.pages)?;
    let Tables {
        workers,
        owners,
        numbers,
        page,
    } = open_tables(alloc, config.swaps)?;
    Ok(Parts {
        config: *config,
        access,
        slots,
        journal,
        at_start,
        power: at_start,
        recovery: Recover::new(config),
        workers,
        owners,
        numbers,
        page,
        left_out: ArrayVec::new(),
        pairs,
        taken_then: 0,
        left_then: 0,
        begun: 0,
        pages_begun: 0,
    })
}

// The parts of a world over fresh memory.
fn fresh_parts(alloc: Global, config: &Config) -> Result<Parts, Memory>
    requires { IsConfig config.now }
    ensures kept { IfOk result IsKept }
    ensures slots { IfOk result (λ parts. parts.slots ≡ fresh_slots config.now) }
    ensures lab { IfOk result (λ parts. world_view parts ≡ new_view config.now) }
{
    begun_laws();
    let start = bz_layout::fresh(alloc, config)?;
    let mut slots = Slots::open(alloc, config.nodes)?;
    slots.hold(ROOT_SLOT);
    let parts = parts_over(alloc, config, &start, Power::On, slots, 0)?;
    Ok(parts)
}

/// A world over fresh memory, in which nothing has happened.
pub(crate) fn open_parts(alloc: Global, config: &Config) -> Result<Parts, OpenError>
    ensures ok { IfOk result (λ parts. world_view parts ≡ new_view config.now) }
    ensures slots { IfOk result (λ parts. parts.slots ≡ fresh_slots config.now) }
    ensures kept { IfOk result IsKept }
    ensures err { IfErr result (IsOpenFault config.now) }
{
    match config.check() {
        Ok(()) => {}
        Err(error) => return Err(OpenError::Config(error)),
    }
    match fresh_parts(alloc, config) {
        Ok(parts) => Ok(parts),
        Err(Memory) => Err(OpenError::Memory),
    }
}
