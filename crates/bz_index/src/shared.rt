// The world under the bus.
ghost use Rattle.bz_index.specs.Entries.{entries_in, origin_of};
ghost use Rattle.bz_index.specs.Worlds.{IsWorldOf};

use bz_bus::Chronicle;
use bz_key::PageBuf;
use bz_layout::Config;
use bz_mark::Mark;
use bz_world::{Power, World};
use std::collections::LinkedList;

/// A mark, and the pairs of the page that an End names; any other mark comes without pairs. No value of it is made.
pub struct IndexEntry {
    pub mark: Mark,
    pub page: PageBuf,
}

/// What stays of a world: its numbers, the image that its journal goes on from, what the power was there, and how many
/// marks, calls and pages the journal may have. No value of it is made.
pub struct Origin {
    pub config: Config,
    pub start: LinkedList<u64>,
    pub at_start: Power,
    pub marks: u32,
    pub calls: u32,
    pub pages: u32,
}

/// The value on the bus.
#[derive(Drop)]
pub struct Shared {
    pub world: World,
}

impl Shared {
    // Its journal is sound.
    pub(crate) fn shows_sound(&self)
        ensures { IsWorldOf (origin_of self.now.world) (entries_in self.now.world.log) self.now.world }
    {
        self.world.journal();
    }
}

impl Chronicle for Shared {
    type Entry = IndexEntry;

    type Fixed = Origin;

    ghost use Rattle.bz_index.specs.Entries.{entries_in, origin_of, owner_of};

    ghost fixed = { λ shared. origin_of shared.world };

    ghost entries = { λ shared. entries_in shared.world.log };

    ghost owner = { owner_of };

    fn length(&self) -> u32 {
        self.world.journal().length()
    }
}
