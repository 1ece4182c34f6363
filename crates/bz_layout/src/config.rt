ghost use Rattle.std.specs.Prelude.{◌≡◌, ◌<◌, ◌≤◌, ◌↔◌, IsTrue, IsOk, IfErr};
ghost use Rattle.bz_layout.specs.Config.{IsConfig, IsFirstOutOfRange};
ghost use Rattle.bz_layout.specs.Addresses.{words_of, swap_address, node_address};

use crate::error::ConfigError;
use crate::limits::{
    MAX_CALLS, MAX_MARKS, MAX_NODES, MAX_PAGES, MAX_SWAPS, MAX_WORKERS, MIN_CALLS, MIN_MARKS,
    MIN_NODES, MIN_PAGES, MIN_SWAPS, MIN_WORKERS,
};
use crate::sizes::{NODE_WORDS, SUPERBLOCK_WORDS, SWAP_WORDS};

/// The numbers that a memory and its world are made with.
#[derive(Clone, Copy, Debug, PartialEq, Eq, Hash)]
pub struct Config {
    /// Node slots, 1 to 16384.
    pub nodes: u32,
    /// Descriptors, 1 to 65536: as many swaps may begin between two power ons.
    pub swaps: u32,
    /// Workers, 1 to 64.
    pub workers: u32,
    /// The limit on marks of the journal, 1024 to 33554432.
    pub marks: u32,
    /// The limit on calls that begin, 1 to 65536.
    pub calls: u32,
    /// The limit on page calls that begin, 0 to 4096.
    pub pages: u32,
}

impl Config {
    /// Names the first number that is out of its range, in the order of the fields.
    pub fn check(&self) -> Result<(), ConfigError>
        ensures ok { IsOk result ↔ IsConfig self.now }
        ensures err { IfErr result (IsFirstOutOfRange self.now) }
    {
        if !is_between(self.nodes, MIN_NODES, MAX_NODES) {
            return Err(ConfigError::Nodes);
        }
        if !is_between(self.swaps, MIN_SWAPS, MAX_SWAPS) {
            return Err(ConfigError::Swaps);
        }
        if !is_between(self.workers, MIN_WORKERS, MAX_WORKERS) {
            return Err(ConfigError::Workers);
        }
        if !is_between(self.marks, MIN_MARKS, MAX_MARKS) {
            return Err(ConfigError::Marks);
        }
        if !is_between(self.calls, MIN_CALLS, MAX_CALLS) {
            return Err(ConfigError::Calls);
        }
        if !is_between(self.pages, MIN_PAGES, MAX_PAGES) {
            return Err(ConfigError::Pages);
        }
        Ok(())
    }

    /// The words of the memory.
    pub fn words(&self) -> u32
        requires { IsConfig self.now }
        ensures { result ≡ words_of self.now }
    {
        SUPERBLOCK_WORDS + SWAP_WORDS * self.swaps + NODE_WORDS * self.nodes
    }

    /// The address of the first word of a descriptor.
    pub fn swap_at(&self, number: u32) -> u32
        requires config { IsConfig self.now }
        requires in_range { number < self.now.swaps }
        ensures { result ≡ swap_address number }
    {
        SUPERBLOCK_WORDS + SWAP_WORDS * number
    }

    /// The address of the first word of a node slot.
    pub fn node_at(&self, slot: u32) -> u32
        requires config { IsConfig self.now }
        requires in_range { slot < self.now.nodes }
        ensures { result ≡ node_address self.now slot }
    {
        SUPERBLOCK_WORDS + SWAP_WORDS * self.swaps + NODE_WORDS * slot
    }
}

fn is_between(number: u32, low: u32, high: u32) -> bool
    ensures { IsTrue result ↔ ((low ≤ number) × (number ≤ high)) }
{
    low <= number && number <= high
}
