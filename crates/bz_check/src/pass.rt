//! One pass over the marks of a journal: what is known after those so far.
ghost use Rattle.std.specs.Prelude.{◌≡◌, ◌<◌, ◌+◌, ◌^◌, ℕ, List, [], ◌∷◌, length, IfOk, OnOk};
ghost use Rattle.bz_call.specs.Map.{Map};
ghost use Rattle.bz_layout.specs.Config.{IsConfig};
ghost use Rattle.bz_layout.specs.declared.config.Config.{Config as Numbers};
ghost use Rattle.bz_mark.specs.Laws.{IsImage, IsOfMemory, AreOfMemory};
ghost use Rattle.bz_mark.specs.declared.marks.Mark.{Mark as MarkWord};
ghost use Rattle.bz_mark.specs.declared.power.Power.{Power as PowerWord};
ghost use Rattle.bz_check.specs.Pairs.{Holds};
ghost use Rattle.bz_check.specs.Passes.{IsPass, Passes};
ghost use Rattle.bz_check.specs.Rules.{FollowsJudged};
ghost use Rattle.bz_check.specs.Tables.{open_in, call_in};
ghost use Rattle.bz_check.specs.Verdicts.{TellsFirst};

use crate::counter::Counter;
use crate::judge::judge_mark;
use crate::replay::Replay;
use crate::sights::Sights;
use crate::table::Table;
use crate::verdict::JudgeRule;
use bz_call::Call;
use bz_key::{Key, Payload};
use bz_layout::Config;
use bz_mark::{Mark, Power};
use bz_oom::Memory;
use std::alloc::Global;
use std::collections::BTreeMap;
use std::marker::Model;

/// What is known after marks: the words, the calls, the map, what loads and Effects saw, and what is counted.
#[derive(Drop)]
pub struct Pass {
    replay: Replay,
    table: Table,
    map: BTreeMap<Key, Payload>,
    sights: Sights,
    counter: Counter,
}

impl Model for Pass {
    ghost use Rattle.bz_check.specs.Passes.{Passed};

    ghost Value = { Passed };

    ghost view = { λ p. record { words = p.replay; table = p.table; pairs = p.map.entries; seen = p.sights; counts = p.counter } };
}

impl Pass {
    /// Before any mark: the words of a start image, the power at the start, and the map there.
    pub fn open(
        alloc: Global,
        config: &Config,
        power: Power,
        map: BTreeMap<Key, Payload>,
        start: &[u64],
    ) -> Result<Pass, Memory>
        requires { IsConfig config.now }
        ensures { (at : Map) → Holds at map.entries → IfOk result (λ p. Passes config.now power start.now at [] p) }
    {
        let replay = Replay::open(alloc, start)?;
        let table = Table::open(alloc, power)?;
        let sights = Sights::none(alloc);
        let counter = Counter::open(alloc, config)?;
        Ok(Pass {
            replay,
            table,
            map,
            sights,
            counter,
        })
    }

    /// Takes a mark, with so many marks before it, and answers the first rule that it breaks, if it breaks one.
    pub fn take(&mut self, now: u32, mark: &Mark) -> Result<Option<JudgeRule>, Memory>
        requires pass { IsPass now self.old }
        requires named { IsOfMemory (length self.old.words.cached) mark.now }
        requires few { now + 1 < 2 ^ 32 }
        ensures passes { (c : Numbers) (at_start : PowerWord) (start : List ℕ) (at : Map) (past : List MarkWord) → now ≡ length past → IsImage start → IsOfMemory (length start) mark.now → Passes c at_start start at past self.old →
            OnOk result (Passes c at_start start at (mark.now ∷ past) self.new) }
        ensures fault { (c : Numbers) (at_start : PowerWord) (start : List ℕ) (at : Map) (past : List MarkWord) → IsConfig c → now ≡ length past → IsImage start → AreOfMemory (length start) past → Passes c at_start start at past self.old →
            IfOk result (λ fault. TellsFirst (FollowsJudged c at_start start at past mark.now) fault) }
    {
        judge_mark(
            &mut self.replay,
            &mut self.table,
            &mut self.map,
            &mut self.sights,
            &mut self.counter,
            now,
            mark,
        )
    }

    /// The durable words.
    pub fn durable(&self) -> &[u64]
        ensures { result.now ≡ self.now.words.durable }
    {
        self.replay.durable()
    }

    /// A worker's open call.
    pub fn open_call(&self, w: u8) -> Option<Call>
        requires { length self.now.table.callers ≡ 256 }
        ensures { result ≡ call_in (open_in self.now.table w) }
    {
        let Some(call) = self.table.open_call(w) else {
            return None;
        };
        Some(call.call)
    }

    /// The map.
    pub fn map(&self) -> &BTreeMap<Key, Payload>
        ensures { result.now.entries ≡ self.now.pairs }
    {
        &self.map
    }
}
