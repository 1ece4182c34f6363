//! What marks saw of the map.
ghost use Rattle.std.specs.Prelude.{◌≡◌, ◌++◌, ◌∷◌, [], length, OnOk};
ghost use Rattle.bz_check.specs.Sights.{sight_in_by, sight_in, shown_at};

use crate::pairs::found_at;
use crate::table::{OpenCall, Table};
use bz_key::{Key, Payload};
use bz_mark::Mark;
use bz_oom::Memory;
use std::alloc::Global;
use std::collections::BTreeMap;
use std::marker::Model;

/// What a load or an Effect saw: its worker, whether it is a load, and the payload at the key of the worker's open call.
#[derive(Clone, Copy)]
pub(crate) struct Sight {
    pub(crate) w: u8,
    pub(crate) load: bool,
    pub(crate) found: Option<Payload>,
}

/// What each mark saw, the oldest first.
#[derive(Drop)]
pub(crate) struct Sights {
    seen: Vec<Option<Sight>>,
}

impl Model for Sights {
    ghost use Rattle.std.specs.Prelude.{List, Option};
    ghost use Rattle.bz_check.specs.declared.sights.Sight.{Sight};

    ghost Value = { List (Option Sight) };

    ghost view = { λ s. s.seen.items };
}

/// What a mark of this worker sees, by its open call.
fn sight_by(
    load: bool,
    w: u8,
    map: &BTreeMap<Key, Payload>,
    last: Option<OpenCall>,
) -> Option<Sight>
    ensures { result ≡ sight_in_by load w map.now.entries last }
{
    let Some(call) = last else {
        return None;
    };
    let found = found_at(map, call.call);
    Some(Sight { w, load, found })
}

/// What a mark sees.
fn sight_of(table: &Table, map: &BTreeMap<Key, Payload>, mark: &Mark) -> Option<Sight>
    requires { length table.now.callers ≡ 256 }
    ensures { result ≡ sight_in table.now map.now.entries mark.now }
{
    match *mark {
        Mark::Load { w, a: _, v: _ } => sight_by(true, w, map, table.open_call(w)),
        Mark::Effect { w, n: _ } => sight_by(false, w, map, table.open_call(w)),
        _ => None,
    }
}

impl Sights {
    /// No mark yet.
    pub(crate) fn none(alloc: Global) -> Sights
        ensures { result ≡ [] }
    {
        Sights {
            seen: Vec::new(alloc),
        }
    }

    /// What the mark at a moment saw.
    pub(crate) fn at(&self, moment: u32) -> Option<Sight>
        ensures { result ≡ shown_at self.now moment }
    {
        let Some(sight) = self.seen.get(moment as usize).copied() else {
            return None;
        };
        sight
    }

    /// Adds what a mark sees.
    pub(crate) fn see(
        &mut self,
        table: &Table,
        map: &BTreeMap<Key, Payload>,
        mark: &Mark,
    ) -> Result<(), Memory>
        requires { length table.now.callers ≡ 256 }
        ensures { OnOk result (self.new ≡ self.old ++ sight_in table.now map.now.entries mark.now ∷ []) }
    {
        let sight = sight_of(table, map, mark);
        self.seen.push(sight)?;
        Ok(())
    }
}
