//! A plain reader of journals: a map that each Effect changes, which explains each reply at the moment that its End names.

use super::bench::mark;
use super::map::{Map, Told, is_page, key_of, place_of, step, told_by};
use bz_call::{Call, Reply};
use bz_mark::Mark;
use bz_oom::Memory;
use bz_world::World;
use std::alloc::Global;

// An open call, how many marks stood before its Begin, and before its Effect.
#[derive(Clone, Copy)]
struct Open {
    call: Call,
    begun: u32,
    effect: Option<u32>,
}

/// What was read of a journal.
#[derive(Drop)]
pub(crate) struct Reader {
    // each map, and from how many marks on it is the map
    maps: Vec<(u32, Map)>,
    open: [Option<Open>; 65],
    read: u32,
}

impl Reader {
    /// Nothing was read yet.
    pub(crate) fn open(alloc: Global) -> Result<Reader, Memory> {
        Ok(Reader {
            maps: Vec::with_capacity(alloc, 64)?,
            open: [None; 65],
            read: 0,
        })
    }

    /// Nothing was read yet of a world that began with this map.
    pub(crate) fn over(alloc: Global, map: Map) -> Result<Reader, Memory> {
        let mut reader = Reader::open(alloc)?;
        reader.maps.push((0, map))?;
        Ok(reader)
    }

    // The map at a moment.
    fn map_at(&self, moment: u32) -> Map {
        let mut found = [0; 6];
        for (from, map) in &self.maps {
            if *from <= moment {
                found = *map;
            }
        }
        found
    }

    /// The map after what was read.
    pub(crate) fn map(&self) -> Map {
        self.map_at(u32::MAX)
    }

    fn open_call(&self, w: u8) -> Option<Open> {
        self.open.get(w as usize).copied().unwrap_or(None)
    }

    fn set_open(&mut self, w: u8, opened: Option<Open>) {
        if w < 65 {
            self.open[w as usize] = opened;
        }
    }

    // Whether a map explains a reply at the moment that its End names.
    fn is_right(&self, world: &World, opened: &Open, reply: &Reply, at: u32) -> bool {
        let Some(place) = place_of(&key_of(&opened.call)) else {
            return false;
        };
        if at <= opened.begun || at > self.read {
            return false;
        }
        let map = self.map_at(at);
        let (told, new) = step(&opened.call, map[place]);
        match (opened.effect, reply) {
            (Some(effect), _) => at == effect && told == told_by(reply),
            (None, Reply::Full(_)) => true,
            (None, Reply::Page { page, next }) => {
                told == Told::Other && next.is_none() && is_page(world, map, *page, place)
            }
            (None, _) => told == told_by(reply) && new == map[place],
        }
    }

    // Puts the call of an Effect into the map; false where it has its Effect already, or changes nothing.
    fn read_effect(&mut self, w: u8) -> Result<bool, Memory> {
        let Some(opened) = self.open_call(w) else {
            return Ok(false);
        };
        let Some(place) = place_of(&key_of(&opened.call)) else {
            return Ok(false);
        };
        let mut map = self.map();
        let (told, new) = step(&opened.call, map[place]);
        map[place] = new;
        self.maps.push((self.read.saturating_add(1), map))?;
        let once = opened.effect.is_none();
        let effect = Some(self.read);
        self.set_open(w, Some(Open { effect, ..opened }));
        Ok(once && matches!(told, Told::Inserted | Told::Updated(_) | Told::Deleted(_)))
    }

    // Reads a mark; false where it may not come.
    fn read_mark(&mut self, world: &World, mark: Mark) -> Result<bool, Memory> {
        match mark {
            Mark::Begin { w, call, .. } => {
                let free = self.open_call(w).is_none();
                let begun = self.read;
                let effect = None;
                self.set_open(
                    w,
                    Some(Open {
                        call,
                        begun,
                        effect,
                    }),
                );
                Ok(free)
            }
            Mark::Effect { w, .. } => self.read_effect(w),
            Mark::End { w, reply, at, .. } => {
                let Some(opened) = self.open_call(w) else {
                    return Ok(false);
                };
                let right = self.is_right(world, &opened, &reply, at);
                self.set_open(w, None);
                Ok(right)
            }
            Mark::Cut => {
                self.open.fill(None);
                Ok(true)
            }
            _ => Ok(true),
        }
    }

    /// Reads the marks that were not read yet; false where one of them may not come.
    pub(crate) fn read_on(&mut self, world: &World) -> Result<bool, Memory> {
        for i in self.read..world.journal().length() {
            let Some(mark) = mark(world, i) else {
                return Ok(false);
            };
            if !self.read_mark(world, mark)? {
                return Ok(false);
            }
            self.read = i.saturating_add(1);
        }
        Ok(true)
    }
}
