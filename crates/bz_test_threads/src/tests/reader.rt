//! A plain reader of journals: a list of the pairs that Effects put, which explains each reply at the moment that its End
//! names; and whether each thread was told what the journal says.

use super::bench::{Said, holds, said_by};
use super::threads::{Asked, Told};
use bz_call::{Call, Reply};
use bz_key::{Key, Payload};
use bz_mark::{Journal, Mark};
use bz_oom::Memory;
use bz_world::World;
use std::alloc::Global;
use std::process::Abort;

// A pair that an Effect put, and how many marks stood before it. No pair is taken out.
#[derive(Clone, Copy)]
struct Put {
    key: Key,
    payload: Payload,
    moment: u32,
}

// A call, how many marks stood before its Begin and before its Effect, and what it was replied.
#[derive(Clone, Copy)]
struct Line {
    worker: u8,
    call: Call,
    begun: u32,
    effect: Option<u32>,
    said: Option<Said>,
}

/// What was read of a journal.
#[derive(Drop)]
pub(crate) struct Reader {
    puts: Vec<Put, Global>,
    lines: Vec<Line, Global>,
    // for each worker the place of its open call
    open: [Option<usize>; 65],
}

fn key_of(call: &Call) -> Key {
    match call {
        Call::Insert(key, _) | Call::Update(key, _) | Call::Upsert(key, _) => *key,
        Call::Delete(key) | Call::Get(key) | Call::Page(key) => *key,
    }
}

// The pair that a call puts.
fn pair_of(call: &Call) -> Option<(Key, Payload)> {
    match call {
        Call::Insert(key, payload) => Some((*key, *payload)),
        _ => None,
    }
}

// Whether a key lies below another, if there is one.
fn is_below(key: &Key, end: &Option<Key>) -> bool {
    match end {
        Some(end) => key < end,
        None => true,
    }
}

// What a map with this at the call's key says to it, and whether it changes.
fn step(call: &Call, had: Option<Payload>) -> (Said, bool) {
    match (call, had) {
        (Call::Insert(..), None) => (Said::Inserted, true),
        (Call::Insert(..), Some(_)) => (Said::Exists, false),
        (Call::Get(_), None) => (Said::Missing, false),
        (Call::Get(_), Some(value)) => (Said::Value(value), false),
        _ => (Said::Other, false),
    }
}

fn is_same(one: &Call, other: &Call) -> bool {
    match (one, other) {
        (Call::Insert(a, x), Call::Insert(b, y)) => a == b && x == y,
        (Call::Get(a), Call::Get(b)) | (Call::Page(a), Call::Page(b)) => a == b,
        _ => false,
    }
}

impl Reader {
    fn open(alloc: Global) -> Result<Reader, Memory> {
        Ok(Reader {
            puts: Vec::with_capacity(alloc, 64)?,
            lines: Vec::with_capacity(alloc, 64)?,
            open: [None; 65],
        })
    }

    // The payload of a key at a moment.
    fn payload_at(&self, key: &Key, moment: u32) -> Option<Payload> {
        let mut found = None;
        for put in &self.puts {
            if put.moment < moment && put.key == *key {
                found = Some(put.payload);
            }
        }
        found
    }

    // How many keys of the map at a moment lie from one key on, and below another if there is one.
    fn count(&self, from: &Key, next: &Option<Key>, moment: u32) -> usize {
        let mut many = 0usize;
        for put in &self.puts {
            let within = *from <= put.key && is_below(&put.key, next);
            if within && put.moment < moment {
                many = many.saturating_add(1);
            }
        }
        many
    }

    // Whether these are the pairs of the map at a moment from one key on, and below another if there is one.
    fn is_page(
        &self,
        pairs: &[(Key, Payload)],
        from: &Key,
        next: &Option<Key>,
        moment: u32,
    ) -> bool {
        let mut last = *from;
        let mut first = true;
        for (key, payload) in pairs {
            let rises = first || last < *key;
            let within = *from <= *key && is_below(key, next);
            if !rises || !within || self.payload_at(key, moment) != Some(*payload) {
                return false;
            }
            last = *key;
            first = false;
        }
        pairs.len() == self.count(from, next, moment)
    }

    // Whether the map explains the reply of an End before which `read` marks stand, at the moment that it names.
    fn is_right(&self, journal: &Journal, line: &Line, reply: &Reply, at: u32, read: u32) -> bool {
        if at <= line.begun || at > read {
            return false;
        }
        let key = key_of(&line.call);
        if let Reply::Page { page, next } = reply {
            return line.effect.is_none()
                && matches!(line.call, Call::Page(_))
                && *page < journal.page_count()
                && self.is_page(journal.page(*page), &key, next, at);
        }
        let (said, changes) = step(&line.call, self.payload_at(&key, at));
        said == said_by(reply)
            && changes == line.effect.is_some()
            && line.effect.is_none_or(|effect| effect == at)
    }

    // The place of the worker's open call.
    fn place(&self, worker: u8) -> Option<usize> {
        self.open.get(worker as usize).copied().unwrap_or(None)
    }

    fn set_place(&mut self, worker: u8, place: Option<usize>) {
        if worker < 65 {
            self.open[worker as usize] = place;
        }
    }

    // Each reads a mark before which `read` marks stand; false where it may not come.
    fn read_begin(&mut self, worker: u8, call: Call, read: u32) -> Result<bool, Memory> {
        let free = self.place(worker).is_none();
        let place = self.lines.len();
        self.lines.push(Line {
            worker,
            call,
            begun: read,
            effect: None,
            said: None,
        })?;
        self.set_place(worker, Some(place));
        Ok(free)
    }

    fn read_effect(&mut self, worker: u8, read: u32) -> Result<bool, Memory> {
        let place = self.place(worker).unwrap_or(usize::MAX);
        let Some(line) = self.lines.get(place).copied() else {
            return Ok(false);
        };
        let Some((key, payload)) = pair_of(&line.call) else {
            return Ok(false);
        };
        let absent = self.payload_at(&key, read).is_none();
        if let Some(line) = self.lines.get_mut(place) {
            line.effect = Some(read);
        }
        self.puts.push(Put {
            key,
            payload,
            moment: read,
        })?;
        Ok(absent && line.effect.is_none())
    }

    fn read_end(
        &mut self,
        journal: &Journal,
        worker: u8,
        reply: &Reply,
        at: u32,
        read: u32,
    ) -> bool {
        let place = self.place(worker).unwrap_or(usize::MAX);
        let Some(line) = self.lines.get(place).copied() else {
            return false;
        };
        let right = self.is_right(journal, &line, reply, at, read);
        if let Some(line) = self.lines.get_mut(place) {
            line.said = Some(said_by(reply));
        }
        self.set_place(worker, None);
        right
    }

    fn read_mark(&mut self, journal: &Journal, mark: Mark, read: u32) -> Result<bool, Memory> {
        match mark {
            Mark::Begin { w, call, .. } => self.read_begin(w, call, read),
            Mark::Effect { w, .. } => self.read_effect(w, read),
            Mark::End { w, reply, at, .. } => Ok(self.read_end(journal, w, &reply, at, read)),
            Mark::Cut => {
                self.open.fill(None);
                Ok(true)
            }
            _ => Ok(true),
        }
    }

    fn read_all(&mut self, rt: &impl Abort, journal: &Journal) {
        for read in 0..journal.length() {
            let may_come = self.read_mark(journal, journal.mark(read), read);
            holds(rt, may_come.expect(rt, "room for a mark"));
        }
    }
}

/// How many calls were answered in each way.
#[derive(Clone, Copy, Debug, PartialEq, Eq)]
pub(crate) struct Tally {
    pub(crate) inserted: u32,
    pub(crate) exists: u32,
    pub(crate) missing: u32,
    pub(crate) values: u32,
    pub(crate) pages: u32,
    pub(crate) off: u32,
    pub(crate) recovering: u32,
    pub(crate) no_marks: u32,
    pub(crate) no_calls: u32,
    pub(crate) no_pages: u32,
    pub(crate) other: u32,
}

/// None.
pub(crate) const NONE: Tally = Tally {
    inserted: 0,
    exists: 0,
    missing: 0,
    values: 0,
    pages: 0,
    off: 0,
    recovering: 0,
    no_marks: 0,
    no_calls: 0,
    no_pages: 0,
    other: 0,
};

impl Tally {
    fn count(&mut self, said: Said) {
        let kind = match said {
            Said::Inserted => &mut self.inserted,
            Said::Exists => &mut self.exists,
            Said::Missing => &mut self.missing,
            Said::Value(_) => &mut self.values,
            Said::Page(_) => &mut self.pages,
            Said::Off => &mut self.off,
            Said::Recovering => &mut self.recovering,
            Said::Marks => &mut self.no_marks,
            Said::Calls => &mut self.no_calls,
            Said::Pages => &mut self.no_pages,
            Said::Nothing | Said::Other => &mut self.other,
        };
        *kind = kind.saturating_add(1);
    }
}

// Whether a thread was told what the journal says of its call: a reply with its page, or else no End.
fn is_told(journal: &Journal, asked: &Asked, line: &Line) -> bool {
    let page = match asked.said {
        Said::Page(page) => {
            page < journal.page_count() && asked.page.pairs() == journal.page(page)
        }
        Said::Off | Said::Marks => return is_same(&asked.call, &line.call) && line.said.is_none(),
        _ => true,
    };
    page && is_same(&asked.call, &line.call) && line.said == Some(asked.said)
}

// Whether an answer tells that the call has begun: None where it may or may not have.
fn has_begun(said: Said) -> Option<bool> {
    match said {
        Said::Off | Said::Marks => None,
        Said::Nothing | Said::Recovering | Said::Calls | Said::Pages => Some(false),
        _ => Some(true),
    }
}

impl Reader {
    // The first call of a worker from a place on.
    fn next_line(&self, worker: u8, from: usize) -> Option<(usize, Line)> {
        let mut place = 0usize;
        for line in &self.lines {
            if place >= from && line.worker == worker {
                return Some((place, *line));
            }
            place = place.saturating_add(1);
        }
        None
    }

    // Whether a worker was told what the journal says, from a place on; answers the place behind the call.
    fn place_behind(
        &self,
        journal: &Journal,
        worker: u8,
        asked: &Asked,
        from: usize,
    ) -> Option<usize> {
        let begun = has_begun(asked.said);
        if begun == Some(false) {
            return Some(from);
        }
        match self.next_line(worker, from) {
            Some((place, line)) if is_told(journal, asked, &line) => place.checked_add(1),
            _ if begun.is_none() => Some(from),
            _ => None,
        }
    }

    fn expect_told(&self, rt: &impl Abort, journal: &Journal, told: &Told, tally: &mut Tally) {
        let worker = told.worker;
        let mut from = 0;
        for asked in &told.asked {
            let behind = self.place_behind(journal, worker, asked, from);
            holds(rt, behind.is_some());
            from = behind.unwrap_or(0);
            tally.count(asked.said);
        }
        holds(rt, self.next_line(worker, from).is_none());
    }
}

/// Reads the journal of a world and what its threads were told, which must fit; answers how the calls were answered.
pub(crate) fn read(rt: &impl Abort, alloc: Global, world: &World, told: &[Told]) -> Tally {
    let journal = world.journal();
    let mut reader = Reader::open(alloc).expect(rt, "a reader");
    reader.read_all(rt, journal);
    let mut tally = NONE;
    for one in told {
        reader.expect_told(rt, journal, one, &mut tally);
    }
    tally
}
