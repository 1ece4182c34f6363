//! The task that looks a key up in a leaf.

ghost use Rattle.std.specs.Prelude.{◌≡◌, ◌≢◌, ◌+◌, ◌-◌, ◌<◌, ◌≤◌, ◌^◌, Some, slice_get};
ghost use Rattle.bz_layout.specs.Config.{IsConfig};
ghost use Rattle.bz_layout.specs.declared.thresholds.TheConstants.{MAX_LEVELS};
ghost use Rattle.bz_leaf.specs.Facts.{IsLastLink};
ghost use Rattle.bz_task.specs.Contract.{IsBegun};
ghost use Rattle.bz_task.specs.Instant.{durable};
ghost use Rattle.bz_task.specs.Outcomes.{IsPath, IsKeyView};
ghost use Rattle.bz_task.specs.Requests.{Hears, IsKnown};
ghost use Rattle.bz_task.specs.Scene.{Scene, Waiting, IsScene};
ghost use Rattle.bz_task.specs.declared.path.Link.{Link as LastLink};
ghost use Rattle.bz_task.specs.declared.todo.Outcome.{Outcome as Ends};
ghost use Rattle.bz_find.specs.Duties.{key_of, path_of, asked_of, asked_by, asks_of, facts_of, find_view};
ghost use Rattle.bz_find.specs.Facts.{find_acts, find_change, find_reads, IsBounded, IsEndOfFind, StopsIn};
ghost use Rattle.bz_find.specs.Phases.{find_asks, gone_on, told, counted, view_of, IsPlain};

use crate::front::{count_of, is_frozen, sorted_of};
use crate::phase::FindPhase;
use crate::search::{Search, Step};
use bz_key::Key;
use bz_layout::{Config, HEADER_AT, STATUS_AT, Slots};
use bz_task::{KeyView, Link, Outcome, Path, Seen, Task, Todo};

/// A key looked up in the leaf of a path, validated: where the leaf is not frozen by a second look at its status, where it is by a
/// second look at the link to it and then at the link's guard. It ends with Key, or with Restart where a validating load found
/// another value.
#[derive(Drop)]
pub struct Find {
    config: Config,
    key: Key,
    // the way to the leaf, and its last link
    path: Path,
    link: Link,
    phase: FindPhase,
    // the leaf's status, once it was read
    status: u64,
    search: Search,
    // how many reads were asked for
    asked: u32,
}

impl Find {
    /// A look-up of a key in the last leaf of a path.
    pub fn new(config: &Config, path: Path, key: Key) -> Find
        requires some { 1 ≤ path.depth }
        requires few { path.depth ≤ MAX_LEVELS }
        ensures begun { IsBegun (⟦<Find as Task>⟧.view result) config.now find_acts 0 0 }
        ensures asked { asked_of result ≡ 0 }
        ensures key { key_of result ≡ key }
        ensures path { path_of result ≡ path }
        ensures change { (⟦<Find as Task>⟧.view result).change ≡ find_change key }
        ensures last { (link : LastLink) × IsLastLink path link }
        ensures facts { (s : Scene) → IsScene s → IsPath key path s.past → (⟦<Find as Task>⟧.view result).facts Waiting s }
        ensures view { (view : KeyView) (s : Scene) → (⟦<Find as Task>⟧.view result).means (Outcome.Key view) s → IsKeyView key view s.past }
        ensures leads { (view : KeyView) (s : Scene) → (⟦<Find as Task>⟧.view result).means (Outcome.Key view) s → IsPath key path s.past }
        ensures only { (outcome : Ends) (s : Scene) → (⟦<Find as Task>⟧.view result).means outcome s → IsEndOfFind outcome }
        ensures none { (path : Path) (s : Scene) → (⟦<Find as Task>⟧.view result).means (Outcome.Path path) s → ⊥ }
    {
        Find {
            config: *config,
            key,
            link: last_link(&path),
            path,
            phase: FindPhase::Fresh,
            status: 0,
            search: Search::new(key, 0, 0),
            asked: 0,
        }
    }

    /// How many times `next` has answered that it reads.
    pub fn asked(&self) -> u32
        ensures asked { result ≡ asked_of self.now }
        // where it has ended: with a view of the key, by the leaf as it was then; and without one, by what the leaf was at a moment
        ensures found { (view : KeyView) (s : Scene) → (⟦<Find as Task>⟧.view self.now).facts Waiting s → (⟦<Find as Task>⟧.view self.now).end ≡ Some (Outcome.Key view) → result ≤ find_reads (durable s.past.config (s.past.at view.at) view.slot) (key_of self.now) }
        ensures stopped { (s : Scene) (link : LastLink) → (⟦<Find as Task>⟧.view self.now).facts Waiting s → (⟦<Find as Task>⟧.view self.now).end ≡ Some Outcome.Restart → IsLastLink (path_of self.now) link → StopsIn link.slot result s.past }
    {
        self.asked
    }

    // What it may rely on when it is told an answer. Does nothing.
    fn heard(&self, seen: Seen, moment: u32)
        requires hears { Hears (asks_of self.now) seen }
        requires known { IsKnown self.now.config (facts_of self.now) (asks_of self.now) seen moment }
        ensures config { IsConfig self.now.config }
        ensures slot { self.now.link.slot < self.now.config.nodes }
        ensures bounded { IsBounded self.now }
        ensures plain { IsPlain seen }
    {}

    // Takes what came of the last act, and says the next one: each read is counted.
    fn answered(&mut self, seen: Seen, moment: u32) -> Todo
        requires hears { Hears (asks_of self.old) seen }
        requires config { IsConfig self.old.config }
        requires slot { self.old.link.slot < self.old.config.nodes }
        requires bounded { IsBounded self.old }
        requires plain { IsPlain seen }
        ensures new { self.new ≡ counted (told self.old self.old.phase seen moment) }
        ensures asked { asks_of self.new ≡ Some result }
        ensures counts { asked_of self.new ≡ asked_of self.old + asked_by result }
    {
        self.hear(seen, moment);
        self.count();
        self.todo()
    }

    // Takes what came of the last act.
    fn hear(&mut self, seen: Seen, moment: u32)
        requires bounded { IsBounded self.old }
        requires plain { IsPlain seen }
        ensures { self.new ≡ told self.old self.old.phase seen moment }
    {
        match (self.phase, seen) {
            (FindPhase::Status, Seen::Read(word)) => {
                self.status = word;
                self.phase = FindPhase::Header;
            }
            (FindPhase::Header, Seen::Read(word)) => {
                let count = count_of(self.status);
                self.search = Search::new(self.key, count, sorted_of(word, count));
                self.go_on();
            }
            (FindPhase::Searching, Seen::Read(word)) => {
                self.search.hear(word);
                self.go_on();
            }
            (FindPhase::Again, Seen::Read(word)) => {
                self.phase = if word == self.status {
                    FindPhase::Viewed(moment)
                } else {
                    FindPhase::Changed
                };
            }
            (FindPhase::Link, Seen::Read(word)) => {
                self.phase = if word == self.link.slot as u64 + 1 {
                    FindPhase::Guard(moment)
                } else {
                    FindPhase::Changed
                };
            }
            (FindPhase::Guard(at), Seen::Read(word)) => {
                self.phase = if is_frozen(word) {
                    FindPhase::Changed
                } else {
                    FindPhase::Viewed(at)
                };
            }
            _ => self.phase = FindPhase::Status,
        }
    }

    // The search goes on, or has ended, and what it found is to be validated.
    fn go_on(&mut self)
        requires { self.old.status < 2 ^ 61 }
        ensures { self.new ≡ gone_on self.old }
    {
        self.phase = match self.search.step {
            Step::Done => {
                if is_frozen(self.status) {
                    FindPhase::Link
                } else {
                    FindPhase::Again
                }
            }
            _ => FindPhase::Searching,
        };
    }

    // Counts the read that is asked for next.
    fn count(&mut self)
        requires { self.old.asked < find_acts }
        ensures { self.new ≡ counted self.old }
    {
        match self.phase {
            FindPhase::Viewed(_) | FindPhase::Changed => {}
            _ => self.asked += 1,
        }
    }

    // What a phase asks for.
    fn todo(&self) -> Todo
        requires config { IsConfig self.now.config }
        requires slot { self.now.link.slot < self.now.config.nodes }
        requires bounded { IsBounded self.now }
        requires begun { self.now.phase ≢ FindPhase.Fresh }
        ensures { find_asks self.now self.now.phase ≡ Some result }
    {
        match self.phase {
            FindPhase::Fresh | FindPhase::Status | FindPhase::Again => Todo::Read(
                self.config.node_at(self.link.slot as u32) + STATUS_AT,
            ),
            FindPhase::Header => Todo::Read(self.config.node_at(self.link.slot as u32) + HEADER_AT),
            FindPhase::Searching => Todo::Read(
                self.config.node_at(self.link.slot as u32) + self.search.place(),
            ),
            FindPhase::Link => Todo::Read(self.link.link),
            FindPhase::Guard(_) => Todo::Read(self.link.guard),
            FindPhase::Viewed(_) | FindPhase::Changed => Todo::Finish,
        }
    }

    // What was found, at this moment.
    fn view(&self, at: u32) -> KeyView
        ensures { result ≡ view_of self.now at }
    {
        KeyView {
            slot: self.link.slot,
            status: self.status,
            found: self.search.found,
            at,
        }
    }
}

// The last link of a path.
fn last_link(path: &Path) -> Link
    requires some { 1 ≤ path.now.depth }
    requires few { path.now.depth ≤ MAX_LEVELS }
    ensures { slice_get path.now.links (path.now.depth - 1) ≡ Some result }
{
    path.links[path.depth as usize - 1]
}

impl Task for Find {
    ghost view = { find_view };

    fn publishes(&self) -> bool {
        false
    }

    fn ended(&self) -> Option<Outcome> {
        match self.phase {
            FindPhase::Viewed(at) => Some(Outcome::Key(self.view(at))),
            FindPhase::Changed => Some(Outcome::Restart),
            _ => None,
        }
    }

    fn next(&mut self, seen: Seen, slots: &mut Slots, moment: u32) -> Todo {
        let _slots = slots;
        self.heard(seen, moment);
        self.answered(seen, moment)
    }

    fn learnt(&self) {
        bz_layout::addresses_fit();
        bz_layout::descriptors_stand_apart();
    }

    fn acted(&self) {}
}
