//! The walk over the tree, when all words are plain: it holds the slots that are reached, and leaves the others free.

ghost use Rattle.std.specs.Prelude.{◌≡◌, ◌≢◌, ◌↔◌, ◌+◌, ◌-◌, ◌*◌, ◌<◌, ◌≤◌, ◌^◌, ℕ, List, length, Some, None, IsSome, IfSome, true};
ghost use Rattle.std.specs.Bool.{OnTrue, OnFalse};
ghost use Rattle.bz_content.specs.Content.{view_in};
ghost use Rattle.bz_layout.specs.Config.{IsConfig};
ghost use Rattle.bz_layout.specs.Slots.{FreeSlots, without};
ghost use Rattle.bz_layout.specs.declared.config.Config.{Config};
ghost use Rattle.bz_layout.specs.declared.sizes.TheConstants.{NODE_WORDS as WORDS, SHARED_WORDS as SHARED};
ghost use Rattle.bz_layout.specs.declared.thresholds.TheConstants.{MAX_LEVELS};
ghost use Rattle.bz_key.specs.Packing.{packed_len};
ghost use Rattle.bz_slotted.specs.Page.{visible, extent_of, meta_of};
ghost use Rattle.bz_word.specs.Metas.{IsMeta};
ghost use Rattle.bz_task.specs.declared.todo.Outcome.TheVariants.{Recovered};
ghost use Rattle.bz_task.specs.declared.todo.Todo.{Todo};
ghost use Rattle.bz_recover.specs.declared.walk.Walk.{Walk as Walker};
ghost use Rattle.bz_recover.specs.Duties.{hears_in};
ghost use Rattle.bz_recover.specs.Walking.{IsTreeOf, IsLoadOrEnd, AreReached, GoesOn, Walks, IsWithin, IsLevel, IsStep, IsWalk, IsWalking, Leads, SLOT_ACTS, goes_in, loads_in, asks_of_walk, answers_in, end_in_walk, walk_left};

use bz_layout::{
    BYTES_IN_WORD, Config, HEADER_AT, MAX_LEVELS, META_AT, NODE_WORDS, ROOT_AT, SHARED_WORDS,
    STATUS_AT, Slots,
};
use bz_task::{Outcome, Seen, Todo};
use bz_word::{Extent, Meta, Status};

/// The field of the level in a header has 8 bits.
const LEVELS: u64 = 256;

/// An inner node that the walk has come to: how many children it has, and the first one that is still to come.
#[derive(Clone, Copy, Drop)]
pub(crate) struct Way {
    pub(crate) slot: u16,
    pub(crate) next: u32,
    pub(crate) count: u32,
}

/// What is asked for next.
#[derive(Clone, Copy, Drop)]
pub(crate) enum Step {
    /// Nothing was asked for yet.
    Fresh,
    /// The root pointer.
    Root,
    /// The header of the root.
    Header(u16),
    /// The status of an inner node of this level.
    Status(u32, u16),
    /// The metadata word of the child that is to come.
    Meta(u32, Way),
    /// The pointer to that child, by its place in the node.
    Pointer(u32, Way, u32),
    /// Nothing more.
    Done,
}

/// The walk from the root over all inner nodes, by worker 0 alone. It only loads, and takes no memory: the inner nodes
/// between the root and the one that it reads are one on each level. Leaves are held, and not read.
#[derive(Drop)]
pub struct Walk {
    config: Config,
    // how many slots were not reached yet
    left: u32,
    // the root's level
    top: u32,
    // the inner nodes above the one that is read, by level: MAX_LEVELS of them
    ways: [Way; MAX_LEVELS as usize],
    step: Step,
}

impl Walk {
    /// A walk over a memory of these sizes, before its first act.
    pub fn new(config: &Config) -> Walk
        requires { IsConfig config.now }
        ensures ready { IsWalking result }
        ensures config { result.config ≡ config.now }
        ensures asks { asks_of_walk result ≡ None }
        ensures left { walk_left result.left result.step ≡ SLOT_ACTS * config.now.nodes + 3 }
        ensures knows { (values : ℕ → ℕ) (slots : FreeSlots) → Walks result values slots }
    {
        Walk {
            config: *config,
            left: config.nodes,
            top: 0,
            ways: [Way {
                slot: 0,
                next: 0,
                count: 0,
            }; MAX_LEVELS as usize],
            step: Step::Fresh,
        }
    }

    /// How it has ended: asked of a walk that asks for nothing more.
    pub fn ended(&self) -> Option<Outcome>
        ensures { result ≡ end_in_walk self.now.step }
    {
        match self.step {
            Step::Done => Some(Outcome::Recovered),
            _ => None,
        }
    }

    /// The next act, after what came of the last one. Of a tree that breaks no rule each slot is held once.
    pub fn next(&mut self, seen: Seen, slots: &mut Slots) -> Todo
        requires ready { IsWalking self.old }
        requires slots { slots.old.nodes ≡ self.old.config.nodes }
        requires hears { hears_in (asks_of_walk self.old) seen }
        ensures ready { IsWalking self.new }
        ensures slots { slots.new.nodes ≡ slots.old.nodes }
        ensures asked { asks_of_walk self.new ≡ Some result }
        ensures nearer { walk_left self.new.left self.new.step < walk_left self.old.left self.old.step }
        ensures config { self.new.config ≡ self.old.config }
        // what it knows of the slots, where the answer is true
        ensures learns { (values : ℕ → ℕ) → Walks self.old values slots.old → answers_in (asks_of_walk self.old) seen values → Walks self.new values slots.new }
    {
        self.step = self.after(seen, slots);
        self.asked()
    }

    /// Laws of what it knows. Does nothing.
    pub fn learnt(&self)
        requires { IsWalking self.now }
        // it only loads, and no word of a descriptor
        ensures loads { (todo : Todo) → asks_of_walk self.now ≡ Some todo → IsLoadOrEnd self.now.config todo }
        // at the end exactly the slots of the tree are held
        ensures ends { (values image : ℕ → ℕ) (slots : FreeSlots) → slots.nodes ≡ self.now.config.nodes → Walks self.now values slots → IsTreeOf self.now.config values image → end_in_walk self.now.step ≡ Some Recovered → AreReached self.now.config image slots }
    {}

    // The step after what came of the last act.
    fn after(&mut self, seen: Seen, slots: &mut Slots) -> Step
        requires ready { IsWalking self.old }
        requires slots { slots.old.nodes ≡ self.old.config.nodes }
        requires hears { hears_in (asks_of_walk self.old) seen }
        ensures ready { IsWalk self.new }
        ensures slots { slots.new.nodes ≡ slots.old.nodes }
        ensures config { self.new.config ≡ self.old.config }
        ensures step { IsStep self.new.config self.new.top result }
        ensures begun { result ≢ Step.Fresh }
        ensures nearer { walk_left self.new.left result < walk_left self.old.left self.old.step }
        ensures learns { (values : ℕ → ℕ) → Walks self.old values slots.old → answers_in (asks_of_walk self.old) seen values → Walks (record self.new { step = result }) values slots.new }
    {
        match (self.step, seen) {
            (Step::Fresh, _) => {
                slots.free_all();
                Step::Root
            }
            (Step::Root, Seen::Read(pointer)) => self.found_root(pointer),
            (Step::Header(root), Seen::Read(header)) => self.begun(root, header, slots),
            (Step::Status(level, slot), Seen::Read(status)) => self.entered(level, slot, status),
            (Step::Meta(level, way), Seen::Read(meta)) => linked(level, way, meta),
            (Step::Pointer(level, way, place), Seen::Read(pointer)) => {
                self.reached(level, way, pointer, slots)
            }
            _ => Step::Done,
        }
    }

    // What a step asks for.
    fn asked(&self) -> Todo
        requires ready { IsWalking self.now }
        requires begun { self.now.step ≢ Step.Fresh }
        ensures { asks_of_walk self.now ≡ Some result }
    {
        let config = &self.config;
        match self.step {
            Step::Fresh | Step::Done => Todo::Finish,
            Step::Root => Todo::Load(ROOT_AT),
            Step::Header(root) => Todo::Load(config.node_at(u32::from(root)) + HEADER_AT),
            Step::Status(_, slot) => Todo::Load(config.node_at(u32::from(slot)) + STATUS_AT),
            Step::Meta(_, way) => {
                Todo::Load(config.node_at(u32::from(way.slot)) + (META_AT + way.next))
            }
            Step::Pointer(_, way, place) => {
                Todo::Load(config.node_at(u32::from(way.slot)) + place)
            }
        }
    }

    // The slot to which a pointer leads, if there is such a slot.
    fn slot_of(&self, pointer: u64) -> Option<u16>
        requires { IsConfig self.now.config }
        ensures some { IfSome result (λ slot. (slot + 1 ≡ pointer) × (slot < self.now.config.nodes)) }
        ensures is { 0 < pointer → pointer ≤ self.now.config.nodes → IsSome result }
    {
        if pointer == 0 || pointer > u64::from(self.config.nodes) {
            return None;
        }
        Some((pointer - 1) as u16)
    }

    // Holds a slot: whether it was free.
    fn holds(&mut self, slot: u16, slots: &mut Slots) -> bool
        requires { slot < slots.old.nodes }
        ensures slots { slots.new ≡ record slots.old { free = without slot slots.old.free } }
        ensures left { OnTrue result (self.new ≡ record self.old { left = length slots.new.free }) }
        ensures fewer { OnTrue result (self.new.left < self.old.left) }
        ensures no { OnFalse result (self.old.left ≤ length slots.new.free) }
        ensures same { OnFalse result (self.new ≡ self.old) }
        ensures size { length self.new.ways ≡ MAX_LEVELS }
    {
        slots.hold(slot);
        let left = slots.left();
        if left < self.left {
            self.left = left;
            return true;
        }
        false
    }

    // The step after the root pointer.
    fn found_root(&self, pointer: u64) -> Step
        requires ready { IsWalk self.now }
        ensures step { IsStep self.now.config self.now.top result }
        ensures begun { result ≢ Step.Fresh }
        ensures nearer { walk_left self.now.left result < walk_left self.now.left Step.Root }
        ensures leads { (free : List ℕ) → Leads self.now free Step.Root pointer self.now free result }
    {
        match self.slot_of(pointer) {
            Some(root) => Step::Header(root),
            None => Step::Done,
        }
    }

    // The step after the root's header.
    fn begun(&mut self, root: u16, header: u64, slots: &mut Slots) -> Step
        requires ready { IsWalk self.old }
        requires slots { slots.old.nodes ≡ self.old.config.nodes }
        requires root { root < self.old.config.nodes }
        ensures ready { IsWalk self.new }
        ensures slots { slots.new.nodes ≡ slots.old.nodes }
        ensures config { self.new.config ≡ self.old.config }
        ensures step { IsStep self.new.config self.new.top result }
        ensures begun { result ≢ Step.Fresh }
        ensures nearer { walk_left self.new.left result < walk_left self.old.left (Step.Header root) }
        ensures leads { Leads self.old slots.old.free (Step.Header root) header self.new slots.new.free result }
    {
        let level = (header % LEVELS) as u32;
        if !self.holds(root, slots) || level == 0 || level >= MAX_LEVELS {
            return Step::Done;
        }
        self.top = level;
        Step::Status(level, root)
    }

    // The step after the status of an inner node.
    fn entered(&self, level: u32, slot: u16, status: u64) -> Step
        requires ready { IsWalk self.now }
        requires level { IsLevel self.now.top level }
        requires slot { slot < self.now.config.nodes }
        ensures step { IsStep self.now.config self.now.top result }
        ensures begun { result ≢ Step.Fresh }
        ensures nearer { walk_left self.now.left result < walk_left self.now.left (Step.Status level slot) }
        ensures leads { (free : List ℕ) → Leads self.now free (Step.Status level slot) status self.now free result }
    {
        match Status::unpack(status) {
            Some(status) if status.count <= SHARED_WORDS => {
                let count = status.count;
                self.onward(
                    level,
                    Way {
                        slot,
                        next: 0,
                        count,
                    },
                )
            }
            _ => Step::Done,
        }
    }

    // The step after the pointer to a child.
    fn reached(&mut self, level: u32, way: Way, pointer: u64, slots: &mut Slots) -> Step
        requires ready { IsWalk self.old }
        requires slots { slots.old.nodes ≡ self.old.config.nodes }
        requires level { IsLevel self.old.top level }
        requires way { IsWithin self.old.config way }
        requires more { way.next < way.count }
        ensures ready { IsWalk self.new }
        ensures slots { slots.new.nodes ≡ slots.old.nodes }
        ensures config { self.new.config ≡ self.old.config }
        ensures step { IsStep self.new.config self.new.top result }
        ensures begun { result ≢ Step.Fresh }
        ensures nearer { walk_left self.new.left result ≤ SLOT_ACTS * self.old.left }
        ensures leads { (place : ℕ) → Leads self.old slots.old.free (Step.Pointer level way place) pointer self.new slots.new.free result }
    {
        let child = match self.slot_of(pointer) {
            Some(child) => child,
            None => return Step::Done,
        };
        if !self.holds(child, slots) {
            return Step::Done;
        }
        let way = Way {
            slot: way.slot,
            next: way.next + 1,
            count: way.count,
        };
        if level == 1 {
            return self.onward(level, way);
        }
        self.ways[level as usize] = way;
        Step::Status(level - 1, child)
    }

    // The step to the next child of an inner node, or where it has no more, of the next one above it that has some.
    fn onward(&self, level: u32, way: Way) -> Step
        requires ready { IsWalk self.now }
        requires level { IsLevel self.now.top level }
        requires way { IsWithin self.now.config way }
        ensures step { IsStep self.now.config self.now.top result }
        ensures begun { result ≢ Step.Fresh }
        ensures nearer { walk_left self.now.left result ≤ SLOT_ACTS * self.now.left + 2 }
        ensures goes { (image : ℕ → ℕ) (free : List ℕ) → GoesOn (view_in self.now.config image) self.now.top self.now.ways free level way → goes_in self.now.config image self.now.top self.now.ways free result }
    {
        if way.next < way.count {
            return Step::Meta(level, way);
        }
        if level == self.top {
            return Step::Done;
        }
        self.onward(level + 1, self.ways[(level + 1) as usize])
    }
}

// How many words so many bytes take.
fn words_for(bytes: u32) -> u32
    requires { bytes < 2 ^ 16 }
    ensures words { result ≡ packed_len bytes }
    ensures small { result < 2 ^ 16 }
{
    bytes.div_ceil(BYTES_IN_WORD)
}

// Where a record lies, if readers see it.
#[tactic(auto, unfolding(bz_slotted::specs::Page::visible, bz_slotted::specs::Page::extent_of))]
fn extent_shown(meta: Meta) -> Option<Extent>
    requires { IsMeta meta }
    ensures some { IfSome result (λ extent. extent_of meta ≡ extent) }
    ensures small { IfSome result (λ extent. (extent.key < 2 ^ 16) × (extent.offset < 2 ^ 28)) }
    ensures is { visible meta ≡ true → IsSome result }
{
    match meta {
        Meta::Visible(extent) => Some(extent),
        Meta::Unused => None,
        Meta::Reserved(_) => None,
        Meta::Deleted { .. } => None,
    }
}

// Where the record of a metadata word lies, if readers see it.
fn extent_at(word: u64) -> Option<Extent>
    ensures some { IfSome result (λ extent. extent_of (meta_of word) ≡ extent) }
    ensures small { IfSome result (λ extent. (extent.key < 2 ^ 16) × (extent.offset < 2 ^ 28)) }
    ensures is { visible (meta_of word) ≡ true → IsSome result }
{
    match Meta::unpack(word) {
        Some(meta) => extent_shown(meta),
        None => None,
    }
}

// The step after the metadata word of a child.
fn linked(level: u32, way: Way, meta: u64) -> Step
    requires { way.next < way.count }
    ensures step { (c : Config) (top : ℕ) → IsStep c top (Step.Meta level way) → IsStep c top result }
    ensures begun { result ≢ Step.Fresh }
    ensures nearer { (left : ℕ) → walk_left left result < walk_left left (Step.Meta level way) }
    ensures leads { (w : Walker) (free : List ℕ) → Leads w free (Step.Meta level way) meta w free result }
{
    match extent_at(meta) {
        Some(extent) => {
            let place = extent.offset + words_for(extent.key);
            if place < NODE_WORDS {
                Step::Pointer(level, way, place)
            } else {
                Step::Done
            }
        }
        None => Step::Done,
    }
}
