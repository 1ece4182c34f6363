//! Worlds over images: what a power cut leaves is booted, recovers, and goes on; and which images are refused.

ghost use Rattle.std.specs.Prelude.{◌≡◌, length};
ghost use Rattle.bz_layout.specs.Addresses.{words_of};
ghost use Rattle.bz_layout.specs.Config.{IsConfig};

use super::bench::{
    Answer, applies, begin, has_pairs, has_power, holds, in_world, numbered, open, payload, same,
    steps, whole,
};
use super::decode::decode;
use super::map::{Map, count};
use super::random::{Random, act};
use super::reader::Reader;
use bz_call::Call;
use bz_layout::{Config, ConfigError};
use bz_tree::{ShapeFault, ShapeRule};
use bz_world::{Applied, Begun, BootError, Event, Power, World};
use std::alloc::Global;
use std::process::Abort;

// The words of a world, as a power cut would leave them.
fn copy_durable(world: &World, words: &mut Vec<u64>)
    requires { length words.old.items ≡ words_of world.now.config }
    ensures { length words.new.items ≡ length words.old.items }
{
    for a in 0..world.config().words() {
        words[a as usize] = world.durable(a);
    }
}

/// The power comes on, and the recovery goes to its end.
pub(super) fn come_on(rt: &impl Abort, world: &mut World) {
    applies(rt, world, Event::On, Applied::On);
    for _ in 0..10_000 {
        if world.apply(Event::Step(0)) != Applied::Stepped {
            break;
        }
    }
    has_power(rt, world, Power::On);
}

// What both keys have.
fn answers(world: &mut World, rt: &impl Abort) -> (Option<Answer>, Option<Answer>) {
    let first = whole(world, 1, Call::Get(numbered(rt, 0)));
    (first, whole(world, 1, Call::Get(numbered(rt, 1))))
}

// A call that is stopped.
fn inserting(rt: &impl Abort) -> Call {
    Call::Insert(numbered(rt, 0), payload(rt, b"n"))
}

// One key comes, and so many acts of an insert of the other.
fn stop(rt: &impl Abort, world: &mut World, acts: u32) {
    let had = Call::Insert(numbered(rt, 1), payload(rt, b"o"));
    same(rt, whole(world, 2, had), Some(Answer::Inserted));
    holds(rt, begin(world, 1, inserting(rt)));
    steps(world, 1, acts);
}

// A world over what a power cut would leave of another.
fn booted(rt: &impl Abort, alloc: Global, world: &World) -> World {
    let config = world.config();
    let mut words = bz_layout::fresh(alloc, &config).expect(rt, "the words");
    copy_durable(world, &mut words);
    World::boot(alloc, &config, &words).expect(rt, "a world")
}

// Its power is off, and it begins no call.
fn is_off(rt: &impl Abort, image: &mut World) {
    has_power(rt, image, Power::Off);
    same(rt, image.begin(1, inserting(rt)), Begun::Off);
}

// What both keys have in the same world, which is off at first, and then recovered.
fn restarted(rt: &impl Abort, alloc: Global, world: &World) -> (Option<Answer>, Option<Answer>) {
    let mut image = booted(rt, alloc, world);
    is_off(rt, &mut image);
    come_on(rt, &mut image);
    answers(&mut image, rt)
}

// A power cut, and the recovery.
fn cut(rt: &impl Abort, world: &mut World) {
    applies(rt, world, Event::Cut, Applied::Cut);
    come_on(rt, world);
}

// Both go on alike.
fn goes_on(rt: &impl Abort, alloc: Global, acts: u32) {
    in_world(rt, alloc, 4, 16, 2, |world| {
        stop(rt, world, acts);
        let told = restarted(rt, alloc, world);
        cut(rt, world);
        same(rt, told, answers(world, rt));
    });
}

#[test]
fn a_world_boots_from_what_a_cut_leaves(rt: HostRuntime) {
    for tenth in 0..12u32 {
        goes_on(&rt, rt.alloc(), tenth.saturating_mul(10));
    }
}

// Why these words are no image of such a memory, if they are none.
pub(super) fn refusal(alloc: Global, config: &Config, words: &[u64]) -> Option<BootError>
    requires { IsConfig config.now → length words.now ≡ words_of config.now }
{
    match World::boot(alloc, config, words) {
        Ok(_) => None,
        Err(error) => Some(error),
    }
}

// The numbers of the smallest memory.
fn smallest(rt: &impl Abort, alloc: Global) -> Config
    ensures { IsConfig result }
{
    open(alloc, 1, 1, 1).expect(rt, "a world").config()
}

// Its words, with another root.
fn broken(rt: &impl Abort, alloc: Global, config: &Config) -> Vec<u64>
    requires { IsConfig config.now }
    ensures { length result.items ≡ words_of config.now }
{
    let mut words = bz_layout::fresh(alloc, config).expect(rt, "the words");
    if let Some(root) = words.get_mut(1) {
        *root = 2;
    }
    words
}

// They are refused for this.
fn is_refused(rt: &impl Abort, alloc: Global, config: &Config, words: &[u64], error: BootError)
    requires { IsConfig config.now → length words.now ≡ words_of config.now }
{
    same(rt, refusal(alloc, config, words), Some(error));
}

// Words with another root, and then a memory of no nodes.
const ROOT: BootError = BootError::Shape(ShapeFault {
    rule: ShapeRule::Root,
    place: 0,
});

const NO_NODES: BootError = BootError::Config(ConfigError::Nodes);

#[test]
fn an_image_that_breaks_a_rule_is_refused(rt: HostRuntime) {
    let config = smallest(&rt, rt.alloc());
    let words = broken(&rt, rt.alloc(), &config);
    is_refused(&rt, rt.alloc(), &config, &words, ROOT);
    let none = Config { nodes: 0, ..config };
    is_refused(&rt, rt.alloc(), &none, &words, NO_NODES);
}

// The reader explains the marks that it has not read yet.
fn explains(rt: &impl Abort, reader: &mut Reader, world: &World) {
    holds(rt, reader.read_on(world).expect(rt, "room for the maps"));
}

// The memory itself has this map.
fn has(rt: &impl Abort, world: &World, map: Map) {
    same(rt, decode(world), Some(map));
}

// So many events.
fn act_often(rt: &impl Abort, world: &mut World, random: &mut Random, many: u32) {
    for _ in 0..many {
        act(rt, world, random);
    }
}

// A world that began with this map has it now by its reader.
fn is_explained(rt: &impl Abort, alloc: Global, world: &World, map: Map) {
    let mut reader = Reader::over(alloc, map).expect(rt, "a reader");
    explains(rt, &mut reader, world);
    has(rt, world, reader.map());
}

// What a power cut would leave of a world with this map goes on for so many events, which the reader explains.
fn goes_on_from(rt: &impl Abort, alloc: Global, world: &World, map: Map, mut random: Random) {
    let mut image = booted(rt, alloc, world);
    has_pairs(rt, &image, u64::from(count(&map)));
    has(rt, &image, map);
    come_on(rt, &mut image);
    act_often(rt, &mut image, &mut random, 500);
    is_explained(rt, alloc, &image, map);
}

// Ten events, which the reader explains; and what a power cut would leave then goes on.
fn ten_more(
    rt: &impl Abort,
    alloc: Global,
    world: &mut World,
    reader: &mut Reader,
    random: &mut Random,
    other: Random,
) {
    act_often(rt, world, random, 10);
    explains(rt, reader, world);
    goes_on_from(rt, alloc, world, reader.map(), other);
}

// A schedule of a world, and what follows each ten of its events.
fn goes_on_often(rt: &impl Abort, alloc: Global, world: &mut World) {
    let mut reader = Reader::open(alloc).expect(rt, "a reader");
    let mut random = Random { state: 3 };
    for event in 0..200u64 {
        let other = Random { state: event };
        ten_more(rt, alloc, world, &mut reader, &mut random, other);
    }
}

#[test]
fn a_schedule_goes_on_from_every_tenth_event(rt: HostRuntime) {
    let alloc = rt.alloc();
    in_world(
        &rt,
        alloc,
        4,
        48,
        8,
        |world| goes_on_often(&rt, alloc, world),
    );
}
