use super::bench::same;
use bz_layout::{Config, ConfigError, Slots, fresh};
use bz_oom::Memory;
use std::alloc::Global;
use std::process::Abort;
use std::test::Fail;

const SMALLEST: Config = Config {
    nodes: 1,
    swaps: 1,
    workers: 1,
    marks: 1_024,
    calls: 1,
    pages: 0,
};

const GREATEST: Config = Config {
    nodes: 16_384,
    swaps: 65_536,
    workers: 64,
    marks: 33_554_432,
    calls: 65_536,
    pages: 4_096,
};

#[test]
fn the_ends_of_the_ranges_are_taken(rt: HostRuntime) {
    same(&rt, SMALLEST.check(), Ok(()));
    same(&rt, GREATEST.check(), Ok(()));
}

// Configurations with a number one below its range or one above it, and what is told of them.
const REFUSED: [(Config, ConfigError); 12] = [
    (
        Config {
            nodes: 0,
            ..SMALLEST
        },
        ConfigError::Nodes,
    ),
    (
        Config {
            nodes: 16_385,
            ..GREATEST
        },
        ConfigError::Nodes,
    ),
    (
        Config {
            swaps: 0,
            ..SMALLEST
        },
        ConfigError::Swaps,
    ),
    (
        Config {
            swaps: 65_537,
            ..GREATEST
        },
        ConfigError::Swaps,
    ),
    (
        Config {
            workers: 0,
            ..SMALLEST
        },
        ConfigError::Workers,
    ),
    (
        Config {
            workers: 65,
            ..GREATEST
        },
        ConfigError::Workers,
    ),
    (
        Config {
            marks: 1_023,
            ..SMALLEST
        },
        ConfigError::Marks,
    ),
    (
        Config {
            marks: 33_554_433,
            ..GREATEST
        },
        ConfigError::Marks,
    ),
    (
        Config {
            calls: 0,
            ..SMALLEST
        },
        ConfigError::Calls,
    ),
    (
        Config {
            calls: 65_537,
            ..GREATEST
        },
        ConfigError::Calls,
    ),
    (
        Config {
            pages: 4_097,
            ..GREATEST
        },
        ConfigError::Pages,
    ),
    (
        Config {
            swaps: 0,
            pages: 4_097,
            ..SMALLEST
        },
        ConfigError::Swaps,
    ),
];

#[test]
fn the_first_number_out_of_range_is_named(rt: HostRuntime) {
    for (config, want) in REFUSED {
        same(&rt, config.check(), Err(want));
    }
}

// What is told of a number out of its range.
fn tells(rt: &impl Abort, alloc: Global, error: ConfigError, want: &str) -> Result<(), Fail> {
    let text = error.to_string(alloc)?;
    same(rt, text.as_str(), want);
    Ok(())
}

#[test]
fn a_refused_configuration_tells_the_range(rt: HostRuntime) -> Result<(), Fail> {
    let alloc = rt.alloc();
    let nodes = "the number of nodes is not 1 to 16384";
    tells(&rt, alloc, ConfigError::Nodes, nodes)?;
    let swaps = "the number of swaps is not 1 to 65536";
    tells(&rt, alloc, ConfigError::Swaps, swaps)?;
    let workers = "the number of workers is not 1 to 64";
    tells(&rt, alloc, ConfigError::Workers, workers)?;
    let marks = "the limit on marks is not 1024 to 33554432";
    tells(&rt, alloc, ConfigError::Marks, marks)?;
    let calls = "the limit on calls is not 1 to 65536";
    tells(&rt, alloc, ConfigError::Calls, calls)?;
    tells(
        &rt,
        alloc,
        ConfigError::Pages,
        "the limit on pages is above 4096",
    )
}

#[test]
fn the_greatest_memory_has_these_addresses(rt: HostRuntime) {
    same(&rt, GREATEST.swap_at(0), 16);
    same(&rt, GREATEST.swap_at(65_535), 1_048_576);
    same(&rt, GREATEST.node_at(0), 1_048_592);
    same(&rt, GREATEST.node_at(16_383), 5_242_640);
    same(&rt, GREATEST.words(), 5_242_896);
}

// Fresh memory has so many words: these five, and then none but 0.
fn begins_with(
    rt: &impl Abort,
    alloc: Global,
    config: &Config,
    front: [u64; 5],
    count: usize,
) -> Result<(), Memory> {
    assert!(rt; config.check().is_ok());
    let words = fresh(alloc, config)?;
    same(rt, words.len(), count);
    same(rt, words.get(..5), Some(front.as_slice()));
    for word in words.iter().skip(5) {
        same(rt, *word, 0);
    }
    Ok(())
}

#[test]
fn fresh_memory_begins_with_five_words(rt: HostRuntime) -> Result<(), Fail> {
    let config = Config {
        nodes: 16,
        swaps: 64,
        ..SMALLEST
    };
    begins_with(&rt, rt.alloc(), &SMALLEST, [2, 1, 0, 1, 1], 288)?;
    begins_with(&rt, rt.alloc(), &config, [2, 1, 0, 16, 64], 5_136)?;
    Ok(())
}

// So many slots are taken of so many that are left, or not, and these are written.
fn takes(
    rt: &impl Abort,
    alloc: Global,
    (k, left): (usize, u16),
    taken: bool,
    want: [u16; 3],
) -> Result<(), Memory> {
    let mut slots = upper_of_five(alloc, left)?;
    same(rt, slots.left(), u32::from(left));
    let mut out = [9; 3];
    assert!(rt; 1 <= k && k <= 3);
    same(rt, slots.take(k, &mut out), taken);
    same(rt, out, want);
    same(rt, slots.left(), if taken { 0 } else { u32::from(left) });
    slots.free_all();
    same(rt, slots.left(), 5);
    Ok(())
}

#[test]
fn take_answers_false_where_one_slot_is_missing(rt: HostRuntime) -> Result<(), Fail> {
    takes(&rt, rt.alloc(), (1, 0), false, [9, 9, 9])?;
    takes(&rt, rt.alloc(), (1, 1), true, [4, 9, 9])?;
    takes(&rt, rt.alloc(), (2, 1), false, [9, 9, 9])?;
    takes(&rt, rt.alloc(), (2, 2), true, [3, 4, 9])?;
    takes(&rt, rt.alloc(), (3, 2), false, [9, 9, 9])?;
    takes(&rt, rt.alloc(), (3, 3), true, [2, 3, 4])?;
    Ok(())
}

// Five slots, of which this many are free: the upper ones.
fn upper_of_five(alloc: Global, left: u16) -> Result<Slots, Memory> {
    let mut slots = Slots::open(alloc, 5)?;
    for slot in 0..5 {
        if slot < 5u16.saturating_sub(left) {
            slots.hold(slot);
        }
    }
    Ok(slots)
}
