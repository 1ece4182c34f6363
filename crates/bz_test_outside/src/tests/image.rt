//! The smallest file, byte by byte: what no clause says is that these are the bytes.
use super::bench::{holds, same, same_at};
use bz_image::{
    FetchFault, Image, ImageFault, fetch_image, image_bytes, read_front, read_head, read_image,
    write_image,
};
use bz_io::{FailSink, FailSource, Failed, MemSink, MemSource, Sink};
use bz_layout::Config;
use bz_world::World;
use std::alloc::Global;
use std::process::Abort;
use std::test::Fail;

/// The bytes of the file of one node slot and one descriptor.
const SIZE: usize = 2_324;

/// The words of such a memory.
const COUNT: usize = 288;

/// The file of fresh memory.
fn smallest() -> [u8; SIZE] {
    let mut file = [0u8; SIZE];
    file[..20].copy_from_slice(&[
        0x42, 0x5A, 0x49, 0x4D, 0x41, 0x47, 0x45, 0x0A, 2, 0, 0, 0, 1, 0, 0, 0, 1, 0, 0, 0,
    ]);
    // the word 0 is 2, and the words 1, 3 and 4 are 1
    file[20] = 2;
    file[28] = 1;
    file[44] = 1;
    file[52] = 1;
    file
}

/// The same with these bytes as its word 7.
fn with_word_seven(word: [u8; 8]) -> [u8; SIZE] {
    let mut file = smallest();
    file[76..84].copy_from_slice(&word);
    file
}

/// The words of fresh memory.
fn fresh() -> [u64; COUNT] {
    let mut words = [0u64; COUNT];
    words[0] = 2;
    words[1] = 1;
    words[3] = 1;
    words[4] = 1;
    words
}

/// A world of the smallest memory, in which nothing has happened.
fn world(rt: &impl Abort, alloc: Global) -> World {
    let config = Config {
        nodes: 1,
        swaps: 1,
        workers: 1,
        marks: 1_024,
        calls: 1,
        pages: 0,
    };
    World::open(alloc, &config).expect(rt, "a world")
}

fn fault_of<T: Drop, E>(answer: Result<T, E>) -> Option<E> {
    match answer {
        Ok(_) => None,
        Err(fault) => Some(fault),
    }
}

// The calls under test, of which the tests know only what they answer.
fn written<K: Sink>(world: &World, sink: &mut K) -> Result<(), Failed> {
    write_image(world, sink)
}

fn read(alloc: Global, bytes: &[u8]) -> Result<Image, ImageFault> {
    read_image(alloc, bytes)
}

// What is said of bytes: of their head alone, of their front, and of all of them.
fn told_of(alloc: Global, bytes: &[u8]) -> [Option<ImageFault>; 3] {
    let head = fault_of(read_head(bytes));
    let front = fault_of(read_front(alloc, bytes));
    [head, front, fault_of(read(alloc, bytes))]
}

// An image has these words.
fn has_words(rt: &impl Abort, image: &Image, words: &[u64; COUNT]) {
    same(rt, image.words.words(), words.as_slice());
}

#[test]
fn each_image_has_its_length(rt: HostRuntime) {
    same(&rt, image_bytes(1, 1), SIZE);
    same(&rt, image_bytes(16, 64), 41_108);
    same(&rt, image_bytes(16_384, 65_536), 41_943_188);
}

// The file of a world is this one.
fn is_written(rt: &impl Abort, alloc: Global, world: &World, file: &[u8]) {
    let mut sink = MemSink::open(alloc, SIZE).expect(rt, "a sink");
    same(rt, written(world, &mut sink), Ok(()));
    same(rt, sink.bytes(), file);
}

// A file is that of a fresh memory of one node and one descriptor.
fn is_read(rt: &impl Abort, alloc: Global, file: &[u8]) {
    let image = read(alloc, file).expect(rt, "an image");
    same(rt, (image.nodes, image.swaps), (1, 1));
    has_words(rt, &image, &fresh());
}

#[test]
fn the_smallest_file_is_written_and_read(rt: HostRuntime) {
    let file = smallest();
    let world = world(&rt, rt.alloc());
    is_written(&rt, rt.alloc(), &world, &file);
    is_read(&rt, rt.alloc(), &file);
}

#[test]
fn each_byte_of_a_word_has_its_place(rt: HostRuntime) -> Result<(), Fail> {
    let file = with_word_seven([8, 7, 6, 5, 4, 3, 2, 0xF1]);
    let mut words = fresh();
    words[7] = 0xF102_0304_0506_0708;
    has_words(&rt, &read(rt.alloc(), &file)?, &words);
    Ok(())
}

// What is said of the smallest file cut off at this length, or with a byte more.
fn wanted_of(length: usize) -> [Option<ImageFault>; 3] {
    let short = Some(ImageFault::Short);
    if length < 20 {
        [short; 3]
    } else if length < SIZE {
        [None, short, short]
    } else if length == SIZE {
        [None; 3]
    } else {
        [None, None, Some(ImageFault::Long)]
    }
}

#[test]
fn each_length_has_its_answer(rt: HostRuntime) {
    let mut file = [0u8; SIZE + 1];
    file[..SIZE].copy_from_slice(&smallest());
    for length in 0..SIZE + 2 {
        let bytes = &file[..length.min(SIZE + 1)];
        same_at(&rt, told_of(rt.alloc(), bytes), wanted_of(length), length);
    }
}

#[test]
fn the_front_has_its_length(rt: HostRuntime) -> Result<(), Fail> {
    let mut file = [7u8; SIZE + 40];
    file[..SIZE].copy_from_slice(&smallest());
    let (image, length) = read_front(rt.alloc(), &file)?;
    same(&rt, length, SIZE);
    has_words(&rt, &image, &fresh());
    Ok(())
}

/// What the file is with a bit of byte `place` of its head turned, the lowest or the highest.
fn turned(place: usize, lowest: bool) -> Option<ImageFault> {
    match place {
        0..8 => Some(ImageFault::Magic),
        8..12 => Some(ImageFault::Version),
        // no node slot, or no descriptor
        12 | 16 if lowest => Some(ImageFault::Sizes),
        // 129 of them, or 257
        12 | 16 => Some(ImageFault::Short),
        13 if lowest => Some(ImageFault::Short),
        // 257 descriptors, or 32,769
        17 => Some(ImageFault::Short),
        13..20 => Some(ImageFault::Sizes),
        _ => None,
    }
}

// The smallest file with a bit of byte `place` turned, and its words.
fn file_with(place: usize, mask: u8) -> [u8; SIZE] {
    let mut file = smallest();
    if let Some(byte) = file.get_mut(place) {
        *byte ^= mask;
    }
    file
}

fn words_with(place: usize, mask: u8) -> [u64; COUNT] {
    let mut words = fresh();
    if place >= 20 {
        let byte = place - 20;
        if let Some(word) = words.get_mut(byte / 8) {
            *word ^= u64::from(mask) << (8 * (byte % 8));
        }
    }
    words
}

// A file with such a bit turned is told so, or read.
fn is_told(rt: &impl Abort, alloc: Global, place: usize, lowest: bool) {
    let mask = if lowest { 1u8 } else { 128 };
    let want = turned(place, lowest);
    match read(alloc, &file_with(place, mask)) {
        Ok(image) => {
            same_at(rt, None, want, place);
            has_words(rt, &image, &words_with(place, mask));
        }
        Err(fault) => same_at(rt, Some(fault), want, place),
    }
}

#[test]
fn each_byte_that_is_changed_is_told(rt: HostRuntime) {
    for lowest in [true, false] {
        for place in 0..SIZE {
            is_told(&rt, rt.alloc(), place, lowest);
        }
    }
}

#[test]
fn the_first_fault_is_told(rt: HostRuntime) {
    let mut file = smallest();
    // every number is wrong, and the words are missing
    file[..20].copy_from_slice(&[0; 20]);
    let right = smallest();
    for (end, length, want) in [
        (0usize, 19usize, ImageFault::Short),
        (0, 20, ImageFault::Magic),
        (7, 20, ImageFault::Magic),
        (8, 20, ImageFault::Version),
        (12, 20, ImageFault::Sizes),
        (16, 20, ImageFault::Sizes),
        (20, 20, ImageFault::Short),
    ] {
        let end = end.min(20);
        file[..end].copy_from_slice(&right[..end]);
        let [_, front, whole] = told_of(rt.alloc(), &file[..length.min(SIZE)]);
        same_at(&rt, (front, whole), (Some(want), Some(want)), end);
    }
}

// What a sink has taken of a file that fails at this call: the head takes one call, and 64 bytes of the words one each.
fn taken_before(file: &[u8], call: u64) -> &[u8] {
    let length = match call {
        1 => 0,
        2..38 => (20 + 64 * (call - 2)) as usize,
        _ => file.len(),
    };
    &file[..length.min(file.len())]
}

// A sink that fails at this call has what came before.
fn fails_at(rt: &impl Abort, alloc: Global, world: &World, call: u64) {
    let want = if call == 38 { Ok(()) } else { Err(Failed) };
    let mut sink = FailSink::open(alloc, SIZE, 64, &[call]).expect(rt, "a sink");
    same_at(rt, written(world, &mut sink), want, call);
    same_at(rt, sink.bytes(), taken_before(&smallest(), call), call);
}

fn fails_at_each(rt: &impl Abort, alloc: Global, world: &World) {
    for call in 1..39u64 {
        fails_at(rt, alloc, world, call);
    }
}

// A sink that has too little room is full.
fn lacks_room(rt: &impl Abort, alloc: Global, world: &World, room: usize) {
    let file = smallest();
    let mut sink = MemSink::open(alloc, room).expect(rt, "a sink");
    same_at(rt, written(world, &mut sink), Err(Failed), room);
    same_at(rt, sink.bytes(), &file[..room.min(SIZE)], room);
}

fn lacks_each_room(rt: &impl Abort, alloc: Global, world: &World) {
    for room in 0..SIZE {
        lacks_room(rt, alloc, world, room);
    }
}

#[test]
fn a_sink_that_fails_has_a_front_part(rt: HostRuntime) {
    let world = world(&rt, rt.alloc());
    fails_at_each(&rt, rt.alloc(), &world);
    lacks_each_room(&rt, rt.alloc(), &world);
}

#[test]
fn a_source_that_fails_gives_no_image(rt: HostRuntime) -> Result<(), Fail> {
    let file = smallest();
    // the head takes one call, and 64 bytes of the words one each
    for call in 1..39u64 {
        let mut source = FailSource::of(rt.alloc(), &file, 64, &[call])?;
        match fetch_image(rt.alloc(), &mut source) {
            Ok(image) => {
                holds(&rt, call == 38);
                has_words(&rt, &image, &fresh());
            }
            Err(fault) => holds(&rt, call < 38 && fault == FetchFault::Read),
        }
    }
    Ok(())
}

#[test]
fn what_follows_an_image_is_left_to_the_source(rt: HostRuntime) -> Result<(), Fail> {
    let mut bytes = [7u8; SIZE + 2];
    bytes[..SIZE].copy_from_slice(&smallest());
    let mut source = MemSource::of(rt.alloc(), &bytes)?;
    holds(&rt, fetch_image(rt.alloc(), &mut source).is_ok());
    same(
        &rt,
        fault_of(fetch_image(rt.alloc(), &mut source)),
        Some(FetchFault::Image(ImageFault::Short)),
    );
    Ok(())
}

#[test]
fn faults_have_their_words(rt: HostRuntime) -> Result<(), Fail> {
    for (fault, want) in [
        (ImageFault::Short, "short"),
        (ImageFault::Magic, "magic"),
        (ImageFault::Version, "version"),
        (ImageFault::Sizes, "sizes"),
        (ImageFault::Long, "long"),
        (ImageFault::Memory, "want of memory"),
    ] {
        same(&rt, format!(in rt.alloc(); "{fault}")?.as_str(), want);
    }
    Ok(())
}
