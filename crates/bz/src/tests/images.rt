//! `dump` and `load`: the smallest image byte for byte, and every refusal.
use super::bench::{expect_run, same, same_at, status};
use bz_image::write_image;
use bz_io::{FailSink, FailSource, Failed, MemSink, MemSource};
use bz_top::{NoGate, top};
use std::alloc::Global;
use std::process::Abort;
use std::sync::Wait;
use std::test::Fail;
use std::thread::Threads;

/// The bytes of the image of one node slot and one descriptor.
const SIZE: usize = 2_324;

/// The image of fresh memory.
fn smallest() -> [u8; SIZE] {
    let mut file = [0u8; SIZE];
    file[..20].copy_from_slice(&[
        0x42, 0x5A, 0x49, 0x4D, 0x41, 0x47, 0x45, 0x0A, 2, 0, 0, 0, 1, 0, 0, 0, 1, 0, 0, 0,
    ]);
    // the word 0 is 2, and the words 1, 3 and 4 are 1
    file[20] = 2;
    file[28] = 1;
    file[44] = 1;
    file[52] = 1;
    file
}

/// The script that the tests put behind an image.
const ASKING: &[u8] = b"memory 1 1\nw 1 get a\nrun alone\n";

/// What it prints over an image without pairs.
const ASKED: &str = "power on 0 pairs\nw1.1 get a = missing\n";

// `load` of an image and then a script.
fn expect_load<R: Threads + Wait + Abort + Sync>(
    rt: &R,
    alloc: Global,
    image: &[u8],
    script: &[u8],
    output: &str,
    want: u8,
) -> Result<(), Fail> {
    let mut input = Vec::from_slice(alloc, image)?;
    input.extend_from_slice(script)?;
    let words = ["load", "--marks", "4096"];
    expect_run(rt, alloc, &words, &input, output.as_bytes(), want)
}

#[test]
fn the_smallest_memory_is_dumped_and_loaded(rt: HostRuntime) -> Result<(), Fail> {
    let file = smallest();
    expect_run(&rt, rt.alloc(), &["dump"], b"memory 1 1\n", &file, 0)?;
    expect_load(&rt, rt.alloc(), &file, ASKING, ASKED, 0)?;
    expect_load(
        &rt,
        rt.alloc(),
        &file,
        b"memory 1 1\n",
        "power on 0 pairs\n",
        0,
    )?;
    for (script, output) in [
        ("memory 1 2\n", "fault: line 1: bad number\n"),
        ("memory 2 1\n", "fault: line 1: bad number\n"),
        ("", "fault: line 1: memory expected\n"),
        (
            "memory 1 1\nrun\n",
            "fault: line 2: wrong number of words\n",
        ),
    ] {
        expect_load(&rt, rt.alloc(), &file, script.as_bytes(), output, 3)?;
    }
    expect_run(
        &rt,
        rt.alloc(),
        &["dump"],
        b"memory 0 1\n",
        b"fault: line 1: bad number\n",
        3,
    )
}

#[test]
fn each_shorter_image_is_told(rt: HostRuntime) -> Result<(), Fail> {
    let file = smallest();
    for length in 0..SIZE {
        expect_load(
            &rt,
            rt.alloc(),
            &file[..length],
            b"",
            "fault: image short\n",
            6,
        )?;
    }
    Ok(())
}

/// What `load` says of the smallest image with the lowest bit of this byte of this word turned.
fn of_word(word: usize, byte: usize) -> &'static str {
    match word {
        0 | 3..16 => "fault: image shape super 0\n",
        1 => "fault: image shape root 0\n",
        // the stamp of the root's status may be any, and so may that of the root's own
        2 if byte >= 4 => "fault: image shape root 0\n",
        16 if byte >= 1 => "fault: image shape word 16\n",
        32 if byte == 7 => "fault: image shape record 0\n",
        32 if byte >= 4 => "fault: image shape status 0\n",
        33 if byte >= 4 => "fault: image shape level 0\n",
        33 if byte == 1 || byte == 2 => "fault: image shape fence 0\n",
        33 => "fault: image shape status 0\n",
        34..50 => "fault: image shape fence 0\n",
        50..288 => "fault: image shape status 0\n",
        _ => ASKED,
    }
}

/// The same by the byte of the file.
fn turned(place: usize) -> &'static str {
    match place {
        0..8 => "fault: image magic\n",
        8..12 => "fault: image version\n",
        // 257 slots, or 257 descriptors
        13 | 17 => "fault: image short\n",
        12..20 => "fault: image sizes\n",
        _ => of_word((place - 20) / 8, (place - 20) % 8),
    }
}

#[test]
fn each_byte_that_is_changed_is_told(rt: HostRuntime) -> Result<(), Fail> {
    for place in 0..SIZE {
        let mut file = smallest();
        file[place] ^= 1;
        let want = turned(place);
        let status = if want == ASKED { 0 } else { 6 };
        expect_load(&rt, rt.alloc(), &file, ASKING, want, status)?;
    }
    Ok(())
}

// The status of `load` of the smallest image and a script, where the source gives 64 bytes a call and fails at this one.
fn failing_load<R: Threads + Wait + Abort + Sync>(
    rt: &R,
    alloc: Global,
    call: u64,
) -> Result<u8, Fail> {
    let mut input = Vec::from_slice(alloc, &smallest())?;
    input.extend_from_slice(ASKING)?;
    let mut source = FailSource::of(alloc, &input, 64, &[call])?;
    let mut sink = MemSink::open(alloc, 100)?;
    let got = status(rt, alloc, &["load"], &mut source, &mut sink);
    same(rt, sink.bytes(), loaded_with(got));
    Ok(got)
}

// What `load` of the smallest image prints that ends with this status.
fn loaded_with(status: u8) -> &'static [u8] {
    if status == 0 {
        ASKED.as_bytes()
    } else {
        b"fault: read\n"
    }
}

// The status of `dump` of the smallest memory, where the sink takes 64 bytes a call and fails at this one.
fn failing_dump<R: Threads + Wait + Abort + Sync>(
    rt: &R,
    alloc: Global,
    call: u64,
) -> Result<u8, Fail> {
    let mut source = MemSource::of(alloc, b"memory 1 1\n")?;
    let mut sink = FailSink::open(alloc, SIZE, 64, &[call])?;
    let got = status(rt, alloc, &["dump"], &mut source, &mut sink);
    let file = smallest();
    same(rt, sink.bytes(), taken_before(&file, call));
    Ok(got)
}

// What a sink has taken of an image that fails at this call.
fn taken_before(file: &[u8], call: u64) -> &[u8] {
    let taken = match call {
        1 => 0,
        2..38 => (20 + 64 * (call - 2)) as usize,
        _ => file.len(),
    };
    &file[..taken.min(file.len())]
}

#[test]
fn a_source_and_a_sink_fail_at_each_call(rt: HostRuntime) -> Result<(), Fail> {
    // the head of an image is read and written alone; the end of a script is a read too
    for call in 1..41u64 {
        let want = if call < 40 { 1 } else { 0 };
        same_at(&rt, failing_load(&rt, rt.alloc(), call)?, want, call);
    }
    for call in 1..39u64 {
        let want = if call < 38 { 4 } else { 0 };
        same_at(&rt, failing_dump(&rt, rt.alloc(), call)?, want, call);
    }
    Ok(())
}

// Loads an image, and writes what the world has left to another sink.
fn load_over<R: Threads + Wait + Abort + Sync>(
    rt: &R,
    alloc: Global,
    source: &mut MemSource,
    report: &mut MemSink,
    image: &mut MemSink,
) -> Result<(), Failed> {
    let outcome = top(rt, alloc, &["load"], source, report, &NoGate);
    same(rt, outcome.status, 0);
    match &outcome.lab {
        Some(world) => write_image(world, image),
        None => Ok(()),
    }
}

// The image of a memory that was loaded from another and has recovered.
fn recovered<R: Threads + Wait + Abort + Sync>(
    rt: &R,
    alloc: Global,
    image: &[u8],
) -> Result<Vec<u8>, Fail> {
    let mut input = Vec::from_slice(alloc, image)?;
    input.extend_from_slice(b"memory 16 64\n")?;
    let mut source = MemSource::of(alloc, &input)?;
    let mut report = MemSink::open(alloc, 100)?;
    let mut sink = MemSink::open(alloc, 41_108)?;
    load_over(rt, alloc, &mut source, &mut report, &mut sink)?;
    Ok(Vec::from_slice(alloc, sink.bytes())?)
}

// The image that `dump` of a script writes.
fn dumped<R: Threads + Wait + Abort + Sync>(
    rt: &R,
    alloc: Global,
    script: &str,
) -> Result<Vec<u8>, Fail> {
    let mut source = MemSource::of(alloc, script.as_bytes())?;
    let mut sink = MemSink::open(alloc, 41_108)?;
    let got = status(rt, alloc, &["dump"], &mut source, &mut sink);
    same(rt, got, 0);
    Ok(Vec::from_slice(alloc, sink.bytes())?)
}

#[test]
fn what_has_recovered_loads_as_it_is(rt: HostRuntime) -> Result<(), Fail> {
    // worker 1 is stopped after each number of acts of its second insert
    for acts in 0..80u32 {
        let script = format!(in rt.alloc();
            "memory 16 64\nw 1 insert a 1\nrun alone\nw 1 insert b 2\nrun list 1*{}\n",
            acts + 1
        )?;
        let image = dumped(&rt, rt.alloc(), &script)?;
        let once = recovered(&rt, rt.alloc(), &image)?;
        let twice = recovered(&rt, rt.alloc(), &once)?;
        same_at(&rt, once.as_slice(), twice.as_slice(), acts);
    }
    Ok(())
}
