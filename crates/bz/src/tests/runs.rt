//! Runs of the program over sources and sinks in memory.
use super::bench;
use super::bench::{holds, same, status};
use bz_io::{FailSink, FailSource, MemSink, MemSource};
use std::alloc::Global;
use std::process::Abort;
use std::sync::Wait;
use std::test::Fail;
use std::thread::Threads;

// A run on an input prints an output and ends with a status.
fn expect_run<R: Threads + Wait + Abort + Sync>(
    rt: &R,
    alloc: Global,
    words: &[&str],
    input: &[u8],
    output: &str,
    want: u8,
) -> Result<(), Fail> {
    bench::expect_run(rt, alloc, words, input, output.as_bytes(), want)
}

// A script runs to its end and prints its report.
fn expect_example<R: Threads + Wait + Abort + Sync>(
    rt: &R,
    alloc: Global,
    script: &str,
    report: &str,
) -> Result<(), Fail> {
    expect_run(rt, alloc, &["run"], script.as_bytes(), report, 0)
}

// Each row is an input, with `/` for a line feed, and what it prints before it ends with a status.
fn expect_rows<R: Threads + Wait + Abort + Sync>(
    rt: &R,
    alloc: Global,
    rows: &str,
    want: u8,
) -> Result<(), Fail> {
    for row in rows.lines() {
        let Some((input, output)) = row.split_once(" =>") else {
            return Err(Fail::from("a row without its output"));
        };
        let input = input.replace(alloc, "/", "\n")?;
        let output = output.trim_start().replace(alloc, "/", "\n")?;
        expect_run(rt, alloc, &["run"], input.as_bytes(), &output, want)?;
    }
    Ok(())
}

const MIXED: &str =
    "memory 16 64\nw 3 insert c 3\nw 1 insert a 1\nw 3 get a\nw 2 get c\nw 1 get b\nrun alone\nw 2 get c\nrun alone\n";

const MIXED_REPORT: &str =
    "w1.1 insert a 1 = inserted\nw1.2 get b = missing\nw2.1 get c = missing\nw3.1 insert c 3 = inserted\nw3.2 get a = value 1\nw2.2 get c = value 3\n";

// Escaped keys and payloads, inserted in no order, and pages of two workers before and after them.
const PAGES: &str =
    "memory 16 64\nw 1 page %00\nw 2 insert b 2\nw 2 insert a%20b %\nw 2 insert %00 %3D\nw 2 insert a 1\nw 3 page %00\nw 3 page a0\nrun alone\n";

const PAGES_REPORT: &str =
    "w1.1 page %00 = page end\nw2.1 insert b 2 = inserted\nw2.2 insert a%20b % = inserted\nw2.3 insert %00 %3D = inserted\nw2.4 insert a 1 = inserted\nw3.1 page %00 = page %00=%3D a=1 a%20b=% b=2 end\nw3.2 page a0 = page b=2 end\n";

#[test]
fn a_script_prints_its_report(rt: HostRuntime) -> Result<(), Fail> {
    let alloc = rt.alloc();
    expect_example(&rt, alloc, MIXED, MIXED_REPORT)?;
    expect_example(&rt, alloc, PAGES, PAGES_REPORT)?;
    let rows = "\
memory 16 64/ =>
memory 16384 65536/run alone/ =>
memory 16 64/w 1 insert a 1/w 1 get a/run alone/ => w1.1 insert a 1 = inserted/w1.2 get a = value 1/
memory 16 64/w 1 insert a 1/w 1 insert a 2/w 1 get a/run alone/ => w1.1 insert a 1 = inserted/w1.2 insert a 2 = exists/w1.3 get a = value 1/
memory 16 64/w 1 insert abcdefghijklmnopqrstuvwxyzABCDEFGHIJKLMNOPQRSTUVWXYZ0123 1/run alone/ => w1.1 insert abcdefghijklmnopqrstuvwxyzABCDEFGHIJKLMNOPQRSTUVWXYZ0123 1 = inserted/
memory 1 2/w 64 insert a%20b %/w 64 get a%20b/w 64 get %00/run alone/ => w64.1 insert a%20b % = inserted/w64.2 get a%20b = value %/w64.3 get %00 = missing/
memory 16 64/w 1 insert a 1/w 1 delete a/w 1 get a/w 1 update a 2/w 1 delete a/run alone/ => w1.1 insert a 1 = inserted/w1.2 delete a = deleted 1/w1.3 get a = missing/w1.4 update a 2 = missing/w1.5 delete a = missing/
memory 16 64/w 1 upsert a 1/w 1 upsert a 22/w 1 update a %/w 1 get a/run alone/ => w1.1 upsert a 1 = inserted/w1.2 upsert a 22 = updated 1/w1.3 update a % = updated 22/w1.4 get a = value %/
memory 16 64/w 1 get a/ =>
memory 16 64/w 1 page a/run alone/ => w1.1 page a = page end/
memory 16 64/w 1 insert b 1/w 1 page a/w 1 page b/w 1 page b0/run alone/ => w1.1 insert b 1 = inserted/w1.2 page a = page b=1 end/w1.3 page b = page b=1 end/w1.4 page b0 = page end/";
    expect_rows(&rt, alloc, rows, 0)
}

#[test]
fn a_faulty_input_is_refused_by_name(rt: HostRuntime) -> Result<(), Fail> {
    let rows = "\
/ => fault: line 1: memory expected/
memory 16 64 => fault: line 1: line feed expected/
memory 0 64/ => fault: line 1: bad number/
memory 16 65537/ => fault: line 1: bad number/
memory 016 64/ => fault: line 1: bad number/
memory 16 64 / => fault: line 1: wrong number of words/
memory 16 64/run fast/ => fault: line 2: unknown word/
memory 16 64//run/ => fault: line 2: unknown word/
memory 16 64/run threads 1/ => fault: line 2: wrong number of words/
memory 16 64/cut 1 0/cut 1 0/ => fault: line 3: wrong order/
memory 16 64/w 1 rename a b/ => fault: line 2: unknown word/
memory 16 64/run list/ => fault: line 2: wrong number of words/
memory 16 64/run turns 1 2/ => fault: line 2: wrong number of words/
memory 16 64/run list 1*2*3/ => fault: line 2: bad number/
memory 16 64/run list 1 65 0*0/ => fault: line 2: bad worker/
memory 16 64/run list 1 2*65537 0/ => fault: line 2: bad number/
memory 16 64/run turns -1/ => fault: line 2: bad number/
memory 16 64/w 65 get a/ => fault: line 2: bad worker/
memory 16 64/w 0 get A%41/ => fault: line 2: bad worker/
memory 16 64/w 1 get/ => fault: line 2: wrong number of words/
memory 16 64/w 1 get a%2f/ => fault: line 2: bad key/
memory 16 64/w 1 insert abcdefghijklmnopqrstuvwxyzABCDEFGHIJKLMNOPQRSTUVWXYZ01234 1/run alone/ => fault: line 2: bad key/
memory 16 64/w 1 insert a abcdefghijklmnopqrstuvwxyzABCDEFGHIJKLMNOPQRSTUVWXYZ01234/ => fault: line 2: bad payload/
memory 16 64/w 1 get a/memory 16 64/run fast/ => fault: line 3: wrong order/
memory 16 64/w 1 get a/run alone => fault: line 3: line feed expected/
 => fault: line 1: memory expected/";
    expect_rows(&rt, rt.alloc(), rows, 3)
}

#[test]
fn words_that_are_no_command_meet_the_usage_line(rt: HostRuntime) -> Result<(), Fail> {
    let input = b"memory 16 64\n".as_slice();
    expect_run(&rt, rt.alloc(), &[], input, "fault: usage\n", 2)?;
    expect_run(&rt, rt.alloc(), &["run", "now"], input, "fault: usage\n", 2)?;
    expect_run(
        &rt,
        rt.alloc(),
        &["run", "--marks", "1023"],
        input,
        "fault: usage\n",
        2,
    )?;
    expect_run(
        &rt,
        rt.alloc(),
        &["--marks=1024", "run"],
        input,
        "fault: usage\n",
        2,
    )?;
    expect_run(&rt, rt.alloc(), &["--help"], input, "fault: usage\n", 2)
}

// Plans one after the other, over calls that the one before leaves open or queued.
const PLANS: &str =
    "memory 16 64\nw 1 insert a 1\nw 1 get a\nrun list 3*9 1\nw 2 get a\nrun list 2*4000\nrun turns 7\nw 3 page a\nw 1 insert b 2\nrun list 1*30\nw 2 page a\nrun list 1*4000 3*4000\nrun turns 18446744073709551615\nrun alone\n";

const PLANS_REPORT: &str =
    "w2.1 get a = missing\nw1.1 insert a 1 = inserted\nw1.2 get a = value 1\nw1.3 insert b 2 = inserted\nw3.1 page a = page a=1 b=2 end\nw2.2 page a = page a=1 b=2 end\n";

// A descriptor for each of an insert's two swaps, and none for the next.
const TWO_SWAPS: &str =
    "memory 16 2\nw 1 insert a 1\nw 1 insert b 2\nw 1 insert a 3\nw 1 get a\nrun alone\n";

const TWO_SWAPS_REPORT: &str =
    "w1.1 insert a 1 = inserted\nw1.2 insert b 2 = full swaps\nw1.3 insert a 3 = exists\nw1.4 get a = value 1\n";

// One descriptor, which the first swap of an insert takes.
const ONE_SWAP: &str =
    "memory 16 1\nw 1 insert a 1\nw 2 get a\nw 3 insert a 3\nw 4 page a\nrun alone\n";

const ONE_SWAP_REPORT: &str =
    "w1.1 insert a 1 = full swaps\nw2.1 get a = missing\nw3.1 insert a 3 = full swaps\nw4.1 page a = page end\n";

#[test]
fn plans_and_descriptors_show_in_the_report(rt: HostRuntime) -> Result<(), Fail> {
    let alloc = rt.alloc();
    expect_example(&rt, alloc, PLANS, PLANS_REPORT)?;
    expect_example(&rt, alloc, TWO_SWAPS, TWO_SWAPS_REPORT)?;
    expect_example(&rt, alloc, ONE_SWAP, ONE_SWAP_REPORT)?;
    let rows = "\
memory 16 64/run turns 1/run list 1*65536/run alone/ =>
memory 16 64/w 1 insert a 1/run list 1*10/ =>
memory 1 2/w 64 insert a 1/run turns 0/w 64 get a/run list 1 64*65536 2/ => w64.1 insert a 1 = inserted/w64.2 get a = value 1/";
    expect_rows(&rt, alloc, rows, 0)
}

// The scripts of examples/, with what they print.
const INTERLEAVED: &str =
    "memory 16 64\nw 1 insert a 1\nw 1 get a\nw 2 insert a 2\nw 3 insert a 3\nrun list 1*30 2*30 3*4000\nrun alone\n";

const INTERLEAVED_REPORT: &str =
    "w3.1 insert a 3 = inserted\nw1.1 insert a 1 = exists\nw1.2 get a = value 3\nw2.1 insert a 2 = exists\n";

const STOPPED: &str =
    "memory 16 64\nw 1 insert a 1\nw 2 insert b 2\nw 2 page a\nw 3 insert c 3\nw 3 get a\nrun list 1*30 2*20 3*4000 2*4000\nw 3 page a\nrun alone\n";

const STOPPED_REPORT: &str =
    "w3.1 insert c 3 = inserted\nw3.2 get a = missing\nw2.1 insert b 2 = inserted\nw2.2 page a = page b=2 c=3 end\nw1.1 insert a 1 = inserted\nw3.3 page a = page a=1 b=2 c=3 end\n";

const EVICTIONS: &str =
    "memory 1 16\nw 1 insert a 1\nw 1 insert b 2\nrun turns 1\nw 1 get a\nw 2 get b\nw 3 page a\nrun turns 193\n";

const EVICTIONS_REPORT: &str =
    "w1.1 insert a 1 = inserted\nw1.2 insert b 2 = inserted\nw2.1 get b = value 2\nw1.3 get a = value 1\nw3.1 page a = page a=1 b=2 end\n";

#[test]
fn the_examples_print_what_is_said_of_them(rt: HostRuntime) -> Result<(), Fail> {
    let alloc = rt.alloc();
    expect_example(&rt, alloc, INTERLEAVED, INTERLEAVED_REPORT)?;
    expect_example(&rt, alloc, STOPPED, STOPPED_REPORT)?;
    expect_example(&rt, alloc, EVICTIONS, EVICTIONS_REPORT)
}

// A run on an input prints one of two outputs.
fn expect_either<R: Threads + Wait + Abort + Sync>(
    rt: &R,
    alloc: Global,
    input: &str,
    one: &str,
    other: &str,
) -> Result<(), Fail> {
    let mut source = MemSource::of(alloc, input.as_bytes())?;
    let mut sink = MemSink::open(alloc, 65536)?;
    let got = status(rt, alloc, &["run"], &mut source, &mut sink);
    same(rt, got, 0);
    let held = sink.bytes();
    holds(rt, held == one.as_bytes() || held == other.as_bytes());
    Ok(())
}

#[test]
fn two_inserts_of_one_key_are_one_insert(rt: HostRuntime) -> Result<(), Fail> {
    let first = "w1.1 insert a 1 = inserted\nw2.1 insert a 2 = exists\n";
    let second = "w2.1 insert a 2 = inserted\nw1.1 insert a 1 = exists\n";
    for k in 1..73u32 {
        let input = format!(in rt.alloc();
            "memory 16 256\nw 1 insert a 1\nw 2 insert a 2\nrun list 1*{k} 2*{k}\nrun alone\n"
        )?;
        expect_either(&rt, rt.alloc(), &input, first, second)?;
    }
    Ok(())
}

#[test]
fn an_update_and_a_delete_take_place_one_after_the_other(rt: HostRuntime) -> Result<(), Fail> {
    let update_first =
        "w1.1 insert a 1 = inserted\nw1.2 update a 2 = updated 1\nw2.1 delete a = deleted 2\n";
    let delete_first =
        "w1.1 insert a 1 = inserted\nw2.1 delete a = deleted 1\nw1.2 update a 2 = missing\n";
    for seed in 1..51u32 {
        let input = format!(in rt.alloc();
            "memory 16 256\nw 1 insert a 1\nrun alone\nw 1 update a 2\nw 2 delete a\nrun turns {seed}\n"
        )?;
        expect_either(&rt, rt.alloc(), &input, update_first, delete_first)?;
    }
    Ok(())
}

#[test]
fn a_stopped_worker_holds_nobody_up(rt: HostRuntime) -> Result<(), Fail> {
    let alone = "w2.1 insert b 2 = inserted\n";
    let both = "w1.1 insert a 1 = inserted\nw2.1 insert b 2 = inserted\n";
    for k in 1..201u32 {
        let input = format!(in rt.alloc();
            "memory 16 256\nw 1 insert a 1\nw 2 insert b 2\nrun list 1*{k} 2*4000\n"
        )?;
        expect_either(&rt, rt.alloc(), &input, alone, both)?;
    }
    Ok(())
}

// A script that is one line feed short, with this many bytes.
fn expect_long<R: Threads + Wait + Abort + Sync>(
    rt: &R,
    alloc: Global,
    bytes: usize,
    output: &str,
) -> Result<(), Fail> {
    let mut input: Vec<u8> = Vec::new(alloc);
    input.extend_from_slice(b"memory 16 64\n")?;
    for _ in 13..bytes {
        input.push(b'x')?;
    }
    expect_run(rt, alloc, &["run"], &input, output, 3)
}

#[test]
fn a_script_of_a_mebibyte_is_read_and_no_longer_one(rt: HostRuntime) -> Result<(), Fail> {
    let alloc = rt.alloc();
    expect_long(&rt, alloc, 1_048_576, "fault: line 2: line feed expected\n")?;
    expect_long(&rt, alloc, 1_048_577, "fault: script too long\n")
}

// A script that queues this call so many times for one worker and lets it run.
fn script_of(alloc: Global, line: &str, calls: u32) -> Result<Vec<u8>, Fail> {
    let mut input: Vec<u8> = Vec::new(alloc);
    input.extend_from_slice(b"memory 16 64\n")?;
    for _ in 0..calls {
        input.extend_from_slice(line.as_bytes())?;
    }
    input.extend_from_slice(b"run alone\n")?;
    Ok(input)
}

// So many calls of a kind meet a limit, with a report of this many bytes and this end.
fn expect_limit<R: Threads + Wait + Abort + Sync>(
    rt: &R,
    alloc: Global,
    line: &str,
    calls: u32,
    bytes: usize,
    end: &str,
) -> Result<(), Fail> {
    let input = script_of(alloc, line, calls)?;
    let mut source = MemSource::of(alloc, &input)?;
    let mut sink = MemSink::open(alloc, 2_000_000)?;
    let got = status(rt, alloc, &["run"], &mut source, &mut sink);
    same(rt, got, 5);
    same(rt, sink.bytes().len(), bytes);
    holds(rt, sink.bytes().ends_with(end.as_bytes()));
    Ok(())
}

#[test]
fn more_calls_than_may_begin_meet_the_limit(rt: HostRuntime) -> Result<(), Fail> {
    let get_end = "w1.65536 get a = missing\nfault: limit calls\n";
    expect_limit(&rt, rt.alloc(), "w 1 get a\n", 65_537, 1627313, get_end)?;
    let page_end = "w1.4096 page a = page end\nfault: limit pages\n";
    expect_limit(&rt, rt.alloc(), "w 1 page a\n", 4_097, 105408, page_end)
}

// The inserts of a full leaf, and what they print.
fn full_leaf(alloc: Global) -> Result<(String, String), Fail> {
    let mut input = format!(in alloc; "memory 1 256\n")?;
    let mut output = String::new(alloc);
    for number in 1..80u32 {
        input.push_str(&format!(in alloc; "w 1 insert k{number:02} v\n")?)?;
        output.push_str(&format!(in alloc; "w1.{number} insert k{number:02} v = inserted\n")?)?;
    }
    Ok((input, output))
}

// A full leaf, gets of its first key, and what they print if there are marks enough.
fn many_gets(alloc: Global, gets: u32) -> Result<(String, String), Fail> {
    let (mut input, mut output) = full_leaf(alloc)?;
    for number in 1..gets {
        input.push_str("w 2 get k01\n")?;
        output.push_str(&format!(in alloc; "w2.{number} get k01 = value v\n")?)?;
    }
    input.push_str("run alone\n")?;
    Ok((input, output))
}

// What a run that met the limit on marks has printed is whole lines at the start of what the whole run prints, and then the
// fault line. How many bytes these lines have.
fn expect_start(rt: &impl Abort, held: &[u8], whole: &[u8]) -> usize {
    let end = b"\nfault: limit marks\n".as_slice();
    holds(rt, held.ends_with(end));
    let lines = &held[..held.len().saturating_sub(19)];
    holds(rt, lines.len() < whole.len() && whole.starts_with(lines));
    lines.len()
}

// With this limit on marks the gets of a full leaf meet it: the report is the first lines of the whole one. How many bytes these
// lines have.
fn expect_start_of_report<R: Threads + Wait + Abort + Sync>(
    rt: &R,
    alloc: Global,
    words: &[&str],
    input: &str,
    whole: &str,
) -> Result<usize, Fail> {
    let mut source = MemSource::of(alloc, input.as_bytes())?;
    let mut sink = MemSink::open(alloc, 2_000_000)?;
    let got = status(rt, alloc, words, &mut source, &mut sink);
    same(rt, got, 5);
    Ok(expect_start(rt, sink.bytes(), whole.as_bytes()))
}

#[test]
fn more_marks_than_fit_meet_the_limit(rt: HostRuntime) -> Result<(), Fail> {
    let alloc = rt.alloc();
    let (input, output) = many_gets(alloc, 50_000)?;
    let length = expect_start_of_report(&rt, alloc, &["run"], &input, &output)?;
    // at least all of the inserts
    assert!(rt; length > 79 * 27);
    Ok(())
}

#[test]
fn the_words_say_the_limit_on_marks(rt: HostRuntime) -> Result<(), Fail> {
    let alloc = rt.alloc();
    let (input, output) = many_gets(alloc, 100)?;
    for words in [
        ["run", "--marks", "33554432"].as_slice(),
        ["run", "--marks=33554432"].as_slice(),
        ["run", "--marks=100000"].as_slice(),
        ["run"].as_slice(),
    ] {
        expect_run(&rt, alloc, words, input.as_bytes(), &output, 0)?;
    }
    for words in [
        ["run", "--marks", "1024"].as_slice(),
        ["run", "--marks=1024"].as_slice(),
        ["run", "--marks", "4096"].as_slice(),
    ] {
        expect_start_of_report(&rt, alloc, words, &input, &output)?;
    }
    Ok(())
}

// So many inserts of different keys, each two digits and this text, and what they print: the last one finds no room.
fn inserts(alloc: Global, count: u32, text: &str) -> Result<(String, String), Fail> {
    let mut input = format!(in alloc; "memory 1 256\n")?;
    let mut output = String::new(alloc);
    for before in 0..count {
        let number = before + 1;
        let reply = if number == count {
            "full nodes"
        } else {
            "inserted"
        };
        input.push_str(&format!(in alloc; "w 1 insert {number:02}{text}\n")?)?;
        output.push_str(&format!(in alloc; "w1.{number} insert {number:02}{text} = {reply}\n")?)?;
    }
    Ok((input, output))
}

// So many inserts leave no room for the last one. A key that is there is still told, and another one still has no room.
fn expect_full<R: Threads + Wait + Abort + Sync>(
    rt: &R,
    alloc: Global,
    count: u32,
    text: &str,
) -> Result<(), Fail> {
    let (mut input, mut output) = inserts(alloc, count, text)?;
    input.push_str(&format!(in alloc;
        "w 2 insert 07{text}\nw 2 insert a %\nw 2 page a\nrun alone\n"
    )?)?;
    output.push_str(&format!(in alloc;
        "w2.1 insert 07{text} = exists\nw2.2 insert a % = full nodes\nw2.3 page a = page end\n"
    )?)?;
    expect_run(rt, alloc, &["run"], input.as_bytes(), &output, 0)
}

#[test]
fn an_insert_without_room_is_answered_full(rt: HostRuntime) -> Result<(), Fail> {
    // Records of three, of two, and of seventeen words, where a leaf has 238.
    expect_full(&rt, rt.alloc(), 80, " v")?;
    expect_full(&rt, rt.alloc(), 120, " %")?;
    expect_full(
        &rt,
        rt.alloc(),
        15,
        "cdefghijklmnopqrstuvwxyzABCDEFGHIJKLMNOPQRSTUVWXYZ0123 abcdefghijklmnopqrstuvwxyzABCDEFGHIJKLMNOPQRSTUVWXYZ0123",
    )
}

const TWO_CALLS: &[u8] = b"memory 16 64\nw 1 insert a 1\nw 1 get a\nrun alone\n";

const TWO_REPLIES: &[u8] = b"w1.1 insert a 1 = inserted\nw1.2 get a = value 1\n";

#[test]
fn a_failing_source_is_told(rt: HostRuntime) -> Result<(), Fail> {
    let mut source = FailSource::of(rt.alloc(), TWO_CALLS, 8, &[2])?;
    let mut sink = MemSink::open(rt.alloc(), 100)?;
    let got = status(&rt, rt.alloc(), &["run"], &mut source, &mut sink);
    same(&rt, got, 1);
    same(&rt, sink.bytes(), b"fault: read\n".as_slice());
    Ok(())
}

#[test]
fn a_sink_without_room_holds_the_first_bytes(rt: HostRuntime) -> Result<(), Fail> {
    let mut source = MemSource::of(rt.alloc(), TWO_CALLS)?;
    let mut sink = MemSink::open(rt.alloc(), 10)?;
    let got = status(&rt, rt.alloc(), &["run"], &mut source, &mut sink);
    same(&rt, got, 4);
    same(&rt, sink.bytes(), b"w1.1 inser".as_slice());
    Ok(())
}

// A sink that takes one byte a call and fails at this call.
fn expect_start_by<R: Threads + Wait + Abort + Sync>(
    rt: &R,
    alloc: Global,
    call: u64,
) -> Result<(), Fail> {
    let mut source = MemSource::of(alloc, TWO_CALLS)?;
    let mut sink = FailSink::open(alloc, 100, 1, &[call])?;
    let got = status(rt, alloc, &["run"], &mut source, &mut sink);
    let held = sink.bytes();
    holds(rt, TWO_REPLIES.starts_with(held));
    same(
        rt,
        got,
        if held.len() == TWO_REPLIES.len() {
            0
        } else {
            4
        },
    );
    Ok(())
}

#[test]
fn a_failing_sink_holds_a_start_of_the_report(rt: HostRuntime) -> Result<(), Fail> {
    for call in 1..60u64 {
        expect_start_by(&rt, rt.alloc(), call)?;
    }
    Ok(())
}
