//! Workloads: their summaries, and the reports of their scripts.
use super::bench::{same, status};
use bz_call::Call;
use bz_gen::{MOST_CALLS, generate};
use bz_io::{MemSink, MemSource};
use bz_key::{Key, Payload};
use bz_layout::MAX_WORKERS;
use bz_script::Item;
use std::alloc::Global;
use std::process::Abort;
use std::sync::Wait;
use std::test::Fail;
use std::thread::Threads;

// What a run of `bz` on these words and this input prints, and the status with which it ends.
fn run<R: Threads + Wait + Sync>(
    rt: &R,
    alloc: Global,
    words: &[&str],
    input: &[u8],
) -> Result<(String, u8), Fail> {
    let mut source = MemSource::of(alloc, input)?;
    let mut sink = MemSink::open(alloc, 1_000_000)?;
    let got = status(rt, alloc, words, &mut source, &mut sink);
    let text = std::str::from_utf8(sink.bytes())?.to_string(alloc)?;
    Ok((text, got))
}

// A call on a key alone, as its words.
fn asking(alloc: Global, word: &str, key: &Key) -> Result<String, Fail> {
    let key = std::str::from_utf8(key.bytes())?;
    Ok(format!(in alloc; "{word} {key}")?)
}

// A call that puts a payload, as its words.
fn putting(alloc: Global, word: &str, key: &Key, payload: &Payload) -> Result<String, Fail> {
    let key = std::str::from_utf8(key.bytes())?;
    let payload = std::str::from_utf8(payload.bytes())?;
    Ok(format!(in alloc; "{word} {key} {payload}")?)
}

fn words_of(alloc: Global, call: &Call) -> Result<String, Fail> {
    match call {
        Call::Insert(key, payload) => putting(alloc, "insert", key, payload),
        Call::Delete(key) => asking(alloc, "delete", key),
        Call::Update(key, payload) => putting(alloc, "update", key, payload),
        Call::Upsert(key, payload) => putting(alloc, "upsert", key, payload),
        Call::Get(key) => asking(alloc, "get", key),
        Call::Page(key) => asking(alloc, "page", key),
    }
}

// The workload of a seed, as a script.
fn script_of(
    rt: &impl Abort,
    alloc: Global,
    seed: u64,
    calls: u32,
    workers: u32,
) -> Result<String, Fail> {
    assert!(rt; calls >= 1 && calls <= MOST_CALLS);
    assert!(rt; workers >= 1 && workers <= MAX_WORKERS);
    let script = generate(alloc, seed, calls, workers)?;
    let mut text = String::new(alloc);
    text.push_str("memory 16384 65536\n")?;
    for item in script.items.items() {
        if let Item::Queue(worker, call) = item {
            let words = words_of(alloc, call)?;
            text.push_str(&format!(in alloc; "w {worker} {words}\n")?)?;
        }
    }
    text.push_str(&format!(in alloc; "run turns {seed}\n")?)?;
    Ok(text)
}

// How many lines of a report tell this reply.
fn count(report: &str, reply: &str) -> usize {
    report.lines().filter(|line| line.contains(reply)).count()
}

// The second line of the summary, by the lines of a report.
fn counts_of(alloc: Global, report: &str) -> Result<String, Fail> {
    let mut text = String::new(alloc);
    for word in [
        "inserted", "exists", "deleted", "updated", "missing", "value", "page", "full",
    ] {
        let reply = format!(in alloc; " = {word}")?;
        let number = count(report, &reply);
        text.push_str(&format!(in alloc; "{word} {number} ")?)?;
    }
    Ok(text)
}

#[test]
fn a_workload_prints_the_same_summary_twice(rt: HostRuntime) -> Result<(), Fail> {
    let alloc = rt.alloc();
    for words in [["work", "1", "20", "2"], ["work", "7", "2000", "8"]] {
        let first = printed(&rt, alloc, words.as_slice(), b"")?;
        let again = printed(&rt, alloc, words.as_slice(), b"not read")?;
        same(&rt, first.as_str(), again.as_str());
    }
    Ok(())
}

// The third line of the summary: each insert adds a pair, and each delete takes one out.
fn pairs_of(alloc: Global, report: &str) -> Result<String, Fail> {
    let left = count(report, " = inserted").saturating_sub(count(report, " = deleted"));
    Ok(format!(in alloc; "pairs {left}")?)
}

// What a run prints that ends with status 0.
fn printed<R: Threads + Wait + Abort + Sync>(
    rt: &R,
    alloc: Global,
    words: &[&str],
    input: &[u8],
) -> Result<String, Fail> {
    let (text, status) = run(rt, alloc, words, input)?;
    same(rt, status, 0);
    Ok(text)
}

// A summary has these lines, and no more.
fn has_lines(rt: &impl Abort, summary: &str, wanted: &[&str]) {
    let mut lines = summary.lines();
    for line in wanted {
        same(rt, lines.next(), Some(*line));
    }
    same(rt, lines.next(), None);
}

#[test]
fn a_summary_counts_the_lines_of_the_report(rt: HostRuntime) -> Result<(), Fail> {
    let alloc = rt.alloc();
    let script = script_of(&rt, alloc, 7, 2000, 8)?;
    let words = ["run", "--marks", "33554432"];
    let report = printed(&rt, alloc, words.as_slice(), script.as_bytes())?;
    let summary = printed(&rt, alloc, ["work", "7", "2000", "8"].as_slice(), b"")?;
    let (counts, pairs) = (counts_of(alloc, &report)?, pairs_of(alloc, &report)?);
    let wanted = [
        "work 2000 calls 8 workers",
        counts.trim_end(),
        pairs.as_str(),
    ];
    has_lines(&rt, &summary, wanted.as_slice());
    Ok(())
}

#[test]
fn a_workload_that_meets_the_limit_tells_it_alone(rt: HostRuntime) -> Result<(), Fail> {
    let alloc = rt.alloc();
    let words = ["work", "1", "20", "2", "--marks=1024"];
    let (text, status) = run(&rt, alloc, words.as_slice(), b"")?;
    same(&rt, status, 5);
    same(&rt, text.as_str(), "fault: limit marks\n");
    Ok(())
}

#[test]
fn a_workload_has_its_numbers_in_their_ranges(rt: HostRuntime) -> Result<(), Fail> {
    let alloc = rt.alloc();
    for words in [
        ["work", "18446744073709551616", "20", "2"],
        ["work", "1", "0", "2"],
        ["work", "1", "20001", "2"],
        ["work", "1", "20", "0"],
        ["work", "1", "20", "65"],
    ] {
        let (text, status) = run(&rt, alloc, words.as_slice(), b"")?;
        same(&rt, status, 2);
        same(&rt, text.as_str(), "fault: usage\n");
    }
    for words in [
        ["work", "18446744073709551615", "1", "64"],
        ["work", "0", "1", "1"],
    ] {
        let (_, status) = run(&rt, alloc, words.as_slice(), b"")?;
        same(&rt, status, 0);
    }
    Ok(())
}
