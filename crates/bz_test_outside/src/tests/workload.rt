//! Workloads against tables that were made elsewhere.
use super::bench::same;
use bz_call::Call;
use bz_gen::{MOST_CALLS, generate};
use bz_key::{Key, Payload};
use bz_layout::{MAX_NODES, MAX_SWAPS, MAX_WORKERS};
use bz_script::{Item, Plan};
use std::alloc::Global;
use std::process::Abort;
use std::test::Fail;

// A call on a key alone, as its words.
fn asking(alloc: Global, word: &str, key: &Key) -> Result<String, Fail> {
    let key = std::str::from_utf8(key.bytes())?;
    Ok(format!(in alloc; "{word} {key}")?)
}

// A call that puts a payload, as its words.
fn putting(alloc: Global, word: &str, key: &Key, payload: &Payload) -> Result<String, Fail> {
    let key = std::str::from_utf8(key.bytes())?;
    let payload = std::str::from_utf8(payload.bytes())?;
    Ok(format!(in alloc; "{word} {key} {payload}")?)
}

fn shown_call(alloc: Global, call: &Call) -> Result<String, Fail> {
    match call {
        Call::Insert(key, payload) => putting(alloc, "insert", key, payload),
        Call::Delete(key) => asking(alloc, "delete", key),
        Call::Update(key, payload) => putting(alloc, "update", key, payload),
        Call::Upsert(key, payload) => putting(alloc, "upsert", key, payload),
        Call::Get(key) => asking(alloc, "get", key),
        Call::Page(key) => asking(alloc, "page", key),
    }
}

// An item as its line.
fn shown(alloc: Global, item: &Item) -> Result<String, Fail> {
    match item {
        Item::Queue(worker, call) => {
            let words = shown_call(alloc, call)?;
            Ok(format!(in alloc; "w {worker} {words}")?)
        }
        Item::Run(Plan::Turns(seed)) => Ok(format!(in alloc; "run turns {seed}")?),
        Item::Run(_) => Ok(format!(in alloc; "run")?),
        Item::Arm { flush, seed } => Ok(format!(in alloc; "cut {flush} {seed}")?),
        Item::Power => Ok(format!(in alloc; "power")?),
    }
}

// An item is this line.
fn is_line(rt: &impl Abort, alloc: Global, item: &Item, line: &str) -> Result<(), Fail> {
    let got = shown(alloc, item)?;
    same(rt, got.as_str(), line);
    Ok(())
}

// The items are these lines.
fn are_lines(rt: &impl Abort, alloc: Global, items: &[Item], want: &str) -> Result<(), Fail> {
    same(rt, items.len(), want.lines().count());
    for (item, line) in items.iter().zip(want.lines()) {
        is_line(rt, alloc, item, line)?;
    }
    Ok(())
}

fn expect_lines(
    rt: &impl Abort,
    alloc: Global,
    seed: u64,
    calls: u32,
    workers: u32,
    want: &str,
) -> Result<(), Fail> {
    assert!(rt; calls >= 1 && calls <= MOST_CALLS);
    assert!(rt; workers >= 1 && workers <= MAX_WORKERS);
    let script = generate(alloc, seed, calls, workers)?;
    same(rt, script.nodes, MAX_NODES);
    same(rt, script.swaps, MAX_SWAPS);
    are_lines(rt, alloc, script.items.items(), want)
}

const FEW: &str = "\
w 1 insert k00002 v1
w 2 insert k00004 v2
w 1 get k00001
run turns 0
";

const KINDS: &str = "\
w 5 page k00026
w 3 insert k00039 v2
w 1 insert k00038 v3
w 6 page k00030
w 2 insert k00019 v5
w 5 delete k00039
w 2 get k00033
w 3 update k00036 v8
w 4 insert k00001 v9
w 4 insert k00025 v10
w 1 delete k00021
w 7 delete k00038
w 3 get k00025
w 1 delete k00031
w 1 upsert k00000 v15
w 1 insert k00009 v16
w 5 upsert k00024 v17
w 5 insert k00016 v18
w 6 page k00016
w 2 upsert k00007 v20
run turns 7
";

const GREATEST: &str = "\
w 18 page k00003
w 6 insert k00004 v2
w 44 page k00003
run turns 18446744073709551615
";

#[test]
fn makes_the_calls_of_the_table(rt: HostRuntime) -> Result<(), Fail> {
    let alloc = rt.alloc();
    expect_lines(&rt, alloc, 0, 3, 2, FEW)?;
    expect_lines(&rt, alloc, 7, 20, 8, KINDS)?;
    expect_lines(&rt, alloc, u64::MAX, 3, 64, GREATEST)
}

// The item at a place is this line.
fn has_line(
    rt: &impl Abort,
    alloc: Global,
    items: &[Item],
    place: usize,
    line: &str,
) -> Result<(), Fail> {
    assert!(rt; place < items.len());
    is_line(rt, alloc, &items[place], line)
}

#[test]
fn makes_the_longest_workload(rt: HostRuntime) -> Result<(), Fail> {
    let alloc = rt.alloc();
    let script = generate(alloc, 7, MOST_CALLS, MAX_WORKERS)?;
    let items = script.items.items();
    same(&rt, items.len(), 20_001);
    has_line(&rt, alloc, items, 9_998, "w 19 insert k27742 v9999")?;
    has_line(&rt, alloc, items, 9_999, "w 62 get k07052")?;
    has_line(&rt, alloc, items, 19_998, "w 50 insert k08726 v19999")?;
    has_line(&rt, alloc, items, 19_999, "w 53 insert k05023 v20000")?;
    has_line(&rt, alloc, items, 20_000, "run turns 7")
}
