//! Scripts that are read, and texts that break each rule.
ghost use Rattle.std.specs.Prelude.{◌≤◌, length};

use super::bench::{holds, same};
use bz_call::Call;
use bz_key::{Key, Payload};
use bz_script::{
    Item, ItemList, Plan, SCRIPT_BYTES, Turn, TurnList, next_draw, read_number, read_script,
};
use std::alloc::{AllocError, Global};
use std::process::Abort;
use std::test::Fail;

// What the reader says of a text: the numbers of its memory and of its items, or its fault.
fn reading(alloc: Global, text: &[u8], memory: Option<(u32, u32)>) -> Result<String, AllocError>
    requires { length text.now ≤ SCRIPT_BYTES }
{
    match read_script(alloc, text, memory) {
        Ok(script) => {
            let count = script.items.items().len();
            format!(in alloc; "{} {} {count}", script.nodes, script.swaps)
        }
        Err(fault) => format!(in alloc; "{fault}"),
    }
}

fn expect_reading(
    rt: &impl Abort,
    alloc: Global,
    text: &[u8],
    memory: Option<(u32, u32)>,
    want: &str,
) -> Result<(), Fail> {
    assert!(rt; text.len() <= SCRIPT_BYTES);
    let got = reading(alloc, text, memory)?;
    same(rt, got.as_str(), want);
    Ok(())
}

// Each row is a text, with `/` for a line feed, and what the reader says of it behind what stands before.
fn expect_rows(
    rt: &impl Abort,
    alloc: Global,
    before: &str,
    rows: &str,
    memory: Option<(u32, u32)>,
) -> Result<(), Fail> {
    for row in rows.lines() {
        let Some((text, want)) = row.split_once(" => ") else {
            return Err(Fail::from("a row without its answer"));
        };
        let text = text.replace(alloc, "/", "\n")?;
        let text = format!(in alloc; "{before}{text}")?;
        expect_reading(rt, alloc, text.as_bytes(), memory, want)?;
    }
    Ok(())
}

const START: &str = "memory 1 1\n";

#[test]
fn answers_the_first_broken_rule(rt: HostRuntime) -> Result<(), Fail> {
    let rows = "\
/ => line 1: memory expected
 => line 1: memory expected
memory 1 1 => line 1: line feed expected
bad => line 1: line feed expected
Memory 1 1/ => line 1: memory expected
 memory 1 1/ => line 1: memory expected
w 1 get a/ => line 1: memory expected
memory/ => line 1: wrong number of words
memory 1/ => line 1: wrong number of words
memory 1 1 / => line 1: wrong number of words
memory  1 1/ => line 1: wrong number of words
memory 1  1/ => line 1: wrong number of words
memory 0 1/ => line 1: bad number
memory 16385 1/ => line 1: bad number
memory 1 0/ => line 1: bad number
memory 1 65537/ => line 1: bad number
memory 01 1/ => line 1: bad number
memory +1 1/ => line 1: bad number
memory 1 -1/ => line 1: bad number
memory 1 100000000000000000000/ => line 1: bad number
memory 1 18446744073709551616/ => line 1: bad number
memory 1 18446744073709551617/ => line 1: bad number
memory 1 1\r/ => line 1: bad number
memory 1 / => line 1: bad number
memory 1 1/w 1 get a => line 2: line feed expected
memory 1 1// => line 2: unknown word
memory 1 1//run alone/ => line 2: unknown word
memory 1 1/run alone// => line 3: unknown word
memory 1 1/ w 1 get a/ => line 2: unknown word
memory 1 1/#/ => line 2: unknown word
memory 1 1/wrong/ => line 2: unknown word
memory 1 1/w/ => line 2: wrong number of words
memory 1 1/w 1/ => line 2: wrong number of words
memory 1 1/run/ => line 2: wrong number of words
memory 1 1/run / => line 2: unknown word
memory 1 1/w 0 put a b/ => line 2: unknown word
memory 1 1/w 0 delete a/ => line 2: bad worker
memory 1 1/w 1 delete a b/ => line 2: wrong number of words
memory 1 1/w 1 update a/ => line 2: wrong number of words
memory 1 1/w 1 upsert a !/ => line 2: bad payload
memory 1 1/w 0 Page a/ => line 2: unknown word
memory 1 1/w  1 get a/ => line 2: unknown word
memory 1 1/run thread/ => line 2: unknown word
memory 1 1/cuts 1 1/ => line 2: unknown word
memory 1 1/power on/ => line 2: wrong number of words
memory 1 1/run alone now/ => line 2: wrong number of words
memory 1 1/w 0 get/ => line 2: wrong number of words
memory 1 1/w 0 get a b/ => line 2: wrong number of words
memory 1 1/w 0 insert a/ => line 2: wrong number of words
memory 1 1/w 0 insert a b c/ => line 2: wrong number of words
memory 1 1/w 0 insert ! !/ => line 2: bad worker
memory 1 1/w 65 get !/ => line 2: bad worker
memory 1 1/w 01 get a/ => line 2: bad worker
memory 1 1/w x get a/ => line 2: bad worker
memory 1 1/w 257 get a/ => line 2: bad worker
memory 1 1/w 1 insert ! !/ => line 2: bad key
memory 1 1/w 1 insert  a/ => line 2: bad key
memory 1 1/w 1 get %/ => line 2: bad key
memory 1 1/w 1 get %0a/ => line 2: bad key
memory 1 1/w 1 get %41/ => line 2: bad key
memory 1 1/w 1 get %2/ => line 2: bad key
memory 1 1/w 1 get abcdefghijklmnopqrstuvwxyzABCDEFGHIJKLMNOPQRSTUVWXYZ01234/ => line 2: bad key
memory 1 1/w 1 insert a !/ => line 2: bad payload
memory 1 1/w 1 insert a / => line 2: bad payload
memory 1 1/w 1 insert a %%/ => line 2: bad payload
memory 1 1/w 1 insert a abcdefghijklmnopqrstuvwxyzABCDEFGHIJKLMNOPQRSTUVWXYZ01234/ => line 2: bad payload
memory 1 1/memory 1 1/ => line 2: wrong order
memory 1 1/memory 1/ => line 2: wrong number of words
memory 1 1/memory 0 1/ => line 2: bad number
memory 1 1/run alone/memory 2 2/ => line 3: wrong order
memory 1 1/run alone/bad/worse => line 3: unknown word
memory 0 1/bad => line 1: bad number
memory 1 1/run alone/w 0 get a/w 1 get !/ => line 3: bad worker
memory 1 1/run alone/w 9 get !/w 0 get a/ => line 3: bad key";
    expect_rows(&rt, rt.alloc(), "", rows, None)?;
    Ok(())
}

#[test]
fn answers_the_first_broken_rule_of_a_page(rt: HostRuntime) -> Result<(), Fail> {
    let rows = "\
memory 1 1/w 0 page/ => line 2: wrong number of words
memory 1 1/w 0 page a b/ => line 2: wrong number of words
memory 1 1/w 0 page !/ => line 2: bad worker
memory 1 1/w 1 page !/ => line 2: bad key
memory 1 1/w 1 page / => line 2: bad key";
    expect_rows(&rt, rt.alloc(), "", rows, None)?;
    Ok(())
}

#[test]
fn answers_the_first_broken_rule_of_cuts_and_power(rt: HostRuntime) -> Result<(), Fail> {
    let rows = "\
cut/ => line 2: wrong number of words
cut x/ => line 2: wrong number of words
cut 0 x y/ => line 2: wrong number of words
cut 0 x/ => line 2: bad number
cut 33554433 0/ => line 2: bad number
cut 1 18446744073709551616/ => line 2: bad number
cut 33554432 18446744073709551615/ => 1 1 1
power / => line 2: wrong number of words
power/power/ => 1 1 2";
    expect_rows(&rt, rt.alloc(), START, rows, None)?;
    // a second cut while one is armed
    let rows = "\
cut 1 0/cut 1 0/ => line 3: wrong order
cut 1 0/w 1 get a/cut 2 1/ => line 4: wrong order
cut 1 0/run alone/cut 1 0/power/ => 1 1 4";
    expect_rows(&rt, rt.alloc(), START, rows, None)?;
    // a run after an armed one, or after an armed power on
    let rows = "\
cut 1 0/run alone/run alone/ => line 4: wrong order
cut 1 0/run alone/run list 1/ => line 4: wrong order
cut 1 0/power/run turns 1/ => line 4: wrong order
cut 1 0/run alone/cut 1 0/power/run alone/ => line 6: wrong order
cut 1 0/run alone/cut 1 0/power/power/run alone/ => 1 1 6
cut 1 0/run alone/power/run alone/run alone/ => 1 1 5";
    expect_rows(&rt, rt.alloc(), START, rows, None)?;
    // threads while a cut is armed, or after an armed run or power on
    let rows = "\
cut 1 0/run threads/ => line 3: wrong order
cut 1 0/w 1 get a/run threads/ => line 4: wrong order
cut 1 0/run alone/run threads/ => line 4: wrong order
cut 1 0/power/run threads/ => line 4: wrong order
cut 1 0/run alone/power/run threads/ => 1 1 4
run threads/cut 1 0/power/power/run threads/ => 1 1 5";
    expect_rows(&rt, rt.alloc(), START, rows, None)?;
    // Order comes last
    let rows = "\
cut 1 0/cut 1 x/ => line 3: bad number
cut 1 0/run alone/run list 0/ => line 4: bad worker";
    expect_rows(&rt, rt.alloc(), START, rows, None)?;
    // a cut that no line uses
    let rows = "\
run alone/cut 1 0/ => 1 1 2";
    expect_rows(&rt, rt.alloc(), START, rows, None)?;
    Ok(())
}

#[test]
fn answers_the_first_broken_rule_of_a_run(rt: HostRuntime) -> Result<(), Fail> {
    let rows = "\
run List 1/ => line 2: unknown word
run turn 1/ => line 2: unknown word
run  list 1/ => line 2: unknown word
run list/ => line 2: wrong number of words
run turns/ => line 2: wrong number of words
run turns 1 2/ => line 2: wrong number of words
run turns ! !/ => line 2: wrong number of words
run list / => line 2: bad worker
run list 1 / => line 2: bad worker
run list  1/ => line 2: bad worker
run list 0/ => line 2: bad worker
run list 65/ => line 2: bad worker
run list 01/ => line 2: bad worker
run list x/ => line 2: bad worker
run list */ => line 2: bad worker
run list *3/ => line 2: bad worker
run list 0*0/ => line 2: bad worker
run list 1*/ => line 2: bad number
run list 1*0/ => line 2: bad number
run list 1*65537/ => line 2: bad number
run list 1*01/ => line 2: bad number
run list 1*-1/ => line 2: bad number
run list 1*2*3/ => line 2: bad number
run list 1**3/ => line 2: bad number
run list 1*4294967297/ => line 2: bad number
run list 1 2*0 0/ => line 2: bad number
run list 1 0 2*0/ => line 2: bad worker
run turns x/ => line 2: bad number
run turns / => line 2: bad number
run turns 01/ => line 2: bad number
run turns -1/ => line 2: bad number
run turns 18446744073709551616/ => line 2: bad number
run Threads/ => line 2: unknown word
run threads 1/ => line 2: wrong number of words
run threads / => line 2: wrong number of words
run list 1/bad/ => line 3: unknown word
run list 1*1 2/run turns 1/memory 1 1/ => line 4: wrong order";
    expect_rows(&rt, rt.alloc(), START, rows, None)?;
    Ok(())
}

#[test]
fn reads_any_bytes(rt: HostRuntime) -> Result<(), Fail> {
    let alloc = rt.alloc();
    expect_reading(&rt, alloc, b"\0", None, "line 1: line feed expected")?;
    expect_reading(&rt, alloc, b"\xff\n", None, "line 1: memory expected")?;
    expect_reading(
        &rt,
        alloc,
        b"memory 1 1\n\0\n",
        None,
        "line 2: unknown word",
    )?;
    expect_reading(
        &rt,
        alloc,
        b"memory 1 1\nw 1 get \xff\n",
        None,
        "line 2: bad key",
    )?;
    expect_reading(
        &rt,
        alloc,
        b"memory 1 1\nw \0 get a\n",
        None,
        "line 2: bad worker",
    )?;
    Ok(())
}

#[test]
fn compares_the_numbers_of_an_image(rt: HostRuntime) -> Result<(), Fail> {
    let rows = "\
memory 10 8/ => 10 8 0
memory 11 8/ => line 1: bad number
memory 10 9/ => line 1: bad number
memory 8 10/ => line 1: bad number
memory 11/ => line 1: wrong number of words
memory 10 8/memory 11 8/ => line 2: wrong order";
    expect_rows(&rt, rt.alloc(), "", rows, Some((10, 8)))?;
    Ok(())
}

#[test]
fn reads_scripts(rt: HostRuntime) -> Result<(), Fail> {
    let rows = "\
memory 1 1/ => 1 1 0
memory 16384 65536/ => 16384 65536 0
memory 1 1/run alone/run alone/ => 1 1 2
memory 1 1/w 64 get abcdefghijklmnopqrstuvwxyzABCDEFGHIJKLMNOPQRSTUVWXYZ0123/ => 1 1 1
memory 1 1/w 1 get %00%20%25/ => 1 1 1
memory 1 1/w 1 page %3D/run alone/ => 1 1 2
memory 1 1/w 1 update a 1/w 1 upsert b %/w 1 delete a/ => 1 1 3";
    expect_rows(&rt, rt.alloc(), "", rows, None)?;
    Ok(())
}

// Whether two calls are the same.
fn same_call(a: &Call, b: &Call) -> bool {
    match (a, b) {
        (Call::Insert(key, payload), Call::Insert(other, put))
        | (Call::Update(key, payload), Call::Update(other, put))
        | (Call::Upsert(key, payload), Call::Upsert(other, put)) => key == other && payload == put,
        (Call::Delete(key), Call::Delete(other))
        | (Call::Get(key), Call::Get(other))
        | (Call::Page(key), Call::Page(other)) => key == other,
        _ => false,
    }
}

fn expect_call(rt: &impl Abort, item: &Item, worker: u8, call: Call) {
    match item {
        Item::Queue(w, queued) => holds(rt, *w == worker && same_call(queued, &call)),
        _ => assert!(rt; false),
    }
}

#[test]
fn gives_the_calls_of_every_kind(rt: HostRuntime) -> Result<(), Fail> {
    let a = Key::of(b"a")?;
    let one = Payload::of(b"1")?;
    let empty = Payload::of(b"")?;
    let text = b"memory 1 1\nw 1 delete a\nw 2 update a 1\nw 3 upsert a %\n";
    let script = read_script(rt.alloc(), text, None)?;
    let items = script.items.items();
    assert!(rt; items.len() == 3);
    expect_call(&rt, &items[0], 1, Call::Delete(a));
    expect_call(&rt, &items[1], 2, Call::Update(a, one));
    expect_call(&rt, &items[2], 3, Call::Upsert(a, empty));
    Ok(())
}

#[test]
fn gives_the_items_in_their_order(rt: HostRuntime) -> Result<(), Fail> {
    let a = Key::of(b"a")?;
    let b = Key::of(b"\0b")?;
    let one = Payload::of(b"1")?;
    let empty = Payload::of(b"")?;
    let text =
        b"memory 64 16\nw 1 insert a 1\nw 64 insert %00b %\nw 1 get a\nw 9 page a\nrun alone\n";
    let script = read_script(rt.alloc(), text, None)?;
    holds(&rt, script.nodes == 64 && script.swaps == 16);
    let items = script.items.items();
    assert!(rt; items.len() == 5);
    expect_call(&rt, &items[0], 1, Call::Insert(a, one));
    expect_call(&rt, &items[1], 64, Call::Insert(b, empty));
    expect_call(&rt, &items[2], 1, Call::Get(a));
    expect_call(&rt, &items[3], 9, Call::Page(a));
    holds(&rt, matches!(items[4], Item::Run(Plan::Alone)));
    Ok(())
}

// The plan that a line asks for is a list of these turns.
fn expect_turns(rt: &impl Abort, alloc: Global, text: &[u8], want: &[Turn]) -> Result<(), Fail> {
    assert!(rt; text.len() <= SCRIPT_BYTES);
    let script = read_script(alloc, text, None)?;
    let items = script.items.items();
    assert!(rt; items.len() == 1);
    match &items[0] {
        Item::Run(Plan::List(list)) => same(rt, list.turns(), want),
        _ => assert!(rt; false),
    }
    Ok(())
}

#[test]
fn gives_the_turns_of_a_list(rt: HostRuntime) -> Result<(), Fail> {
    let alloc = rt.alloc();
    let one = [Turn::Times(1, 1)];
    expect_turns(&rt, alloc, b"memory 1 1\nrun list 1\n", &one)?;
    expect_turns(&rt, alloc, b"memory 1 1\nrun list 1*1\n", &one)?;
    let most = [Turn::Times(64, 65_536)];
    expect_turns(&rt, alloc, b"memory 1 1\nrun list 64*65536\n", &most)?;
    let three = [Turn::Times(2, 3), Turn::Times(1, 1), Turn::Times(2, 4000)];
    expect_turns(&rt, alloc, b"memory 1 1\nrun list 2*3 1 2*4000\n", &three)?;
    Ok(())
}

#[test]
fn gives_the_seed_of_a_run(rt: HostRuntime) -> Result<(), Fail> {
    let text = b"memory 1 1\nrun turns 0\nrun turns 18446744073709551615\n";
    let script = read_script(rt.alloc(), text, None)?;
    let items = script.items.items();
    assert!(rt; items.len() == 2);
    holds(&rt, matches!(items[0], Item::Run(Plan::Turns(0))));
    holds(&rt, matches!(items[1], Item::Run(Plan::Turns(u64::MAX))));
    Ok(())
}

#[test]
fn keeps_the_turns_that_a_list_is_opened_with(rt: HostRuntime) -> Result<(), Fail> {
    let turns = [Turn::Times(3, 7), Turn::Times(1, 2)];
    let list = TurnList::open(rt.alloc(), &turns)?;
    same(&rt, list.turns(), turns.as_slice());
    let none = TurnList::open(rt.alloc(), &[])?;
    same(&rt, none.turns().len(), 0);
    Ok(())
}

#[test]
fn draws_as_the_generator_does(rt: HostRuntime) {
    let mut x = 0;
    same(&rt, next_draw(&mut x), 335_903_614);
    same(&rt, x, 1_442_695_040_888_963_407);
    let mut y = 1;
    same(&rt, next_draw(&mut y), 1_817_669_548);
    same(&rt, y, 7_806_831_264_735_756_412);
}

// Whether a text is read as the number that it spells.
fn is_number(alloc: Global, text: &str) -> Result<bool, AllocError> {
    match read_number(text.as_bytes()) {
        Some(number) => Ok(format!(in alloc; "{number}")?.as_str() == text),
        None => Ok(false),
    }
}

#[test]
fn reads_numbers(rt: HostRuntime) -> Result<(), Fail> {
    for text in "0 7 9999999999999999999 18446744073709551615".split(' ') {
        holds(&rt, is_number(rt.alloc(), text)?);
    }
    for text in "|00|07|-7|+7|7 |7a|/|:|18446744073709551616|100000000000000000000".split('|') {
        holds(&rt, read_number(text.as_bytes()).is_none());
    }
    Ok(())
}

#[test]
fn takes_as_many_items_as_there_is_room_for(rt: HostRuntime) -> Result<(), Fail> {
    let mut items = ItemList::open(rt.alloc(), 5)?;
    items.push(Item::Run(Plan::Alone));
    items.push(Item::Run(Plan::Threads));
    items.push(Item::Queue(9, Call::Get(Key::of(b"a")?)));
    items.push(Item::Run(Plan::Turns(1)));
    items.push(Item::Run(Plan::List(TurnList::open(rt.alloc(), &[])?)));
    assert!(rt; items.items().len() == 5);
    holds(&rt, matches!(items.items()[1], Item::Run(Plan::Threads)));
    Ok(())
}

#[test]
fn reads_a_script_of_the_greatest_length(rt: HostRuntime) -> Result<(), Fail> {
    let mut text: Vec<u8> = Vec::with_capacity(rt.alloc(), SCRIPT_BYTES)?;
    text.extend_from_slice(b"memory 1 1\nw 1 get abcdef\n")?;
    for _ in 0..104_855 {
        text.extend_from_slice(b"run alone\n")?;
    }
    same(&rt, text.len(), SCRIPT_BYTES);
    expect_reading(&rt, rt.alloc(), &text, None, "1 1 104856")
}

#[test]
fn reads_a_list_of_the_greatest_length(rt: HostRuntime) -> Result<(), Fail> {
    let mut text: Vec<u8> = Vec::with_capacity(rt.alloc(), SCRIPT_BYTES)?;
    text.extend_from_slice(b"memory 1 1\nrun list ")?;
    for _ in 0..524_277 {
        text.extend_from_slice(b"1 ")?;
    }
    text.extend_from_slice(b"2\n")?;
    same(&rt, text.len(), SCRIPT_BYTES);
    expect_reading(&rt, rt.alloc(), &text, None, "1 1 1")
}
