//! Small journals, their lines to the byte.
use crate::{ReadError, read_journal, write_journal};
use bz_call::{Call, Reply};
use bz_io::MemSink;
use bz_key::{Key, PAGE_PAIRS, Payload};
use bz_layout::Config;
use bz_mark::{Journal, Mark};
use std::alloc::Global;
use std::test::Fail;

const CALLS: &[u8] = b"{\"format\":2,\"nodes\":1,\"start\":[[0,2],[1,1],[3,1],[4,1]],\"swaps\":1}
{\"call\":[\"insert\",\"a\",\"1\"],\"mark\":\"begin\",\"n\":1,\"w\":1}
{\"at\":1,\"mark\":\"end\",\"n\":1,\"reply\":[\"page\",[[\"a\",\"%20\"]],null],\"w\":1}
";

const ACTS: &[u8] = b"{\"format\":2,\"nodes\":1,\"start\":[[3,1]],\"swaps\":1}
{\"a\":16,\"mark\":\"load\",\"v\":18446744073709551615,\"w\":1}
{\"a\":17,\"found\":3,\"mark\":\"cas\",\"new\":2,\"old\":1,\"w\":64}
{\"line\":2,\"mark\":\"ask\",\"w\":1}
{\"mark\":\"fence\",\"w\":1}
{\"mark\":\"effect\",\"n\":1,\"w\":1}
{\"mark\":\"cut\"}
";

const HEAD: &[u8] = b"{\"format\":2,\"nodes\":1,\"start\":[[0,2],[1,1],[3,1],[4,1]],\"swaps\":1}\n";

const BROKEN: [&[u8]; 12] = [
    b"{\"mark\":\"cut\"}",
    b"{\"mark\":\"cut\"} \n",
    b"{\"mark\": \"cut\"}\n",
    b"{\"mark\":\"fence\",\"w\":65}\n",
    b"{\"mark\":\"fence\",\"w\":1e0}\n",
    b"{\"mark\":\"fence\",\"w\":-0}\n",
    b"{\"w\":1,\"mark\":\"fence\"}\n",
    b"{\"mark\":\"fence\",\"w\":1,\"w\":1}\n",
    b"{\"a\":0,\"mark\":\"load\",\"v\":18446744073709551616,\"w\":1}\n",
    b"{\"a\":4096,\"mark\":\"evict\"}\n",
    b"{\"at\":1,\"mark\":\"end\",\"n\":1,\"reply\":[\"exists\"],\"w\":1}\n",
    b"\n",
];

/// The lines of a small journal, and below each byte whether there is another journal's line with the next lower or higher
/// byte in its place.
const CHANGED: [(&str, &str); 3] = [
    (
        r#"{"format":2,"nodes":1,"start":[[3,1]],"swaps":1}"#,
        "................................+...............",
    ),
    (
        r#"{"a":16,"mark":"load","v":5,"w":1}"#,
        "......+...................+.....+.",
    ),
    (r#"{"mark":"cut"}"#, ".............."),
];

/// Sizes as the first lines here tell them.
fn small() -> Config {
    Config {
        nodes: 1,
        swaps: 1,
        workers: 1,
        marks: 1024,
        calls: 1,
        pages: 1,
    }
}

#[test]
fn calls_and_pages_are_written(rt: HostRuntime) -> Result<(), Fail> {
    let alloc = rt.alloc();
    let key = Key::of(b"a")?;
    let payload = Payload::of(b"1")?;
    let blank = Payload::of(b" ")?;
    let mut journal = Journal::open(alloc, &[2, 1, 0, 1, 1, 0, 0, 0], 2, 1, 1)?;
    let page = journal.add_page(&[(key, blank)]);
    let call = Call::Insert(key, payload);
    let reply = Reply::Page { page, next: None };
    journal.push(Mark::Begin { w: 1, n: 1, call });
    journal.push(Mark::End {
        w: 1,
        n: 1,
        reply,
        at: 1,
    });
    let mut sink = MemSink::open(alloc, 4096)?;
    assert!(rt; write_journal(alloc, &small(), &journal, &mut sink).is_ok());
    assert!(rt; sink.bytes() == CALLS);
    Ok(())
}

#[test]
fn acts_are_written(rt: HostRuntime) -> Result<(), Fail> {
    let alloc = rt.alloc();
    let mut journal = Journal::open(alloc, &[0, 0, 0, 1, 0, 0, 0, 0], 6, 0, 0)?;
    journal.push(Mark::Load {
        w: 1,
        a: 16,
        v: u64::MAX,
    });
    journal.push(Mark::Cas {
        w: 64,
        a: 17,
        old: 1,
        new: 2,
        found: 3,
    });
    journal.push(Mark::Ask { w: 1, line: 2 });
    journal.push(Mark::Fence { w: 1 });
    journal.push(Mark::Effect { w: 1, n: 1 });
    journal.push(Mark::Cut);
    let mut sink = MemSink::open(alloc, 4096)?;
    assert!(rt; write_journal(alloc, &small(), &journal, &mut sink).is_ok());
    assert!(rt; sink.bytes() == ACTS);
    Ok(())
}

/// What is read is written again to the byte.
#[test]
fn lines_are_read_back(rt: HostRuntime) -> Result<(), Fail> {
    let alloc = rt.alloc();
    for text in [CALLS, ACTS, HEAD] {
        match read_journal(alloc, text) {
            Ok((config, journal)) => {
                let mut sink = MemSink::open(alloc, 4096)?;
                assert!(rt; write_journal(alloc, &config, &journal, &mut sink).is_ok());
                assert!(rt; sink.bytes() == text);
            }
            Err(_) => assert!(rt; false),
        }
    }
    Ok(())
}

/// No bytes are no journal, and the first line alone is one.
#[test]
fn the_first_line_is_needed(rt: HostRuntime) -> Result<(), Fail> {
    let alloc = rt.alloc();
    assert_eq!(rt; read_journal(alloc, b"").err(), Some(ReadError::Line(1)));
    assert_eq!(rt; read_journal(alloc, HEAD).err(), None);
    Ok(())
}

/// Behind the first line each of these is no line.
#[test]
fn broken_lines_are_named(rt: HostRuntime) -> Result<(), Fail> {
    let alloc = rt.alloc();
    for line in BROKEN {
        let mut text: Vec<u8> = Vec::new(alloc);
        text.extend_from_slice(HEAD)?;
        text.extend_from_slice(line)?;
        assert_eq!(rt; read_journal(alloc, &text).err(), Some(ReadError::Line(2)));
    }
    Ok(())
}

/// Each byte of a small journal changed to the next one, in turn: the line in which it stands is named, or it is another journal.
#[test]
fn a_changed_byte_is_told(rt: HostRuntime) -> Result<(), Fail> {
    let alloc = rt.alloc();
    let mut whole: Vec<u8> = Vec::new(alloc);
    let mut answers: Vec<Option<ReadError>> = Vec::new(alloc);
    let mut number = 1u32;
    for (line, others) in CHANGED {
        whole.extend_from_slice(line.as_bytes())?;
        whole.push(b'\n')?;
        for other in others.bytes() {
            answers.push(if other == b'+' {
                None
            } else {
                Some(ReadError::Line(number))
            })?;
        }
        answers.push(Some(ReadError::Line(number)))?;
        number = number.saturating_add(1);
    }
    assert_eq!(rt; answers.len(), whole.len());
    for (place, answer) in answers.iter().enumerate() {
        let mut text = whole.clone()?;
        if let Some(byte) = text.get_mut(place) {
            *byte ^= 1;
        }
        assert_eq!(rt; read_journal(alloc, &text).err(), *answer);
    }
    Ok(())
}

/// What reading answers of an End that tells a page of so many pairs.
fn page_answer(alloc: Global, pairs: usize) -> Result<Option<ReadError>, Fail> {
    let mut text: Vec<u8> = Vec::new(alloc);
    text.extend_from_slice(HEAD)?;
    text.extend_from_slice(b"{\"at\":0,\"mark\":\"end\",\"n\":1,\"reply\":[\"page\",[")?;
    for pair in 0..pairs {
        if pair > 0 {
            text.push(b',')?;
        }
        text.extend_from_slice(b"[\"a\",\"1\"]")?;
    }
    text.extend_from_slice(b"],null],\"w\":1}\n")?;
    Ok(read_journal(alloc, &text).err())
}

/// What reading answers of a line in which so many arrays stand one in the other.
fn nested_answer(alloc: Global, depth: usize) -> Result<Option<ReadError>, Fail> {
    let mut text: Vec<u8> = Vec::new(alloc);
    text.extend_from_slice(HEAD)?;
    for bracket in [b'[', b']'] {
        for _ in 0..depth {
            text.push(bracket)?;
        }
    }
    text.push(b'\n')?;
    Ok(read_journal(alloc, &text).err())
}

/// A page has room for so many pairs, and for no more; arrays one in the other are no mark, however deep.
#[test]
fn what_is_too_long_or_too_deep_is_no_line(rt: HostRuntime) -> Result<(), Fail> {
    let alloc = rt.alloc();
    assert_eq!(rt; page_answer(alloc, PAGE_PAIRS)?, None);
    assert_eq!(rt;
        page_answer(alloc, PAGE_PAIRS + 1)?,
        Some(ReadError::Line(2))
    );
    assert_eq!(rt; nested_answer(alloc, 200)?, Some(ReadError::Line(2)));
    Ok(())
}
