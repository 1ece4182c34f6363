//! Vectors of the formats, a table of spellings, and the room of a page.

use super::bench::same;
use bz_key::{
    Key, KeyError, PAGE_PAIRS, PageBuf, Payload, PayloadError, SPELLED_BYTES, read_key,
    read_payload, spell,
};
use std::alloc::Global;
use std::fmt::Display;
use std::process::Abort;
use std::test::Fail;

const LONGEST: &[u8; 56] = b"abcdefghijklmnopqrstuvwxyzABCDEFGHIJKLMNOPQRSTUVWXYZ0123";

const TOO_LONG: &[u8; 57] = b"abcdefghijklmnopqrstuvwxyzABCDEFGHIJKLMNOPQRSTUVWXYZ01234";

// A key is packed into these words.
fn packs(rt: &impl Abort, bytes: &[u8], words: &[u64]) -> Result<(), Fail> {
    let key = Key::of(bytes)?;
    same(rt, key.words(), words.len());
    for i in 0..key.words() {
        same(rt, Some(&key.word(i)), words.get(i));
    }
    same(rt, Key::from_words(bytes.len(), words), Some(key));
    Ok(())
}

#[test]
fn packs_as_the_formats_say(rt: HostRuntime) -> Result<(), Fail> {
    packs(&rt, b"a", &[0x0061_0000_0000_0000])?;
    packs(
        &rt,
        b"user:1001/name",
        &[0x0075_7365_723A_3130, 0x0030_312F_6E61_6D65],
    )?;
    let payload = Payload::of(b"1")?;
    assert!(rt; payload.words() == 1);
    same(&rt, payload.word(0), 0x0031_0000_0000_0000);
    same(&rt, Payload::from_words(0, &[]), Some(Payload::of(b"")?));
    Ok(())
}

// A key of this length has no such words.
fn expect_no_key(rt: &impl Abort, length: usize, words: &[u64]) {
    same(rt, Key::from_words(length, words), None);
}

#[test]
fn refuses_words_that_are_no_packing(rt: HostRuntime) {
    // no bytes, a filler byte, an eighth byte, too many words, and too few
    expect_no_key(&rt, 0, &[]);
    expect_no_key(&rt, 1, &[0x0061_0000_0000_0001]);
    expect_no_key(&rt, 1, &[0x0161_0000_0000_0000]);
    expect_no_key(&rt, 1, &[0x0061_0000_0000_0000, 0]);
    expect_no_key(&rt, 8, &[0x0061_6161_6161_6161]);
    same(&rt, Payload::from_words(57, &[0; 9]), None);
}

#[test]
fn takes_lengths_in_range(rt: HostRuntime) -> Result<(), Fail> {
    same(&rt, Key::of(b""), Err(KeyError::Empty));
    same(&rt, Key::of(LONGEST)?.bytes().len(), 56);
    same(&rt, Key::of(TOO_LONG), Err(KeyError::TooLong));
    same(&rt, Payload::of(b"")?.bytes().len(), 0);
    same(&rt, Payload::of(TOO_LONG), Err(PayloadError::TooLong));
    Ok(())
}

// A key is before another.
fn is_before(rt: &impl Abort, key: &[u8], other: &[u8]) -> Result<(), KeyError> {
    same(rt, Key::of(key)? < Key::of(other)?, true);
    Ok(())
}

#[test]
fn orders_a_prefix_first(rt: HostRuntime) -> Result<(), Fail> {
    is_before(&rt, b"ab", b"abc")?;
    is_before(&rt, b"abc", b"b")?;
    is_before(&rt, b"a~", b"a\xff")?;
    same(&rt, Key::of(b"ab")?, Key::of(b"ab")?);
    Ok(())
}

// A word spells these bytes, and is how they are spelled.
fn expect_spelled(rt: &impl Abort, word: &[u8], bytes: &[u8]) -> Result<(), Fail> {
    same(rt, read_key(word), Some(Key::of(bytes)?));
    is_spelled(rt, &Key::of(bytes)?, word);
    Ok(())
}

fn is_spelled(rt: &impl Abort, key: &Key, word: &[u8]) {
    let mut out = [0u8; SPELLED_BYTES];
    let length = spell(key.bytes(), &mut out);
    same(rt, out.get(..length), Some(word));
}

fn expect_no_spelling(rt: &impl Abort, word: &[u8]) {
    same(rt, read_key(word), None);
}

#[test]
fn reads_what_the_formats_spell(rt: HostRuntime) -> Result<(), Fail> {
    expect_spelled(&rt, b"user:1001/name", b"user:1001/name")?;
    expect_spelled(&rt, b"A-Z_a.z", b"A-Z_a.z")?;
    expect_spelled(&rt, b"%20", b" ")?;
    expect_spelled(&rt, b"a%25b", b"a%b")?;
    expect_spelled(&rt, b"%FF%00", b"\xff\x00")?;
    expect_no_spelling(&rt, b"%0a");
    expect_no_spelling(&rt, b"%61");
    expect_no_spelling(&rt, b"%2");
    expect_no_spelling(&rt, b"a%");
    expect_no_spelling(&rt, b"%G0");
    expect_no_spelling(&rt, b"a=b");
    expect_no_spelling(&rt, b"");
    expect_no_spelling(&rt, TOO_LONG);
    Ok(())
}

#[test]
fn reads_the_empty_payload(rt: HostRuntime) -> Result<(), Fail> {
    let mut out = [0u8; 1];
    same(&rt, spell(b"", &mut out), 1);
    same(&rt, out, [b'%']);
    same(&rt, read_payload(b"%"), Some(Payload::of(b"")?));
    same(&rt, read_key(b"%"), None);
    same(&rt, read_payload(b""), None);
    same(&rt, read_payload(LONGEST), Some(Payload::of(LONGEST)?));
    same(&rt, read_payload(TOO_LONG), None);
    Ok(())
}

// Puts so many pairs into a page that has room for them, with the numbers of their places as keys.
fn fill(rt: &impl Abort, page: &mut PageBuf, count: u8, payload: Payload) -> Result<(), KeyError> {
    for i in 0..count {
        let key = Key::of(&[i])?;
        assert!(rt; page.pairs().len() < PAGE_PAIRS);
        page.push(key, payload);
    }
    Ok(())
}

#[test]
fn holds_the_pairs_of_a_page(rt: HostRuntime) -> Result<(), Fail> {
    let mut page = PageBuf::open(rt.alloc())?;
    let payload = Payload::of(b"1")?;
    fill(&rt, &mut page, 119, payload)?;
    same(&rt, page.pairs().len(), 119);
    same(&rt, page.pairs().last(), Some(&(Key::of(&[118])?, payload)));
    page.clear();
    same(&rt, page.pairs().len(), 0);
    Ok(())
}

fn expect_words(
    rt: &impl Abort,
    alloc: Global,
    error: &impl Display,
    want: &str,
) -> Result<(), Fail> {
    same(rt, error.to_string(alloc)?.as_str(), want);
    Ok(())
}

#[test]
fn prints_its_errors(rt: HostRuntime) -> Result<(), Fail> {
    let alloc = rt.alloc();
    expect_words(&rt, alloc, &KeyError::Empty, "a key has at least one byte")?;
    expect_words(&rt, alloc, &KeyError::TooLong, "too many bytes for a key")?;
    expect_words(
        &rt,
        alloc,
        &PayloadError::TooLong,
        "too many bytes for a payload",
    )
}
