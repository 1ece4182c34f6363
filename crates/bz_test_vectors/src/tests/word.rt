//! Words worked out by hand from the tables of bits, each field at its least and greatest value, and each
//! number that is refused.

use bz_word::{Entry, Extent, Header, Meta, Status, WordKind, kind_of, word_of};
use std::process::Abort;

fn kind_is(rt: &impl Abort, word: u64, kind: WordKind) {
    match kind_of(word) {
        Some(found) => assert!(rt; found == kind && word_of(found) == word),
        None => assert!(rt; false),
    }
}

fn status_is(rt: &impl Abort, word: u64, status: Status) {
    match Status::unpack(word) {
        Some(found) => assert!(rt; found == status && found.pack() == word),
        None => assert!(rt; false),
    }
}

fn meta_is(rt: &impl Abort, word: u64, meta: Meta) {
    match Meta::unpack(word) {
        Some(found) => assert!(rt; found == meta && found.pack() == word),
        None => assert!(rt; false),
    }
}

fn header_is(rt: &impl Abort, word: u64, header: Header) {
    match Header::unpack(word) {
        Some(found) => assert!(rt; found == header && found.pack() == word),
        None => assert!(rt; false),
    }
}

fn tag(swap: u16, entry: u8, worker: u8, seq: u64) -> WordKind {
    WordKind::Tag {
        swap,
        entry,
        worker,
        seq,
    }
}

#[test]
fn kinds_have_these_words(rt: HostRuntime) {
    kind_is(&rt, 0x200000000A090003, tag(3, 1, 2, 5));
    kind_is(&rt, 0x4000000000000007, WordKind::Swap(7));
    kind_is(
        &rt,
        0x0061000000000000,
        WordKind::Value(0x61_0000_0000_0000),
    );
    kind_is(&rt, 0, WordKind::Value(0));
    kind_is(&rt, 0x1FFFFFFFFFFFFFFF, WordKind::Value((1 << 61) - 1));
    kind_is(&rt, 0x8000000000000000, WordKind::Dirty(0));
    kind_is(&rt, 0x9FFFFFFFFFFFFFFF, WordKind::Dirty((1 << 61) - 1));
    kind_is(&rt, 0x4000000000000000, WordKind::Swap(0));
    kind_is(&rt, 0x400000000000FFFF, WordKind::Swap(u16::MAX));
    kind_is(&rt, 0x2000000000040000, tag(0, 0, 1, 0));
    kind_is(&rt, 0x200000000004FFFF, tag(u16::MAX, 0, 1, 0));
    kind_is(&rt, 0x2000000000070000, tag(0, 3, 1, 0));
    kind_is(&rt, 0x2000000001000000, tag(0, 0, 64, 0));
    kind_is(&rt, 0x3FFFFFFFFE040000, tag(0, 0, 1, (1 << 36) - 1));
}

#[test]
fn these_words_have_no_kind(rt: HostRuntime) {
    let refused = [
        0xC000000000000000, // dirty and pointer
        0xA000000000040000, // dirty and tag
        0x6000000000040000, // pointer and tag
        0xE000000000040000, // all three
        0x4000000000010000, // a pointer with bit 16
        0x5000000000000000, // a pointer with bit 60
        0x2000000000000000, // worker 0
        0x2000000001040000, // worker 65
        0x2000000001FC0000, // worker 127
    ];
    for word in refused {
        assert_eq!(rt; kind_of(word), None, "{word:#x}");
    }
}

fn status(frozen: bool, count: u32, block: u32, dead: u32, stamp: u32) -> Status {
    Status {
        frozen,
        count,
        block,
        dead,
        stamp,
    }
}

#[test]
fn statuses_have_these_words(rt: HostRuntime) {
    status_is(&rt, 0, status(false, 0, 0, 0, 0));
    status_is(&rt, 0x0010080200000001, status(false, 1, 2, 2, 1));
    status_is(&rt, 0x0010080000000002, status(false, 1, 2, 0, 2));
    status_is(&rt, 0x0010080200000003, status(false, 1, 2, 2, 3));
    status_is(&rt, 0x1000000000000000, status(true, 0, 0, 0, 0));
    status_is(&rt, 0x0FF0000000000000, status(false, 255, 0, 0, 0));
    status_is(&rt, 0x000FFC0000000000, status(false, 0, 1023, 0, 0));
    status_is(&rt, 0x000003FF00000000, status(false, 0, 0, 1023, 0));
    status_is(&rt, 0x00000000FFFFFFFF, status(false, 0, 0, 0, u32::MAX));
    for word in [1 << 61, 1 << 62, 1 << 63] {
        assert_eq!(rt; Status::unpack(word), None, "{word:#x}");
    }
}

#[test]
fn records_have_these_words(rt: HostRuntime) {
    let at = |offset: u32, key: u32, total: u32| Extent { offset, key, total };
    meta_is(&rt, 0, Meta::Unused);
    meta_is(&rt, 0x000000FE00010002, Meta::Reserved(at(254, 1, 2)));
    meta_is(&rt, 0x100000FE00010002, Meta::Visible(at(254, 1, 2)));
    meta_is(&rt, 0x0000000000010002, Meta::Deleted { key: 1, total: 2 });
    meta_is(&rt, 0x0000000100000000, Meta::Reserved(at(1, 0, 0)));
    meta_is(
        &rt,
        0x0FFFFFFF00000000,
        Meta::Reserved(at(0xFFF_FFFF, 0, 0)),
    );
    meta_is(
        &rt,
        0x10000001FFFFFFFF,
        Meta::Visible(at(1, 0xFFFF, 0xFFFF)),
    );
    meta_is(&rt, 0x0000000000000001, Meta::Deleted { key: 0, total: 1 });
    let refused = [
        0x0000000000020001, // a key longer than key and payload
        0x000000FE00020001,
        0x1000000000010002, // visible with offset 0
        0x1000000000000000,
        0x200000FE00010002, // control bits
        0x400000FE00010002,
        0x800000FE00010002,
    ];
    for word in refused {
        assert_eq!(rt; Meta::unpack(word), None, "{word:#x}");
    }
}

fn header(level: u32, low: u32, high: u32, sorted: u32) -> Header {
    Header {
        level,
        low,
        high,
        sorted,
    }
}

#[test]
fn headers_have_these_words(rt: HostRuntime) {
    header_is(&rt, 0, header(0, 0, 0, 0));
    header_is(&rt, 0x04030201, header(1, 2, 3, 4));
    header_is(&rt, 0x000000FF, header(255, 0, 0, 0));
    header_is(&rt, 0x0000FF00, header(0, 255, 0, 0));
    header_is(&rt, 0x00FF0000, header(0, 0, 255, 0));
    header_is(&rt, 0xFF000000, header(0, 0, 0, 255));
    for word in [1 << 32, 1 << 60, 1 << 63] {
        assert_eq!(rt; Header::unpack(word), None, "{word:#x}");
    }
}
