//! The worked insert: the words of both swaps, and of the record. The key `a` and the payload `1` come into the empty root leaf
//! of a fresh memory of sixteen slots and 64 descriptors. Then the worked update and the worked delete of that record.
ghost use Rattle.std.specs.Prelude.{◌≡◌};
ghost use Rattle.bz_word.specs.Statuses.{status};
ghost use Rattle.bz_record.specs.Records.{Fits};

use super::bench::same;
use bz_key::{Key, Payload};
use bz_layout::{Config, SHARED_WORDS};
use bz_record::{FoundRecord, NewRecord, RecordSwap};
use bz_word::{Extent, Status};
use std::process::Abort;

const SMALL: Config = Config {
    nodes: 16,
    swaps: 64,
    workers: 1,
    marks: 1_024,
    calls: 1,
    pages: 0,
};

// The record of `a` and `1` after the worked insert.
const INSERTED: FoundRecord = FoundRecord {
    place: 0,
    extent: Extent {
        offset: 254,
        key: 1,
        total: 2,
    },
};

// The leaf's status then.
const STATUS: u64 = 0x0010_0800_0000_0002;

// The status of a status word.
fn status_of(rt: &impl Abort, word: u64) -> Status
    ensures { result ≡ status word }
{
    bz_word::laws::statuses();
    Status::unpack(word).expect(rt, "a status")
}

// The record of `a` and a payload for a leaf with this status.
fn record_at(rt: &impl Abort, status: u64, payload: &[u8]) -> NewRecord
    ensures { result.status ≡ status }
{
    NewRecord {
        slot: 0,
        status,
        key: Key::of(b"a").expect(rt, "a key"),
        payload: Payload::of(payload).expect(rt, "a payload"),
    }
}

// The same for a leaf that has room for it.
fn fitting(rt: &impl Abort, status: u64, payload: &[u8]) -> NewRecord
    ensures { Fits result }
{
    let record = record_at(rt, status, payload);
    let _key = record.key.bytes();
    let _payload = record.payload.bytes();
    let _size = record.size();
    assert!(rt; record.status < 1 << 61);
    let status = status_of(rt, record.status);
    assert!(rt; status.dead <= status.block);
    assert!(rt; record.has_room());
    record
}

#[test]
fn the_swaps_of_the_worked_insert(rt: HostRuntime) {
    let record = fitting(&rt, 0, b"1");
    let reserved = RecordSwap {
        slot: 0,
        place: 0,
        status: 0,
        new_status: 0x0010_0802_0000_0001,
        meta: 0,
        new_meta: 0x0000_00FE_0001_0002,
    };
    let published = RecordSwap {
        slot: 0,
        place: 0,
        status: 0x0010_0802_0000_0001,
        new_status: 0x0010_0800_0000_0002,
        meta: 0x0000_00FE_0001_0002,
        new_meta: 0x1000_00FE_0001_0002,
    };
    same(&rt, record.reservation(), reserved);
    same(&rt, record.publication(), published);
}

#[test]
fn the_words_of_the_worked_insert(rt: HostRuntime) {
    let record = fitting(&rt, 0, b"1");
    assert!(rt; SMALL.check().is_ok());
    assert!(rt; (record.slot as u32) < SMALL.nodes);
    same(&rt, record.size(), 2);
    assert!(rt; record.size() == 2);
    same(&rt, record.address(&SMALL, 0), 1_294);
    same(&rt, record.address(&SMALL, 1), 1_295);
    same(&rt, record.word(0), 0x0061_0000_0000_0000);
    same(&rt, record.word(1), 0x0031_0000_0000_0000);
    same(&rt, record.first_line(&SMALL), 161);
    same(&rt, record.last_line(&SMALL), 161);
}

// The payload comes to have two words, so the record has three.
#[test]
fn the_swaps_of_the_worked_update(rt: HostRuntime) {
    let record = fitting(&rt, STATUS, b"12345678");
    assert!(rt; SMALL.check().is_ok());
    assert!(rt; (record.slot as u32) < SMALL.nodes);
    let replaced = RecordSwap {
        slot: 0,
        place: 0,
        status: 0x0010_1403_0000_0003,
        new_status: 0x0010_1402_0000_0004,
        meta: 0x1000_00FE_0001_0002,
        new_meta: 0x1000_00FB_0001_0009,
    };
    same(&rt, record.growth(&SMALL).count(), 1);
    same(&rt, INSERTED.replacement(&record), replaced);
}

#[test]
fn the_swap_of_the_worked_delete(rt: HostRuntime) {
    let status = status_of(&rt, STATUS);
    assert!(rt; status.dead <= SHARED_WORDS);
    let removed = RecordSwap {
        slot: 0,
        place: 0,
        status: STATUS,
        new_status: 0x0010_0802_0000_0003,
        meta: 0x1000_00FE_0001_0002,
        new_meta: 0x0000_0000_0001_0002,
    };
    same(&rt, INSERTED.removal(0, STATUS), removed);
}

#[test]
fn a_leaf_that_is_full_or_frozen_has_no_room(rt: HostRuntime) {
    let table = [
        // 117 records with a word each leave four words, and 118 two
        (117 * (1 << 52) + 117 * (1 << 42), true),
        (118 * (1 << 52) + 118 * (1 << 42), false),
        // no record, and frozen
        (0, true),
        (1 << 60, false),
    ];
    for (status, room) in table {
        let record = record_at(&rt, status, b"1");
        assert!(rt; status < 1 << 61);
        same(&rt, record.has_room(), room);
    }
}
