//! What no clause shows: that calls succeed, worked examples, and the trusted edge.
use super::bench::{holds, same};
use bz_io::{
    FailSink, FailSource, Failed, MemSink, MemSource, ReadFault, RealSink, RealSource, Sink,
    Source, read_all, write_all,
};
use std::alloc::Global;
use std::process::Abort;
use std::test::Fail;

// Puts bytes behind those of a trace.
fn put(rt: &impl Abort, trace: &mut Vec<u8>, bytes: &[u8]) {
    trace
        .extend_from_slice(bytes)
        .expect(rt, "room for the trace");
}

// A piece of a trace: the bytes and a dot behind them.
fn put_piece(rt: &impl Abort, trace: &mut Vec<u8>, bytes: &[u8]) {
    put(rt, trace, bytes);
    put(rt, trace, b".");
}

// What a read into so much room gives: a dot behind the piece, and `!` for a failure.
fn read_once(rt: &impl Abort, source: &mut FailSource, room: usize, trace: &mut Vec<u8>) {
    let mut buffer = [0u8; 8];
    let into = &mut buffer[..room.min(8)];
    match source.read(into) {
        Ok(count) => put_piece(rt, trace, &into[..count]),
        Err(Failed) => put(rt, trace, b"!"),
    }
}

// What five reads give of a source that has these five bytes.
fn expect_reads(
    rt: &impl Abort,
    alloc: Global,
    piece: usize,
    room: usize,
    fails: &[u64],
    want: &[u8],
) {
    let mut trace = Vec::new(alloc);
    let mut source = FailSource::of(alloc, b"abcde", piece.max(1), fails).expect(rt, "a source");
    for _ in 0..5u8 {
        read_once(rt, &mut source, room, &mut trace);
    }
    same(rt, trace.as_slice(), want);
}

#[test]
fn failing_source_gives_pieces_and_fails_where_told(rt: HostRuntime) {
    let alloc = rt.alloc();
    expect_reads(&rt, alloc, 2, 8, &[], b"ab.cd.e...");
    expect_reads(&rt, alloc, 8, 3, &[], b"abc.de....");
    expect_reads(&rt, alloc, 8, 8, &[1], b"!abcde....");
    expect_reads(&rt, alloc, 2, 8, &[4, 2], b"ab.!cd.!e.");
    expect_reads(&rt, alloc, 1, 1, &[5, 5, 0], b"a.b.c.d.!");
    expect_reads(&rt, alloc, 5, 0, &[2], b".!...");
}

// What a sink holds after a write of what is left of five bytes: a dot behind it, and `!` for a failure.
fn write_once(rt: &impl Abort, sink: &mut FailSink, trace: &mut Vec<u8>) {
    let all: &[u8] = b"abcde";
    let done = sink.bytes().len().min(all.len());
    match sink.write(&all[done..]) {
        Ok(_) => put_piece(rt, trace, sink.bytes()),
        Err(Failed) => put(rt, trace, b"!"),
    }
}

// What a sink with so much room holds after each of four writes.
fn expect_writes(
    rt: &impl Abort,
    alloc: Global,
    room: usize,
    piece: usize,
    fails: &[u64],
    want: &[u8],
) {
    let mut trace = Vec::new(alloc);
    let mut sink = FailSink::open(alloc, room, piece.max(1), fails).expect(rt, "a sink");
    for _ in 0..4u8 {
        write_once(rt, &mut sink, &mut trace);
    }
    same(rt, trace.as_slice(), want);
}

#[test]
fn failing_sink_takes_pieces_and_fails_where_told(rt: HostRuntime) {
    let alloc = rt.alloc();
    expect_writes(&rt, alloc, 8, 2, &[], b"ab.abcd.abcde.abcde.");
    expect_writes(&rt, alloc, 3, 2, &[], b"ab.abc.!!");
    expect_writes(&rt, alloc, 8, 5, &[1, 3], b"!abcde.!abcde.");
    expect_writes(&rt, alloc, 0, 1, &[], b"!!!!");
    expect_writes(&rt, alloc, 8, 1, &[2], b"a.!ab.abc.");
}

#[test]
fn sink_in_memory_fills_its_room(rt: HostRuntime) -> Result<(), Fail> {
    let mut sink = MemSink::open(rt.alloc(), 3)?;
    same(&rt, sink.write(b"ab"), Ok(2));
    same(&rt, sink.write(b"cd"), Ok(1));
    same(&rt, sink.write(b"d"), Err(Failed));
    same(&rt, sink.bytes(), b"abc".as_slice());
    Ok(())
}

// An input of 9,000 bytes is read whole up to this limit, or is too long for it.
fn is_read(rt: &impl Abort, alloc: Global, long: &[u8], limit: usize) {
    let mut source = MemSource::of(alloc, long).expect(rt, "a source");
    match read_all(alloc, &mut source, limit) {
        Ok(bytes) => holds(rt, limit >= 9000 && bytes.as_slice() == long),
        Err(ReadFault::TooLong) => holds(rt, limit == 8999),
        // a source in memory never fails
        Err(ReadFault::Failed) => unreachable!(),
        Err(ReadFault::Memory) => assert!(rt; false, "want of memory"),
    }
}

#[test]
fn input_is_read_up_to_its_limit(rt: HostRuntime) -> Result<(), Fail> {
    let long = Vec::from_array(rt.alloc(), [7u8; 9000])?;
    for limit in [8999usize, 9000, 9001] {
        is_read(&rt, rt.alloc(), &long, limit);
    }
    Ok(())
}

#[test]
fn input_is_read_piece_by_piece_and_one_fault_ends_it(rt: HostRuntime) -> Result<(), Fail> {
    let mut source = FailSource::of(rt.alloc(), b"abcde", 2, &[5])?;
    let bytes = read_all(rt.alloc(), &mut source, 5);
    holds(
        &rt,
        matches!(&bytes, Ok(bytes) if bytes.as_slice() == b"abcde".as_slice()),
    );
    let again = read_all(rt.alloc(), &mut source, 5);
    holds(&rt, matches!(again, Err(ReadFault::Failed)));
    Ok(())
}

#[test]
fn all_is_written_or_a_front_part(rt: HostRuntime) -> Result<(), Fail> {
    let mut sink = FailSink::open(rt.alloc(), 9, 1, &[4])?;
    same(&rt, write_all(&mut sink, b"abc"), Ok(()));
    same(&rt, write_all(&mut sink, b"def"), Err(Failed));
    same(&rt, write_all(&mut sink, b"xy"), Ok(()));
    same(&rt, sink.bytes(), b"abcxy".as_slice());
    Ok(())
}

#[test]
fn real_source_gives_what_its_reader_gives(rt: HostRuntime) -> Result<(), Fail> {
    let mut source = RealSource::of(b"abc".as_slice());
    let bytes = read_all(rt.alloc(), &mut source, 3);
    holds(
        &rt,
        matches!(&bytes, Ok(bytes) if bytes.as_slice() == b"abc".as_slice()),
    );
    Ok(())
}

#[test]
fn real_sink_passes_bytes_on_and_refuses_when_its_writer_is_full(rt: HostRuntime) {
    let mut room = [0u8; 4];
    let mut sink = RealSink::of(&mut room[..]);
    same(&rt, write_all(&mut sink, b"abc"), Ok(()));
    same(&rt, write_all(&mut sink, b"de"), Err(Failed));
    same(&rt, sink.write(b""), Ok(0));
    drop(sink);
    same(&rt, room, *b"abcd");
}

fn expect_words(rt: &impl Abort, alloc: Global, fault: ReadFault, want: &str) {
    let words = format!(in alloc; "{fault}").expect(rt, "the words");
    same(rt, words.as_str(), want);
}

#[test]
fn faults_have_their_words(rt: HostRuntime) -> Result<(), Fail> {
    let alloc = rt.alloc();
    expect_words(&rt, alloc, ReadFault::Failed, "read failed");
    expect_words(&rt, alloc, ReadFault::TooLong, "input too long");
    expect_words(&rt, alloc, ReadFault::Memory, "want of memory");
    let words = format!(in alloc; "{Failed}")?;
    same(&rt, words.as_str(), "read or write failed");
    Ok(())
}
