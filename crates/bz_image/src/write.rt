//! Writing an image.
ghost use Rattle.std.specs.Prelude.{◌≡◌, ◌≤◌, ◌+◌, length, take, drop, OnOk, OnErr};
ghost use Rattle.std.specs.Io.KnownBytes.{Appends};
ghost use Rattle.bz_io.specs.Faults.{HasCause};
ghost use Rattle.bz_io.specs.Transfers.{GrewByFront};
ghost use Rattle.bz_image.specs.Form.{bytes_of_head, bytes_of_words};
ghost use Rattle.bz_image.specs.Worlds.{durable_words, file_of_world};
ghost use Rattle.bz_layout.specs.Addresses.{words_of};

use crate::form::{HEAD_BYTES, MAGIC, NODES_AT, SWAPS_AT, VERSION, VERSION_AT, WORD_BYTES};
use byteorder::{ByteOrder, LittleEndian};
use bz_io::{Failed, Sink, write_all};
use bz_world::World;

/// How many words are turned into bytes at a time.
const PIECE_WORDS: usize = 512;

/// The bytes of so many words.
const PIECE_BYTES: usize = PIECE_WORDS * WORD_BYTES;

/// Writes the image file of a world's durable words. After a failure the sink has grown by a front part of it, and not by all.
/// It takes no memory.
pub fn write_image<K: Sink>(world: &World, sink: &mut K) -> Result<(), Failed>
    ensures all { OnOk result (Appends (K.held sink.old) (K.held sink.new) (file_of_world world.now)) }
    ensures front { OnErr result (GrewByFront (K.held sink.old) (K.held sink.new) (file_of_world world.now)) }
    ensures cause { HasCause (K.faults sink.old) (K.faults sink.new) result }
{
    let config = world.config();
    let head = head_bytes(config.nodes, config.swaps);
    match write_all(sink, &head) {
        Ok(()) => write_durable(world, sink),
        Err(Failed) => Err(Failed),
    }
}

/// The head of an image.
fn head_bytes(nodes: u32, swaps: u32) -> [u8; HEAD_BYTES]
    ensures { result ≡ bytes_of_head nodes swaps }
{
    let mut head = [0u8; HEAD_BYTES];
    head[..VERSION_AT].copy_from_slice(&MAGIC);
    LittleEndian::write_u32(&mut head[VERSION_AT..], VERSION);
    LittleEndian::write_u32(&mut head[NODES_AT..], nodes);
    LittleEndian::write_u32(&mut head[SWAPS_AT..], swaps);
    head
}

/// Writes the durable words of a world, a piece after another.
fn write_durable<K: Sink>(world: &World, sink: &mut K) -> Result<(), Failed>
    ensures all { OnOk result (Appends (K.held sink.old) (K.held sink.new) (bytes_of_words (durable_words world.now))) }
    ensures front { OnErr result (GrewByFront (K.held sink.old) (K.held sink.new) (bytes_of_words (durable_words world.now))) }
    ensures cause { HasCause (K.faults sink.old) (K.faults sink.new) result }
{
    let _journal = world.journal();
    let size = world.config().words();
    let mut done = 0u32;
    while done < size {
        let count = (size - done).min(PIECE_WORDS as u32);
        let piece = durable_piece(world, done, count);
        match write_piece(&piece[..count as usize], sink) {
            Ok(()) => done += count,
            Err(Failed) => return Err(Failed),
        }
    }
    Ok(())
}

/// So many durable words of a world, from an address on.
fn durable_piece(world: &World, first: u32, count: u32) -> [u64; PIECE_WORDS]
    requires fits { count ≤ PIECE_WORDS }
    requires there { first + count ≤ words_of world.now.config }
    ensures { take count result ≡ take count (drop first (durable_words world.now)) }
{
    let _journal = world.journal();
    let _size = world.config().words();
    let mut piece = [0u64; PIECE_WORDS];
    for i in 0..count {
        piece[i as usize] = world.durable(first + i);
    }
    piece
}

/// Writes words that fit one piece.
fn write_piece<K: Sink>(words: &[u64], sink: &mut K) -> Result<(), Failed>
    requires { length words.now ≤ PIECE_WORDS }
    ensures all { OnOk result (Appends (K.held sink.old) (K.held sink.new) (bytes_of_words words.now)) }
    ensures front { OnErr result (GrewByFront (K.held sink.old) (K.held sink.new) (bytes_of_words words.now)) }
    ensures cause { HasCause (K.faults sink.old) (K.faults sink.new) result }
{
    let mut piece = [0u8; PIECE_BYTES];
    let bytes = &mut piece[..WORD_BYTES * words.len()];
    LittleEndian::write_u64_into(words, bytes);
    write_all(sink, bytes)
}
