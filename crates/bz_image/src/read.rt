//! Reading an image.
ghost use Rattle.std.specs.Prelude.{◌≡◌, ◌≤◌, ◌*◌, length, take, bytes_eq, IfOk};
ghost use Rattle.bz_image.specs.Form.{magic, file_length, file_of_image, AreSizes, IsSized};
ghost use Rattle.bz_image.specs.Reads.{head_of, front_of, image_of, image_at, words_in, Reads, ReadsFront};

use crate::fault::ImageFault;
use crate::form::{
    HEAD_BYTES, MAGIC, NODES_AT, SWAPS_AT, VERSION, VERSION_AT, WORD_BYTES, count_words,
    image_bytes,
};
use crate::image::{Head, Image};
use crate::word_list::WordList;
use byteorder::{ByteOrder, LittleEndian};
use bz_layout::{MAX_NODES, MAX_SWAPS, MIN_NODES, MIN_SWAPS};
use bz_oom::Memory;
use std::alloc::Global;

/// The head at the front of the bytes, or the first fault that it has. It takes no memory.
pub fn read_head(bytes: &[u8]) -> Result<Head, ImageFault>
    ensures head { result ≡ head_of bytes.now }
    ensures sizes { IfOk result (λ head. AreSizes head.nodes head.swaps) }
{
    if bytes.len() < HEAD_BYTES {
        return Err(ImageFault::Short);
    }
    if !is_magic(bytes) {
        return Err(ImageFault::Magic);
    }
    if LittleEndian::read_u32(&bytes[VERSION_AT..]) != VERSION {
        return Err(ImageFault::Version);
    }
    let nodes = LittleEndian::read_u32(&bytes[NODES_AT..]);
    let swaps = LittleEndian::read_u32(&bytes[SWAPS_AT..]);
    if nodes < MIN_NODES || MAX_NODES < nodes || swaps < MIN_SWAPS || MAX_SWAPS < swaps {
        return Err(ImageFault::Sizes);
    }
    Ok(Head { nodes, swaps })
}

/// Whether the bytes begin as an image does.
fn is_magic(bytes: &[u8]) -> bool
    requires { HEAD_BYTES ≤ length bytes.now }
    ensures { result ≡ bytes_eq (take 8 bytes.now) magic }
{
    let front = &bytes[..VERSION_AT];
    front == MAGIC.as_slice()
}

/// The image that the bytes are, or their first fault.
pub fn read_image(alloc: Global, bytes: &[u8]) -> Result<Image, ImageFault>
    ensures image { Reads (image_of bytes.now) result }
    ensures file { IfOk result (λ image. bytes.now ≡ file_of_image image) }
    ensures sized { IfOk result (λ image. IsSized image) }
{
    let head = read_head(bytes)?;
    let length = image_bytes(head.nodes, head.swaps);
    if bytes.len() < length {
        return Err(ImageFault::Short);
    }
    if length < bytes.len() {
        return Err(ImageFault::Long);
    }
    let image = read_behind(alloc, head, bytes)?;
    Ok(image)
}

/// The image at the front of the bytes and its length, or their first fault; what stands behind the
/// image is left alone.
pub fn read_front(alloc: Global, bytes: &[u8]) -> Result<(Image, usize), ImageFault>
    ensures front { ReadsFront (front_of bytes.now) result }
    ensures sized { IfOk result (λ found. IsSized found.0) }
{
    let head = read_head(bytes)?;
    let length = image_bytes(head.nodes, head.swaps);
    if bytes.len() < length {
        return Err(ImageFault::Short);
    }
    let image = read_behind(alloc, head, bytes)?;
    Ok((image, length))
}

/// The image of this head, whose words stand behind it.
fn read_behind(alloc: Global, head: Head, bytes: &[u8]) -> Result<Image, Memory>
    requires { file_length head.nodes head.swaps ≤ length bytes.now }
    ensures { IfOk result (λ image. image ≡ image_at head bytes.now) }
{
    let count = count_words(head.nodes, head.swaps);
    let mut words: Vec<u64> = vec![in alloc; 0; count]?;
    let end = HEAD_BYTES + WORD_BYTES * count;
    read_words(&bytes[HEAD_BYTES..end], &mut words);
    Ok(Image {
        nodes: head.nodes,
        swaps: head.swaps,
        words: WordList::of(words),
    })
}

/// Reads as many words as there is room for.
fn read_words(bytes: &[u8], words: &mut [u64])
    requires { length bytes.now ≡ WORD_BYTES * length words.old }
    ensures { words.new ≡ words_in (length words.old) bytes.now }
{
    LittleEndian::read_u64_into(bytes, words);
}
