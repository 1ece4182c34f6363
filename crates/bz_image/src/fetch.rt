//! Reading the image that a source begins with.
ghost use Rattle.std.specs.Prelude.{◌≡◌, ◌≢◌, ◌≤◌, length, Err, IfOk, OnOk, IsErrOf};
ghost use Rattle.std.specs.Io.KnownBytes.{Consumes};
ghost use Rattle.bz_io.specs.Faults.{Rose};
ghost use Rattle.bz_image.specs.declared.fault.ImageFault.{ImageFault as ImageRule};
ghost use Rattle.bz_image.specs.declared.fault.ImageFault.TheVariants.{Memory as WantOfMemory};
ghost use Rattle.bz_image.specs.declared.fetch.FetchFault.TheVariants.{Read as Unread, Image as NoImage};
ghost use Rattle.bz_image.specs.Fetches.{IsFilled, GaveFault};
ghost use Rattle.bz_image.specs.Form.{file_of_image, IsSized};

use crate::fault::ImageFault;
use crate::form::{HEAD_BYTES, image_bytes};
use crate::image::Image;
use crate::read::{read_head, read_image};
use bz_io::{Failed, Source};
use std::alloc::Global;

/// Why a source gave no image.
#[derive(Clone, Copy, Debug, PartialEq, Eq)]
pub enum FetchFault {
    /// A read failed.
    Read,

    /// What was read is no image, or memory was wanting for it.
    Image(ImageFault),
}

/// Reads further bytes behind these, until there are so many in all or the source is at its end.
fn fill<S: Source>(source: &mut S, bytes: &mut Vec<u8>, count: usize) -> Result<(), FetchFault>
    requires { length bytes.old.items ≤ count }
    ensures filled { OnOk result (IsFilled (S.left source.old) (S.left source.new) bytes.old.items bytes.new.items count) }
    ensures failed { result ≡ Err Unread → Rose (S.faults source.old) (S.faults source.new) }
    ensures memory { (fault : ImageRule) → result ≡ Err (NoImage fault) → fault ≡ WantOfMemory }
    ensures later { S.faults source.old ≤ S.faults source.new }
{
    let mut piece = [0u8; 4096];
    while bytes.len() < count {
        let most = (count - bytes.len()).min(4096);
        let front = &mut piece[..most];
        let taken = match source.read(front) {
            Ok(taken) => taken,
            Err(Failed) => return Err(FetchFault::Read),
        };
        if taken == 0 {
            return Ok(());
        }
        match bytes.extend_from_slice(&front[..taken]) {
            Ok(()) => {}
            Err(_) => return Err(FetchFault::Image(ImageFault::Memory)),
        }
    }
    Ok(())
}

/// The image whose file the source gives next: its head is read alone, and then the rest. What stands behind the file is left to
/// the source.
pub fn fetch_image<S: Source>(alloc: Global, source: &mut S) -> Result<Image, FetchFault>
    ensures image { IfOk result (λ image. Consumes (S.left source.old) (S.left source.new) (file_of_image image)) }
    ensures sized { IfOk result (λ image. IsSized image) }
    ensures fault { (fault : ImageRule) → result ≡ Err (NoImage fault) → fault ≢ WantOfMemory → GaveFault (S.left source.old) (S.left source.new) fault }
    ensures failed { result ≡ Err Unread → Rose (S.faults source.old) (S.faults source.new) }
    ensures later { S.faults source.old ≤ S.faults source.new }
{
    let mut bytes: Vec<u8> = Vec::new(alloc);
    match fill(source, &mut bytes, HEAD_BYTES) {
        Ok(()) => {}
        Err(fault) => return Err(fault),
    }
    let head = match read_head(&bytes) {
        Ok(head) => head,
        Err(fault) => return Err(FetchFault::Image(fault)),
    };
    match fill(source, &mut bytes, image_bytes(head.nodes, head.swaps)) {
        Ok(()) => {}
        Err(fault) => return Err(fault),
    }
    match read_image(alloc, &bytes) {
        Ok(image) => Ok(image),
        Err(fault) => Err(FetchFault::Image(fault)),
    }
}
