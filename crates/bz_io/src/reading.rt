//! Reading a source to its end.
ghost use Rattle.std.specs.Prelude.{◌≤◌, ◌+◌, length, IfOk, OnErr, IsErrOf};
ghost use Rattle.bz_io.specs.Faults.{Rose};
ghost use Rattle.bz_io.specs.Transfers.{IsReadWhole, GaveCount, GaveAtMost};

use crate::ends::Source;
use crate::error::{Failed, ReadFault};
use std::alloc::Global;

/// The bytes of a source up to its end, at most `limit` of them. It reads no byte after the first
/// one too many, and the memory that it takes grows with what was read.
pub fn read_all<S: Source>(
    alloc: Global,
    source: &mut S,
    limit: usize,
) -> Result<Vec<u8>, ReadFault>
    ensures all { IfOk result (λ bytes. IsReadWhole (S.left source.old) (S.left source.new) bytes.items) }
    ensures short { IfOk result (λ bytes. length bytes.items ≤ limit) }
    ensures failed { IsErrOf result ReadFault.Failed → Rose (S.faults source.old) (S.faults source.new) }
    ensures too_long { IsErrOf result ReadFault.TooLong → GaveCount (S.left source.old) (S.left source.new) (limit + 1) }
    ensures consumed { OnErr result (GaveAtMost (S.left source.old) (S.left source.new) (limit + 1)) }
    ensures later { S.faults source.old ≤ S.faults source.new }
{
    let mut bytes: Vec<u8> = Vec::new(alloc);
    let mut piece = [0u8; 4096];
    while bytes.len() <= limit {
        let most = (limit - bytes.len()).min(4095) + 1;
        let front = &mut piece[..most];
        let count = match source.read(front) {
            Ok(count) => count,
            Err(Failed) => return Err(ReadFault::Failed),
        };
        if count == 0 {
            return Ok(bytes);
        }
        match bytes.extend_from_slice(&front[..count]) {
            Ok(()) => {}
            Err(_) => return Err(ReadFault::Memory),
        }
    }
    Err(ReadFault::TooLong)
}
