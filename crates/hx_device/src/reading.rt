// All bytes of a source.

ghost use Rattle.std.specs.Prelude.{◌≡◌, ℕ, ◌+◌, ◌-◌, ◌^◌, ◌<◌, ◌≤◌, ◌↔◌, List, length, IfOk, OnErr, IsErrOf};
ghost use Rattle.std.specs.Io.KnownBytes.{Consumes, IsAtEnd};

use crate::device::{ByteSource, Failed};
use std::alloc::Global;

/// How many bytes are asked for at once.
const CHUNK: usize = 512;

/// Why a source wasn't read.
#[derive(Clone, Copy, Debug, PartialEq, Eq)]
pub enum ReadError {
    /// The device failed.
    Failed,
    /// Memory was refused.
    Memory,
}

/// Reads all bytes of a source, or its first `limit`.
///
/// An `Ok` has fewer than `limit` bytes only where the source is at its end. `Failed` comes exactly where the device has failed
/// in this call, which ends at its first failure; `Memory` where an allocation was refused. After an `Err` the source has
/// lost what was read of it.
pub fn read_all<S: ByteSource>(
    alloc: Global,
    source: &mut S,
    limit: usize,
) -> Result<Vec<u8>, ReadError>
    requires { S.failures source.old < 2 ^ 64 - 1 }
    ensures bound { IfOk result (λ v. length v.items ≤ limit) }
    ensures bytes { IfOk result (λ v. Consumes (S.rest source.old) (S.rest source.new) v.items) }
    ensures whole { IfOk result (λ v. length v.items < limit → IsAtEnd (S.rest source.new)) }
    ensures lost { OnErr result ((bytes : List ℕ) × Consumes (S.rest source.old) (S.rest source.new) bytes) }
    ensures failed { IsErrOf result ReadError.Failed ↔ (S.failures source.new ≡ S.failures source.old + 1) }
    ensures count { ¬ (IsErrOf result ReadError.Failed) → S.failures source.new ≡ S.failures source.old }
{
    let mut all = Vec::new(alloc);
    while all.len() < limit {
        let mut chunk = [0u8; CHUNK];
        let room = (limit - all.len()).min(CHUNK);
        match source.read(&mut chunk[..room]) {
            Ok(0) => break,
            Ok(count) => {
                if all.extend_from_slice(&chunk[..count]).is_err() {
                    return Err(ReadError::Memory);
                }
            }
            Err(Failed) => return Err(ReadError::Failed),
        }
    }
    Ok(all)
}
