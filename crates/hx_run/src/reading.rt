// The bytes of a source.

ghost use Rattle.std.specs.Prelude.{◌≡◌, ℕ, ◌+◌, ◌-◌, ◌^◌, ◌<◌, IfOk, IfErr};
ghost use Rattle.hx_run.specs.Executions.{failed_reads, IsOfReading, IsReadOf};

use crate::refusal::Refusal;
use hx_device::{ByteSource, read_all};
use hx_tree::limits::SOURCE_LIMIT;
use std::alloc::Global;

/// The bytes of a source, or its first 65,537, which are those of no program.
///
/// 63 comes exactly where the source has failed in this call, which ends at its first failure; 62 where an allocation was refused.
/// After an `Err` the source has lost what was read of it.
pub fn read_source<S: ByteSource>(alloc: Global, source: &mut S) -> Result<Vec<u8>, Refusal>
    requires { S.failures source.old < 2 ^ 64 - 1 }
    ensures bytes { IfOk result (λ v. IsReadOf (S.rest source.old) (S.rest source.new) v.items) }
    ensures refused { IfErr result IsOfReading }
    ensures count { S.failures source.new ≡ S.failures source.old + failed_reads result }
{
    Ok(read_all(alloc, source, SOURCE_LIMIT + 1)?)
}
