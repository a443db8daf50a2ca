// All bytes to a sink.

ghost use Rattle.std.specs.Prelude.{◌≡◌, ℕ, ◌+◌, ◌-◌, ◌^◌, ◌<◌, OnOk, OnErr, take, is_err, if◌then◌else◌};
ghost use Rattle.std.specs.Io.KnownBytes.{Appends};

use crate::device::{ByteSink, Failed};

/// Writes all bytes, and hands them on.
///
/// An `Err` comes exactly where the device has failed in this call, which ends at its first failure; a beginning of the bytes
/// is written then.
pub fn write_all<K: ByteSink>(sink: &mut K, bytes: &[u8]) -> Result<(), Failed>
    requires { K.failures sink.old < 2 ^ 64 - 1 }
    ensures written { OnOk result (Appends (K.written sink.old) (K.written sink.new) bytes.now) }
    ensures beginning { OnErr result ((n : ℕ) × Appends (K.written sink.old) (K.written sink.new) (take n bytes.now)) }
    ensures count { K.failures sink.new ≡ K.failures sink.old + (if is_err result then 1 else 0) }
{
    let mut at = 0;
    while at < bytes.len() {
        at += sink.write(&bytes[at..])?;
    }
    sink.flush()
}
