// What a device is.

ghost use Rattle.std.specs.Prelude.{◌≡◌, ℕ, ◌+◌, ◌-◌, ◌^◌, ◌<◌, ◌≤◌, List, Option, length, IfOk, is_err, if◌then◌else◌};
ghost use Rattle.std.specs.Io.KnownBytes.{Keeps, ReadConsumes, WriteAppends};

/// A read or a write that failed.
#[derive(Clone, Copy, Debug, PartialEq, Eq)]
pub struct Failed;

/// What bytes are read from.
pub trait ByteSource {
    // The bytes that are left, where they are known.
    ghost rest: { Self → Option (List ℕ) };

    // How many reads have failed.
    ghost failures: { Self → ℕ };

    /// Reads into the front of `buffer`, and answers how many bytes: 0 at the end alone, or where `buffer` is empty.
    ///
    /// It answers an `Err` exactly where the count of failures rises, by 1, and has read nothing then.
    fn read(&mut self, buffer: &mut [u8]) -> Result<usize, Failed>
        requires { failures self.old < 2 ^ 64 - 1 }
        ensures bound { IfOk result (λ n. n ≤ length buffer.new) }
        ensures bytes { ReadConsumes (rest self.old) (rest self.new) result buffer.new }
        ensures count { failures self.new ≡ failures self.old + (if is_err result then 1 else 0) };
}

/// What bytes are written to.
pub trait ByteSink {
    // The bytes that were written, where they are known.
    ghost written: { Self → Option (List ℕ) };

    // How many writes have failed.
    ghost failures: { Self → ℕ };

    /// Writes a beginning of `bytes`, and answers how many: at least one where there is one.
    ///
    /// It answers an `Err` exactly where the count of failures rises, by 1, and has written nothing then.
    fn write(&mut self, bytes: &[u8]) -> Result<usize, Failed>
        requires { failures self.old < 2 ^ 64 - 1 }
        ensures bound { IfOk result (λ n. n ≤ length bytes.now) }
        ensures some { IfOk result (λ n. 0 < length bytes.now → 0 < n) }
        ensures bytes { WriteAppends (written self.old) (written self.new) result bytes.now }
        ensures count { failures self.new ≡ failures self.old + (if is_err result then 1 else 0) };

    /// Hands on what the device has kept for later. An `Err` comes exactly where the count of failures rises, by 1.
    fn flush(&mut self) -> Result<(), Failed>
        requires { failures self.old < 2 ^ 64 - 1 }
        ensures bytes { Keeps (written self.old) (written self.new) }
        ensures count { failures self.new ≡ failures self.old + (if is_err result then 1 else 0) };
}
