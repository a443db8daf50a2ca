// The digits of a schedule.

ghost use Rattle.std.specs.Prelude.{◌≡◌, ◌↔◌, All, map, IfOk, IsTrue};
ghost use Rattle.hx_answer.specs.Replays.{digit, IsDigit, IsWorker};

use std::alloc::{AllocError, Global};

// Whether a byte is a digit, `0` to `9` or `a` to `f`.
fn is_digit(byte: u8) -> bool
    ensures { IsTrue result ↔ IsDigit byte }
{
    (byte >= b'0' && byte <= b'9') || (byte >= b'a' && byte <= b'f')
}

// The number of a digit.
fn number_of(byte: u8) -> u8
    ensures { result ≡ digit byte }
{
    if byte < b'a' {
        byte.saturating_sub(b'0')
    } else {
        byte - 87
    }
}

/// Whether each byte is the digit of one of so many workers.
pub(crate) fn are_workers(digits: &[u8], workers: u32) -> bool
    ensures { IsTrue result ↔ All (IsWorker workers) digits.now }
{
    digits.iter().all(|byte| is_digit(*byte) && u32::from(number_of(*byte)) < workers)
}

/// The numbers of digits.
pub(crate) fn numbers_of(alloc: Global, digits: &[u8]) -> Result<Vec<u8>, AllocError>
    ensures { IfOk result (λ v. v.items ≡ map digit digits.now) }
{
    let mut numbers = Vec::with_capacity(alloc, digits.len())?;
    for byte in digits {
        numbers.push(number_of(*byte))?;
    }
    Ok(numbers)
}
