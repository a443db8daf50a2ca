// What the tests of several stages ask of an answer.

use std::alloc::Global;
use std::fmt::Display;
use std::process::Abort;

/// Stops the test where this case is not as it is to be.
pub(crate) fn expect(rt: &impl Abort, is_right: bool, case: &[u8]) {
    assert!(rt; is_right, "{}", case.escape_ascii());
}

/// Whether this text is how a value is shown.
pub(crate) fn is_shown(alloc: Global, value: &impl Display, text: &[u8]) -> bool {
    match value.to_string(alloc) {
        Ok(shown) => shown.as_bytes() == text,
        Err(_) => false,
    }
}
