// The printed text, whose room was reserved from the beginning.

ghost use Rattle.std.specs.Prelude.{◌≡◌, ◌+◌, ◌≤◌, ◌++◌, length, vec_len, vec_capacity, nat_le, if◌then◌else◌};
ghost use Rattle.hx_code.specs.Call.{bytes_of};

use hx_code::word::Output;
use hx_tree::limits::TEXT_LIMIT;
use itoa::Buffer;

/// Adds a number with its line feed, or a byte, unless the text would pass its limit. The text
/// stands behind so many bytes.
pub fn print(text: &mut Vec<u8>, before: usize, output: Output) -> bool
    requires room { TEXT_LIMIT ≤ vec_capacity text.old }
    requires fits { before + vec_len text.old ≤ TEXT_LIMIT }
    ensures told { result ≡ nat_le (before + length text.old.items + length (bytes_of output)) TEXT_LIMIT }
    ensures items { text.new.items ≡ (if result then text.old.items ++ bytes_of output else text.old.items) }
    ensures room { TEXT_LIMIT ≤ vec_capacity text.new }
{
    match output {
        Output::Number(value) => {
            let mut buffer = Buffer::new();
            let digits = buffer.format(value).as_bytes();
            if TEXT_LIMIT - before - text.len() < digits.len() + 1 {
                return false;
            }
            let Ok(()) = text.extend_from_slice(digits) else {
                unreachable!()
            };
            let Ok(()) = text.push(10) else {
                unreachable!()
            };
        }
        Output::Byte(byte) => {
            if TEXT_LIMIT - before <= text.len() {
                return false;
            }
            let Ok(()) = text.push(byte) else {
                unreachable!()
            };
        }
    }
    true
}
