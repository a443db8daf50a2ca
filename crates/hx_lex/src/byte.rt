// Classes of bytes, and the longest fronts of bytes of one class.

ghost use Rattle.std.specs.Prelude.{◌≡◌, ◌≢◌, ◌<◌, length, slice_index, take_while};
ghost use Rattle.hx_tree.specs.Lexis as lexis;

/// White space: a tab, a line feed, a carriage return or a blank (of ISO/IEC 9899:2011, 6.4, without form feed and vertical tab).
pub fn is_space(b: u8) -> bool
    ensures { result ≡ lexis.is_space b }
{
    b == b'\t' || b == b'\n' || b == b'\r' || b == b' '
}

/// What a name begins with (ISO/IEC 9899:2011, 6.4.2.1).
pub(crate) fn is_letter(b: u8) -> bool
    ensures { result ≡ lexis.is_letter b }
{
    (b >= b'a' && b <= b'z') || (b >= b'A' && b <= b'Z') || b == b'_'
}

pub(crate) fn is_digit(b: u8) -> bool
    ensures { result ≡ lexis.is_digit b }
{
    b >= b'0' && b <= b'9'
}

fn is_word_byte(b: u8) -> bool
    ensures { result ≡ lexis.is_word_byte b }
{
    is_letter(b) || is_digit(b)
}

/// How many letters, digits and underscores stand in front.
pub(crate) fn word_len(bytes: &[u8]) -> usize
    ensures { result ≡ length (take_while lexis.is_word_byte bytes.now) }
{
    bytes.iter().take_while(|b| is_word_byte(**b)).count()
}

/// How many bytes stand before the line's end, or the source's.
pub(crate) fn line_len(bytes: &[u8]) -> usize
    ensures { result ≡ length (take_while lexis.is_in_line bytes.now) }
{
    bytes.iter().take_while(|b| **b != b'\n').count()
}

/// The byte at this index, or 0 behind the end.
pub(crate) fn byte_at(bytes: &[u8], index: usize) -> u8
    ensures value { result ≡ slice_index bytes.now index }
    ensures within { result ≢ 0 → index < length bytes.now }
{
    if index < bytes.len() { bytes[index] } else { 0 }
}
