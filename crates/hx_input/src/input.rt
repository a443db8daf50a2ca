// The numbers of an input text.

ghost use Rattle.std.specs.Prelude.{◌≡◌, ◌≢◌, ◌↔◌, ◌<◌, IsTrue, ℤ, List, length, IfSome, IfOk, IfErr, None};
ghost use Rattle.std.specs.List.{prefix_len};
ghost use Rattle.std.specs.Fmt.{signed_decimal};
ghost use Rattle.hx_input.specs.InputText.{is_in_word, IsInputText, IsWordNumber, IsRefusedInput};

use hx_lex::is_space;
use hx_tree::limits::INPUT_LIMIT;
use itoa::Buffer;
use std::alloc::{AllocError, AllocFailed, Global};
use std::str;

/// Why an input text gives no numbers.
#[derive(Clone, Copy, Debug, PartialEq, Eq)]
pub enum InputError {
    /// 65: the text spells no list of numbers, or is longer than 1,048,576 bytes.
    BadText,
    /// 62: there was no memory for the numbers.
    Memory,
}

impl<T: Drop> From<AllocFailed<T>> for InputError {
    ghost use Rattle.std.specs.Prelude.{◌≡◌};
    ghost use Rattle.hx_input.specs.declared.input.InputError.TheVariants.{Memory};

    ghost from_gives = { λ _ e. e ≡ Memory };

    fn from(_e: AllocFailed<T>) -> InputError {
        InputError::Memory
    }
}

/// How many bytes stand before the first white space.
pub fn word_len(bytes: &[u8]) -> usize
    ensures { result ≡ prefix_len is_in_word bytes.now }
{
    bytes.iter().take_while(|b| !is_space(**b)).count()
}

// Whether the word is how the number is printed, with no other zeros or signs.
fn is_decimal_of(word: &[u8], value: i32) -> bool
    ensures { IsTrue result ↔ (word.now ≡ signed_decimal value) }
{
    let mut buffer = Buffer::new();
    buffer.format(value).as_bytes() == word
}

/// The number of 32 bits whose decimal the word is, without a sign or zeros in front that it doesn't need; none where it is that of no
/// such number.
pub fn number_of(word: &[u8]) -> Option<i32>
    ensures some { IfSome result (λ z. (word.now ≡ signed_decimal z) × IsWordNumber z) }
    ensures none { result ≡ None → (z : ℤ) → IsWordNumber z → word.now ≢ signed_decimal z }
{
    let Ok(text) = str::from_utf8(word) else {
        return None;
    };
    let Ok(value) = text.parse::<i32>() else {
        return None;
    };
    if is_decimal_of(word, value) {
        Some(value)
    } else {
        None
    }
}

/// The numbers that an input text spells, in their order.
///
/// Numbers stand in decimal with white space (the bytes 9, 10, 13 and 32) between them, before and behind them. A number is
/// `0`, or digits of which the first isn't 0, or `-` and such digits, and lies from -2147483648 to 2147483647; so `-0`, `+1`
/// and `07` are no numbers. The empty text spells the empty list. An `Ok` is the one list that the text spells. Refusals:
///
/// - 65, `BadText`: the text spells no list, or is longer than 1,048,576 bytes, in which case it is always answered.
/// - 62, `Memory`: there was no memory for the numbers; this says nothing of the text.
pub fn parse_input(alloc: Global, text: &[u8]) -> Result<Vec<i32>, InputError>
    ensures spelled { IfOk result (λ v. IsInputText text.now v.items) }
    ensures only { IfOk result (λ v. (zs : List ℤ) → IsInputText text.now zs → zs ≡ v.items) }
    ensures refused { IfErr result (IsRefusedInput text.now) }
    ensures long { INPUT_LIMIT < length text.now → result ≡ Err InputError.BadText }
{
    if text.len() > INPUT_LIMIT {
        return Err(InputError::BadText);
    }
    let mut values = Vec::new(alloc);
    let mut at = 0;
    while at < text.len() {
        let (_, rest) = text.split_at(at);
        let len = word_len(rest);
        if len > 0 {
            match number_of(&rest[..len]) {
                Some(value) => values.push(value)?,
                None => return Err(InputError::BadText),
            }
        }
        at += len + 1;
    }
    Ok(values)
}
