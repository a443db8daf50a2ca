// Sources without tokens.

use crate::line::from_place;
use crate::say::{quoted, say};
use hx_tree::limits::NAME_LIMIT;
use hx_tree::token::Pos;
use itoa::Buffer;
use std::alloc::{AllocError, Global};

fn is_in_word(byte: u8) -> bool {
    byte.is_ascii_alphanumeric() || byte == b'_'
}

/// The letters, digits and underscores at a place.
pub(crate) fn word_at(source: &[u8], pos: Pos) -> &[u8] {
    let rest = from_place(source, pos);
    let count = rest.iter().take_while(|b| is_in_word(**b)).count();
    &rest[..count]
}

/// A byte that begins no token.
pub(crate) fn foreign_byte(alloc: Global, source: &[u8], pos: Pos) -> Result<Vec<u8>, AllocError> {
    let mut buffer = Buffer::new();
    match from_place(source, pos) {
        [] => say(alloc, &[b"A byte stands here that begins no token."]),
        [byte, ..] if *byte > 32 && *byte < 127 => {
            say(alloc, &[b"No token begins with '", &[*byte], b"'."])
        }
        [byte, ..] => {
            let number = buffer.format(*byte).as_bytes();
            say(alloc, &[b"No token begins with the byte ", number, b"."])
        }
    }
}

/// What is no number.
pub(crate) fn bad_number(alloc: Global, source: &[u8], pos: Pos) -> Result<Vec<u8>, AllocError> {
    let word = word_at(source, pos);
    let why: &[u8] = if !word.iter().all(|b| b.is_ascii_digit()) {
        b"' begins like a number and has a letter or an underscore in it."
    } else if word.starts_with(b"0") {
        b"' begins with 0: there are no octal numbers, and no zeros in front."
    } else {
        b"' is greater than 2147483647."
    };
    quoted(alloc, word, why)
}

/// A name that is too long.
pub(crate) fn long_name(alloc: Global, source: &[u8], pos: Pos) -> Result<Vec<u8>, AllocError> {
    let mut has = Buffer::new();
    let mut limit = Buffer::new();
    let has = has.format(word_at(source, pos).len()).as_bytes();
    let limit = limit.format(NAME_LIMIT).as_bytes();
    say(
        alloc,
        &[
            b"This name has ",
            has,
            b" bytes, and at most ",
            limit,
            b" are allowed.",
        ],
    )
}
