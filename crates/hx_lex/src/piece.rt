// What stands at the front of some bytes: white space, a comment, or a token.

ghost use Rattle.std.specs.Prelude.{◌≡◌, ◌<◌, ◌≤◌, length, IfSome, IfOk};
ghost use Rattle.hx_tree.specs.Lexis as lexis;
ghost use Rattle.hx_lex.specs.Reading as reading;

use crate::byte::{byte_at, is_digit, is_letter, is_space, line_len, word_len};
use crate::error::LexError;
use crate::spelling::{keyword_of, punctuator_at};
use hx_tree::limits::{CONSTANT_LIMIT, NAME_LIMIT};
use hx_tree::token::{Kind, Pos};

/// White space or a comment, where it has no kind, or else a token; and how many bytes it has.
#[derive(Clone, Copy)]
pub struct Piece {
    pub kind: Option<Kind>,
    pub len: usize,
}

impl Piece {
    fn blank(len: usize) -> Piece
        ensures { result ≡ record { kind = None; len = len } }
    {
        Piece { kind: None, len }
    }

    fn token(kind: Kind, len: usize) -> Piece
        ensures { result ≡ record { kind = Some kind; len = len } }
    {
        Piece {
            kind: Some(kind),
            len,
        }
    }
}

/// What stands at the front of the bytes, which begin at this place.
pub(crate) fn piece_at(bytes: &[u8], pos: Pos) -> Result<Piece, LexError>
    requires { 0 < length bytes.now }
    ensures reading { result ≡ reading.piece_at pos bytes.now }
    ensures some { IfOk result (λ piece. 0 < piece.len) }
    ensures within { IfOk result (λ piece. piece.len ≤ length bytes.now) }
{
    classified(bytes, pos)
}

/// The same, by the first two bytes.
#[tactic(auto, unfolding(crate::specs::Reading::piece_at, hx_tree::specs::Lexis::class_of))]
fn classified(bytes: &[u8], pos: Pos) -> Result<Piece, LexError>
    requires { 0 < length bytes.now }
    ensures { result ≡ reading.piece_at pos bytes.now }
{
    let first = byte_at(bytes, 0);
    let second = byte_at(bytes, 1);
    if is_space(first) {
        Ok(Piece::blank(1))
    } else if first == b'/' && second == b'/' {
        Ok(Piece::blank(line_len(bytes)))
    } else if first == b'/' && second == b'*' {
        comment_at(bytes, pos)
    } else if is_letter(first) {
        word_at(bytes, pos)
    } else if is_digit(first) {
        number_at(bytes, pos)
    } else {
        mark_at(bytes, pos)
    }
}

/// A comment that begins with the first two bytes.
#[tactic(auto, unfolding(crate::specs::Reading::comment_at))]
fn comment_at(bytes: &[u8], pos: Pos) -> Result<Piece, LexError>
    requires { 2 ≤ length bytes.now }
    ensures { result ≡ reading.comment_at pos bytes.now }
{
    match close_len(&bytes[2..]) {
        Some(len) => Ok(Piece::blank(len + 2)),
        None => Err(LexError::OpenComment(pos)),
    }
}

/// How many bytes there are through the first `*/`.
#[tactic(auto, using(crate::proofs::Closing::ends_here, crate::proofs::Closing::goes_on, crate::proofs::Closing::ends_never))]
fn close_len(bytes: &[u8]) -> Option<usize>
    ensures len { result ≡ lexis.close_len bytes.now }
    ensures within { IfSome result (λ n. n ≤ length bytes.now) }
{
    let mut i = 0;
    while i + 1 < bytes.len() {
        if is_close(bytes[i], bytes[i + 1]) {
            return Some(i + 2);
        }
        i += 1;
    }
    None
}

fn is_close(first: u8, second: u8) -> bool
    ensures { result ≡ reading.is_close first second }
{
    first == b'*' && second == b'/'
}

/// A keyword or a name.
#[tactic(auto, unfolding(crate::specs::Reading::word_at))]
fn word_at(bytes: &[u8], pos: Pos) -> Result<Piece, LexError>
    ensures { result ≡ reading.word_at pos bytes.now }
{
    let len = word_len(bytes);
    match keyword_of(&bytes[..len]) {
        Some(mark) => Ok(Piece::token(Kind::Mark(mark), len)),
        None if len <= NAME_LIMIT => Ok(Piece::token(Kind::Name, len)),
        None => Err(LexError::LongName(pos)),
    }
}

/// A constant.
#[tactic(auto, unfolding(crate::specs::Reading::number_at))]
fn number_at(bytes: &[u8], pos: Pos) -> Result<Piece, LexError>
    ensures { result ≡ reading.number_at pos bytes.now }
{
    let len = word_len(bytes);
    match constant_of(&bytes[..len]) {
        Some(n) => Ok(Piece::token(Kind::Number(n), len)),
        None => Err(LexError::BadConstant(pos)),
    }
}

/// The value of a constant: `0`, or digits of which the first isn't 0, up to the limit.
#[tactic(auto, unfolding(hx_tree::specs::Lexis::constant_of))]
fn constant_of(text: &[u8]) -> Option<u32>
    ensures { result ≡ lexis.constant_of text.now }
{
    if text.len() > 1 && text[0] == b'0' {
        return None;
    }
    let mut n: u32 = 0;
    for b in text {
        if !is_digit(*b) {
            return None;
        }
        let next = u64::from(n) * 10 + u64::from(*b - b'0');
        if next > u64::from(CONSTANT_LIMIT) {
            return None;
        }
        n = next as u32;
    }
    Some(n)
}

/// A punctuator.
fn mark_at(bytes: &[u8], pos: Pos) -> Result<Piece, LexError>
    ensures { result ≡ reading.of_punctuator pos (lexis.punctuator_at bytes.now) }
{
    match punctuator_at(bytes) {
        Some((mark, len)) => Ok(Piece::token(Kind::Mark(mark), len)),
        None => Err(LexError::ForeignByte(pos)),
    }
}
