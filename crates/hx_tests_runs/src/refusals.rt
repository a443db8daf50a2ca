// The texts of refusals, and their numbers.

use crate::answers::expect;
use hx_check::error::CheckError;
use hx_lex::LexError;
use hx_lower::LowerError;
use hx_parse::ParseError;
use hx_run::Refusal;
use hx_tree::token::Pos;
use std::alloc::Global;

const PLACE: Pos = Pos { line: 3, col: 14 };

static REFUSALS: [(Refusal, u32, &[u8]); 11] = [
    (
        Refusal::Lex(LexError::ForeignByte(PLACE)),
        1,
        b"a byte that begins no token at 3:14",
    ),
    (
        Refusal::Parse(ParseError::Syntax(PLACE)),
        10,
        b"no program goes on so at 3:14",
    ),
    (
        Refusal::Check(CheckError::UnknownName(PLACE)),
        20,
        b"refused 20 at 3:14",
    ),
    (Refusal::Lower(LowerError::Memory), 30, b"refused 30"),
    (Refusal::Pool, 50, b"no memory for a marked loop"),
    (Refusal::Settings, 60, b"settings out of range"),
    (Refusal::InputTooLong, 61, b"input that does not fit"),
    (Refusal::Memory, 62, b"out of memory"),
    (Refusal::ReadFailed, 63, b"read failed"),
    (Refusal::WriteFailed, 64, b"write failed"),
    (Refusal::InputText, 65, b"no input text"),
];

// Whether this text is how a refusal is shown.
fn is_shown(alloc: Global, refusal: &Refusal, text: &[u8]) -> bool {
    match refusal.to_string(alloc) {
        Ok(shown) => shown.as_bytes() == text,
        Err(_) => false,
    }
}

#[test]
fn tells_each_refusal(rt: HostRuntime) {
    for (refusal, number, text) in &REFUSALS {
        expect(&rt, is_shown(rt.alloc(), refusal, text), text);
        expect(&rt, refusal.number() == *number, text);
    }
}
