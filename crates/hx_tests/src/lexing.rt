// Sources and their tokens, worked out by hand from the language's rules, and the texts of the lexer's refusals.

use crate::answers::{expect, is_shown};
use crate::building::{append, copied};
use hx_lex::{LexError, Span, Token, tokens};
use hx_tree::token::{Kind, Mark, Pos};
use std::alloc::{AllocError, Global};
use std::process::Abort;

static KEYWORDS: [(&[u8], Mark); 14] = [
    (b"int", Mark::Int),
    (b"void", Mark::Void),
    (b"if", Mark::If),
    (b"else", Mark::Else),
    (b"while", Mark::While),
    (b"do", Mark::Do),
    (b"for", Mark::For),
    (b"pwhile", Mark::MarkedWhile),
    (b"pfor", Mark::MarkedFor),
    (b"break", Mark::Break),
    (b"continue", Mark::Continue),
    (b"return", Mark::Return),
    (b"print", Mark::Print),
    (b"emit", Mark::Emit),
];

/// The text of a punctuator, and what it is.
type Punctuator = (&'static [u8], Mark);

static PUNCTUATORS: [Punctuator; 43] = [
    (b"(", Mark::OpenParen),
    (b")", Mark::CloseParen),
    (b"{", Mark::OpenBrace),
    (b"}", Mark::CloseBrace),
    (b"[", Mark::OpenBracket),
    (b"]", Mark::CloseBracket),
    (b",", Mark::Comma),
    (b";", Mark::Semicolon),
    (b"=", Mark::Assign),
    (b"+", Mark::Plus),
    (b"-", Mark::Minus),
    (b"*", Mark::Times),
    (b"/", Mark::Divide),
    (b"%", Mark::Remainder),
    (b"&", Mark::Ampersand),
    (b"|", Mark::Bar),
    (b"^", Mark::Caret),
    (b"~", Mark::Tilde),
    (b"!", Mark::Exclamation),
    (b"<", Mark::Less),
    (b">", Mark::Greater),
    (b"?", Mark::Question),
    (b":", Mark::Colon),
    (b"++", Mark::Increment),
    (b"--", Mark::Decrement),
    (b"<<", Mark::ShiftLeft),
    (b">>", Mark::ShiftRight),
    (b"<=", Mark::LessEqual),
    (b">=", Mark::GreaterEqual),
    (b"==", Mark::Equal),
    (b"!=", Mark::NotEqual),
    (b"&&", Mark::AndAnd),
    (b"||", Mark::BarBar),
    (b"+=", Mark::PlusAssign),
    (b"-=", Mark::MinusAssign),
    (b"*=", Mark::TimesAssign),
    (b"/=", Mark::DivideAssign),
    (b"%=", Mark::RemainderAssign),
    (b"&=", Mark::AmpersandAssign),
    (b"|=", Mark::BarAssign),
    (b"^=", Mark::CaretAssign),
    (b"<<=", Mark::ShiftLeftAssign),
    (b">>=", Mark::ShiftRightAssign),
];

/// Two punctuators with nothing between them that are read as others: the two, and what is read.
static MERGED: [(Mark, Mark, &[u8]); 52] = [
    (Mark::Assign, Mark::Assign, b"== "),
    (Mark::Assign, Mark::Equal, b"== = "),
    (Mark::Plus, Mark::Assign, b"+= "),
    (Mark::Plus, Mark::Equal, b"+= = "),
    (Mark::Plus, Mark::Plus, b"++ "),
    (Mark::Plus, Mark::Increment, b"++ + "),
    (Mark::Plus, Mark::PlusAssign, b"++ = "),
    (Mark::Minus, Mark::Assign, b"-= "),
    (Mark::Minus, Mark::Equal, b"-= = "),
    (Mark::Minus, Mark::Minus, b"-- "),
    (Mark::Minus, Mark::Decrement, b"-- - "),
    (Mark::Minus, Mark::MinusAssign, b"-- = "),
    (Mark::Times, Mark::Assign, b"*= "),
    (Mark::Times, Mark::Equal, b"*= = "),
    (Mark::Divide, Mark::Assign, b"/= "),
    (Mark::Divide, Mark::Equal, b"/= = "),
    (Mark::Divide, Mark::Divide, b""),
    (Mark::Divide, Mark::DivideAssign, b""),
    (Mark::Divide, Mark::Times, b"open comment"),
    (Mark::Divide, Mark::TimesAssign, b"open comment"),
    (Mark::Remainder, Mark::Assign, b"%= "),
    (Mark::Remainder, Mark::Equal, b"%= = "),
    (Mark::Ampersand, Mark::Assign, b"&= "),
    (Mark::Ampersand, Mark::Equal, b"&= = "),
    (Mark::Ampersand, Mark::Ampersand, b"&& "),
    (Mark::Ampersand, Mark::AndAnd, b"&& & "),
    (Mark::Ampersand, Mark::AmpersandAssign, b"&& = "),
    (Mark::Bar, Mark::Assign, b"|= "),
    (Mark::Bar, Mark::Equal, b"|= = "),
    (Mark::Bar, Mark::Bar, b"|| "),
    (Mark::Bar, Mark::BarBar, b"|| | "),
    (Mark::Bar, Mark::BarAssign, b"|| = "),
    (Mark::Caret, Mark::Assign, b"^= "),
    (Mark::Caret, Mark::Equal, b"^= = "),
    (Mark::Exclamation, Mark::Assign, b"!= "),
    (Mark::Exclamation, Mark::Equal, b"!= = "),
    (Mark::Less, Mark::Assign, b"<= "),
    (Mark::Less, Mark::Equal, b"<= = "),
    (Mark::Less, Mark::Less, b"<< "),
    (Mark::Less, Mark::ShiftLeft, b"<< < "),
    (Mark::Less, Mark::LessEqual, b"<<= "),
    (Mark::Less, Mark::ShiftLeftAssign, b"<< <= "),
    (Mark::Greater, Mark::Assign, b">= "),
    (Mark::Greater, Mark::Equal, b">= = "),
    (Mark::Greater, Mark::Greater, b">> "),
    (Mark::Greater, Mark::ShiftRight, b">> > "),
    (Mark::Greater, Mark::GreaterEqual, b">>= "),
    (Mark::Greater, Mark::ShiftRightAssign, b">> >= "),
    (Mark::ShiftLeft, Mark::Assign, b"<<= "),
    (Mark::ShiftLeft, Mark::Equal, b"<<= = "),
    (Mark::ShiftRight, Mark::Assign, b">>= "),
    (Mark::ShiftRight, Mark::Equal, b">>= = "),
];

/// Whether these are the texts of the tokens, with a blank behind each.
fn are_texts(tokens: &[Token<'_>], texts: &[u8]) -> bool {
    let mut rest = texts;
    for token in tokens {
        match rest.strip_prefix(token.text) {
            Some([b' ', behind @ ..]) => rest = behind,
            _ => return false,
        }
    }
    rest.is_empty()
}

/// Whether a source's tokens have these texts, or a comment is open where that is wanted.
fn has_texts(alloc: Global, source: &[u8], texts: &[u8]) -> bool {
    match tokens(alloc, source) {
        Ok(tokens) => are_texts(tokens.as_slice(), texts),
        Err(LexError::OpenComment(_)) => texts == b"open comment".as_slice(),
        Err(_) => false,
    }
}

/// Whether a source's tokens have these two texts.
fn has_both(alloc: Global, source: &[u8], first: &[u8], second: &[u8]) -> bool {
    match tokens(alloc, source) {
        Ok(tokens) => match tokens.as_slice() {
            [one, other] => one.text == first && other.text == second,
            _ => false,
        },
        Err(_) => false,
    }
}

fn merged(first: Mark, second: Mark) -> Option<&'static [u8]> {
    for entry in &MERGED {
        if entry.0 == first && entry.1 == second {
            return Some(entry.2);
        }
    }
    None
}

/// Whether the source that two punctuators make is read as it is to be.
fn is_right_pair(alloc: Global, source: &[u8], first: &Punctuator, second: &Punctuator) -> bool {
    match merged(first.1, second.1) {
        Some(texts) => has_texts(alloc, source, texts),
        None => has_both(alloc, source, first.0, second.0),
    }
}

fn expect_pair(rt: &(impl Abort + Alloc<A = Global>), first: &Punctuator, second: &Punctuator) {
    let mut source = copied(rt, first.0);
    append(rt, &mut source, second.0, 1);
    let is_right = is_right_pair(rt.alloc(), source.as_slice(), first, second);
    expect(rt, is_right, source.as_slice());
}

/// That each punctuator is read as it is to be before each other, with nothing between them.
fn expect_pairs(rt: &(impl Abort + Alloc<A = Global>), all: &[Punctuator]) {
    for first in all {
        for second in all {
            expect_pair(rt, first, second);
        }
    }
}

/// The number of a refusal, and its line and column, or zeros where there are none.
type Refusal = (u32, u32, u32);

fn refusal(alloc: Global, source: &[u8]) -> Refusal {
    match tokens(alloc, source) {
        Ok(_) => (0, 0, 0),
        Err(e) => match e.pos() {
            Some(pos) => (e.number(), pos.line, pos.col),
            None => (e.number(), 0, 0),
        },
    }
}

fn expect_texts(rt: &impl Abort, alloc: Global, source: &[u8], texts: &[u8]) {
    expect(rt, has_texts(alloc, source, texts), source);
}

fn expect_refusal(rt: &impl Abort, alloc: Global, source: &[u8], wanted: Refusal) {
    expect(rt, refusal(alloc, source) == wanted, source);
}

fn expect_refusals(rt: &impl Abort, alloc: Global, rows: &[(&[u8], Refusal)]) {
    for (source, wanted) in rows {
        expect_refusal(rt, alloc, source, *wanted);
    }
}

/// Whether a token is of this kind, and stands from and up to these bytes, at this line and column.
fn is_at(token: &Token<'_>, kind: Kind, span: (usize, usize), pos: (u32, u32)) -> bool {
    let (start, end) = span;
    let (line, col) = pos;
    token.kind == kind && token.span == Span { start, end } && token.pos == Pos { line, col }
}

/// Whether a token is the whole of a source, and of this kind.
fn is_whole(token: &Token<'_>, source: &[u8], kind: Kind) -> bool {
    token.text == source && is_at(token, kind, (0, source.len()), (1, 1))
}

/// Whether a source is one token of this kind.
fn is_one(alloc: Global, source: &[u8], kind: Kind) -> bool {
    match tokens(alloc, source) {
        Ok(tokens) => match tokens.as_slice() {
            [token] => is_whole(token, source, kind),
            _ => false,
        },
        Err(_) => false,
    }
}

fn expect_one(rt: &impl Abort, alloc: Global, source: &[u8], kind: Kind) {
    expect(rt, is_one(alloc, source, kind), source);
}

fn expect_marks(rt: &impl Abort, alloc: Global, rows: &[(&[u8], Mark)]) {
    for (text, mark) in rows {
        expect_one(rt, alloc, text, Kind::Mark(*mark));
    }
}

#[test]
fn each_mark_alone(rt: HostRuntime) {
    expect_marks(&rt, rt.alloc(), &KEYWORDS);
    expect_marks(&rt, rt.alloc(), &PUNCTUATORS);
}

#[test]
fn each_mark_before_each_other(rt: HostRuntime) {
    expect_pairs(&rt, &PUNCTUATORS);
}

static NAMES: [&[u8]; 8] = [
    b"x", b"_", b"intx", b"_int", b"Int", b"pfor2", b"If", b"i_1",
];

static LONG_NAME: &[u8] = b"int aaaaaaaaaaaaaaaaaaaaaaaaaaaaaaaaaaaaaaaaaaaaaaaaaaaaaaaaaaaaaaaa;";

#[test]
fn names_and_keywords(rt: HostRuntime) {
    let alloc = rt.alloc();
    for name in &NAMES {
        expect_one(&rt, alloc, name, Kind::Name);
    }
    expect_one(&rt, alloc, &[b'a'; 63], Kind::Name);
    expect_refusal(&rt, alloc, &[b'a'; 64], (4, 1, 1));
    expect_refusal(&rt, alloc, LONG_NAME, (4, 1, 5));
}

static NUMBERS: [(&[u8], u32); 3] = [(b"0", 0), (b"10", 10), (b"2147483647", 2147483647)];

static BAD_CONSTANTS: [(&[u8], Refusal); 9] = [
    (b"2147483648", (2, 1, 1)),
    (b"99999999999999999999", (2, 1, 1)),
    (b"08", (2, 1, 1)),
    (b"00", (2, 1, 1)),
    (b"0x1", (2, 1, 1)),
    (b"1a", (2, 1, 1)),
    (b"1_", (2, 1, 1)),
    (b"0_", (2, 1, 1)),
    (b"int main(){ int x=08; }", (2, 1, 19)),
];

#[test]
fn constants(rt: HostRuntime) {
    for (text, number) in &NUMBERS {
        expect_one(&rt, rt.alloc(), text, Kind::Number(*number));
    }
    expect_refusals(&rt, rt.alloc(), &BAD_CONSTANTS);
}

/// Sources with white space and comments, and the texts of their tokens.
static SPACED: [(&[u8], &[u8]); 12] = [
    (b"", b""),
    (b" \t\r\n", b""),
    (b"//", b""),
    (b"// $\xff", b""),
    (b"/**/", b""),
    (b"/* // */", b""),
    (b"// /*\n", b""),
    (b"/*/*/", b""),
    (b"/*\n*\n/ **/", b""),
    (b"a/*$*/b//c\nd", b"a b d "),
    (b"a/b/ /c*/d", b"a / b / / c * / d "),
    (b"/**/*/**/", b"* "),
];

static OPEN_COMMENTS: [(&[u8], Refusal); 6] = [
    (b"/* x", (3, 1, 1)),
    (b"/*", (3, 1, 1)),
    (b"/*/", (3, 1, 1)),
    (b"/* *", (3, 1, 1)),
    (b"/* * /", (3, 1, 1)),
    (b"a\n /*\n", (3, 2, 2)),
];

#[test]
fn white_space_and_comments(rt: HostRuntime) {
    for (source, texts) in &SPACED {
        expect_texts(&rt, rt.alloc(), source, texts);
    }
    expect_refusals(&rt, rt.alloc(), &OPEN_COMMENTS);
}

/// Whether a byte is read as it is to be: as a token, as white space or not at all.
fn is_right_byte(b: u8, answer: Refusal, is_token: bool) -> bool {
    match b {
        b'\t' | b'\n' | b'\r' | b' ' => answer == (0, 0, 0) && !is_token,
        b'a'..=b'z' | b'A'..=b'Z' | b'_' | b'0'..=b'9' => is_token,
        _ if b"(){}[],;=+-*/%&|^~!<>?:".contains(&b) => is_token,
        _ => answer == (1, 1, 1),
    }
}

fn is_token(alloc: Global, source: &[u8]) -> bool {
    match tokens(alloc, source) {
        Ok(tokens) => tokens.len() == 1,
        Err(_) => false,
    }
}

#[test]
fn each_byte_alone(rt: HostRuntime) {
    let alloc = rt.alloc();
    for b in 0..=255u8 {
        let source = [b];
        let is_right = is_right_byte(b, refusal(alloc, &source), is_token(alloc, &source));
        expect(&rt, is_right, &source);
        expect_texts(&rt, alloc, &[b'/', b'*', b, b'*', b'/'], b"");
    }
}

static LEFTMOST: [(&[u8], Refusal); 5] = [
    (b"int $x;", (1, 1, 5)),
    (b"08 $ /*", (2, 1, 1)),
    (b"\n\n  $ 08 /*", (1, 3, 3)),
    (b"x /* 08 $", (3, 1, 3)),
    (b"// $\n\t@", (1, 2, 2)),
];

#[test]
fn the_leftmost_fault(rt: HostRuntime) {
    expect_refusals(&rt, rt.alloc(), &LEFTMOST);
}

fn are_at_places(tokens: &[Token<'_>]) -> bool {
    match tokens {
        [int, name, assign, decrement, number, semicolon] => {
            is_at(int, Kind::Mark(Mark::Int), (0, 3), (1, 1))
                && is_at(name, Kind::Name, (7, 8), (2, 3))
                && is_at(assign, Kind::Mark(Mark::Assign), (14, 15), (4, 3))
                && is_at(decrement, Kind::Mark(Mark::Decrement), (16, 18), (4, 5))
                && is_at(number, Kind::Number(1), (18, 19), (4, 7))
                && is_at(semicolon, Kind::Mark(Mark::Semicolon), (19, 20), (4, 8))
        }
        _ => false,
    }
}

/// Whether a source's tokens stand at the places.
fn has_places(alloc: Global, source: &[u8]) -> bool {
    match tokens(alloc, source) {
        Ok(tokens) => are_at_places(tokens.as_slice()),
        Err(_) => false,
    }
}

#[test]
fn places(rt: HostRuntime) {
    let source = b"int\r\n  x/*\n\n*/= --1;\n";
    expect_texts(&rt, rt.alloc(), source, b"int x = -- 1 ; ");
    expect(&rt, has_places(rt.alloc(), source), source);
}

/// Whether so many blanks are no tokens.
fn are_blank(alloc: Global, count: usize) -> bool {
    match vec![in alloc; b' '; count] {
        Ok(source) => has_texts(alloc, source.as_slice(), b""),
        Err(_) => false,
    }
}

/// How a source is refused that is the same byte so many times; 6 is want of memory.
fn refusal_of_many(alloc: Global, b: u8, count: usize) -> Refusal {
    match vec![in alloc; b; count] {
        Ok(source) => refusal(alloc, source.as_slice()),
        Err(_) => (6, 0, 0),
    }
}

#[test]
fn the_length_of_a_source(rt: HostRuntime) {
    let alloc = rt.alloc();
    expect(&rt, are_blank(alloc, 65536), b"65536 blanks");
    expect(
        &rt,
        refusal_of_many(alloc, b' ', 65537) == (5, 0, 0),
        b"65537 blanks",
    );
    expect(
        &rt,
        refusal_of_many(alloc, b'$', 65537) == (5, 0, 0),
        b"65537 dollars",
    );
}

fn tells(alloc: Global, error: LexError, number: u32, place: Option<Pos>, text: &[u8]) -> bool {
    error.number() == number && error.pos() == place && is_shown(alloc, &error, text)
}

const PLACE: Pos = Pos { line: 3, col: 14 };

static REFUSALS: [(LexError, u32, Option<Pos>, &[u8]); 5] = [
    (
        LexError::ForeignByte(PLACE),
        1,
        Some(PLACE),
        b"a byte that begins no token at 3:14",
    ),
    (
        LexError::BadConstant(PLACE),
        2,
        Some(PLACE),
        b"no constant at 3:14",
    ),
    (
        LexError::OpenComment(PLACE),
        3,
        Some(PLACE),
        b"a comment without an end at 3:14",
    ),
    (
        LexError::LongName(PLACE),
        4,
        Some(PLACE),
        b"a name of more than 63 bytes at 3:14",
    ),
    (
        LexError::TooLong,
        5,
        None,
        b"a source of more than 65536 bytes",
    ),
];

#[test]
fn numbers_places_and_texts(rt: HostRuntime) {
    for (error, number, place, text) in &REFUSALS {
        expect(&rt, tells(rt.alloc(), *error, *number, *place, text), text);
    }
    let memory = LexError::from(AllocError);
    let text = b"out of memory";
    expect(&rt, tells(rt.alloc(), memory, 6, None, text), text);
}
