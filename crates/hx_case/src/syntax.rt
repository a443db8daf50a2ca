// Tokens that spell no program: what stands at the place, and what could.

use crate::say::say;
use hx_lex::{Span, Token, tokens};
use hx_parse::{ParseError, parse};
use hx_tree::token::{Kind, Mark, Pos};
use std::alloc::{AllocError, Global};

/// Tokens that are told together where each of them can stand at a place, and one by one where only some can.
struct Group {
    together: &'static [u8],
    tokens: &'static [u8],
}

const EXPRESSION: Group = Group {
    together: b"an expression",
    tokens: b"1 ( ~ !",
};

const STATEMENT: Group = Group {
    together: b"a statement",
    tokens: b"{ ; if while for pwhile pfor break continue return print emit",
};

const OPERATOR: Group = Group {
    together: b"an operator",
    tokens: b"* / % + << >> < <= > >= == != & ^ | && ||",
};

const ASSIGNMENT: Group = Group {
    together: b"an assignment",
    tokens: b"= += -= *= /= %= <<= >>= &= ^= |= ++ --",
};

/// Tokens that are told by themselves, a name unless an expression or a statement was told, and `-` unless an expression or an
/// operator was.
const OTHERS: &[u8] = b"x - int void else ) } [ ] ,";

/// What could stand at a place, as it is told: what is told together, and single tokens.
#[derive(Drop)]
struct Choices {
    together: Vec<Vec<u8>>,
    single: Vec<Vec<u8>>,
}

// The tokens of a text of ours.
fn our_tokens(alloc: Global, text: &'static [u8]) -> Result<Vec<Token<'static>>, AllocError> {
    tokens(alloc, text).map_err(|_| AllocError)
}

// These tokens, and then one of this kind at a place.
fn line_of<'a>(
    alloc: Global,
    before: &[Token<'a>],
    kind: Kind,
    pos: Pos,
) -> Result<Vec<Token<'a>>, AllocError> {
    let mut line = Vec::with_capacity(alloc, before.len().saturating_add(1))?;
    line.extend_from_slice(before)?;
    line.push(Token {
        kind,
        text: b"x",
        span: Span { start: 0, end: 1 },
        pos,
    })?;
    Ok(line)
}

// Whether some program begins with these tokens and then with one of this kind, as far as the parser finds.
fn can_follow(
    alloc: Global,
    before: &[Token<'_>],
    kind: Kind,
    pos: Pos,
) -> Result<bool, AllocError> {
    let line = line_of(alloc, before, kind, pos)?;
    begins_a_program(alloc, line.as_slice(), pos)
}

// Whether some program begins with these tokens, of which the last is at a place.
fn begins_a_program(alloc: Global, line: &[Token<'_>], pos: Pos) -> Result<bool, AllocError> {
    match parse(alloc, line) {
        Ok(_) => Ok(true),
        Err(ParseError::Syntax(found)) => Ok(found != pos),
        Err(ParseError::TooDeep) => Ok(false),
        Err(ParseError::Memory) => Err(AllocError),
    }
}

// A token as it is told.
fn told(alloc: Global, token: &Token<'_>) -> Result<Vec<u8>, AllocError> {
    match token.kind {
        Kind::Name => say(alloc, &[b"a name"]),
        Kind::Number(_) => say(alloc, &[b"a number"]),
        Kind::Mark(_) => say(alloc, &[b"'", token.text, b"'"]),
    }
}

// A token as it is told, where it can stand behind these tokens.
fn told_choice(
    alloc: Global,
    before: &[Token<'_>],
    token: &Token<'_>,
    pos: Pos,
) -> Result<Option<Vec<u8>>, AllocError> {
    if can_follow(alloc, before, token.kind, pos)? {
        Ok(Some(told(alloc, token)?))
    } else {
        Ok(None)
    }
}

// Those of some tokens that can stand behind others, as they are told.
fn told_choices(
    alloc: Global,
    before: &[Token<'_>],
    all: &[Token<'_>],
    pos: Pos,
) -> Result<Vec<Vec<u8>>, AllocError> {
    let mut found = Vec::new(alloc);
    for token in all {
        if let Some(text) = told_choice(alloc, before, token, pos)? {
            found.push(text)?;
        }
    }
    Ok(found)
}

fn put_together(
    alloc: Global,
    choices: &mut Choices,
    together: &'static [u8],
) -> Result<(), AllocError> {
    let text = say(alloc, &[together])?;
    choices.together.push(text)?;
    Ok(())
}

fn put_single(choices: &mut Choices, found: Vec<Vec<u8>>) -> Result<(), AllocError> {
    for text in found {
        choices.single.push(text)?;
    }
    Ok(())
}

// Puts what of a group can stand behind these tokens, and answers whether each of it can.
fn put_group(
    alloc: Global,
    choices: &mut Choices,
    before: &[Token<'_>],
    group: &Group,
    pos: Pos,
) -> Result<bool, AllocError> {
    let all = our_tokens(alloc, group.tokens)?;
    let found = told_choices(alloc, before, all.as_slice(), pos)?;
    if found.len() == all.len() {
        put_together(alloc, choices, group.together)?;
        return Ok(true);
    }
    put_single(choices, found)?;
    Ok(false)
}

/// Which groups were told together.
#[derive(Clone, Copy)]
struct Together {
    expression: bool,
    statement: bool,
    operator: bool,
}

impl Together {
    // Whether a token was told with one of these.
    fn tells(self, kind: Kind) -> bool {
        match kind {
            Kind::Name => self.expression || self.statement,
            Kind::Mark(Mark::Minus) => self.expression || self.operator,
            _ => false,
        }
    }
}

fn put_groups(
    alloc: Global,
    choices: &mut Choices,
    before: &[Token<'_>],
    pos: Pos,
) -> Result<Together, AllocError> {
    let expression = put_group(alloc, choices, before, &EXPRESSION, pos)?;
    let statement = put_group(alloc, choices, before, &STATEMENT, pos)?;
    let operator = put_group(alloc, choices, before, &OPERATOR, pos)?;
    put_group(alloc, choices, before, &ASSIGNMENT, pos)?;
    Ok(Together {
        expression,
        statement,
        operator,
    })
}

// Puts those of some tokens that can stand behind others, and weren't told in a group.
fn put_others(
    alloc: Global,
    choices: &mut Choices,
    before: &[Token<'_>],
    others: &[Token<'_>],
    together: Together,
    pos: Pos,
) -> Result<(), AllocError> {
    for token in others {
        if together.tells(token.kind) {
            continue;
        }
        if let Some(text) = told_choice(alloc, before, token, pos)? {
            choices.single.push(text)?;
        }
    }
    Ok(())
}

fn put_all(
    alloc: Global,
    choices: &mut Choices,
    before: &[Token<'_>],
    pos: Pos,
) -> Result<(), AllocError> {
    let together = put_groups(alloc, choices, before, pos)?;
    let others = our_tokens(alloc, OTHERS)?;
    put_others(alloc, choices, before, others.as_slice(), together, pos)
}

// What can stand behind these tokens, at a place.
fn choices_at(alloc: Global, before: &[Token<'_>], pos: Pos) -> Result<Choices, AllocError> {
    let mut choices = Choices {
        together: Vec::new(alloc),
        single: Vec::new(alloc),
    };
    put_all(alloc, &mut choices, before, pos)?;
    Ok(choices)
}

// Puts texts behind a text, with a comma before each but the first of all, and an `or` before the last of all. So many are left.
fn put_texts(text: &mut Vec<u8>, texts: &[Vec<u8>], left: usize) -> Result<usize, AllocError> {
    let mut left = left;
    for one in texts {
        let between: &[u8] = if text.is_empty() {
            b""
        } else if left == 1 {
            b" or "
        } else {
            b", "
        };
        text.extend_from_slice(between)?;
        text.extend_from_slice(one.as_slice())?;
        left = left.saturating_sub(1);
    }
    Ok(left)
}

// All choices as one text.
fn listed(alloc: Global, choices: &Choices) -> Result<Vec<u8>, AllocError> {
    let mut text = Vec::new(alloc);
    let all = choices.together.len().saturating_add(choices.single.len());
    let left = put_texts(&mut text, choices.together.as_slice(), all)?;
    put_texts(&mut text, choices.single.as_slice(), left)?;
    Ok(text)
}

// What can stand behind these tokens, at a place, as one text.
fn choices_told(alloc: Global, before: &[Token<'_>], pos: Pos) -> Result<Vec<u8>, AllocError> {
    let choices = choices_at(alloc, before, pos)?;
    listed(alloc, &choices)
}

// What stands at a place, if anything does, and the choices there.
fn place_told(
    alloc: Global,
    token: Option<&Token<'_>>,
    choices: &[u8],
) -> Result<Vec<u8>, AllocError> {
    match token {
        Some(token) => say(
            alloc,
            &[b"'", token.text, b"' can't stand here; ", choices, b" can."],
        ),
        None => say(
            alloc,
            &[b"The source can't end here; ", choices, b" can follow."],
        ),
    }
}

// What stands at a place among tokens where no program goes on so, and what could stand there.
fn no_program_of(alloc: Global, all: &[Token<'_>], pos: Pos) -> Result<Vec<u8>, AllocError> {
    let count = all.iter().take_while(|token| token.pos != pos).count();
    let (before, behind) = all.split_at(count);
    let choices = choices_told(alloc, before, pos)?;
    place_told(alloc, behind.first(), choices.as_slice())
}

/// What stands where no program goes on so, and what could stand there.
pub(crate) fn no_program(alloc: Global, source: &[u8], pos: Pos) -> Result<Vec<u8>, AllocError> {
    let all = tokens(alloc, source).map_err(|_| AllocError)?;
    no_program_of(alloc, all.as_slice(), pos)
}
