// Names that aren't declared_as, doubled, or used as what they aren't.

use crate::bytes::word_at;
use crate::declared::{Known, declared_as, function_at, locals_of, parameters};
use crate::say::{plural, quoted, say};
use hx_lex::{Token, tokens};
use hx_tree::token::{Kind, Mark, Pos};
use hx_tree::tree::{Func, Program, Returns, Shape};
use itoa::Buffer;
use std::alloc::{AllocError, Global};

// Whether some local of the function around a place has this name.
fn is_local(program: &Program, name: &[u8], pos: Pos) -> bool {
    match function_at(program, pos) {
        Some(f) => locals_of(f, name).named > 0,
        None => false,
    }
}

/// A name that isn't known.
pub(crate) fn unknown(
    alloc: Global,
    source: &[u8],
    program: &Program,
    pos: Pos,
) -> Result<Vec<u8>, AllocError> {
    let name = word_at(source, pos);
    let why: &[u8] = if is_local(program, name, pos) {
        b"' isn't known here, but in another place of this function: a local is known from behind its declaration to the end of its block."
    } else {
        b"' isn't declared."
    };
    quoted(alloc, name, why)
}

// The place of the first of two names outside functions.
fn first_place(program: &Program, name: &[u8], pos: Pos) -> Option<Pos> {
    let place = match declared_as(program, name)? {
        Known::Global(global) => global.name.pos,
        Known::Function(f) => f.name.pos,
    };
    if place == pos || is_local(program, name, pos) {
        None
    } else {
        Some(place)
    }
}

/// A name that is declared twice.
pub(crate) fn doubled(
    alloc: Global,
    source: &[u8],
    program: &Program,
    pos: Pos,
) -> Result<Vec<u8>, AllocError> {
    let name = word_at(source, pos);
    let Some(first) = first_place(program, name, pos) else {
        return quoted(alloc, name, b"' is declared in this scope already.");
    };
    let mut line = Buffer::new();
    let mut col = Buffer::new();
    let line = line.format(first.line).as_bytes();
    let col = col.format(first.col).as_bytes();
    say(
        alloc,
        &[
            b"'",
            name,
            b"' is declared already, at ",
            line,
            b":",
            col,
            b".",
        ],
    )
}

/// What a name at a place stands for, as far as it is certain.
#[derive(Clone, Copy)]
enum Meaning {
    Int,
    Array,
    Function(Returns),
    Unsure,
}

fn meaning_of(program: &Program, name: &[u8], pos: Pos) -> Meaning {
    match (declared_as(program, name), is_local(program, name, pos)) {
        (None, true) => Meaning::Int,
        (Some(Known::Global(global)), false) => match global.shape {
            Shape::Int(_) => Meaning::Int,
            Shape::Array(_, _) => Meaning::Array,
        },
        (Some(Known::Function(f)), false) => Meaning::Function(f.returns),
        _ => Meaning::Unsure,
    }
}

fn indexed(meaning: Meaning) -> &'static [u8] {
    match meaning {
        Meaning::Int => b"' is an int, and only arrays have an index.",
        Meaning::Function(_) => b"' is a function, and only arrays have an index.",
        _ => b"' has an index here, and is no array.",
    }
}

fn called(meaning: Meaning) -> &'static [u8] {
    match meaning {
        Meaning::Int => b"' is an int, and only functions are called.",
        Meaning::Array => b"' is an array, and only functions are called.",
        Meaning::Function(Returns::Void) => b"' is a void function, and has no value.",
        _ => b"' is called for a value here, and is no function that has one.",
    }
}

fn plain(meaning: Meaning) -> &'static [u8] {
    match meaning {
        Meaning::Array => b"' is an array, which is read and assigned with an index.",
        Meaning::Function(_) => b"' is a function, which is called with parentheses.",
        _ => b"' stands here as an int, and is none.",
    }
}

// The token at a place, and the ones behind it.
fn tokens_from<'t, 's>(all: &'t [Token<'s>], pos: Pos) -> &'t [Token<'s>] {
    let count = all.iter().take_while(|token| token.pos != pos).count();
    &all[count..]
}

fn is_mark(token: Option<&Token<'_>>, mark: Mark) -> bool {
    match token {
        Some(token) => token.kind == Kind::Mark(mark),
        None => false,
    }
}

/// A name that is used as what it isn't, or a `return` that doesn't fit its function.
pub(crate) fn wrong_kind(
    alloc: Global,
    source: &[u8],
    program: &Program,
    pos: Pos,
) -> Result<Vec<u8>, AllocError> {
    let all = tokens(alloc, source).map_err(|_| AllocError)?;
    let here = tokens_from(all.as_slice(), pos);
    let next = here.get(1);
    if is_mark(here.first(), Mark::Return) {
        let why: &[u8] = if is_mark(next, Mark::Semicolon) {
            b"An int function returns a value, and this 'return' has none."
        } else {
            b"A void function returns no value, and this 'return' has one."
        };
        return Vec::from_slice(alloc, why);
    }
    let name = word_at(source, pos);
    let meaning = meaning_of(program, name, pos);
    let why = if is_mark(next, Mark::OpenBracket) {
        indexed(meaning)
    } else if is_mark(next, Mark::OpenParen) {
        called(meaning)
    } else {
        plain(meaning)
    };
    quoted(alloc, name, why)
}

// How many arguments stand between the parentheses that these tokens begin with.
fn arguments(tokens: &[Token<'_>]) -> usize {
    let mut depth: usize = 0;
    let mut count: usize = if is_mark(tokens.get(1), Mark::CloseParen) {
        0
    } else {
        1
    };
    for token in tokens {
        match token.kind {
            Kind::Mark(Mark::OpenParen) | Kind::Mark(Mark::OpenBracket) => {
                depth = depth.saturating_add(1);
            }
            Kind::Mark(Mark::CloseParen) | Kind::Mark(Mark::CloseBracket) => {
                depth = depth.saturating_sub(1);
                if depth == 0 {
                    break;
                }
            }
            Kind::Mark(Mark::Comma) if depth == 1 => count = count.saturating_add(1),
            _ => {}
        }
    }
    count
}

fn called_function<'p>(program: &'p Program, name: &[u8]) -> Option<&'p Func> {
    match declared_as(program, name) {
        Some(Known::Function(f)) => Some(f),
        _ => None,
    }
}

/// A call with a wrong number of arguments.
pub(crate) fn wrong_count(
    alloc: Global,
    source: &[u8],
    program: &Program,
    pos: Pos,
) -> Result<Vec<u8>, AllocError> {
    let name = word_at(source, pos);
    let given = given_at(alloc, source, pos)?;
    let takes = match called_function(program, name) {
        Some(f) => parameters(f).len(),
        None => 0,
    };
    counts_told(alloc, name, takes, given)
}

// How many arguments the call at a place has.
fn given_at(alloc: Global, source: &[u8], pos: Pos) -> Result<usize, AllocError> {
    let all = tokens(alloc, source).map_err(|_| AllocError)?;
    match tokens_from(all.as_slice(), pos) {
        [] => Ok(0),
        [_, behind @ ..] => Ok(arguments(behind)),
    }
}

fn counts_told(
    alloc: Global,
    name: &[u8],
    takes: usize,
    given: usize,
) -> Result<Vec<u8>, AllocError> {
    let mut text = quoted(alloc, name, b"' has ")?;
    put_count(&mut text, takes, b" parameter")?;
    text.extend_from_slice(b", and is called with ")?;
    put_count(&mut text, given, b" argument")?;
    text.extend_from_slice(b".")?;
    Ok(text)
}

// So many things, with an `s` behind where there isn't one.
fn put_count(text: &mut Vec<u8>, count: usize, thing: &[u8]) -> Result<(), AllocError> {
    let mut buffer = Buffer::new();
    text.extend_from_slice(buffer.format(count).as_bytes())?;
    text.extend_from_slice(thing)?;
    text.extend_from_slice(plural(count))
}

/// `break` or `continue` outside a loop.
pub(crate) fn outside_loop(alloc: Global, source: &[u8], pos: Pos) -> Result<Vec<u8>, AllocError> {
    say(
        alloc,
        &[
            b"This '",
            word_at(source, pos),
            b"' stands in no loop of its function.",
        ],
    )
}
