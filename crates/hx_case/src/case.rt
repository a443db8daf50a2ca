// A refusal of a source, or a fault of its run, with its place.

ghost use Rattle.std.specs.Prelude.{◌≡◌, ◌++◌, Some, List, ℕ, IfOk};
ghost use Rattle.hx_case.specs.Pointed.{pointed, pointed_at};

use crate::bytes::{bad_number, foreign_byte, long_name, word_at};
use crate::declared::{Known, declared_as};
use crate::limit::{no_main, passed};
use crate::line::pointed;
use crate::names::{doubled, outside_loop, unknown, wrong_count, wrong_kind};
use crate::say::say;
use crate::syntax::no_program;
use hx_explain::{fault_texts, refusal_texts};
use hx_lex::tokens;
use hx_parse::parse;
use hx_tree::outcome::{Fault, FaultKind};
use hx_tree::token::Pos;
use hx_tree::tree::{Program, Shape};
use itoa::Buffer;
use std::alloc::{AllocError, Global};

// The sentence of the table.
fn in_general(alloc: Global, number: u32) -> Result<Vec<u8>, AllocError> {
    match refusal_texts(number) {
        Some(texts) => say(alloc, &[texts.meaning.as_bytes()]),
        None => Ok(Vec::new(alloc)),
    }
}

// A refusal of what has no tokens, or whose tokens spell no program.
fn of_bytes(alloc: Global, source: &[u8], number: u32, pos: Pos) -> Result<Vec<u8>, AllocError> {
    if number == 1 {
        foreign_byte(alloc, source, pos)
    } else if number == 2 {
        bad_number(alloc, source, pos)
    } else if number == 4 {
        long_name(alloc, source, pos)
    } else if number == 10 {
        no_program(alloc, source, pos)
    } else {
        in_general(alloc, number)
    }
}

// A refusal of a program, at a place.
fn of_program(
    alloc: Global,
    source: &[u8],
    program: &Program,
    number: u32,
    pos: Pos,
) -> Result<Vec<u8>, AllocError> {
    if number == 20 {
        unknown(alloc, source, program, pos)
    } else if number == 21 {
        doubled(alloc, source, program, pos)
    } else if number == 22 {
        wrong_kind(alloc, source, program, pos)
    } else if number == 23 {
        wrong_count(alloc, source, program, pos)
    } else if number == 24 {
        outside_loop(alloc, source, pos)
    } else if number == 26 {
        passed(alloc, source, program, pos)
    } else {
        in_general(alloc, number)
    }
}

// The program that a source spells.
fn read(alloc: Global, source: &[u8]) -> Result<Program, AllocError> {
    let all = tokens(alloc, source).map_err(|_| AllocError)?;
    match parse(alloc, all.as_slice()) {
        Ok(program) => Ok(program),
        Err(_) => Err(AllocError),
    }
}

fn sentence(
    alloc: Global,
    source: &[u8],
    number: u32,
    pos: Option<Pos>,
) -> Result<Vec<u8>, AllocError> {
    match pos {
        Some(pos) if number < 20 => of_bytes(alloc, source, number, pos),
        Some(pos) => of_program(alloc, source, &read(alloc, source)?, number, pos),
        None if number == 25 => no_main(alloc, &read(alloc, source)?),
        None => in_general(alloc, number),
    }
}

// A text, with a sentence and the end of a line behind it.
fn with_sentence(text: Vec<u8>, sentence: &[u8]) -> Result<Vec<u8>, AllocError>
    ensures { IfOk result (λ v. v.items ≡ text.items ++ sentence.now) }
{
    let mut text = text;
    text.extend_from_slice(sentence)?;
    Ok(text)
}

/// What is told of a refusal of a source: the line of its place with a mark below it, and a sentence that tells this case from others
/// of its number. `number` and `pos` are those of the refusal. An `Err` means that an allocation was refused, or that the source isn't
/// refused so.
pub fn case_of_source(
    alloc: Global,
    source: &[u8],
    number: u32,
    pos: Option<Pos>,
) -> Result<Vec<u8>, AllocError>
    ensures { IfOk result (λ v. (sentence : List ℕ) × (v.items ≡ pointed source.now pos ++ sentence)) }
{
    let text = pointed(alloc, source, pos)?;
    let sentence = sentence(alloc, source, number, pos)?;
    let sentence = say(alloc, &[sentence.as_slice(), b"\n"])?;
    with_sentence(text, sentence.as_slice())
}

// An index that is out of range, with the array's length.
fn of_index(alloc: Global, source: &[u8], pos: Pos) -> Result<Vec<u8>, AllocError> {
    let name = word_at(source, pos);
    let program = read(alloc, source)?;
    match declared_as(&program, name) {
        Some(Known::Global(global)) => match global.shape {
            Shape::Array(length, _) => {
                let mut most = Buffer::new();
                let most = most.format(length.saturating_sub(1)).as_bytes();
                say(
                    alloc,
                    &[
                        b"The index isn't one of '",
                        name,
                        b"', which go from 0 to ",
                        most,
                        b".",
                    ],
                )
            }
            Shape::Int(_) => Ok(Vec::new(alloc)),
        },
        _ => Ok(Vec::new(alloc)),
    }
}

fn of_fault(alloc: Global, source: &[u8], fault: Fault) -> Result<Vec<u8>, AllocError> {
    if fault.kind == FaultKind::IndexOutOfRange {
        return of_index(alloc, source, fault.pos);
    }
    match fault_texts(u32::from(fault.kind.number())) {
        Some(texts) => say(alloc, &[texts.meaning.as_bytes()]),
        None => Ok(Vec::new(alloc)),
    }
}

/// What is told of a fault of a source's run: the line of its place with a mark below it, and a sentence. An `Err` means that an
/// allocation was refused, or that the source spells no program.
pub fn case_of_fault(alloc: Global, source: &[u8], fault: Fault) -> Result<Vec<u8>, AllocError>
    ensures { IfOk result (λ v. (sentence : List ℕ) × (v.items ≡ pointed_at source.now fault.pos ++ sentence)) }
{
    let text = pointed(alloc, source, Some(fault.pos))?;
    let sentence = of_fault(alloc, source, fault)?;
    let sentence = say(alloc, &[sentence.as_slice(), b"\n"])?;
    with_sentence(text, sentence.as_slice())
}
