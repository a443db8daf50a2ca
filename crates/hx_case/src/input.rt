// Inputs and settings that don't fit.

ghost use Rattle.std.specs.Prelude.{◌≡◌, ◌↔◌, ◌<◌, ◌≤◌, All, IfOk, IsTrue, MatchOption, OnOk, length};
ghost use Rattle.hx_tree.specs.Tree.{Program};
ghost use Rattle.hx_tree.specs.Grammar.{Spells};
ghost use Rattle.hx_input.specs.InputText.{words_of};
ghost use Rattle.hx_case.specs.Input.{IsFirstBad, IsNumber, IsTextCase, input_case, long_text_case, out_of_range, settings_case};
ghost use Rattle.hx_case.specs.Names.{input_room};

use crate::limit::input_room;
use crate::line::first;
use crate::say::{plural, say};
use hx_input::{number_of, word_len};
use hx_lex::tokens;
use hx_parse::parse;
use hx_tree::limits::{INPUT_LIMIT, TABLE_LIMIT, WORKER_LIMIT};
use hx_tree::outcome::Settings;
use itoa::Buffer;
use std::alloc::{AllocError, Global};

// What is said of so many numbers, and of the room for them.
fn said_of_input(alloc: Global, count: usize, room: Option<u64>) -> Result<Vec<u8>, AllocError>
    ensures { IfOk result (λ v. v.items ≡ input_case count room) }
{
    let mut has = Buffer::new();
    let mut most = Buffer::new();
    let has = has.format(count).as_bytes();
    match room {
        Some(words) => say(
            alloc,
            &[
                b"The input has ",
                has,
                b" numbers, and the array 'in' has room for ",
                most.format(words).as_bytes(),
                b".\n",
            ],
        ),
        None => say(
            alloc,
            &[
                b"The input has ",
                has,
                b" number",
                plural(count),
                b", and the program has no global array 'in'.\n",
            ],
        ),
    }
}

/// Why so many numbers don't fit the program of a source (61): how many words the array `in` has, or that there is none.
pub fn case_of_input(alloc: Global, source: &[u8], count: usize) -> Result<Vec<u8>, AllocError>
    ensures spelled { OnOk result ((p : Program) × Spells source.now p) }
    ensures told { IfOk result (λ v. (p : Program) → Spells source.now p → v.items ≡ input_case count (input_room p)) }
{
    let Ok(all) = tokens(alloc, source) else {
        return Err(AllocError);
    };
    let Ok(program) = parse(alloc, all.as_slice()) else {
        return Err(AllocError);
    };
    said_of_input(alloc, count, input_room(&program))
}

// Whether the word is a number of an input: a decimal of 32 bits without zeros in front.
fn is_number(word: &[u8]) -> bool
    ensures { IsTrue result ↔ IsNumber word.now }
{
    match number_of(word) {
        Some(_) => true,
        None => false,
    }
}

// The first word that is no number.
fn bad_word(text: &[u8]) -> Option<&[u8]>
    ensures { MatchOption result (All IsNumber (words_of text.now)) (λ w. IsFirstBad text.now w.now) }
{
    let mut at = 0;
    while at < text.len() {
        let (_, rest) = text.split_at(at);
        let len = word_len(rest);
        let word = &rest[..len];
        if len > 0 && !is_number(word) {
            return Some(word);
        }
        at += len + 1;
    }
    None
}

/// Why a text is no input (65): it is too long, or this word of it is no number.
pub fn case_of_input_text(alloc: Global, text: &[u8]) -> Result<Vec<u8>, AllocError>
    ensures long { INPUT_LIMIT < length text.now → IfOk result (λ v. v.items ≡ long_text_case) }
    ensures short { length text.now ≤ INPUT_LIMIT → IfOk result (λ v. IsTextCase text.now v.items) }
{
    if text.len() > INPUT_LIMIT {
        let mut most = Buffer::new();
        let most = most.format(INPUT_LIMIT).as_bytes();
        return say(alloc, &[b"The input has more than ", most, b" bytes.\n"]);
    }
    match bad_word(text) {
        Some(word) => {
            say(
                alloc,
                &[b"'", first(word, 80), b"' is no number of the input.\n"],
            )
        }
        None => say(alloc, &[b"The input is no list of numbers.\n"]),
    }
}

// `OPTION N is out of range: it goes from 1 to M.`
fn out_of_range(alloc: Global, option: &[u8], has: u32, limit: u32) -> Result<Vec<u8>, AllocError>
    ensures { IfOk result (λ v. v.items ≡ out_of_range option.now has limit) }
{
    let mut number = Buffer::new();
    let mut most = Buffer::new();
    let mut text = Vec::from_slice(alloc, option)?;
    text.extend_from_slice(b" ")?;
    text.extend_from_slice(number.format(has).as_bytes())?;
    text.extend_from_slice(b" is out of range: it goes from 1 to ")?;
    text.extend_from_slice(most.format(limit).as_bytes())?;
    text.extend_from_slice(b".\n")?;
    Ok(text)
}

/// Which setting is out of range (60), and up to which number it may go.
pub fn case_of_settings(alloc: Global, settings: Settings) -> Result<Vec<u8>, AllocError>
    ensures { IfOk result (λ v. v.items ≡ settings_case settings) }
{
    if settings.workers == 0 || settings.workers > WORKER_LIMIT {
        out_of_range(alloc, b"--workers", settings.workers, WORKER_LIMIT)
    } else if settings.marks == 0 || settings.marks > TABLE_LIMIT {
        out_of_range(alloc, b"--marks", settings.marks, TABLE_LIMIT)
    } else {
        out_of_range(alloc, b"--buffer", settings.buffer, TABLE_LIMIT)
    }
}
