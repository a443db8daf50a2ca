// Events as text.

ghost use Rattle.std.specs.Prelude.{◌≡◌, ◌++◌, drop, take, IfOk, OnOk};
ghost use Rattle.hx_trace.specs.Telling.{is_called, name_of, word_name, iterations, last_iterations, restarted_words, dropped_words, printed_words, print_words, start_words, attempt_words, place_words, source_words, load_words, store_words, hold_words, commit_words, part_words, returned_words, faulted_words, end_words, closing_words, deed_words, line_of, lines_of, told_listing};
ghost use Rattle.hx_trace.specs.Text.{listing_of};

use crate::event::{Deed, Event, Source};
use crate::text::put_trace;
use crate::trace::Told;
use hx_board::State;
use hx_stats::put_fault;
use hx_tree::outcome::Fault;
use itoa::{Buffer, Integer};
use std::alloc::{AllocError, Global};

/// What so many words of the store from `base` on are called. Those of an array are told by its name and their place in it, as `a[3]`.
#[derive(Drop)]
pub struct Called {
    pub base: u32,
    pub length: u32,
    pub is_array: bool,
    pub name: Vec<u8>,
}

/// The text of a replay that is told: a line for each event, and then the listing of its trace. A word is told by the first of these
/// names that has it, and by its number where none has. An `Err` means that an allocation was refused.
pub fn told_listing(alloc: Global, names: &[Called], told: &Told) -> Result<Vec<u8>, AllocError>
    ensures { IfOk result (λ text. text.items ≡ told_listing names.now told.now) }
{
    let mut text = Vec::new(alloc);
    put_lines(&mut text, names, &told.trace.text, &told.events)?;
    put_trace(&mut text, &told.trace)?;
    Ok(text)
}

fn put_lines(
    text: &mut Vec<u8>,
    names: &[Called],
    printed: &[u8],
    events: &[Event],
) -> Result<(), AllocError>
    ensures { OnOk result (text.new.items ≡ text.old.items ++ lines_of names.now printed.now events.now) }
{
    for event in events {
        put_line(text, names, printed, *event)?;
    }
    Ok(())
}

fn put_line(
    text: &mut Vec<u8>,
    names: &[Called],
    printed: &[u8],
    event: Event,
) -> Result<(), AllocError>
    ensures { OnOk result (text.new.items ≡ text.old.items ++ line_of names.now printed.now event) }
{
    text.extend_from_slice(b"worker ")?;
    put_number(text, event.worker)?;
    text.extend_from_slice(b" ")?;
    put_deed(text, names, printed, event)?;
    text.extend_from_slice(b"\n")
}

fn put_deed(
    text: &mut Vec<u8>,
    names: &[Called],
    printed: &[u8],
    event: Event,
) -> Result<(), AllocError>
    ensures { OnOk result (text.new.items ≡ text.old.items ++ deed_words names.now printed.now event event.deed) }
{
    let iteration = event.iteration;
    match event.deed {
        Deed::Starts => put_start(text, iteration, event.attempt),
        Deed::Loads {
            word,
            value,
            source,
        } => put_load(text, names, word, value, source),
        Deed::Stores {
            word,
            value,
            restarts,
            last,
        } => put_store(text, names, word, value, restarts, last),
        Deed::FindsMarksFull { word } => put_hold(text, names, word),
        Deed::FindsBufferFull { word, value: _ } => put_hold(text, names, word),
        Deed::ComputesOn => text.extend_from_slice(b"computes on"),
        Deed::GetsHead => text.extend_from_slice(b"gets the head"),
        Deed::Waits => text.extend_from_slice(b"isn't the head yet"),
        Deed::GoesOn { from, to } => put_part(text, iteration, printed, from, to),
        Deed::Passes => put_commit(text, iteration),
        Deed::Ends {
            state,
            dropped,
            last,
        } => put_end(text, iteration, state, dropped, last),
        Deed::IsSquashed => text.extend_from_slice(b"is squashed"),
        Deed::IsRefused => text.extend_from_slice(b"is refused, and gives its iteration up"),
        Deed::FindsEnd => text.extend_from_slice(b"finds the loop over"),
    }
}

fn put_start(text: &mut Vec<u8>, iteration: u64, attempt: u64) -> Result<(), AllocError>
    ensures { OnOk result (text.new.items ≡ text.old.items ++ start_words iteration attempt) }
{
    text.extend_from_slice(b"starts iteration ")?;
    put_number(text, iteration)?;
    put_attempt(text, attempt)
}

// Which attempt it is, where it isn't the first.
fn put_attempt(text: &mut Vec<u8>, attempt: u64) -> Result<(), AllocError>
    ensures { OnOk result (text.new.items ≡ text.old.items ++ attempt_words attempt) }
{
    if attempt <= 1 {
        return Ok(());
    }
    text.extend_from_slice(b", attempt ")?;
    put_number(text, attempt)
}

fn put_load(
    text: &mut Vec<u8>,
    names: &[Called],
    word: u32,
    value: i32,
    source: Source,
) -> Result<(), AllocError>
    ensures { OnOk result (text.new.items ≡ text.old.items ++ load_words (word_name names.now word) value source) }
{
    text.extend_from_slice(b"loads ")?;
    put_name(text, names, word)?;
    text.extend_from_slice(b": ")?;
    put_number(text, value)?;
    put_source(text, source)
}

fn put_source(text: &mut Vec<u8>, source: Source) -> Result<(), AllocError>
    ensures { OnOk result (text.new.items ≡ text.old.items ++ source_words source) }
{
    match source {
        Source::Iteration(iteration) => {
            text.extend_from_slice(b", from iteration ")?;
            put_number(text, iteration)
        }
        Source::Store => Ok(()),
        Source::Buffer => text.extend_from_slice(b", from its own buffer"),
        Source::Marks => text.extend_from_slice(b", from its own marks"),
    }
}

fn put_store(
    text: &mut Vec<u8>,
    names: &[Called],
    word: u32,
    value: i32,
    restarts: u64,
    last: u64,
) -> Result<(), AllocError>
    ensures { OnOk result (text.new.items ≡ text.old.items ++ store_words (word_name names.now word) value restarts last) }
{
    text.extend_from_slice(b"stores ")?;
    put_name(text, names, word)?;
    text.extend_from_slice(b": ")?;
    put_number(text, value)?;
    put_restarted(text, restarts, last)
}

fn put_restarted(text: &mut Vec<u8>, count: u64, last: u64) -> Result<(), AllocError>
    ensures { OnOk result (text.new.items ≡ text.old.items ++ restarted_words count last) }
{
    if count == 0 {
        return Ok(());
    }
    text.extend_from_slice(b", and ")?;
    put_last(text, count, last)?;
    if count <= 1 {
        text.extend_from_slice(b" begins again")
    } else {
        text.extend_from_slice(b" begin again")
    }
}

fn put_hold(text: &mut Vec<u8>, names: &[Called], word: u32) -> Result<(), AllocError>
    ensures { OnOk result (text.new.items ≡ text.old.items ++ hold_words (word_name names.now word)) }
{
    text.extend_from_slice(b"finds its table full at ")?;
    put_name(text, names, word)?;
    text.extend_from_slice(b", and holds")
}

fn put_commit(text: &mut Vec<u8>, iteration: u64) -> Result<(), AllocError>
    ensures { OnOk result (text.new.items ≡ text.old.items ++ commit_words iteration) }
{
    text.extend_from_slice(b"commits iteration ")?;
    put_number(text, iteration)
}

fn put_part(
    text: &mut Vec<u8>,
    iteration: u64,
    printed: &[u8],
    from: usize,
    to: usize,
) -> Result<(), AllocError>
    ensures { OnOk result (text.new.items ≡ text.old.items ++ part_words iteration printed.now from to) }
{
    put_commit(text, iteration)?;
    text.extend_from_slice(b" so far")?;
    put_print(text, printed, from, to)?;
    text.extend_from_slice(b", and goes on")
}

// What it has printed, if it has.
fn put_print(text: &mut Vec<u8>, printed: &[u8], from: usize, to: usize) -> Result<(), AllocError>
    ensures { OnOk result (text.new.items ≡ text.old.items ++ print_words printed.now from to) }
{
    if to <= from {
        return Ok(());
    }
    text.extend_from_slice(b", prints ")?;
    put_printed(text, printed, from, to)
}

/// Puts what a print has printed behind the text: a number as it is, without the end of its line, and a byte by its number. These are the
/// bytes of a region's text from a place to another. An `Err` means that an allocation was refused, and says nothing of the text.
pub fn put_printed(
    text: &mut Vec<u8>,
    printed: &[u8],
    from: usize,
    to: usize,
) -> Result<(), AllocError>
    ensures { OnOk result (text.new.items ≡ text.old.items ++ printed_words (drop from (take to printed.now))) }
{
    put_bytes(text, behind(first_of(printed, to), from))
}

// The first bytes, so many, or all.
fn first_of(bytes: &[u8], count: usize) -> &[u8]
    ensures { result.now ≡ take count bytes.now }
{
    &bytes[..count.min(bytes.len())]
}

// The bytes behind the first, so many.
fn behind(bytes: &[u8], count: usize) -> &[u8]
    ensures { result.now ≡ drop count bytes.now }
{
    &bytes[count.min(bytes.len())..]
}

fn put_bytes(text: &mut Vec<u8>, bytes: &[u8]) -> Result<(), AllocError>
    ensures { OnOk result (text.new.items ≡ text.old.items ++ printed_words bytes.now) }
{
    match bytes.len() {
        0 => Ok(()),
        1 => {
            text.extend_from_slice(b"byte ")?;
            put_number(text, bytes[0])
        }
        all => text.extend_from_slice(&bytes[..all - 1]),
    }
}

fn put_end(
    text: &mut Vec<u8>,
    iteration: u64,
    state: State,
    dropped: u64,
    last: u64,
) -> Result<(), AllocError>
    ensures { OnOk result (text.new.items ≡ text.old.items ++ closing_words iteration state dropped last) }
{
    put_commit(text, iteration)?;
    put_state(text, state)?;
    put_dropped(text, dropped, last)
}

fn put_state(text: &mut Vec<u8>, state: State) -> Result<(), AllocError>
    ensures { OnOk result (text.new.items ≡ text.old.items ++ end_words state) }
{
    match state {
        State::Left => text.extend_from_slice(b", and leaves the loop"),
        State::Returned(value) => put_returned(text, value),
        State::Faulted(fault) => put_faulted(text, fault),
        State::Running => text.extend_from_slice(b", and numbers end"),
    }
}

fn put_returned(text: &mut Vec<u8>, value: i32) -> Result<(), AllocError>
    ensures { OnOk result (text.new.items ≡ text.old.items ++ returned_words value) }
{
    text.extend_from_slice(b", and returns ")?;
    put_number(text, value)
}

fn put_faulted(text: &mut Vec<u8>, fault: Fault) -> Result<(), AllocError>
    ensures { OnOk result (text.new.items ≡ text.old.items ++ faulted_words fault) }
{
    text.extend_from_slice(b", and ends by ")?;
    put_fault(text, fault)
}

fn put_dropped(text: &mut Vec<u8>, count: u64, last: u64) -> Result<(), AllocError>
    ensures { OnOk result (text.new.items ≡ text.old.items ++ dropped_words count last) }
{
    if count == 0 {
        return Ok(());
    }
    text.extend_from_slice(b"; ")?;
    put_last(text, count, last)?;
    if count <= 1 {
        text.extend_from_slice(b" is dropped")
    } else {
        text.extend_from_slice(b" are dropped")
    }
}

// The last iterations, so many, up to this one.
fn put_last(text: &mut Vec<u8>, count: u64, last: u64) -> Result<(), AllocError>
    ensures { OnOk result (text.new.items ≡ text.old.items ++ last_iterations count last) }
{
    put_iterations(text, last.saturating_sub(count.saturating_sub(1)), last)
}

fn put_iterations(text: &mut Vec<u8>, first: u64, last: u64) -> Result<(), AllocError>
    ensures { OnOk result (text.new.items ≡ text.old.items ++ iterations first last) }
{
    if last <= first {
        text.extend_from_slice(b"iteration ")?;
        return put_number(text, last);
    }
    text.extend_from_slice(b"iterations ")?;
    put_number(text, first)?;
    text.extend_from_slice(b" to ")?;
    put_number(text, last)
}

/// Puts what a word of the store is called behind the text: by the first of these names that has it, and by its number where none has.
/// An `Err` means that an allocation was refused, and says nothing of the text.
pub fn put_name(text: &mut Vec<u8>, names: &[Called], word: u32) -> Result<(), AllocError>
    ensures { OnOk result (text.new.items ≡ text.old.items ++ word_name names.now word) }
{
    for called in names {
        if is_called(called, word) {
            return put_called(text, called, word);
        }
    }
    text.extend_from_slice(b"word ")?;
    put_number(text, word)
}

fn is_called(called: &Called, word: u32) -> bool
    ensures { result ≡ is_called word called.now }
{
    called.base <= word && word - called.base < called.length
}

// The word is one of these.
fn put_called(text: &mut Vec<u8>, called: &Called, word: u32) -> Result<(), AllocError>
    ensures { OnOk result (text.new.items ≡ text.old.items ++ name_of word called.now) }
{
    text.extend_from_slice(&called.name)?;
    if called.is_array {
        put_place(text, word.saturating_sub(called.base))
    } else {
        Ok(())
    }
}

fn put_place(text: &mut Vec<u8>, place: u32) -> Result<(), AllocError>
    ensures { OnOk result (text.new.items ≡ text.old.items ++ place_words place) }
{
    text.extend_from_slice(b"[")?;
    put_number(text, place)?;
    text.extend_from_slice(b"]")
}

// A number in decimal.
fn put_number<I: Integer>(text: &mut Vec<u8>, n: I) -> Result<(), AllocError>
    ensures { OnOk result (text.new.items ≡ text.old.items ++ I.text n) }
{
    let mut buffer = Buffer::new();
    text.extend_from_slice(buffer.format(n).as_bytes())
}
