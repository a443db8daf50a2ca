// What stands beside an event.

ghost use Rattle.std.specs.Prelude.{◌≡◌, ◌++◌, OnOk};
ghost use Rattle.hx_trace.specs.Telling.{attempt_words, word_name};
ghost use Rattle.hx_timeline.specs.Columns.{start_label, word_label, hold_label, part_label, label_of};

use hx_trace::{Called, Deed, Event, put_name, put_printed};
use itoa::{Buffer, Integer};
use std::alloc::AllocError;

/// Puts a number in decimal behind the text.
pub(crate) fn put_number<I: Integer>(text: &mut Vec<u8>, n: I) -> Result<(), AllocError>
    ensures { OnOk result (text.new.items ≡ text.old.items ++ I.text n) }
{
    let mut buffer = Buffer::new();
    text.extend_from_slice(buffer.format(n).as_bytes())
}

/// Puts what a worker did behind the text, in few words. `printed` is what the region has printed.
pub(crate) fn put_label(
    text: &mut Vec<u8>,
    names: &[Called],
    printed: &[u8],
    event: Event,
) -> Result<(), AllocError>
    ensures { OnOk result (text.new.items ≡ text.old.items ++ label_of names.now printed.now event event.deed) }
{
    match event.deed {
        Deed::Starts => put_start(text, event.iteration, event.attempt),
        Deed::Loads {
            word,
            value,
            source: _,
        } => put_word(text, b"loads ", names, word, value),
        Deed::Stores {
            word,
            value,
            restarts: _,
            last: _,
        } => put_word(text, b"stores ", names, word, value),
        Deed::FindsMarksFull { word } => put_hold(text, names, word),
        Deed::FindsBufferFull { word, value: _ } => put_hold(text, names, word),
        Deed::ComputesOn => text.extend_from_slice(b"computes on"),
        Deed::GetsHead => text.extend_from_slice(b"gets the head"),
        Deed::Waits => text.extend_from_slice(b"not the head yet"),
        Deed::GoesOn { from, to } => put_part(text, printed, from, to),
        Deed::Passes => text.extend_from_slice(b"commits"),
        Deed::Ends {
            state: _,
            dropped: _,
            last: _,
        } => text.extend_from_slice(b"commits, loop over"),
        Deed::IsSquashed => text.extend_from_slice(b"squashed"),
        Deed::IsRefused => text.extend_from_slice(b"refused"),
        Deed::FindsEnd => text.extend_from_slice(b"loop over"),
    }
}

fn put_start(text: &mut Vec<u8>, iteration: u64, attempt: u64) -> Result<(), AllocError>
    ensures { OnOk result (text.new.items ≡ text.old.items ++ start_label iteration attempt) }
{
    text.extend_from_slice(b"iteration ")?;
    put_number(text, iteration)?;
    put_attempt(text, attempt)
}

// Which attempt it is, where it isn't the first.
fn put_attempt(text: &mut Vec<u8>, attempt: u64) -> Result<(), AllocError>
    ensures { OnOk result (text.new.items ≡ text.old.items ++ attempt_words attempt) }
{
    if attempt <= 1 {
        return Ok(());
    }
    text.extend_from_slice(b", attempt ")?;
    put_number(text, attempt)
}

fn put_word(
    text: &mut Vec<u8>,
    deed: &[u8],
    names: &[Called],
    word: u32,
    value: i32,
) -> Result<(), AllocError>
    ensures { OnOk result (text.new.items ≡ text.old.items ++ word_label deed.now (word_name names.now word) value) }
{
    text.extend_from_slice(deed)?;
    put_name(text, names, word)?;
    text.extend_from_slice(b": ")?;
    put_number(text, value)
}

fn put_hold(text: &mut Vec<u8>, names: &[Called], word: u32) -> Result<(), AllocError>
    ensures { OnOk result (text.new.items ≡ text.old.items ++ hold_label (word_name names.now word)) }
{
    text.extend_from_slice(b"table full at ")?;
    put_name(text, names, word)
}

// A commit in the middle of a turn, and what it prints.
fn put_part(text: &mut Vec<u8>, printed: &[u8], from: usize, to: usize) -> Result<(), AllocError>
    ensures { OnOk result (text.new.items ≡ text.old.items ++ part_label printed.now from to) }
{
    if to <= from {
        return text.extend_from_slice(b"commits so far");
    }
    text.extend_from_slice(b"commits, prints ")?;
    put_printed(text, printed, from, to)
}
