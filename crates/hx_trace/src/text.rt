// A trace as text.

ghost use Rattle.std.specs.Prelude.{◌≡◌, ◌++◌, IfOk, OnOk};
ghost use Rattle.hx_trace.specs.Text.{listing_of, state_line, state_words};

use crate::trace::Trace;
use hx_board::State;
use hx_stats::{put_counts, put_fault};
use itoa::Buffer;
use std::alloc::{AllocError, Global};

/// The text of a trace: what is settled of the region's own text, a line for its state, and the lines of the counts from `turns` to
/// `spared`. Numbers are in decimal. An `Err` means that an allocation was refused.
pub fn listing(alloc: Global, trace: &Trace) -> Result<Vec<u8>, AllocError>
    ensures { IfOk result (λ text. text.items ≡ listing_of trace.now) }
{
    let mut text = Vec::new(alloc);
    put_trace(&mut text, trace)?;
    Ok(text)
}

/// Puts the listing of a trace behind the text. An `Err` means that an allocation was refused, and says nothing of the text.
pub(crate) fn put_trace(text: &mut Vec<u8>, trace: &Trace) -> Result<(), AllocError>
    ensures { OnOk result (text.new.items ≡ text.old.items ++ listing_of trace.now) }
{
    text.extend_from_slice(&trace.text)?;
    put_state(text, trace.state)?;
    put_counts(text, &trace.counts)
}

fn put_state(text: &mut Vec<u8>, state: State) -> Result<(), AllocError>
    ensures { OnOk result (text.new.items ≡ text.old.items ++ state_line state) }
{
    text.extend_from_slice(b"state ")?;
    put_state_words(text, state)?;
    text.extend_from_slice(b"\n")
}

fn put_state_words(text: &mut Vec<u8>, state: State) -> Result<(), AllocError>
    ensures { OnOk result (text.new.items ≡ text.old.items ++ state_words state) }
{
    match state {
        State::Running => text.extend_from_slice(b"running"),
        State::Left => text.extend_from_slice(b"left"),
        State::Returned(value) => {
            let mut buffer = Buffer::new();
            text.extend_from_slice(b"returned ")?;
            text.extend_from_slice(buffer.format(value).as_bytes())
        }
        State::Faulted(fault) => put_fault(text, fault),
    }
}
