// What several tests need: the code of a source, its machine, its first region as it opens, and how a run must end. What can't be
// had ends the test.

ghost use Rattle.std.specs.Prelude.{◌≡◌, length};
ghost use Rattle.hx_word.specs.Entry.{EntryFits};
ghost use Rattle.hx_word.specs.Plain.{one_store};

use hx_exec::executable::Executable;
use hx_frame::{Capacities, Frame};
use hx_run::executable_of;
use hx_tree::outcome::{Counts, End, Outcome};
use hx_word::entry::Entry;
use hx_word::plain::{Open, Paused, Plain, Ran};
use std::alloc::Global;
use std::process::Abort;

/// How many words the tables of boards and frames have.
pub(crate) const ROOMS: Capacities = Capacities {
    marks: 512,
    buffer: 64,
};

/// Stops the test where this isn't so.
pub(crate) fn expect(rt: &impl Abort, is_right: bool, case: &[u8]) {
    assert!(rt; is_right, "{}", case.escape_ascii());
}

// ---- what tests begin with

/// A value in a box, where it is let go by a call.
pub(crate) fn boxed<T>(rt: &impl Abort, alloc: Global, value: T) -> Box<T> {
    match Box::new(alloc, value) {
        Ok(boxed) => boxed,
        Err(_) => rt.panic("no memory for a box"),
    }
}

/// The same items in a list.
pub(crate) fn listed<T: Copy>(rt: &impl Abort, alloc: Global, items: &[T]) -> Vec<T> {
    match Vec::from_slice(alloc, items) {
        Ok(list) => list,
        Err(_) => rt.panic("no memory for a list"),
    }
}

/// The code of a source.
pub(crate) fn code_for(rt: &impl Abort, alloc: Global, source: &[u8]) -> Box<Executable> {
    match executable_of(alloc, source) {
        Ok(code) => boxed(rt, alloc, code),
        Err(_) => rt.panic("refused"),
    }
}

/// The machine of a code without an input.
pub(crate) fn machine_for<'c>(rt: &impl Abort, alloc: Global, code: &'c Executable) -> Plain<'c>
    ensures code { result.code ≡ code.now }
    ensures one { one_store result.machine ≡ result.machine }
{
    match Plain::new(alloc, code, &[]) {
        Ok(plain) => plain,
        Err(_) => rt.panic("no machine"),
    }
}

/// The first region of a code, which opens within so many words.
pub(crate) fn opened_within<'c>(
    rt: &impl Abort,
    alloc: Global,
    code: &'c Executable,
    steps: u64,
) -> Open<'c>
    ensures { result.code ≡ code.now }
{
    let plain = machine_for(rt, alloc, code);
    match plain.to_region(steps) {
        Paused::At(opened) => opened,
        _ => rt.panic("no region"),
    }
}

/// The entry of a region that has opened.
pub(crate) fn entry_for(rt: &impl Abort, alloc: Global, opened: &Open<'_>) -> Entry
    ensures fits { EntryFits opened.now.code opened.now.region.opened.region result }
    ensures printed { result.text_len ≡ length opened.now.outer.text }
{
    match opened.entry(alloc) {
        Ok(entry) => entry,
        Err(_) => rt.panic("no memory for an entry"),
    }
}

/// The number of the first region of a code, and its entry.
pub(crate) fn first_entry(rt: &impl Abort, alloc: Global, code: &Executable) -> (u32, Entry)
    ensures { EntryFits code.now result.0 result.1 }
{
    let opened = opened_within(rt, alloc, code, 1024);
    (opened.region(), entry_for(rt, alloc, &opened))
}

/// A frame that stands nowhere yet.
pub(crate) fn frame_for<'c>(rt: &impl Abort, alloc: Global, code: &'c Executable) -> Frame<'c>
    ensures code { result.code ≡ code.now }
    ensures capacities { result.capacities ≡ ROOMS }
{
    match Frame::new(alloc, code, ROOMS) {
        Ok(frame) => frame,
        Err(_) => rt.panic("no memory for a frame"),
    }
}

// ---- how runs end

/// What a run comes to.
#[derive(Clone, Copy)]
pub(crate) struct Wanted {
    pub(crate) end: End,
    pub(crate) globals: &'static [i32],
    pub(crate) text: &'static [u8],
    pub(crate) regions: u64,
    pub(crate) turns: u64,
}

fn comes_to(outcome: &Outcome, counts: Counts, wanted: &Wanted) -> bool {
    outcome.end == wanted.end
        && outcome.globals.as_slice() == wanted.globals
        && outcome.text.as_slice() == wanted.text
        && counts == Counts::plain(wanted.regions, wanted.turns)
}

/// Stops the test where a run has come to something else.
pub(crate) fn expect_end(rt: &impl Abort, outcome: &Outcome, counts: Counts, wanted: &Wanted) {
    expect(rt, comes_to(outcome, counts, wanted), b"another end");
}

/// The machine after so many words, or none where the run has ended, and come to this.
pub(crate) fn run_on<'c>(
    rt: &impl Abort,
    plain: Plain<'c>,
    steps: u64,
    wanted: &Wanted,
) -> Option<Plain<'c>> {
    match plain.run(steps) {
        Ran::More(further) => Some(further),
        Ran::Ended(outcome, counts) => {
            expect_end(rt, &outcome, counts, wanted);
            None
        }
    }
}
