// What runs and compilations come to, as plain data: a test checks while it holds nothing that a run has made.

use hx_run::{Gate, PlainRan, Refusal, compile, run, run_plain};
use hx_tree::outcome::{Counts, End, Fault, FaultKind, Finish, Settings};
use hx_tree::token::Pos;
use std::alloc::Global;
use std::process::Abort;
use std::sync::Wait;
use std::thread::Threads;

/// More words than any program here takes.
pub const STEPS: u64 = 100_000_000;

/// A program with its input, and what it is to come to.
#[derive(Clone, Copy)]
pub struct Row<'a> {
    pub source: &'a [u8],
    pub input: &'a [i32],
    pub text: &'a [u8],
    /// None where they aren't known.
    pub globals: Option<&'a [i32]>,
    pub end: End,
    /// The marked loops that are run.
    pub regions: u64,
    /// The whole turns of marked loops.
    pub turns: u64,
}

/// What a row says that isn't said of it: no input, no text, no globals, no marked loop, and the end of main that returns nothing.
pub const NORMAL: Row<'static> = Row {
    source: b"",
    input: &[],
    text: b"",
    globals: Some(&[]),
    end: End::Normal(0),
    regions: 0,
    turns: 0,
};

/// What a run comes to in place of what its row says.
#[derive(Clone, Copy)]
pub enum Otherwise {
    /// A finish with another text, other globals or another end.
    Ended,
    /// It isn't over after its words.
    NotEnded,
    /// A refusal of this number.
    Refused(u32),
}

/// What is counted of a run that comes to its row's text, globals and end.
pub type Counted = Result<Counts, Otherwise>;

/// A program that is to print this, whose input, globals and loops are those of `NORMAL`.
pub(crate) fn row_of<'a>(source: &'a [u8], text: &'a [u8]) -> Row<'a> {
    Row {
        source,
        text,
        ..NORMAL
    }
}

/// A program that prints a letter `A` in each turn, until its text is full, which is to be this one.
pub(crate) fn full_text(text: &[u8]) -> Row<'_> {
    Row {
        source: b"int main(){ pwhile(1) emit(65); }",
        text,
        end: End::Fault(Fault {
            kind: FaultKind::TextFull,
            pos: Pos { line: 1, col: 23 },
        }),
        regions: 1,
        turns: 1_048_576,
        ..NORMAL
    }
}

fn counted(row: &Row<'_>, finish: &Finish) -> Counted {
    let outcome = &finish.outcome;
    let has_globals = match row.globals {
        Some(globals) => outcome.globals.as_slice() == globals,
        None => true,
    };
    if has_globals && outcome.text.as_slice() == row.text && outcome.end == row.end {
        Ok(finish.counts)
    } else {
        Err(Otherwise::Ended)
    }
}

/// A run on workers.
pub(crate) fn run_of<R: Threads + Wait + Sync, G: Gate>(
    rt: &R,
    alloc: Global,
    row: &Row<'_>,
    settings: Settings,
    gate: &G,
) -> Counted {
    counted_of(row, run(alloc, rt, row.source, row.input, settings, gate))
}

/// A run that came to a finish or to a refusal.
pub(crate) fn counted_of(row: &Row<'_>, ran: Result<Finish, Refusal>) -> Counted {
    match ran {
        Ok(finish) => counted(row, &finish),
        Err(refusal) => Err(Otherwise::Refused(refusal.number())),
    }
}

/// A run of so many words by the plain machine.
pub(crate) fn plain_run_of(alloc: Global, row: &Row<'_>, steps: u64) -> Counted {
    match run_plain(alloc, row.source, row.input, steps) {
        Ok(PlainRan::Ended(finish)) => counted(row, &finish),
        Ok(PlainRan::More) => Err(Otherwise::NotEnded),
        Err(refusal) => Err(Otherwise::Refused(refusal.number())),
    }
}

/// Whether a run came to what its row says, and ran so many marked loops and turns.
pub(crate) fn is_as(row: &Row<'_>, counted: Counted) -> bool {
    match counted {
        Ok(counts) => counts.regions == row.regions && counts.turns == row.turns,
        Err(_) => false,
    }
}

pub(crate) fn is_refused(counted: Counted, number: u32) -> bool {
    matches!(counted, Err(Otherwise::Refused(found)) if found == number)
}

/// Why a source is refused, if it is.
pub(crate) fn refusal_of(alloc: Global, source: &[u8]) -> Option<Refusal> {
    match compile(alloc, source) {
        Ok(_) => None,
        Err(refusal) => Some(refusal),
    }
}

/// The number that a source is refused by, or 0.
pub(crate) fn refused(alloc: Global, source: &[u8]) -> u32 {
    match refusal_of(alloc, source) {
        Some(refusal) => refusal.number(),
        None => 0,
    }
}

/// Stops the test where this case is not as it is to be.
pub(crate) fn expect(rt: &impl Abort, is_right: bool, case: &[u8]) {
    assert!(rt; is_right, "{}", case.escape_ascii());
}

/// `expect` of a run on so many workers.
pub(crate) fn expect_by(rt: &impl Abort, is_right: bool, case: &[u8], settings: Settings) {
    let Settings {
        workers,
        marks,
        buffer,
    } = settings;
    assert!(rt;
        is_right,
        "{} by {workers} workers with room for {marks} and {buffer}",
        case.escape_ascii()
    );
}
