// Whole executions over devices in memory, each of whose calls fails in turn.

use crate::answers::expect;
use hx_device::{MemorySink, MemorySource};
use hx_run::{Done, Mode, Refusal, Tail, Unwatched, execute, execute_plain};
use hx_tree::outcome::{End, Settings};
use std::alloc::Global;
use std::process::Abort;
use std::sync::Wait;
use std::thread::Threads;

/// More calls than an execution makes of a device.
pub const NEVER: u64 = u64::MAX;

// The second turn divides by what the first one has stored.
const DIVIDES: &[u8] =
    b"int d; int main(){ pfor(int i=0;i<2;i++){ if(i==0) d=2; else print(10/d); } }";

const REPORT: &[u8] =
    b"5\nend normal 0\nregions 1\nturns 2\nrepeats 0\nviolations 0\nrestarts 0\nholds 0\nabandons 0\ndiscarded 0\nspared 0\n";

const REPORT_AND_GLOBALS: &[u8] =
    b"5\nend normal 0\nregions 1\nturns 2\nrepeats 0\nviolations 0\nrestarts 0\nholds 0\nabandons 0\ndiscarded 0\nspared 0\nd 2\n";

// What may stand behind the text.
const NOTHING: Tail = Tail {
    stats: false,
    globals: false,
};

pub const STATS: Tail = Tail {
    stats: true,
    globals: false,
};

const GLOBALS: Tail = Tail {
    stats: false,
    globals: true,
};

const BOTH: Tail = Tail {
    stats: true,
    globals: true,
};

/// What an execution answers.
pub type Answer = Result<Done, Refusal>;

const WELL: Answer = Ok(Done::Finished(End::Normal(0)));

/// How a source is executed, by how many workers, how many bytes its sink takes at once, and which read and which write fail, counted
/// from 0.
#[derive(Clone, Copy)]
pub struct Execution<'a> {
    pub source: &'a [u8],
    pub mode: Mode,
    pub workers: u32,
    pub takes: usize,
    pub read: u64,
    pub write: u64,
}

// How much of this text was written, if nothing else was.
fn beginning(text: &[u8], out: &MemorySink) -> Option<usize> {
    let written = out.written();
    if text.starts_with(written) {
        Some(written.len())
    } else {
        None
    }
}

/// What an execution answers, and how much of this text it writes; none where it writes anything else.
pub(crate) fn executed<R: Threads + Wait + Sync>(
    rt: &R,
    alloc: Global,
    execution: &Execution<'_>,
    text: &[u8],
) -> (Answer, Option<usize>) {
    let mut source = MemorySource::failing_in(execution.source, execution.read);
    let mut out = MemorySink::failing_in(alloc, execution.takes, execution.write);
    let settings = Settings {
        workers: execution.workers,
        marks: 512,
        buffer: 64,
    };
    let mode = execution.mode;
    let answer = execute(
        alloc,
        rt,
        mode,
        &mut source,
        &[],
        &mut out,
        settings,
        &Unwatched,
    );
    (answer, beginning(text, &out))
}

// An execution, what it is to answer, and the text that it is to write.
type Case = (Execution<'static>, Answer, &'static [u8]);

fn all_execute<R: Abort + Threads + Wait + Sync>(rt: &R, alloc: Global, cases: &[Case]) {
    for (execution, wanted, text) in cases {
        let (answer, written) = executed(rt, alloc, execution, text);
        let is_right = answer == *wanted && written == Some(text.len());
        expect(rt, is_right, text);
    }
}

// An execution by one worker, whose devices don't fail.
const REPORTING: Execution<'static> = Execution {
    source: DIVIDES,
    mode: Mode::Run { tail: STATS },
    workers: 1,
    takes: 4,
    read: NEVER,
    write: NEVER,
};

// An execution in mode `Plain`, which wants no workers.
const PLAIN: Execution<'static> = Execution {
    mode: Mode::Plain {
        steps: 1000,
        tail: STATS,
    },
    workers: 0,
    ..REPORTING
};

static TEXTS_AND_REPORTS: [Case; 5] = [
    (
        Execution {
            mode: Mode::Run { tail: NOTHING },
            workers: 2,
            ..REPORTING
        },
        WELL,
        b"5\n",
    ),
    (REPORTING, WELL, REPORT),
    (
        Execution {
            workers: 0,
            ..REPORTING
        },
        Err(Refusal::Settings),
        b"",
    ),
    (PLAIN, WELL, REPORT),
    (
        Execution {
            mode: Mode::Plain {
                steps: 1,
                tail: STATS,
            },
            ..PLAIN
        },
        Ok(Done::NotEnded),
        b"",
    ),
];

#[test]
fn writes_texts_and_reports(rt: HostRuntime) {
    all_execute(&rt, rt.alloc(), &TEXTS_AND_REPORTS);
}

static FAILED_DEVICES: [Case; 6] = [
    (
        Execution {
            read: 0,
            ..REPORTING
        },
        Err(Refusal::ReadFailed),
        b"",
    ),
    (
        Execution {
            read: 1,
            ..REPORTING
        },
        Err(Refusal::ReadFailed),
        b"",
    ),
    (
        Execution {
            write: 0,
            ..REPORTING
        },
        Err(Refusal::WriteFailed),
        b"",
    ),
    (
        Execution {
            write: 1,
            ..REPORTING
        },
        Err(Refusal::WriteFailed),
        b"5\n",
    ),
    (
        Execution {
            write: 2,
            ..REPORTING
        },
        Err(Refusal::WriteFailed),
        b"5\n",
    ),
    (
        Execution {
            write: 3,
            ..REPORTING
        },
        Err(Refusal::WriteFailed),
        b"5\nend ",
    ),
];

#[test]
fn tells_of_failed_devices(rt: HostRuntime) {
    all_execute(&rt, rt.alloc(), &FAILED_DEVICES);
}

static WITH_GLOBALS: [Case; 2] = [
    (
        Execution {
            mode: Mode::Run { tail: GLOBALS },
            workers: 2,
            ..REPORTING
        },
        WELL,
        b"5\nd 2\n",
    ),
    (
        Execution {
            mode: Mode::Plain {
                steps: 1000,
                tail: BOTH,
            },
            ..PLAIN
        },
        WELL,
        REPORT_AND_GLOBALS,
    ),
];

#[test]
fn writes_globals(rt: HostRuntime) {
    all_execute(&rt, rt.alloc(), &WITH_GLOBALS);
}

// What `execute_plain` answers, and how much of this text it writes.
fn executed_plainly(alloc: Global, text: &[u8]) -> (Answer, Option<usize>) {
    let mut source = MemorySource::new(DIVIDES);
    let mut out = MemorySink::new(alloc);
    let answer = execute_plain(alloc, &mut source, &[], &mut out, 1000, NOTHING);
    (answer, beginning(text, &out))
}

#[test]
fn executes_plainly(rt: HostRuntime) {
    let (answer, written) = executed_plainly(rt.alloc(), b"5\n");
    expect(&rt, answer == WELL && written == Some(2), DIVIDES);
}
