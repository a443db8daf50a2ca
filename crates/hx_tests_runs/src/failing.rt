// Devices that fail at each of their calls in turn, and devices that take a byte at a time, in each mode.

use crate::answers::expect;
use crate::executing::{Answer, Execution, NEVER, STATS, executed};
use hx_run::{Done, Mode};
use hx_tree::outcome::{End, Fault, FaultKind};
use hx_tree::token::Pos;
use std::alloc::Global;
use std::process::Abort;
use std::sync::Wait;
use std::thread::Threads;

/// More calls than an execution makes of a device that takes a byte at a time.
const CALLS: u64 = 400;

static MODES: [Mode; 2] = [
    Mode::Run { tail: STATS },
    Mode::Plain {
        steps: 100_000,
        tail: STATS,
    },
];

// A program, how it ends, and what is written of it with its report where one worker runs it.
struct Row<'a> {
    source: &'a [u8],
    end: End,
    written: &'a [u8],
}

static ROWS: [Row<'static>; 2] = [
    Row {
        source: b"int main(){ int s=0; pfor(int i=1;i<=100;i++) s+=i; print(s); }",
        end: End::Normal(0),
        written: b"5050\nend normal 0\nregions 1\nturns 100\nrepeats 0\nviolations 0\nrestarts 0\nholds 0\nabandons 0\ndiscarded 0\nspared 0\n",
    },
    Row {
        source: b"int a[4]; int main(){ pfor(int i=0;i<8;i++){ a[i]=i+1; print(i);} }",
        end: End::Fault(Fault {
            kind: FaultKind::IndexOutOfRange,
            pos: Pos { line: 1, col: 46 },
        }),
        written: b"0\n1\n2\n3\nend fault 2 at 1:46\nregions 1\nturns 4\nrepeats 0\nviolations 0\nrestarts 0\nholds 0\nabandons 0\ndiscarded 0\nspared 0\n",
    },
];

// How a row is executed by one worker, over a sink that takes so many bytes at once, where nothing fails.
fn execution_of<'a>(row: &Row<'a>, mode: Mode, takes: usize) -> Execution<'a> {
    Execution {
        source: row.source,
        mode,
        workers: 1,
        takes,
        read: NEVER,
        write: NEVER,
    }
}

// Whether an execution has done all of its row; or else whether it is refused by this number.
fn is_whole(
    rt: &impl Abort,
    row: &Row<'_>,
    answer: Answer,
    written: Option<usize>,
    number: u32,
) -> bool {
    match answer {
        Ok(done) => {
            let is_right = done == Done::Finished(row.end) && written == Some(row.written.len());
            expect(rt, is_right, row.source);
            true
        }
        Err(refusal) => {
            expect(rt, refusal.number() == number, row.source);
            false
        }
    }
}

// That nothing is written where a read fails. How many reads there are.
fn reads_fail<R: Abort + Threads + Wait + Sync>(
    rt: &R,
    alloc: Global,
    row: &Row<'_>,
    mode: Mode,
) -> u64 {
    for read in 0..CALLS {
        let execution = Execution {
            read,
            ..execution_of(row, mode, usize::MAX)
        };
        let (answer, written) = executed(rt, alloc, &execution, row.written);
        if is_whole(rt, row, answer, written, 63) {
            return read;
        }
        expect(rt, written == Some(0), row.source);
    }
    CALLS
}

// That a beginning is written where a write fails of a sink that takes so many bytes at once. How many writes there are.
fn writes_fail<R: Abort + Threads + Wait + Sync>(
    rt: &R,
    alloc: Global,
    row: &Row<'_>,
    mode: Mode,
    takes: usize,
) -> u64 {
    for write in 0..CALLS {
        let execution = Execution {
            write,
            ..execution_of(row, mode, takes)
        };
        let (answer, written) = executed(rt, alloc, &execution, row.written);
        if is_whole(rt, row, answer, written, 64) {
            return write;
        }
        expect(rt, written.is_some(), row.source);
    }
    CALLS
}

#[test]
fn each_read_fails(rt: HostRuntime) {
    for row in &ROWS {
        for mode in &MODES {
            let reads = reads_fail(&rt, rt.alloc(), row, *mode);
            expect(&rt, 0 < reads && reads < CALLS, row.source);
        }
    }
}

#[test]
fn each_write_fails(rt: HostRuntime) {
    for row in &ROWS {
        for mode in &MODES {
            for takes in [1, 7, 1000] {
                let writes = writes_fail(&rt, rt.alloc(), row, *mode, takes);
                expect(&rt, 0 < writes && writes < CALLS, row.source);
            }
        }
    }
}

// A byte at a time, each byte takes a call.
#[test]
fn a_byte_at_a_time(rt: HostRuntime) {
    for row in &ROWS {
        for mode in &MODES {
            let writes = writes_fail(&rt, rt.alloc(), row, *mode, 1);
            expect(&rt, row.written.len() as u64 <= writes, row.source);
        }
    }
}
