// Worked programs where no thread starts: the caller does all iterations.

use crate::answers::{Counted, Row, counted_of, expect, is_as};
use crate::programs::{LOOPS, PAST_ITS_ARRAY};
use hx_run::{Unwatched, run_on};
use hx_tree::outcome::Settings;
use std::alloc::Global;
use std::process::Abort;
use std::sync::Wait;
use std::thread::Threads;

/// No thread has a stack of so many bytes.
const NO_STACK: usize = 1 << 60;

fn run_alone_of<R: Threads + Wait + Sync>(rt: &R, alloc: Global, row: &Row<'_>) -> Counted {
    let settings = Settings {
        workers: 4,
        marks: 512,
        buffer: 64,
    };
    let stack = Some(NO_STACK);
    let gate = &Unwatched;
    counted_of(
        row,
        run_on(alloc, rt, row.source, row.input, settings, stack, gate),
    )
}

fn all_hold_alone<R: Abort + Threads + Wait + Sync>(rt: &R, alloc: Global, rows: &[Row<'_>]) {
    for row in rows {
        let counted = run_alone_of(rt, alloc, row);
        expect(rt, is_as(row, counted), row.source);
    }
}

#[test]
fn no_thread_starts(rt: HostRuntime) {
    all_hold_alone(&rt, rt.alloc(), &LOOPS);
    all_hold_alone(&rt, rt.alloc(), &PAST_ITS_ARRAY);
}
