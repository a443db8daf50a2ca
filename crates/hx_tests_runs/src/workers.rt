// Worked programs on several workers, with tables that hold much and with tables that hold a word.

use crate::answers::{
    Counted, NORMAL, Row, expect, expect_by, full_text, is_as, is_refused, row_of, run_of,
};
use crate::building::{in_parentheses, repeated};
use crate::programs::{COUNTERS, DEPENDENT, ENDS, FIND, LOOPS, PAST_ITS_ARRAY, WITHOUT_LOOPS};
use hx_run::Unwatched;
use hx_tree::limits::TEXT_LIMIT;
use hx_tree::outcome::{End, Fault, FaultKind, Settings};
use hx_tree::token::Pos;
use std::alloc::Global;
use std::process::Abort;
use std::sync::Wait;
use std::thread::Threads;

static ROOMS: [(u32, u32); 3] = [(512, 64), (1, 1), (4096, 4096)];

// So many workers, with tables that hold much.
fn roomy(workers: u32) -> Settings {
    Settings {
        workers,
        marks: 512,
        buffer: 64,
    }
}

fn unwatched_of<R: Threads + Wait + Sync>(
    rt: &R,
    alloc: Global,
    row: &Row<'_>,
    settings: Settings,
) -> Counted {
    run_of(rt, alloc, row, settings, &Unwatched)
}

fn holds<R: Abort + Threads + Wait + Sync>(
    rt: &R,
    alloc: Global,
    row: &Row<'_>,
    settings: Settings,
) {
    let counted = unwatched_of(rt, alloc, row, settings);
    expect_by(rt, is_as(row, counted), row.source, settings);
}

fn all_hold<R: Abort + Threads + Wait + Sync>(rt: &R, alloc: Global, rows: &[Row<'_>]) {
    for row in rows {
        for workers in [1, 2, 4, 8] {
            for (marks, buffer) in ROOMS {
                let settings = Settings {
                    workers,
                    marks,
                    buffer,
                };
                holds(rt, alloc, row, settings);
            }
        }
    }
}

static SUM: Row<'static> = Row {
    source: b"int main(){ int s=0; pfor(int i=1;i<=100;i++) s+=i; print(s); }",
    text: b"5050\n",
    regions: 1,
    turns: 100,
    ..NORMAL
};

#[test]
fn sixteen_workers(rt: HostRuntime) {
    holds(&rt, rt.alloc(), &SUM, roomy(16));
}

#[test]
fn loops_on_workers(rt: HostRuntime) {
    all_hold(&rt, rt.alloc(), &LOOPS);
    all_hold(&rt, rt.alloc(), &PAST_ITS_ARRAY);
}

#[test]
fn turns_that_need_each_other(rt: HostRuntime) {
    all_hold(&rt, rt.alloc(), &DEPENDENT);
    all_hold(&rt, rt.alloc(), &FIND);
}

#[test]
fn faults_and_ends_on_workers(rt: HostRuntime) {
    all_hold(&rt, rt.alloc(), &ENDS);
}

#[test]
fn programs_without_loops(rt: HostRuntime) {
    all_hold(&rt, rt.alloc(), &WITHOUT_LOOPS);
    let highest = in_parentheses(&rt, 195);
    all_hold(&rt, rt.alloc(), &[row_of(highest.as_slice(), b"1\n")]);
}

fn refused_by_all<R: Abort + Threads + Wait + Sync>(
    rt: &R,
    alloc: Global,
    source: &[u8],
    number: u32,
) {
    let row = row_of(source, b"");
    for workers in [1, 2, 4, 8] {
        let settings = roomy(workers);
        let counted = unwatched_of(rt, alloc, &row, settings);
        expect_by(rt, is_refused(counted, number), source, settings);
    }
}

static REFUSED: [(&[u8], u32); 4] = [
    (b"", 25),
    (b"/* x", 3),
    (b"int x; int x; int main(){}", 21),
    (b"int main(){ int x=08; }", 2),
];

#[test]
fn sources_are_refused_on_workers(rt: HostRuntime) {
    for (source, number) in &REFUSED {
        refused_by_all(&rt, rt.alloc(), source, *number);
    }
    let higher = in_parentheses(&rt, 196);
    refused_by_all(&rt, rt.alloc(), higher.as_slice(), 11);
}

static ON_WORKERS: [Row<'static>; 3] = [
    Row {
        source: b"int main(){ int i; pfor(i=-2147483647;i<0;i--) emit(66); print(i); }",
        text: b"BB2147483647\n",
        regions: 1,
        turns: 2,
        ..NORMAL
    },
    Row {
        source: b"int f(){ int i; pfor(i=5;;i+=7){ if(i>20) return i; } return 0; } int main(){ print(f()); }",
        text: b"26\n",
        regions: 1,
        turns: 3,
        ..NORMAL
    },
    Row {
        source: b"int a[3]; int main(){ int i; pfor(i=0;;i+=2){ a[i]=1; } }",
        globals: Some(&[1, 0, 1]),
        end: End::Fault(Fault {
            kind: FaultKind::IndexOutOfRange,
            pos: Pos { line: 1, col: 47 },
        }),
        regions: 1,
        turns: 2,
        ..NORMAL
    },
];

// Counters that wrap, are used behind the loop, and are told by the place of a fault.
#[test]
fn counters_on_workers(rt: HostRuntime) {
    all_hold(&rt, rt.alloc(), &COUNTERS);
    all_hold(&rt, rt.alloc(), &ON_WORKERS);
}

// A text that comes to its limit: so many bytes, and the fault of one more.
#[test]
fn full_text_on_workers(rt: HostRuntime) {
    let text = repeated(&rt, b"", b"A", TEXT_LIMIT, b"");
    let full = full_text(text.as_slice());
    for workers in [1, 4] {
        holds(&rt, rt.alloc(), &full, roomy(workers));
    }
}

// With room for one word each, one worker finds a table full four times, and waits until it is the head.
#[test]
fn counts_holds(rt: HostRuntime) {
    let settings = Settings {
        workers: 1,
        marks: 1,
        buffer: 1,
    };
    let row = &DEPENDENT[0];
    let is_right = match unwatched_of(&rt, rt.alloc(), row, settings) {
        Ok(counts) => counts.holds == 4,
        Err(_) => false,
    };
    expect(&rt, is_right, row.source);
}

static NEVER_ABANDONED: [Row<'static>; 2] = [
    Row {
        source: b"int main(){ int s=0; pfor(int i=1;i<=100;i++) s+=i; print(s); }",
        text: b"5050\n",
        regions: 1,
        turns: 100,
        ..NORMAL
    },
    Row {
        source: b"int main(){ pfor(int i=0;i<10;i++) print(i); }",
        text: b"0\n1\n2\n3\n4\n5\n6\n7\n8\n9\n",
        regions: 1,
        turns: 10,
        ..NORMAL
    },
];

// No worker gives an iteration up by itself.
#[test]
fn abandons_nothing(rt: HostRuntime) {
    for row in &NEVER_ABANDONED {
        for workers in [1, 2, 4, 8] {
            let settings = roomy(workers);
            let is_right = match unwatched_of(&rt, rt.alloc(), row, settings) {
                Ok(counts) => counts.abandons == 0,
                Err(_) => false,
            };
            expect_by(&rt, is_right, row.source, settings);
        }
    }
}
