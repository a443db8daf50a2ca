// Marked loops by a board and its frames on one thread: the workers take one step each in turn, until the loop has ended.

ghost use Rattle.std.specs.Prelude.{◌≡◌};

use crate::sources::code_for;
use hx_board::State;
use hx_exec::executable::Executable;
use hx_frame::Capacities;
use hx_trace::{Trace, TraceError, replay};
use hx_tree::outcome::{Fault, FaultKind};
use hx_tree::token::Pos;
use hx_word::plain::{Open, Paused, Plain};
use std::alloc::{AllocError, Global};
use std::process::Abort;

/// How many words a program may run before its loop.
const STEPS: u64 = 1_000_000;

/// How many steps all workers together have.
const TURNS: u32 = 16384;

// A program, and what its first marked loop comes to: the words of the globals, the text, the end and the whole turns.
#[derive(Clone, Copy)]
struct Row<'a> {
    source: &'a [u8],
    input: &'a [i32],
    text: &'a [u8],
    globals: &'a [i32],
    state: State,
    turns: u64,
}

// How a loop is run: by so many workers, with such tables, and which of them takes each step.
#[derive(Clone, Copy)]
struct Schedule<'a> {
    workers: u32,
    rooms: Capacities,
    steps: &'a [u8],
}

// The workers from 0 to the last, one after another, again and again.
fn in_turn(alloc: Global, last: u8) -> Result<Vec<u8>, AllocError> {
    let mut schedule = Vec::with_capacity(alloc, TURNS as usize)?;
    let mut worker = 0;
    for _turn in 0..TURNS {
        schedule.push(worker)?;
        worker = if worker < last { worker + 1 } else { 0 };
    }
    Ok(schedule)
}

fn replayed(
    alloc: Global,
    code: &Executable,
    at: &Open<'_>,
    by: Schedule<'_>,
) -> Result<Trace, TraceError>
    requires { at.now.code ≡ code.now }
{
    match at.entry(alloc) {
        Ok(entry) => replay(
            alloc,
            code,
            at.region(),
            &entry,
            by.workers,
            by.rooms,
            by.steps,
        ),
        Err(_) => Err(TraceError::Memory),
    }
}

// The first marked loop of a code.
fn loop_of(
    rt: &impl Abort,
    alloc: Global,
    code: &Executable,
    input: &[i32],
    by: Schedule<'_>,
) -> Result<Trace, TraceError> {
    let Ok(plain) = Plain::new(alloc, code, input) else {
        panic!(rt; "no machine");
    };
    match plain.to_region(STEPS) {
        Paused::At(open) => replayed(alloc, code, &open, by),
        _ => panic!(rt; "no region"),
    }
}

// The first marked loop of a program.
fn first_loop(
    rt: &impl Abort,
    alloc: Global,
    source: &[u8],
    input: &[i32],
    by: Schedule<'_>,
) -> Result<Trace, TraceError> {
    let code = code_for(rt, alloc, source);
    loop_of(rt, alloc, &code, input, by)
}

// The same, by the workers from 0 to the last in turn.
fn first_in_turn(
    rt: &impl Abort,
    alloc: Global,
    row: Row<'_>,
    last: u8,
    rooms: Capacities,
) -> Result<Trace, TraceError> {
    let Ok(steps) = in_turn(alloc, last) else {
        panic!(rt; "no memory");
    };
    let by = Schedule {
        workers: u32::from(last) + 1,
        rooms,
        steps: &steps,
    };
    first_loop(rt, alloc, row.source, row.input, by)
}

fn is_of(rt: &impl Abort, row: Row<'_>, trace: &Trace) {
    assert_eq!(rt; trace.text.as_slice(), row.text);
    assert!(rt; trace.store.as_slice().starts_with(row.globals));
    assert!(rt; trace.state == row.state);
    assert_eq!(rt; trace.counts.turns, row.turns);
    assert_eq!(rt; trace.counts.abandons, 0);
}

// That they come to that with room for so many words.
fn holds(rt: &impl Abort, alloc: Global, row: Row<'_>, last: u8, room: u32) {
    let rooms = Capacities {
        marks: room,
        buffer: room,
    };
    match first_in_turn(rt, alloc, row, last, rooms) {
        Ok(trace) => is_of(rt, row, &trace),
        Err(_) => assert!(rt; false),
    }
}

fn all_hold(rt: &impl Abort, alloc: Global, rows: &[Row<'_>]) {
    for row in rows {
        holds(rt, alloc, *row, 0, 1);
        holds(rt, alloc, *row, 0, 4096);
        holds(rt, alloc, *row, 1, 1);
        holds(rt, alloc, *row, 1, 4096);
    }
}

const LOOPS: [Row<'static>; 5] = [
    Row {
        source: b"int a[8]; int main(){ pfor(int i=0;i<8;i++) a[i]=i*i; print(a[7]); }",
        input: &[],
        text: b"",
        globals: &[0, 1, 4, 9, 16, 25, 36, 49],
        state: State::Left,
        turns: 8,
    },
    Row {
        source: b"int main(){ int s=0; pfor(int i=1;i<=100;i++) s+=i; print(s); }",
        input: &[],
        text: b"",
        globals: &[],
        state: State::Left,
        turns: 100,
    },
    Row {
        source: b"int n[4]={2,3,1,-1}; int main(){ int p=0; pwhile(p!=-1){ print(p); p=n[p]; } }",
        input: &[],
        text: b"0\n2\n1\n3\n",
        globals: &[2, 3, 1, -1],
        state: State::Left,
        turns: 4,
    },
    Row {
        source: b"int main(){ pfor(int i=0;i<10;i++) print(i); }",
        input: &[],
        text: b"0\n1\n2\n3\n4\n5\n6\n7\n8\n9\n",
        globals: &[],
        state: State::Left,
        turns: 10,
    },
    Row {
        source: b"int d; int main(){ pfor(int i=0;i<2;i++){ if(i==0) d=2; else print(10/d); } }",
        input: &[],
        text: b"5\n",
        globals: &[2],
        state: State::Left,
        turns: 2,
    },
];

#[test]
fn loops_on_boards(rt: HostRuntime) {
    all_hold(&rt, rt.alloc(), &LOOPS);
}

const ENDS: [Row<'static>; 5] = [
    Row {
        source: b"int a[8]; int main(){ pfor(int i=0;i<8;i++){ if(i==3) break; a[i]=1; } }",
        input: &[],
        text: b"",
        globals: &[1, 1, 1, 0, 0, 0, 0, 0],
        state: State::Left,
        turns: 3,
    },
    Row {
        source: b"int find(int k){ pfor(int i=0;i<9;i++){ if(i*i==k) return i; } return -1; } int main(){ print(find(49)); print(find(50)); }",
        input: &[],
        text: b"",
        globals: &[],
        state: State::Returned(7),
        turns: 7,
    },
    Row {
        source: b"int main(){ pfor(int i=5;i<5;i++) print(i); }",
        input: &[],
        text: b"",
        globals: &[],
        state: State::Left,
        turns: 0,
    },
    Row {
        source: b"int in[3]; int n_in; int main(){ int s=0; pfor(int i=0;i<n_in;i++) s+=in[i]; print(s); return s; }",
        input: &[5, -7],
        text: b"",
        globals: &[5, -7, 0, 2],
        state: State::Left,
        turns: 2,
    },
    Row {
        source: b"int a[2]; int main(){ pfor(int i=0;i<2;i++) pfor(int j=0;j<3;j++) a[i]+=j; print(a[0]+a[1]); }",
        input: &[],
        text: b"",
        globals: &[3, 3],
        state: State::Left,
        turns: 2,
    },
];

#[test]
fn ends_on_boards(rt: HostRuntime) {
    all_hold(&rt, rt.alloc(), &ENDS);
}

const FAULTS: [Row<'static>; 2] = [
    Row {
        source: b"int a[4]; int main(){ pfor(int i=0;i<8;i++){ a[i]=i+1; print(i);} }",
        input: &[],
        text: b"0\n1\n2\n3\n",
        globals: &[1, 2, 3, 4],
        state: State::Faulted(Fault {
            kind: FaultKind::IndexOutOfRange,
            pos: Pos { line: 1, col: 46 },
        }),
        turns: 4,
    },
    Row {
        source: b"int a[2]; int main(){ pfor(int i=0;i<3;i++){ a[0]=i; print(i); a[1]=1/(1-i); } }",
        input: &[],
        text: b"0\n1\n",
        globals: &[1, 1],
        state: State::Faulted(Fault {
            kind: FaultKind::ZeroDivisor,
            pos: Pos { line: 1, col: 70 },
        }),
        turns: 1,
    },
];

#[test]
fn faults_on_boards(rt: HostRuntime) {
    all_hold(&rt, rt.alloc(), &FAULTS);
}

const STORED: Row<'static> = Row {
    source: b"int a; int b; int c; int main(){ pwhile(c<2){ a=a+1; print(a); b=b+a; print(b); c=c+1; } }",
    input: &[],
    text: b"1\n1\n2\n3\n",
    globals: &[2, 3, 2],
    state: State::Left,
    turns: 2,
};

// With room for one word each, one worker finds a table full four times.
#[test]
fn holds_on_a_board(rt: HostRuntime) {
    all_hold(&rt, rt.alloc(), &[STORED]);
    let rooms = Capacities {
        marks: 1,
        buffer: 1,
    };
    match first_in_turn(&rt, rt.alloc(), STORED, 0, rooms) {
        Ok(trace) => assert_eq!(&rt; trace.counts.holds, 4),
        Err(_) => assert!(&rt; false),
    }
}

// Counts to two.
const COUNTS: &[u8] = b"int c; int main(){ pwhile(c<2){ c=c+1; } }";

// Seventeen steps of two workers: iteration 1 reads c before iteration 0 stores it, and begins again.
const EARLY_READ: [u8; 17] = [0, 1, 0, 1, 0, 1, 1, 0, 0, 1, 1, 1, 1, 0, 0, 0, 0];

// The first loop of a program, by so many workers with large tables.
fn played_by(
    rt: &impl Abort,
    alloc: Global,
    source: &[u8],
    workers: u32,
    steps: &[u8],
) -> Result<Trace, TraceError> {
    let rooms = Capacities {
        marks: 512,
        buffer: 64,
    };
    let by = Schedule {
        workers,
        rooms,
        steps,
    };
    first_loop(rt, alloc, source, &[], by)
}

/// What a schedule comes to: the state, the text, how the store begins, and the counts from turns to spared.
#[derive(Clone, Copy)]
pub(crate) struct Played<'a> {
    pub(crate) state: State,
    pub(crate) text: &'a [u8],
    pub(crate) store: &'a [i32],
    pub(crate) counts: [u64; 8],
}

// From turns to spared.
fn counts_of(trace: &Trace) -> [u64; 8] {
    let counts = trace.counts;
    [
        counts.turns,
        counts.repeats,
        counts.violations,
        counts.restarts,
        counts.holds,
        counts.abandons,
        counts.discarded,
        counts.spared,
    ]
}

fn is_played(rt: &impl Abort, trace: &Trace, wanted: Played<'_>) {
    assert!(rt; trace.state == wanted.state);
    assert_eq!(rt; trace.text.as_slice(), wanted.text);
    assert!(rt; trace.store.as_slice().starts_with(wanted.store));
    assert_eq!(rt; counts_of(trace), wanted.counts);
}

/// That a schedule of so many workers on the first loop of a program comes to that.
pub(crate) fn plays(
    rt: &impl Abort,
    alloc: Global,
    source: &[u8],
    workers: u32,
    steps: &[u8],
    wanted: Played<'_>,
) {
    match played_by(rt, alloc, source, workers, steps) {
        Ok(trace) => is_played(rt, &trace, wanted),
        Err(_) => assert!(rt; false),
    }
}

#[test]
fn a_schedule_is_played(rt: HostRuntime) {
    let wanted = Played {
        state: State::Left,
        text: b"",
        store: &[2],
        counts: [2, 1, 1, 1, 0, 0, 0, 0],
    };
    plays(&rt, rt.alloc(), COUNTS, 2, &EARLY_READ, wanted);
}

#[test]
fn a_beginning_is_played(rt: HostRuntime) {
    let wanted = Played {
        state: State::Running,
        text: b"",
        store: &[0],
        counts: [0, 0, 1, 1, 0, 0, 0, 0],
    };
    plays(&rt, rt.alloc(), COUNTS, 2, &EARLY_READ[..5], wanted);
}

// Each turn writes a word of its own: nothing is read from another, and nothing begins again.
#[test]
fn independent_turns_are_played(rt: HostRuntime) {
    let source = b"int a[2]; int main(){ pfor(int i=0;i<2;i++) a[i]=i; }";
    let steps = [0, 1, 1, 0, 0, 0, 1, 1, 0, 0, 0];
    let wanted = Played {
        state: State::Left,
        text: b"",
        store: &[0, 1],
        counts: [2, 0, 0, 0, 0, 0, 0, 0],
    };
    plays(&rt, rt.alloc(), source, 2, &steps, wanted);
}

// Iteration 1 reads the divisor before iteration 0 stores it: the fault that it would end in is never seen.
#[test]
fn an_early_divisor_is_played(rt: HostRuntime) {
    let source = b"int d; int main(){ pfor(int i=0;i<2;i++){ if(i==0) d=2; else print(10/d); } }";
    let steps = [0, 1, 1, 0, 1, 1, 0, 0, 1, 1, 1, 1, 0, 0, 0];
    let wanted = Played {
        state: State::Left,
        text: b"5\n",
        store: &[2],
        counts: [2, 1, 1, 1, 0, 0, 0, 0],
    };
    plays(&rt, rt.alloc(), source, 2, &steps, wanted);
}

// The third entry names no worker, and so nothing is played.
#[test]
fn a_schedule_names_workers(rt: HostRuntime) {
    match played_by(&rt, rt.alloc(), COUNTS, 2, &[0, 1, 2]) {
        Ok(_) => assert!(&rt; false),
        Err(e) => assert_eq!(&rt; e.number(), 40),
    }
}
