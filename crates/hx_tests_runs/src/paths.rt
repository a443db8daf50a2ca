// Worked programs and refusals, by the whole path.

use crate::answers::{
    NORMAL, Otherwise, Row, expect, is_as, is_refused, plain_run_of, refusal_of, run_of,
};
use crate::building::{in_parentheses, repeated};
use hx_run::{Unwatched, are_in_range};
use hx_tree::outcome::Settings;
use hx_tree::token::Pos;
use std::alloc::Global;
use std::process::Abort;
use std::sync::Wait;
use std::thread::Threads;

const TWO_WORKERS: Settings = Settings {
    workers: 2,
    marks: 512,
    buffer: 64,
};

static WORKED: [Row<'static>; 4] = [
    Row {
        source: b"int main(){}",
        ..NORMAL
    },
    Row {
        source: b"int a; int b; int c; int main(){ pwhile(c<2){ a=a+1; print(a); b=b+a; print(b); c=c+1; } }",
        text: b"1\n1\n2\n3\n",
        globals: Some(&[2, 3, 2]),
        regions: 1,
        turns: 2,
        ..NORMAL
    },
    Row {
        source: b"int c; int main(){ pwhile(c<3){ print(c); c=c+1; } }",
        text: b"0\n1\n2\n",
        globals: Some(&[3]),
        regions: 1,
        turns: 3,
        ..NORMAL
    },
    Row {
        source: b"int c; int main(){ pwhile(c<2){ c=c+1; } }",
        globals: Some(&[2]),
        regions: 1,
        turns: 2,
        ..NORMAL
    },
];

#[test]
fn runs_worked_programs(rt: HostRuntime) {
    for row in &WORKED {
        let counted = run_of(&rt, rt.alloc(), row, TWO_WORKERS, &Unwatched);
        expect(&rt, is_as(row, counted), row.source);
    }
}

fn refuses(rt: &(impl Abort + Alloc<A = Global>), source: &[u8], number: u32, pos: Option<Pos>) {
    let is_right = match refusal_of(rt.alloc(), source) {
        Some(refusal) => {
            refusal.number() == number && refusal.pos() == pos && !refusal.is_memory()
        }
        None => false,
    };
    expect(rt, is_right, source);
}

static REFUSED: [(&[u8], u32, Option<Pos>); 11] = [
    (b"int $x;", 1, Some(Pos { line: 1, col: 5 })),
    (
        b"int main(){ int x=08; }",
        2,
        Some(Pos { line: 1, col: 19 }),
    ),
    (b"/* x", 3, Some(Pos { line: 1, col: 1 })),
    (
        b"int main(){ print(1) }",
        10,
        Some(Pos { line: 1, col: 22 }),
    ),
    (
        b"int f(){ return x; } int main(){}",
        20,
        Some(Pos { line: 1, col: 17 }),
    ),
    (
        b"int x; int x; int main(){}",
        21,
        Some(Pos { line: 1, col: 12 }),
    ),
    (b"int main(){ main=1; }", 22, Some(Pos { line: 1, col: 13 })),
    (
        b"int f(int a){ return a; } int main(){ print(f()); }",
        23,
        Some(Pos { line: 1, col: 45 }),
    ),
    (b"int main(){ break; }", 24, Some(Pos { line: 1, col: 13 })),
    (b"", 25, None),
    (
        b"int a[262144]; int b; int main(){}",
        26,
        Some(Pos { line: 1, col: 20 }),
    ),
];

#[test]
fn refuses_sources(rt: HostRuntime) {
    for (source, number, pos) in &REFUSED {
        refuses(&rt, source, *number, *pos);
    }
    let long_name = repeated(&rt, b"int ", b"x", 64, b";");
    refuses(&rt, long_name.as_slice(), 4, Some(Pos { line: 1, col: 5 }));
    let blanks = repeated(&rt, b"", b" ", 65537, b"");
    refuses(&rt, blanks.as_slice(), 5, None);
    let deep = in_parentheses(&rt, 196);
    refuses(&rt, deep.as_slice(), 11, None);
}

static WITHOUT_INPUT: Row<'static> = Row {
    source: b"int c; int main(){ pwhile(c<3){ print(c); c=c+1; } }",
    input: &[7],
    ..NORMAL
};

// Settings, and the number of the refusal of a run with them whose input doesn't fit.
static SETTINGS: [(Settings, u32); 5] = [
    (TWO_WORKERS, 61),
    (
        Settings {
            workers: 0,
            ..TWO_WORKERS
        },
        60,
    ),
    (
        Settings {
            workers: 17,
            ..TWO_WORKERS
        },
        60,
    ),
    (
        Settings {
            marks: 0,
            ..TWO_WORKERS
        },
        60,
    ),
    (
        Settings {
            buffer: 4097,
            ..TWO_WORKERS
        },
        60,
    ),
];

#[test]
fn refuses_settings_before_input(rt: HostRuntime) {
    for (settings, number) in &SETTINGS {
        let counted = run_of(&rt, rt.alloc(), &WITHOUT_INPUT, *settings, &Unwatched);
        expect(&rt, is_refused(counted, *number), WITHOUT_INPUT.source);
    }
    expect(&rt, are_in_range(TWO_WORKERS), b"two workers");
}

// That a run isn't over after so few words, and is over after so many.
fn takes_words(rt: &(impl Abort + Alloc<A = Global>), row: &Row<'_>, few: u64, enough: u64) {
    let is_under_way = matches!(plain_run_of(rt.alloc(), row, few), Err(Otherwise::NotEnded));
    expect(rt, is_under_way, row.source);
    let counted = plain_run_of(rt.alloc(), row, enough);
    expect(rt, counted.is_ok(), row.source);
}

#[test]
fn counts_words(rt: HostRuntime) {
    takes_words(&rt, &WORKED[0], 1, 2);
    takes_words(&rt, &WORKED[3], 25, 26);
}
