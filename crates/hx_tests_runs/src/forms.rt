// Programs of each form, and the examples: what a C compiler makes of each is what a run comes to. The tables in forms/ are made by
// the script forms/write_tests.sh.

mod called;
mod conditional;
mod counters;
mod do_while;
mod examples;
mod in_pfor;
mod in_pwhile;
mod input;
mod leaving;
mod locals;
mod marked;
mod outside;
mod returns;

use crate::answers::{Counted, NORMAL, Row, STEPS, expect, expect_by, plain_run_of, run_of};
use hx_run::{Unwatched, parse_input};
use hx_tree::outcome::{End, Settings};
use std::alloc::Global;
use std::process::Abort;
use std::sync::Wait;
use std::thread::Threads;

// A program with its input text; what it prints and returns; and its whole turns, where they are known.
#[derive(Clone, Copy)]
struct Program<'a> {
    name: &'a str,
    source: &'a [u8],
    input: &'a [u8],
    text: &'a [u8],
    returned: i32,
    turns: Option<u64>,
}

// Whether a run came to what its row says, with so many turns where they are known.
fn has_turns(turns: Option<u64>, counted: Counted) -> bool {
    match counted {
        Ok(counts) => match turns {
            Some(turns) => counts.turns == turns,
            None => true,
        },
        Err(_) => false,
    }
}

fn holds<R: Abort + Threads + Wait + Sync>(rt: &R, alloc: Global, program: Program<'_>) {
    match parse_input(alloc, program.input) {
        Ok(input) => holds_with(rt, alloc, &program, input.as_slice()),
        Err(_) => expect(rt, false, program.name.as_bytes()),
    }
}

fn holds_with<'a, R: Abort + Threads + Wait + Sync>(
    rt: &R,
    alloc: Global,
    program: &Program<'a>,
    input: &'a [i32],
) {
    let row = Row {
        source: program.source,
        input,
        text: program.text,
        globals: None,
        end: End::Normal(program.returned),
        ..NORMAL
    };
    let name = program.name.as_bytes();
    let turns = program.turns;
    let counted = plain_run_of(alloc, &row, STEPS);
    expect(rt, has_turns(turns, counted), name);
    for workers in [1, 2, 4, 8] {
        for room in [64, 1] {
            let settings = Settings {
                workers,
                marks: room,
                buffer: room,
            };
            let counted = run_of(rt, alloc, &row, settings, &Unwatched);
            expect_by(rt, has_turns(turns, counted), name, settings);
        }
    }
}

fn all_hold<R: Abort + Threads + Wait + Sync>(rt: &R, alloc: Global, programs: &[Program<'_>]) {
    for program in programs {
        holds(rt, alloc, *program);
    }
}
