// Programs and inputs of great size, none of which is refused for memory that is there.

use crate::answers::{NORMAL, Row, expect, is_as, refused, run_of};
use crate::building::{append, copied, repeated};
use crate::inputs::is_read;
use hx_run::Unwatched;
use hx_tree::outcome::{End, Fault, FaultKind, Settings};
use hx_tree::token::Pos;
use std::alloc::Global;
use std::ops::Range;
use std::process::Abort;
use std::sync::Wait;
use std::thread::Threads;

fn is_compiled(rt: &(impl Abort + Alloc<A = Global>), source: &[u8], case: &[u8]) {
    expect(rt, refused(rt.alloc(), source) == 0, case);
}

// Puts `z` and a number of four digits.
fn append_name(rt: &impl Abort, text: &mut Vec<u8>, number: usize) {
    append(rt, text, b"z", 1);
    for digit in [number / 1000, number / 100, number / 10, number] {
        append(rt, text, &[b"0123456789"[digit % 10]], 1);
    }
}

// Puts the names of a range of numbers, each with a text before and a text behind it.
fn append_names(
    rt: &impl Abort,
    text: &mut Vec<u8>,
    numbers: Range<usize>,
    before: &[u8],
    behind: &[u8],
) {
    for number in numbers {
        append(rt, text, before, 1);
        append_name(rt, text, number);
        append(rt, text, behind, 1);
    }
}

#[test]
fn has_a_cell_behind_all_globals(rt: HostRuntime) {
    let source = b"int a[262144]; int main(){ int s=0; pfor(int i=0;i<3;i++) s+=i; print(s); }";
    is_compiled(&rt, source, source);
}

#[test]
fn compiles_to_more_than_65536_words(rt: HostRuntime) {
    let source = repeated(
        &rt,
        b"int g; int main(){ pwhile(0){ ",
        b"g++;",
        16000,
        b"} }",
    );
    is_compiled(&rt, source.as_slice(), b"16000 statements in a loop");
}

#[test]
fn carries_all_locals(rt: HostRuntime) {
    let mut source = copied(&rt, b"int main(){ int z");
    append_names(&rt, &mut source, 1..64, b", ", b"");
    append(&rt, &mut source, b"; pwhile(0){ z=1; ", 1);
    append_names(&rt, &mut source, 1..64, b"", b"=1; ");
    append(&rt, &mut source, b"} }", 1);
    is_compiled(&rt, source.as_slice(), b"64 locals");
}

#[test]
fn knows_2000_globals(rt: HostRuntime) {
    let mut source = copied(&rt, b"int main(){} int z");
    append_names(&rt, &mut source, 0..2000, b", ", b"");
    append(&rt, &mut source, b";", 1);
    is_compiled(&rt, source.as_slice(), b"2001 globals");
}

#[test]
fn reads_60000_statements(rt: HostRuntime) {
    let source = repeated(&rt, b"int main(){ ", b";", 60000, b"}");
    is_compiled(&rt, source.as_slice(), b"60000 statements");
}

fn sevens(rt: &(impl Abort + Alloc<A = Global>), count: usize) -> Vec<i32> {
    match vec![in rt.alloc(); 7; count] {
        Ok(numbers) => numbers,
        Err(_) => rt.panic("no memory for numbers"),
    }
}

#[test]
fn reads_500000_numbers(rt: HostRuntime) {
    let text = repeated(&rt, b"", b"7 ", 500_000, b"");
    let numbers = sevens(&rt, 500_000);
    let is_right = is_read(rt.alloc(), text.as_slice(), Some(numbers.as_slice()));
    expect(&rt, is_right, b"500000 numbers");
}

// That a program on all workers, with the largest tables, comes to this.
fn runs_to<R: Abort + Threads + Wait + Sync>(rt: &R, alloc: Global, row: &Row<'_>) {
    let settings = Settings {
        workers: 16,
        marks: 4096,
        buffer: 4096,
    };
    let counted = run_of(rt, alloc, row, settings, &Unwatched);
    expect(rt, is_as(row, counted), row.source);
}

static LARGEST: Row<'static> = Row {
    source: b"int a[262144]; int main(){ pfor(int i=0;i<32;i++){ for(int j=0;j<4097;j++) a[j*32+i]=i; } print(a[131103]); }",
    text: b"31\n",
    globals: None,
    regions: 1,
    turns: 32,
    ..NORMAL
};

// A turn writes one word more than a write buffer holds, over a store of all words.
#[test]
fn fills_the_largest_tables(rt: HostRuntime) {
    runs_to(&rt, rt.alloc(), &LARGEST);
}

static DEEPEST: Row<'static> = Row {
    source: b"int f(int n){ if(n==0) return 0; return f(n-1)+1; } int main(){ pfor(int i=0;i<4;i++) print(f(62)); print(f(63)); }",
    text: b"62\n62\n62\n62\n",
    end: End::Fault(Fault {
        kind: FaultKind::CallTooDeep,
        pos: Pos { line: 1, col: 41 },
    }),
    regions: 1,
    turns: 4,
    ..NORMAL
};

// In a turn 64 calls are under way at once, and behind the loop one more.
#[test]
fn calls_at_the_limit(rt: HostRuntime) {
    runs_to(&rt, rt.alloc(), &DEEPEST);
}
