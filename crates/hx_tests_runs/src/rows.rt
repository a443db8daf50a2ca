// Worked programs with their answers, by the plain machine.

use crate::answers::{
    NORMAL, Row, STEPS, expect, full_text, is_as, is_refused, plain_run_of, row_of,
};
use crate::building::{in_parentheses, repeated};
use crate::programs::{COUNTERS, DEPENDENT, ENDS, FIND, LOOPS, PAST_ITS_ARRAY, WITHOUT_LOOPS};
use hx_tree::outcome::{End, Fault, FaultKind};
use hx_tree::token::Pos;
use std::alloc::Global;
use std::process::Abort;

fn all_hold(rt: &impl Abort, alloc: Global, rows: &[Row<'_>]) {
    for row in rows {
        let counted = plain_run_of(alloc, row, STEPS);
        expect(rt, is_as(row, counted), row.source);
    }
}

static EMPTY: [Row<'static>; 1] = [Row {
    source: b"int main(){}",
    ..NORMAL
}];

#[test]
fn loops_and_arrays(rt: HostRuntime) {
    all_hold(&rt, rt.alloc(), &EMPTY);
    all_hold(&rt, rt.alloc(), &LOOPS);
    all_hold(&rt, rt.alloc(), &DEPENDENT);
}

#[test]
fn calls_numbers_and_faults(rt: HostRuntime) {
    all_hold(&rt, rt.alloc(), &FIND);
    all_hold(&rt, rt.alloc(), &WITHOUT_LOOPS);
    all_hold(&rt, rt.alloc(), &PAST_ITS_ARRAY);
    all_hold(&rt, rt.alloc(), &ENDS);
}

static CHOICES: [Row<'static>; 6] = [
    Row {
        source: b"int main(){ int i=0; do { print(i); i++; } while(i<2); print(i<2 ? 7 : i>2 ? 8 : 9); }",
        text: b"0\n1\n9\n",
        ..NORMAL
    },
    Row {
        source: b"int main(){ int x=0; print(x==0 ? 5 : 1/x); }",
        text: b"5\n",
        ..NORMAL
    },
    Row {
        source: b"int main(){ int i=0; do { i++; if(i==2) continue; print(i); } while(i<3); }",
        text: b"1\n3\n",
        ..NORMAL
    },
    Row {
        source: b"int s; int main(){ pfor(int i=0;i<3;i++){ int j=0; do { s+=i; j++; } while(j<2); } print(s); }",
        text: b"6\n",
        globals: Some(&[6]),
        regions: 1,
        turns: 3,
        ..NORMAL
    },
    Row {
        source: b"int main(){ int x=0; print(7); print(x ? 5 : 1/x); }",
        text: b"7\n",
        end: End::Fault(Fault {
            kind: FaultKind::ZeroDivisor,
            pos: Pos { line: 1, col: 47 },
        }),
        ..NORMAL
    },
    Row {
        source: b"int a[2]; int main(){ pfor(int i=0;i<3;i++) do print(i); while(a[i+1]); }",
        text: b"0\n1\n",
        globals: Some(&[0, 0]),
        end: End::Fault(Fault {
            kind: FaultKind::IndexOutOfRange,
            pos: Pos { line: 1, col: 64 },
        }),
        regions: 1,
        turns: 1,
        ..NORMAL
    },
];

// The conditional operator and `do`.
#[test]
fn choices_and_do(rt: HostRuntime) {
    all_hold(&rt, rt.alloc(), &CHOICES);
}

static OPEN: [Row<'static>; 6] = [
    Row {
        source: b"int f(int k){ int x; x+=k; int y,z; y+=x; { int x; print(x); x=9; } return x+y+z; } int main(){ for(int i=0;i<2;i++){ int u; print(u); u=5+i; } pfor(int i=0;i<2;i++){ int v, w; print(v+w); v=7; w=i; print(f(i+1)); for(int j=0;j<2;j++){ int t; t+=j+v; print(t); } } int s; pwhile(s<2){ int q; s++; q+=s; print(q); } print(s); }",
        text: b"0\n0\n0\n0\n2\n7\n8\n0\n0\n4\n7\n8\n1\n2\n2\n",
        regions: 2,
        turns: 4,
        ..NORMAL
    },
    Row {
        source: b"int main(){ int x=1; { int x=x+1; print(x); } pfor(int i=0;i<3;i++){ int x=x+i; x*=10; { int x=x+1; print(x); } } print(x); int i=2; pfor(int i=i;i<4;i++) print(i); print(i); }",
        text: b"2\n11\n21\n31\n1\n2\n3\n2\n",
        regions: 2,
        turns: 5,
        ..NORMAL
    },
    Row {
        source: b"int f(int x){ if(x==1) return 7; } int g(){ pfor(int i=0;i<3;i++) f(i); } int main(){ pfor(int i=0;i<3;i++) print(f(i)); print(g()); int s=f(1); s+=f(2); print(s); }",
        text: b"0\n7\n0\n0\n7\n",
        regions: 2,
        turns: 6,
        ..NORMAL
    },
    Row {
        source: b"int g; int a[4]; int f(int x){ print(x); g=g*10+x; return x; } int two(int x,int y){ return x*10+y; } void all(){ print(f(1)-f(2)); print(two(f(3),f(4))); a[f(1)]=f(2); a[f(2)]+=f(3); g=1; g+=f(5); print(g); } int main(){ all(); pfor(int i=0;i<1;i++) all(); }",
        text: b"1\n2\n-1\n3\n4\n34\n1\n2\n2\n3\n5\n6\n1\n2\n-1\n3\n4\n34\n1\n2\n2\n3\n5\n6\n",
        globals: Some(&[6, 0, 2, 6, 0]),
        regions: 1,
        turns: 1,
        ..NORMAL
    },
    Row {
        source: b"int main(){ pfor(int i=0;i<4;i++) print(even(i)); } int even(int n){ if(n==0) return 1; int r; pfor(int i=0;i<1;i++) r=odd(n-1); return r; } int odd(int n){ if(n==0) return 0; return even(n-1); } int late=3;",
        text: b"1\n0\n1\n0\n",
        globals: Some(&[3]),
        regions: 1,
        turns: 4,
        ..NORMAL
    },
    Row {
        source: b"int main(){ pfor(int i=0;i<2;i++){ print(1<<33+i); print(1<<-1); print(-7>>33); int m=-2147483647-1; print(m/-1); print(m%-1); print(-m); print(m-1); m*=2; print(m); } }",
        text: b"2\n-2147483648\n-4\n-2147483648\n0\n-2147483648\n2147483647\n0\n4\n-2147483648\n-4\n-2147483648\n0\n-2147483648\n2147483647\n0\n",
        regions: 1,
        turns: 2,
        ..NORMAL
    },
];

// Where C leaves something open and the language doesn't, outside of a region and inside.
#[test]
fn what_c_leaves_open(rt: HostRuntime) {
    all_hold(&rt, rt.alloc(), &OPEN);
}

static FAULTS: [Row<'static>; 6] = [
    Row {
        source: b"int g; int f(int x){ for(int i=3;;i--){ g+=x/i; print(i); } } int main(){ pfor(int k=1;k<5;k++){ g=g+100; f(k*6); } }",
        text: b"3\n2\n1\n",
        globals: Some(&[111]),
        end: End::Fault(Fault {
            kind: FaultKind::ZeroDivisor,
            pos: Pos { line: 1, col: 45 },
        }),
        regions: 1,
        ..NORMAL
    },
    Row {
        source: b"int a[3]={1,1,0}; int main(){ int n; pfor(int i=0;6/a[i]>0;i++) n++; }",
        globals: Some(&[1, 1, 0]),
        end: End::Fault(Fault {
            kind: FaultKind::ZeroDivisor,
            pos: Pos { line: 1, col: 52 },
        }),
        regions: 1,
        turns: 2,
        ..NORMAL
    },
    Row {
        source: b"int g=9; int main(){ int s=8; pfor(int i=2;i>-9;s%=i){ i--; print(s); g-=i; } }",
        text: b"8\n0\n",
        globals: Some(&[8]),
        end: End::Fault(Fault {
            kind: FaultKind::ZeroDivisor,
            pos: Pos { line: 1, col: 50 },
        }),
        regions: 1,
        turns: 1,
        ..NORMAL
    },
    Row {
        source: b"int a[3]; int main(){ pfor(int i=0;i<9;i++) pwhile(a[i-1]<i) a[i]++; }",
        globals: Some(&[0, 0, 0]),
        end: End::Fault(Fault {
            kind: FaultKind::IndexOutOfRange,
            pos: Pos { line: 1, col: 52 },
        }),
        regions: 1,
        ..NORMAL
    },
    Row {
        source: b"int a[3]; void f(int i){ pwhile(1){ a[i]=i; if(i==0) return; i-=2; } } int main(){ pfor(int i=0;i<9;i++){ f(i*2); print(i); } }",
        text: b"0\n1\n",
        globals: Some(&[0, 0, 2]),
        end: End::Fault(Fault {
            kind: FaultKind::IndexOutOfRange,
            pos: Pos { line: 1, col: 37 },
        }),
        regions: 1,
        turns: 2,
        ..NORMAL
    },
    Row {
        source: b"int d; int f(int n){ d=n; return f(n+1); } int main(){ print(1); pfor(int i=0;i<2;i++) if(i) f(0); }",
        text: b"1\n",
        globals: Some(&[62]),
        end: End::Fault(Fault {
            kind: FaultKind::CallTooDeep,
            pos: Pos { line: 1, col: 34 },
        }),
        regions: 1,
        turns: 1,
        ..NORMAL
    },
];

#[test]
fn faults_in_regions(rt: HostRuntime) {
    all_hold(&rt, rt.alloc(), &FAULTS);
}

#[test]
fn text_is_full(rt: HostRuntime) {
    let text = repeated(&rt, b"", b"A", 1_048_576, b"");
    let full = full_text(text.as_slice());
    let counted = plain_run_of(rt.alloc(), &full, STEPS);
    expect(&rt, is_as(&full, counted), full.source);
}

// A source, how often it prints an `A`, what it prints behind them, and where the print stands that doesn't fit.
static WHOLE_NUMBERS: [(&[u8], usize, &[u8], u32); 2] = [
    (
        b"int main(){ for(int i=0;i<1048573;i++) emit(65); print(5); emit(66); print(5); }",
        1_048_573,
        b"5\nB",
        70,
    ),
    (
        b"int main(){ for(int i=0;i<1048575;i++) emit(65); print(5); }",
        1_048_575,
        b"",
        50,
    ),
];

// Whether a program prints this text, and then ends as one more print has no room for it, in this column of the first line.
fn fills(alloc: Global, source: &[u8], text: &[u8], col: u32) -> bool {
    let mut row = row_of(source, text);
    row.end = End::Fault(Fault {
        kind: FaultKind::TextFull,
        pos: Pos { line: 1, col },
    });
    plain_run_of(alloc, &row, STEPS).is_ok()
}

// A number is printed whole, with its line feed, or not at all.
#[test]
fn numbers_are_printed_whole(rt: HostRuntime) {
    for (source, letters, behind, col) in &WHOLE_NUMBERS {
        let text = repeated(&rt, b"", b"A", *letters, behind);
        let is_right = fills(rt.alloc(), source, text.as_slice(), *col);
        expect(&rt, is_right, source);
    }
}

fn refuses(rt: &impl Abort, alloc: Global, row: &Row<'_>, number: u32) {
    let counted = plain_run_of(alloc, row, STEPS);
    expect(rt, is_refused(counted, number), row.source);
}

#[test]
fn the_height_has_a_limit(rt: HostRuntime) {
    let highest = in_parentheses(&rt, 195);
    let counted = plain_run_of(rt.alloc(), &row_of(highest.as_slice(), b"1\n"), STEPS);
    expect(&rt, is_as(&NORMAL, counted), b"195 parentheses");
    let higher = in_parentheses(&rt, 196);
    refuses(&rt, rt.alloc(), &row_of(higher.as_slice(), b""), 11);
}

static COMPUTED: [Row<'static>; 3] = [
    Row {
        source: b"int main(){ int s=0; int k=3; pfor(int i=0;i<k;i++) s+=i; print(s); }",
        text: b"3\n",
        regions: 1,
        turns: 3,
        ..NORMAL
    },
    Row {
        source: b"int main(){ pfor(int i=2;;i--) print(6/i); }",
        text: b"3\n6\n",
        end: End::Fault(Fault {
            kind: FaultKind::ZeroDivisor,
            pos: Pos { line: 1, col: 39 },
        }),
        regions: 1,
        turns: 2,
        ..NORMAL
    },
    Row {
        source: b"int in[1]; int main(){ int i; pfor(i=in[0];i;i-=1){ if(i>0) break; } print(i); }",
        input: &[-2147483648],
        text: b"2147483647\n",
        globals: Some(&[-2147483648]),
        regions: 1,
        turns: 1,
        ..NORMAL
    },
];

// Loops whose counters are computed: past the greatest number, down and behind the loop, beside a carried sum, and to a fault.
#[test]
fn counters(rt: HostRuntime) {
    all_hold(&rt, rt.alloc(), &COUNTERS);
    all_hold(&rt, rt.alloc(), &COMPUTED);
}

static UNFITTING: [Row<'static>; 2] = [
    Row {
        source: b"int in[2]; int main(){}",
        input: &[1, 2, 3],
        ..NORMAL
    },
    Row {
        source: b"int main(){}",
        input: &[1],
        ..NORMAL
    },
];

static FITTING: [Row<'static>; 1] = [Row {
    source: b"int in[2]; int main(){}",
    input: &[1, 2],
    globals: Some(&[1, 2]),
    ..NORMAL
}];

#[test]
fn input_has_to_fit(rt: HostRuntime) {
    for row in &UNFITTING {
        refuses(&rt, rt.alloc(), row, 61);
    }
    all_hold(&rt, rt.alloc(), &FITTING);
}
