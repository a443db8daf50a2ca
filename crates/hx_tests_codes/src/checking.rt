// What the checker says of sources: which are accepted, which refusal the others get and where, and what regions take along.

use crate::stages::{checked, compile};
use hx_check::checked::Checked;
use hx_resolved::program::{LoopKind, Program, Region, Stmt, Words};
use std::alloc::{AllocError, Global};
use std::process::Abort;

/// The number of the refusal of a source and the column of its place, 0 where it has none; 0 and 0
/// where it is accepted.
fn answer(alloc: Global, source: &[u8]) -> (u32, u32) {
    match compile(alloc, source) {
        Ok(_) => (0, 0),
        Err(refused) => (refused.number(), refused.column()),
    }
}

fn expect_all(rt: &impl Abort, alloc: Global, rows: &[(&[u8], u32, u32)]) {
    for (source, number, col) in rows {
        assert_eq!(rt; answer(alloc, source), (*number, *col));
    }
}

const PLACES: [(&[u8], u32, u32); 10] = [
    (b"int f(){ return x; } int main(){}", 20, 17),
    (b"int f(int a,int a){} int main(){}", 21, 17),
    (b"void g(){} int main(){ print(g()); }", 22, 30),
    (b"void g(){} int main(){ print(1?g():2); }", 22, 32),
    (b"void g(){} int main(){ print(1?2:g()); }", 22, 34),
    (
        b"int f(int a){ return a; } int main(){ print(f()); }",
        23,
        45,
    ),
    (b"int a[0]; int main(){}", 26, 5),
    (b"", 25, 0),
    (b"int x; int x; int main(){}", 21, 12),
    (b"int main(){ break; }", 24, 13),
];

#[test]
fn refuses_with_places(rt: HostRuntime) {
    expect_all(&rt, rt.alloc(), &PLACES);
}

// Scopes: what is known where, and once.
const NAMES: [(&[u8], u32, u32); 21] = [
    (
        b"int x; int main(){ int x; { int x; { int x=1; x=2; } } for(int x=0;x<1;x++){ int x; } x=1; }",
        0,
        0,
    ),
    (b"int f(int x){ int x; } int main(){}", 21, 19),
    (b"int f(int x){ { int x; } } int main(){}", 0, 0),
    (b"int main(){ int x; int x; }", 21, 24),
    (b"int main(){ int x, x; }", 21, 20),
    (b"int main(){ for(int i=0, i=1;i<1;i++) ; }", 21, 26),
    (
        b"int main(){ for(int i=0;i<1;i++) ; for(int i=0;i<1;i++) ; }",
        0,
        0,
    ),
    (b"int main(){ { int x; } x=1; }", 20, 24),
    (b"int main(){ for(int i=0;i<1;i++) ; i=1; }", 20, 36),
    (b"int main(){ x=1; int x; }", 20, 13),
    (b"int main(){ int x=x; }", 20, 19),
    (b"int x; int main(){ int x=x; }", 0, 0),
    (b"int main(){ int x=1, y=x; }", 0, 0),
    (b"int main(){ int x=y, y=1; }", 20, 19),
    (b"int main(){ x=1; } int x;", 0, 0),
    (
        b"int main(){ return f(3); } int f(int n){ if(n) return f(n-1); return 0; }",
        0,
        0,
    ),
    (b"int f; int f(){} int main(){}", 21, 12),
    (b"int main(){} int main(){}", 21, 18),
    (b"int a, a; int main(){}", 21, 8),
    (b"int main(){ f(); }", 20, 13),
    (b"int main(){ print(a[0]); }", 20, 19),
];

#[test]
fn names(rt: HostRuntime) {
    expect_all(&rt, rt.alloc(), &NAMES);
}

// What a name is, and what is wanted of it.
const KINDS: [(&[u8], u32, u32); 20] = [
    (
        b"int f(){ return 1; } int main(){ int f; print(f()); }",
        22,
        47,
    ),
    (b"int a[2]; int main(){ int a; print(a[0]); }", 22, 36),
    (b"int a[2]; int main(){ print(a); }", 22, 29),
    (b"int x; int main(){ print(x[0]); }", 22, 26),
    (b"int main(){ int x; x[0]=1; }", 22, 20),
    (b"int f(){ return 1; } int main(){ print(f); }", 22, 40),
    (b"int x; int main(){ x(); }", 22, 20),
    (b"int a[2]; int main(){ a=1; }", 22, 23),
    (b"int f(){ return 1; } int main(){ f=1; }", 22, 34),
    (b"int f(){ return 1; } int main(){ f[0]=1; }", 22, 34),
    (b"int a[2]; int main(){ a++; }", 22, 23),
    (b"void g(){} int main(){ int x=g(); }", 22, 30),
    (b"void g(int a){} int main(){ print(g()); }", 22, 35),
    (
        b"void g(){} int f(){ return 1; } int main(){ g(); f(); }",
        0,
        0,
    ),
    (b"int f(int a){ return a; } int main(){ f(); }", 23, 39),
    (
        b"int f(int a){ return a; } int main(){ print(f(1,2)); }",
        23,
        45,
    ),
    (
        b"int f(int a,int b){ return a+b; } int main(){ print(f(1,f(2,3))); }",
        0,
        0,
    ),
    (b"void g(){ return 1; } int main(){}", 22, 11),
    (b"int f(){ return; } int main(){}", 22, 10),
    (
        b"void g(){ return; } int f(){} int h(){ return 1; } int main(){}",
        0,
        0,
    ),
];

#[test]
fn kinds(rt: HostRuntime) {
    expect_all(&rt, rt.alloc(), &KINDS);
}

// `break` and `continue`.
const LOOPS: [(&[u8], u32, u32); 6] = [
    (b"int main(){ while(1) if(1) break; }", 0, 0),
    (b"int main(){ for(;;){ { continue; } } }", 0, 0),
    (b"int main(){ pwhile(1) break; pfor(;;) continue; }", 0, 0),
    (b"int main(){ if(1) break; }", 24, 19),
    (b"int main(){ while(1) ; continue; }", 24, 24),
    (b"void g(){ break; } int main(){ while(1) g(); }", 24, 11),
];

#[test]
fn loops(rt: HostRuntime) {
    expect_all(&rt, rt.alloc(), &LOOPS);
}

// `main`.
const MAINS: [(&[u8], u32, u32); 8] = [
    (b"int main(){}", 0, 0),
    (b"int main(void){}", 0, 0),
    (b"void main(){}", 25, 0),
    (b"int main(int a){}", 25, 0),
    (b"int f(){}", 25, 0),
    (b"int main;", 25, 0),
    (b"int main[1];", 25, 0),
    (b"int main(){ int main; main=1; }", 0, 0),
];

#[test]
fn mains(rt: HostRuntime) {
    expect_all(&rt, rt.alloc(), &MAINS);
}

// Which of several faults is answered.
const FAULTS: [(&[u8], u32, u32); 21] = [
    (b"int x; int x;", 21, 12),
    (b"int f(){ return y; }", 25, 0),
    (b"int f(int a,int a){}", 25, 0),
    (
        b"int f(int a,int b,int c,int d,int e,int g,int h,int i,int j){}",
        26,
        5,
    ),
    (b"int a[1]; int a[0]; int main(){}", 21, 15),
    (b"int a[0]; int a[1]; int main(){}", 26, 5),
    (b"int main(){ print(y+z()); }", 20, 19),
    (b"int main(){ x[y]=z; }", 20, 13),
    (b"int x; int main(){ x=y; z=1; }", 20, 22),
    (b"int main(){ int x; int x=y; }", 21, 24),
    (
        b"int f(int a){ return a; } int main(){ print(f(y,1)); }",
        23,
        45,
    ),
    (
        b"int f(int a,int b){ return a; } int main(){ print(f(1,y)); }",
        20,
        55,
    ),
    (b"int main(){ for(int i=0;i<1;u++) v=1; }", 20, 29),
    (b"int main(){ for(int i=s;t;u++) v=1; }", 20, 23),
    (b"int main(){ for(;t;u++) v=1; }", 20, 18),
    (b"int main(){ while(t) v=1; }", 20, 19),
    (b"int main(){ if(1) t=1; else v=1; }", 20, 19),
    (b"void g(){ return y; } int main(){ z=1; }", 22, 11),
    (b"int main(){ break; x=1; }", 24, 13),
    (b"int f(){ x=1; } int g(int a,int a){} int main(){}", 20, 10),
    (b"int f(int a,int a){ x=1; } int main(){}", 21, 17),
];

#[test]
fn first_fault(rt: HostRuntime) {
    expect_all(&rt, rt.alloc(), &FAULTS);
}

// Lengths, words and initialisers.
const LIMITS: [(&[u8], u32, u32); 12] = [
    (b"int a[0]; int main(){}", 26, 5),
    (b"int a[1]; int main(){}", 0, 0),
    (b"int a[262144]; int main(){}", 0, 0),
    (b"int a[262145]; int main(){}", 26, 5),
    (b"int a[262143]; int b; int main(){}", 0, 0),
    (b"int a[262144]; int b; int main(){}", 26, 20),
    (b"int a[262143], b, c; int main(){}", 26, 19),
    (b"int a[2]={1,-2}; int main(){}", 0, 0),
    (b"int a[2]={1,2,3}; int main(){}", 26, 5),
    (
        b"int a=2147483647; int b[1]={-2147483647}; int main(){}",
        0,
        0,
    ),
    (
        b"int f(int a,int b,int c,int d,int e,int g,int h,int i){} int main(){}",
        0,
        0,
    ),
    (
        b"int f(int a,int b,int c,int d,int e,int g,int h,int i,int j){} int main(){}",
        26,
        5,
    ),
];

#[test]
fn limits(rt: HostRuntime) {
    expect_all(&rt, rt.alloc(), &LIMITS);
}

/// `before`, so many copies of `part`, and `after`.
fn repeated(
    alloc: Global,
    before: &[u8],
    part: &[u8],
    count: usize,
    after: &[u8],
) -> Result<Vec<u8>, AllocError> {
    let mut text = Vec::new(alloc);
    text.extend_from_slice(before)?;
    for _ in 0..count {
        text.extend_from_slice(part)?;
    }
    text.extend_from_slice(after)?;
    Ok(text)
}

/// The answer to `before`, so many copies of `part`, and `after`.
fn answer_to(
    alloc: Global,
    before: &[u8],
    part: &[u8],
    count: usize,
    after: &[u8],
) -> Result<(u32, u32), AllocError> {
    let source = repeated(alloc, before, part, count, after)?;
    Ok(answer(alloc, &source))
}

/// The answer to 36 calls inside one another, the innermost of which has this sum for its last argument.
fn answer_to_calls(alloc: Global, sum: &[u8]) -> Result<(u32, u32), AllocError> {
    let head = b"int f(int a,int b,int c,int d,int e,int g,int h,int i){} int main(){ print(";
    let opened = repeated(alloc, head, b"f(1,1,1,1,1,1,1,", 36, sum)?;
    answer_to(alloc, &opened, b")", 36, b"); }")
}

fn expect(rt: &impl Abort, found: Result<(u32, u32), AllocError>, wanted: (u32, u32)) {
    assert_eq!(rt; found, Ok(wanted));
}

// An eighth argument stands on seven others: 36 calls inside one another and a sum of four hold 256
// operands, and with a sum of five one more.
#[test]
fn operands(rt: HostRuntime) {
    let four = answer_to_calls(rt.alloc(), b"1+(1+(1+1))");
    expect(&rt, four, (0, 0));
    let five = answer_to_calls(rt.alloc(), b"1+(1+(1+(1+1)))");
    expect(&rt, five, (26, 62));
}

// Parameters count among the private words, and a 26 comes before the faults of its body.
const WORDS: [(&[u8], usize, &[u8], u32, u32); 4] = [
    (b"int main(){ ", 64, b"}", 0, 0),
    (b"int main(){ y=1; ", 65, b"}", 26, 5),
    (b"int f(int a,int b){", 62, b"} int main(){}", 0, 0),
    (b"int f(int a,int b){", 63, b"} int main(){}", 26, 5),
];

#[test]
fn private_words(rt: HostRuntime) {
    for (before, count, after, number, col) in &WORDS {
        let found = answer_to(rt.alloc(), before, b"{int x;}", *count, after);
        expect(&rt, found, (*number, *col));
    }
}

/// Adds a function whose name has three digits behind an `f`.
fn push_function(source: &mut Vec<u8>, k: u32) -> Result<(), AllocError> {
    source.extend_from_slice(b"int f")?;
    for digit in [k / 100, k / 10 % 10, k % 10] {
        source.push(b"0123456789"[digit as usize % 10])?;
    }
    source.extend_from_slice(b"(){}")
}

/// The answer to main and so many further functions.
fn answer_to_functions(alloc: Global, others: u32) -> Result<(u32, u32), AllocError> {
    let mut source = Vec::from_slice(alloc, b"int main(){}")?;
    for k in 0..others {
        push_function(&mut source, k)?;
    }
    Ok(answer(alloc, &source))
}

// main and 255 further functions.
#[test]
fn functions(rt: HostRuntime) {
    for k in 0..256u32 {
        let found = answer_to_functions(rt.alloc(), k);
        assert!(rt; found == Ok((0, 0)), "with {k} others");
    }
    expect(&rt, answer_to_functions(rt.alloc(), 256), (26, 3077));
}

fn small(n: u32) -> i32 {
    i32::try_from(n).unwrap_or(-1)
}

/// Tells how many words a region carries, how many it copies, how many it computes, and all of them in this order, a computed
/// one with its step.
fn tell(all: &mut Vec<i32>, region: &Region) -> Result<(), AllocError> {
    let carried = i32::try_from(region.carried.len()).unwrap_or(99);
    let copied = i32::try_from(region.copied.len()).unwrap_or(99);
    let computed = if region.induct.is_some() { 1 } else { 0 };
    all.extend_from_slice(&[carried, copied, computed])?;
    for k in &region.carried {
        all.push(small(*k))?;
    }
    for k in &region.copied {
        all.push(small(*k))?;
    }
    match region.induct {
        Some(induct) => all.extend_from_slice(&[small(induct.private), induct.step]),
        None => Ok(()),
    }
}

/// What the loops take along that stand in the body of the first function.
fn taken(program: &Program, alloc: Global) -> Result<Vec<i32>, AllocError> {
    let mut all = Vec::new(alloc);
    if let Some(f) = program.functions.first() {
        for s in &f.body {
            if let Stmt::Loop(LoopKind::Region(region), _, _) = s {
                tell(&mut all, region)?;
            }
        }
    }
    Ok(all)
}

fn are_taken(rt: &impl Abort, alloc: Global, checked: &Checked, want: &[i32]) {
    assert!(rt; !checked.tree().items.is_empty());
    match taken(checked.program(), alloc) {
        Ok(all) => assert_eq!(rt; all.as_slice(), want),
        Err(_) => assert!(rt; false),
    }
}

fn expect_taken(rt: &impl Abort, alloc: Global, source: &[u8], want: &[i32]) {
    match checked(alloc, source) {
        Ok(checked) => are_taken(rt, alloc, &checked, want),
        Err(refusal) => assert_eq!(rt; refusal.number(), 0),
    }
}

fn expect_all_taken(rt: &impl Abort, alloc: Global, rows: &[(&[u8], &[i32])]) {
    for (source, want) in rows {
        expect_taken(rt, alloc, source, want);
    }
}

const REGIONS: [(&[u8], &[i32]); 7] = [
    // s is carried, k is copied, i is computed
    (
        b"int main(){ int s=0; int k=3; pfor(int i=0;i<k;i++) s+=i; print(s); }",
        &[1, 1, 1, 0, 1, 2, 1],
    ),
    // parameters are outer locals
    (
        b"int f(int a,int b){ pwhile(a<b) a++; return a; } int main(){}",
        &[1, 1, 0, 0, 1],
    ),
    // what the turns declare isn't taken along
    (
        b"int main(){ int s; pfor(int i=0;i<3;i++){ int t=i; s+=t; } }",
        &[1, 0, 1, 0, 1, 1],
    ),
    // a marked loop inside another is plain
    (
        b"int main(){ int n=2; pfor(int i=0;i<n;i++) pfor(int j=0;j<n;j++) emit(j); }",
        &[0, 1, 1, 0, 1, 1],
    ),
    // an inner local of the same name is another word
    (
        b"int main(){ int x; pwhile(x<1){ int x=5; x=6; } }",
        &[0, 1, 0, 0],
    ),
    // an index and an argument are read
    (
        b"int main(){ int i=1; int y; pwhile(a[0]<f(y)) a[i]=1; } int a[4]; int f(int x){}",
        &[0, 2, 0, 0, 1],
    ),
    // globals and unmarked loops take nothing along; two regions, each with its own lists
    (
        b"int main(){ int s; while(g<2) g++; pwhile(s<g) s++; pwhile(g<s) g++; } int g;",
        &[1, 0, 0, 0, 0, 1, 0, 0],
    ),
];

#[test]
fn regions(rt: HostRuntime) {
    expect_all_taken(&rt, rt.alloc(), &REGIONS);
}

// What counts as a counter: its step is `i++`, `i--`, `i += N` or `i -= N`, and it begins in the first clause.
const COMPUTED: [(&[u8], &[i32]); 7] = [
    // declared outside, and a parameter
    (
        b"int main(){ int i; pfor(i=10;i>4;i-=4) emit(65); print(i); }",
        &[0, 0, 1, 0, -4],
    ),
    (
        b"int f(int n){ pfor(n=0;n<3;n+=2) emit(n); return n; } int main(){}",
        &[0, 0, 1, 0, 2],
    ),
    // without a first value it begins with 0; of two names the one of the step is meant
    (
        b"int main(){ pfor(int i;i<3;i++) emit(i); }",
        &[0, 0, 1, 0, 1],
    ),
    (
        b"int main(){ pfor(int i=0,j=5;j>0;j--) emit(i); }",
        &[0, 1, 1, 0, 1, -1],
    ),
    // steps of 0, and the greatest
    (
        b"int main(){ pfor(int i=0;i<1;i+=0) break; pfor(int i=0;i<1;i-=0) break; }",
        &[0, 0, 1, 0, 0, 0, 0, 1, 1, 0],
    ),
    (
        b"int main(){ pfor(int i=0;i<1;i-=2147483647) break; }",
        &[0, 0, 1, 0, -2147483647],
    ),
    // an inner block has a local of the same name
    (
        b"int main(){ pfor(int i=0;i<3;i++){ int i=7; i=5; } }",
        &[0, 0, 1, 0, 1],
    ),
];

#[test]
fn computed(rt: HostRuntime) {
    expect_all_taken(&rt, rt.alloc(), &COMPUTED);
}

// And what doesn't, though it looks like one.
const NOT_COMPUTED: [&[u8]; 10] = [
    b"int main(){ pfor(int i=0;i<3;i=i+1) emit(i); }",
    b"int main(){ pfor(int i=0;i<3;i+=(1)) emit(i); }",
    b"int main(){ pfor(int i=0;i<3;i+=-1) emit(i); }",
    b"int main(){ pfor(int i=1;i<3;i*=2) emit(i); }",
    b"int main(){ int i; pfor(;i<3;i++) emit(i); }",
    b"int main(){ int i; pfor(i+=1;i<3;i++) emit(i); }",
    b"int main(){ pfor(int i=0;i<3;i++) i=i+1; }",
    b"int main(){ pfor(int i=0;i<3;i++){ emit(i); { i++; } } }",
    b"int main(){ pfor(int i=0;i<3;i++) for(;i<2;i++) emit(i); }",
    b"int main(){ int i; pwhile(i<3) i++; }",
];

#[test]
fn not_computed(rt: HostRuntime) {
    for source in &NOT_COMPUTED {
        expect_taken(&rt, rt.alloc(), source, &[1, 0, 0, 0]);
    }
    // a global is no local
    let source = b"int main(){ pfor(g=0;g<3;g++) emit(g); } int g;";
    expect_taken(&rt, rt.alloc(), source, &[0, 0, 0]);
}

/// Which function is main, and where the input and its length stand.
fn places_of(program: &Program) -> (u32, Option<Words>, Option<u32>) {
    (program.main, program.input, program.input_length)
}

/// Parameters, private words and need of the first function, which is called f.
fn numbers_of_f(program: &Program) -> Option<(u32, u32, u32)> {
    match program.functions.first() {
        Some(f) if f.name.as_slice() == b"f".as_slice() => {
            Some((f.parameters, f.privates, f.need))
        }
        _ => None,
    }
}

fn is_resolved(rt: &impl Abort, program: &Program) {
    let input = Some(Words { base: 1, length: 3 });
    assert_eq!(rt; places_of(program), (1, input, Some(4)));
    assert_eq!(rt; program.opening.as_slice(), [7, -2, 5, 0, 0].as_slice());
    assert_eq!(rt; numbers_of_f(program), Some((1, 2, 1)));
}

#[test]
fn resolves(rt: HostRuntime) {
    let source = b"int x=7; int in[3]={-2,5}; int n_in; void f(int a){ int b; } int main(){}";
    match checked(rt.alloc(), source) {
        Ok(checked) => is_resolved(&rt, checked.program()),
        Err(refusal) => assert_eq!(rt; refusal.number(), 0),
    }
}
