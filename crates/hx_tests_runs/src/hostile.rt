// Sources that mean no good: all fronts of a program, nothing but blanks, marks that only open, and each byte by itself.

use crate::answers::{expect, refused};
use crate::building::repeated;
use std::alloc::Global;
use std::process::Abort;

static BREAKS: &[u8] = b"int a[8]; int main(){ pfor(int i=0;i<8;i++){ if(i==3) break; a[i]=1; } }";

/// The fronts of that program that spell a program without `main`: nothing, its first declaration, and that with a blank.
const WITHOUT_MAIN: [usize; 3] = [0, 9, 10];

#[test]
fn fronts_are_refused(rt: HostRuntime) {
    expect(&rt, refused(rt.alloc(), BREAKS) == 0, BREAKS);
    for length in 0..BREAKS.len() {
        let wanted = if WITHOUT_MAIN.contains(&length) {
            25
        } else {
            10
        };
        let front = &BREAKS[..length];
        expect(&rt, refused(rt.alloc(), front) == wanted, front);
    }
}

// The number that so many times a byte are refused by, behind a beginning.
fn refused_of(
    rt: &(impl Abort + Alloc<A = Global>),
    before: &[u8],
    byte: &[u8],
    count: usize,
) -> u32 {
    let source = repeated(rt, before, byte, count, b"");
    refused(rt.alloc(), source.as_slice())
}

#[test]
fn blanks_are_no_program(rt: HostRuntime) {
    expect(
        &rt,
        refused_of(&rt, b"", b" ", 65_536) == 25,
        b"as many blanks as a source has",
    );
    expect(
        &rt,
        refused_of(&rt, b"", b" ", 65_537) == 5,
        b"a blank more",
    );
}

static OPENING: [(&[u8], &[u8], usize); 5] = [
    (b"int main(){ print(", b"(", 30_000),
    (b"int main()", b"{", 65_000),
    (b"int main(){ int x; x=x", b"[", 30_000),
    (b"int main(){ print(", b"-", 60_000),
    (b"int main(){ print(", b"!", 60_000),
];

// Each of them is refused as one that no program goes on so, or as one that is too deep.
#[test]
fn marks_that_only_open(rt: HostRuntime) {
    for (before, byte, count) in &OPENING {
        let number = refused_of(&rt, before, byte, *count);
        expect(&rt, number == 10 || number == 11, byte);
    }
}

#[test]
fn a_byte_is_no_program(rt: HostRuntime) {
    for byte in 0..=255u8 {
        let source = [byte];
        let number = refused(rt.alloc(), &source);
        expect(&rt, number == 1 || number == 10 || number == 25, &source);
    }
}
