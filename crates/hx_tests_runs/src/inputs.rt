// Input texts and the numbers that they spell.

use crate::answers::expect;
use crate::building::repeated;
use hx_run::parse_input;
use std::alloc::Global;
use std::process::Abort;

/// Whether a text spells these numbers, or where there are none, whether it is refused as no input text.
pub(crate) fn is_read(alloc: Global, text: &[u8], wanted: Option<&[i32]>) -> bool {
    match parse_input(alloc, text) {
        Ok(numbers) => match wanted {
            Some(wanted) => numbers.as_slice() == wanted,
            None => false,
        },
        Err(refusal) => wanted.is_none() && refusal.number() == 65 && refusal.pos().is_none(),
    }
}

static TEXTS: [(&[u8], &[i32]); 5] = [
    (b"", &[]),
    (b" \t\r\n", &[]),
    (b"5 -7", &[5, -7]),
    (b"\n0\t12\r\n-3 ", &[0, 12, -3]),
    (b"2147483647 -2147483648", &[2147483647, -2147483648]),
];

#[test]
fn reads_input_texts(rt: HostRuntime) {
    for (text, numbers) in &TEXTS {
        expect(&rt, is_read(rt.alloc(), text, Some(numbers)), text);
    }
}

static OTHER_TEXTS: [&[u8]; 12] = [
    b"-0",
    b"+1",
    b"07",
    b"-",
    b"1a",
    b"1,2",
    b"--1",
    b"2147483648",
    b"-2147483649",
    b"99999999999999999999",
    b"1\x0c2",
    b"\xff",
];

#[test]
fn refuses_other_texts(rt: HostRuntime) {
    for text in &OTHER_TEXTS {
        expect(&rt, is_read(rt.alloc(), text, None), text);
    }
}

// That so many blanks before an 8, and another behind it, spell this, or nothing.
fn are_read(rt: &(impl Abort + Alloc<A = Global>), behind: &[u8], wanted: Option<&[i32]>) {
    let long = repeated(rt, b"", b" ", 1_048_575, behind);
    expect(
        rt,
        is_read(rt.alloc(), long.as_slice(), wanted),
        b"blanks and an 8",
    );
}

#[test]
fn an_input_text_has_1048576_bytes_at_most(rt: HostRuntime) {
    are_read(&rt, b"8", Some(&[8]));
    are_read(&rt, b"8 ", None);
}
