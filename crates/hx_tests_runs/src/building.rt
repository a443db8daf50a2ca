// What long sources are built with. Where memory is refused, the test stops, so nothing is dropped that is built in part.

use std::alloc::Global;
use std::process::Abort;

pub(crate) fn copied(rt: &(impl Abort + Alloc<A = Global>), text: &[u8]) -> Vec<u8> {
    match text.to_vec(rt.alloc()) {
        Ok(copy) => copy,
        Err(_) => rt.panic("no memory for a text"),
    }
}

/// Writes a text behind another, so many times.
pub(crate) fn append(rt: &impl Abort, all: &mut Vec<u8>, text: &[u8], count: usize) {
    for _ in 0..count {
        match all.extend_from_slice(text) {
            Ok(()) => {}
            Err(_) => rt.panic("no memory for a text"),
        }
    }
}

/// A text, another so many times, and a third.
pub(crate) fn repeated(
    rt: &(impl Abort + Alloc<A = Global>),
    before: &[u8],
    part: &[u8],
    count: usize,
    behind: &[u8],
) -> Vec<u8> {
    let mut text = copied(rt, before);
    append(rt, &mut text, part, count);
    append(rt, &mut text, behind, 1);
    text
}

/// `int main(){ print(1); }` with so many pairs of parentheses round the 1.
pub(crate) fn in_parentheses(rt: &(impl Abort + Alloc<A = Global>), pairs: usize) -> Vec<u8> {
    let mut source = repeated(rt, b"int main(){ print(", b"(", pairs, b"1");
    append(rt, &mut source, b")", pairs);
    append(rt, &mut source, b"); }", 1);
    source
}
