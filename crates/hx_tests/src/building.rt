// What trees and sources are built with by hand. Where memory is refused, the test stops. So nothing is dropped that is built in
// part, and a function that builds a tree needs no proof of how each part of it is dropped.

use std::alloc::Global;
use std::process::Abort;

pub(crate) fn boxed<T>(rt: &(impl Abort + Alloc<A = Global>), value: T) -> Box<T> {
    match Box::new(rt.alloc(), value) {
        Ok(boxed) => boxed,
        Err(_) => rt.panic("no memory for a box"),
    }
}

pub(crate) fn listed<T, const N: usize>(
    rt: &(impl Abort + Alloc<A = Global>),
    values: [T; N],
) -> Vec<T> {
    match Vec::from_array(rt.alloc(), values) {
        Ok(list) => list,
        Err(_) => rt.panic("no memory for a list"),
    }
}

pub(crate) fn copied(rt: &(impl Abort + Alloc<A = Global>), text: &[u8]) -> Vec<u8> {
    match text.to_vec(rt.alloc()) {
        Ok(copy) => copy,
        Err(_) => rt.panic("no memory for a text"),
    }
}

/// Writes a text behind another, so many times.
pub(crate) fn append(rt: &impl Abort, all: &mut Vec<u8>, text: &[u8], count: usize) {
    for _ in 0..count {
        match all.extend_from_slice(text) {
            Ok(()) => {}
            Err(_) => rt.panic("no memory for a text"),
        }
    }
}
