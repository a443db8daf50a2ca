// A token: what it is, and where its text stands.

use hx_tree::token::{Kind, Pos};

/// The bytes of a source from `start` up to, and not with, `end`.
#[derive(Clone, Copy, PartialEq, Eq, Debug)]
pub struct Span {
    pub start: usize,
    pub end: usize,
}

/// A token: its kind, its text, which is the source's slice at its span, and the place of its first byte.
#[derive(Clone, Copy)]
pub struct Token<'s> {
    pub kind: Kind,
    pub text: &'s [u8],
    pub span: Span,
    pub pos: Pos,
}
