// The line of a place, and a mark below it.

ghost use Rattle.std.specs.Prelude.{◌≡◌, ◌-◌, ◌++◌, ◌∷◌, ◌==◌, [], take, map, IfOk, OnOk};
ghost use Rattle.std.specs.List.{prefix_len};
ghost use Rattle.hx_case.specs.Pointed.{behind_feeds, blank_below, first_line, is_in_line, line_at, mark_below, pointed, pointed_at, shown};

use hx_tree::token::Pos;
use std::alloc::{AllocError, Global};

// What stands behind the first so many line feeds.
#[tactic(auto, using(crate::proofs::Feeds::behind_feed, crate::proofs::Feeds::behind_other, crate::proofs::Feeds::behind_nothing))]
fn behind_feeds(source: &[u8], feeds: u32) -> &[u8]
    ensures { result.now ≡ behind_feeds feeds source.now }
{
    let mut rest = source;
    let mut left = feeds;
    while left > 0 {
        match rest {
            [] => return rest,
            [first, behind @ ..] => {
                if *first == b'\n' {
                    left -= 1;
                }
                rest = behind;
            }
        }
    }
    rest
}

/// The first so many bytes, or all.
pub(crate) fn first(bytes: &[u8], count: usize) -> &[u8]
    ensures { result.now ≡ take count bytes.now }
{
    let count = count.min(bytes.len());
    &bytes[..count]
}

fn is_feed(byte: u8) -> bool
    ensures { result ≡ (byte == 10) }
{
    byte == b'\n'
}

// How many bytes stand before the first line feed.
fn line_len(bytes: &[u8]) -> usize
    ensures { result ≡ prefix_len is_in_line bytes.now }
{
    bytes.iter().take_while(|b| !is_feed(**b)).count()
}

// The bytes before the first line feed.
fn first_line(bytes: &[u8]) -> &[u8]
    ensures { result.now ≡ first_line bytes.now }
{
    first(bytes, line_len(bytes))
}

/// The line of this number, counted from 1, without its end.
pub(crate) fn line_at(source: &[u8], line: u32) -> &[u8]
    ensures { result.now ≡ line_at line source.now }
{
    first_line(behind_feeds(source, line.saturating_sub(1)))
}

fn shown(byte: u8) -> u8
    ensures { result ≡ shown byte }
{
    if (byte < 32 && byte != b'\t') || byte == 127 {
        b' '
    } else {
        byte
    }
}

fn put_line(text: &mut Vec<u8>, line: &[u8]) -> Result<(), AllocError>
    ensures { OnOk result (text.new.items ≡ text.old.items ++ (map shown line.now ++ 10 ∷ [])) }
{
    for byte in line {
        text.push(shown(*byte))?;
    }
    text.extend_from_slice(b"\n")
}

fn blank_below(byte: u8) -> &'static [u8]
    ensures { result.now ≡ blank_below byte }
{
    if byte == b'\t' {
        b"\t"
    } else if byte >= 128 && byte < 192 {
        b""
    } else {
        b" "
    }
}

fn put_mark(text: &mut Vec<u8>, before: &[u8]) -> Result<(), AllocError>
    ensures { OnOk result (text.new.items ≡ text.old.items ++ (mark_below before.now ++ 10 ∷ [])) }
{
    for byte in before {
        text.extend_from_slice(blank_below(*byte))?;
    }
    text.extend_from_slice(b"^\n")
}

/// The line of a place with a mark below it, or nothing without a place.
pub(crate) fn pointed(alloc: Global, source: &[u8], pos: Option<Pos>) -> Result<Vec<u8>, AllocError>
    ensures { IfOk result (λ v. v.items ≡ pointed source.now pos) }
{
    let mut text = Vec::new(alloc);
    if let Some(pos) = pos {
        let line = line_at(source, pos.line);
        put_line(&mut text, line)?;
        put_mark(&mut text, first(line, pos.col.saturating_sub(1) as usize))?;
    }
    Ok(text)
}

/// The bytes of the line of a place, from the place on.
pub(crate) fn from_place(source: &[u8], pos: Pos) -> &[u8] {
    let line = line_at(source, pos.line);
    let before = first(line, pos.col.saturating_sub(1) as usize).len();
    &line[before..]
}
