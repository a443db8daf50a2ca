// From a source to its tokens.

ghost use Rattle.std.specs.Prelude.{◌≡◌, ℕ, ◌<◌, ◌≤◌, ◌+◌, ◌^◌, ◌↔◌, List, [], ◌++◌, OnOk, IfOk, IfErr, Err, length, take, slice_range};
ghost use Rattle.hx_tree.specs.Lexis.{AreTokens, first_place, with_token};
ghost use Rattle.hx_tree.specs.Lexis as lexis;
ghost use Rattle.hx_lex.specs.View.{tokens_of};
ghost use Rattle.hx_lex.specs.Reading.{Gives, lex_at};
ghost use Rattle.hx_lex.specs.Answer.{NoOthers, AreCut, Refuses};

use crate::error::LexError;
use crate::piece::piece_at;
use crate::token::{Span, Token};
use hx_tree::limits::SOURCE_LIMIT;
use hx_tree::token::{Kind, Pos};
use std::alloc::{AllocError, Global};

/// The tokens of a source: white space and comments stand between them, and each is the longest that can stand
/// where it begins (ISO/IEC 9899:2011, 6.4, paragraph 4). Their spans rise, and a token's text is the source's slice
/// at its span.
///
/// # Errors
///
/// 5, `TooLong`, exactly where the source has more than 65,536 bytes. Otherwise the leftmost fault: 1 `ForeignByte`,
/// 2 `BadConstant`, 3 `OpenComment` or 4 `LongName`, with the place where it begins; then the source has no tokens.
/// 6, `Memory`, says nothing of the source.
#[tactic(auto, using(crate::proofs::Whole::is_found))]
pub fn tokens<'s>(alloc: Global, source: &'s [u8]) -> Result<Vec<Token<'s>>, LexError>
    ensures found { IfOk result (λ v. AreTokens source.now (tokens_of v.items)) }
    ensures only { IfOk result (λ v. NoOthers source.now (tokens_of v.items)) }
    ensures cut { IfOk result (λ v. AreCut source.now 0 v.items (length source.now)) }
    ensures refused { IfErr result (λ e. Refuses source.now e) }
    ensures short { OnOk result (length source.now ≤ SOURCE_LIMIT) }
    ensures long { (result ≡ Err LexError.TooLong) ↔ (SOURCE_LIMIT < length source.now) }
{
    if source.len() > SOURCE_LIMIT {
        return Err(LexError::TooLong);
    }
    read(alloc, source)
}

/// The tokens of a source that isn't too long.
#[tactic(auto, using(crate::proofs::Loop::lexed_begins))]
fn read<'s>(alloc: Global, source: &'s [u8]) -> Result<Vec<Token<'s>>, LexError>
    requires { length source.now ≤ SOURCE_LIMIT }
    ensures reading { Gives (λ v. tokens_of v.items) result (lex_at (length source.now) first_place source.now) }
    ensures cut { IfOk result (λ v. AreCut source.now 0 v.items (length source.now)) }
{
    let mut tokens = Vec::new(alloc);
    let mut at = 0;
    let mut pos = Pos { line: 1, col: 1 };
    while at < source.len() {
        let piece = piece_at(&source[at..], pos)?;
        let end = at + piece.len;
        let text = &source[at..end];
        let span = Span { start: at, end };
        push_token(&mut tokens, piece.kind, text, span, pos)?;
        pos = place_after(pos, text);
        at = end;
    }
    Ok(tokens)
}

/// Adds the token that a piece is, if it is one.
#[tactic(auto, using(crate::proofs::Cut::cut_stays, crate::proofs::Cut::cut_goes_on))]
fn push_token<'s>(
    tokens: &mut Vec<Token<'s>>,
    kind: Option<Kind>,
    text: &'s [u8],
    span: Span,
    pos: Pos,
) -> Result<(), AllocError>
    ensures tokens { OnOk result (tokens_of tokens.new.items ≡ tokens_of tokens.old.items ++ with_token kind text.now pos []) }
    ensures cut { OnOk result (
        (source : List ℕ) → span.start < span.end → text.now ≡ slice_range source span.start span.end
        → pos ≡ lexis.place_after first_place (take span.start source)
        → AreCut source 0 tokens.old.items span.start → AreCut source 0 tokens.new.items span.end) }
{
    if let Some(kind) = kind {
        tokens.push(Token {
            kind,
            text,
            span,
            pos,
        })?;
    }
    Ok(())
}

/// The place behind a text that begins at this place.
fn place_after(start: Pos, text: &[u8]) -> Pos
    requires line { start.line + length text.now < 2 ^ 32 }
    requires col { start.col + length text.now < 2 ^ 32 }
    requires first { 0 < start.col }
    ensures pos { result ≡ lexis.place_after start text.now }
    ensures line { result.line ≤ start.line + length text.now }
    ensures col { result.col ≤ start.col + length text.now }
    ensures first { 0 < result.col }
{
    let mut pos = start;
    for b in text {
        if *b == b'\n' {
            pos = Pos {
                line: pos.line + 1,
                col: 1,
            };
        } else {
            pos = Pos {
                line: pos.line,
                col: pos.col + 1,
            };
        }
    }
    pos
}
