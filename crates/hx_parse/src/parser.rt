// The tokens, read one after another.

ghost use Rattle.std.specs.Prelude.{◌≡◌, ◌<◌, ◌≤◌, List, [], ◌∷◌, map, length, drop, MatchOption, MatchBool, OnOk, IfOk, IfErr, Ok, Some, None};
ghost use Rattle.hx_tree.specs.Lexis as lexis;
ghost use Rattle.hx_tree.specs.View.{name_of};
ghost use Rattle.hx_lex.specs.View.{token_of, tokens_of};
ghost use Rattle.hx_grammar.specs.Reading.{front, behind, expect, name_at, number_at, operator_at};
ghost use Rattle.hx_parse.specs.Gives.{Gives, GivesRest, StaysOpen, itself, name_in};

use crate::error::{ParseError, both};
use crate::operators::{binary_of, layer_of};
use hx_lex::Token;
use hx_tree::token::{Kind, Mark, Pos};
use hx_tree::tree::{BinaryOp, Name};
use std::alloc::{AllocError, Global};
use std::marker::Model;

/// The tokens, and how many of them are read. Contracts see the tokens that are left.
#[derive(Drop)]
pub(crate) struct Parser<'t, 's> {
    pub(crate) alloc: Global,
    pub(crate) tokens: &'t [Token<'s>],
    pub(crate) at: usize,
}

impl<'t, 's> Model for Parser<'t, 's> {
    ghost Value = { List lexis.Token };

    ghost view = { λ p. tokens_of (drop p.at p.tokens.now) };

    ghost invariant = { λ p. p.at ≤ length p.tokens.now };
}

impl<'t, 's> Parser<'t, 's> {
    /// A parser at the first of the tokens.
    pub(crate) fn new(alloc: Global, tokens: &'t [Token<'s>]) -> Parser<'t, 's>
        ensures { result ≡ tokens_of tokens.now }
    {
        Parser {
            alloc,
            tokens,
            at: 0,
        }
    }

    /// Whether all tokens are read.
    pub(crate) fn is_done(&self) -> bool
        ensures { MatchBool result (self.now ≡ []) (0 < length self.now) }
    {
        self.at == self.tokens.len()
    }

    /// The place of the next token, or that just behind the last one.
    pub(crate) fn place(&self) -> Pos {
        if self.at == self.tokens.len() {
            end_of(self.tokens)
        } else {
            self.tokens[self.at].pos
        }
    }

    /// The next token, which stays.
    fn peek(&self) -> Option<Token<'s>>
        ensures { MatchOption result (self.now ≡ []) (λ t. self.now ≡ token_of t ∷ drop 1 self.now) }
    {
        if self.at == self.tokens.len() {
            None
        } else {
            Some(self.tokens[self.at])
        }
    }

    /// The mark that is the next token, if one is.
    fn front(&self) -> Option<Mark>
        ensures { result ≡ front self.now }
    {
        if self.at == self.tokens.len() {
            return None;
        }
        match self.tokens[self.at].kind {
            Kind::Mark(mark) => Some(mark),
            Kind::Name => None,
            Kind::Number(_) => None,
        }
    }

    /// Passes the next token.
    #[tactic(auto, using(crate::proofs::Marks::view_skip))]
    fn skip(&mut self)
        requires { 0 < length self.old }
        ensures { self.new ≡ drop 1 self.old }
    {
        self.at += 1;
    }

    /// Takes the next token.
    pub(crate) fn next(&mut self) -> Option<Token<'s>>
        ensures { MatchOption result ((self.old ≡ []) × (self.new ≡ [])) (λ t. self.old ≡ token_of t ∷ self.new) }
    {
        if self.at == self.tokens.len() {
            return None;
        }
        let token = self.tokens[self.at];
        self.at += 1;
        Some(token)
    }

    /// Takes the mark, if it is next.
    #[tactic(auto, using(crate::proofs::Marks::behind_same, crate::proofs::Marks::behind_other, crate::proofs::Marks::behind_none, crate::proofs::Marks::front_some))]
    pub(crate) fn take(&mut self, mark: Mark) -> bool
        ensures { MatchBool result (behind mark self.old ≡ Some self.new) ((behind mark self.old ≡ None) × (self.new ≡ self.old)) }
    {
        match self.front() {
            Some(front) => {
                if front == mark {
                    self.skip();
                    true
                } else {
                    false
                }
            }
            None => false,
        }
    }

    /// Takes the mark, which has to be next.
    #[tactic(auto, using(crate::proofs::Marks::behind_shorter))]
    pub(crate) fn expect(&mut self, mark: Mark) -> Result<(), ParseError>
        ensures read { GivesRest result self.new (expect mark self.old) }
        ensures shorter { OnOk result (length self.new < length self.old) }
    {
        if self.take(mark) {
            Ok(())
        } else {
            Err(ParseError::Syntax(self.place()))
        }
    }

    /// What was read, where the mark has to be next: the value, or the error in place of it, or that of the mark.
    pub(crate) fn closed<T: Drop>(
        &mut self,
        value: Result<T, ParseError>,
        mark: Mark,
    ) -> Result<T, ParseError>
        ensures given { IfOk result (λ x. (value ≡ Ok x) × (expect mark self.old ≡ Ok self.new)) }
        ensures refused { IfErr result (λ e. StaysOpen value (expect mark self.old) e) }
        ensures shorter { OnOk result (length self.new < length self.old) }
    {
        let value = value?;
        let (value, _) = both(value, self.expect(mark))?;
        Ok(value)
    }

    /// The name in a token.
    pub(crate) fn name_in(&self, token: Token<'s>) -> Result<Name, AllocError>
        ensures { IfOk result (λ x. name_of x ≡ name_in token.entry) }
    {
        Ok(Name {
            text: Vec::from_slice(self.alloc, token.text)?,
            pos: token.pos,
        })
    }

    /// Takes a name, which has to be next.
    pub(crate) fn name(&mut self) -> Result<Name, ParseError>
        ensures read { Gives name_of result self.new (name_at self.old) }
        ensures shorter { OnOk result (length self.new < length self.old) }
    {
        match self.next() {
            None => Err(ParseError::Syntax(self.place())),
            Some(token) => match token.kind {
                Kind::Name => Ok(self.name_in(token)?),
                Kind::Number(_) => Err(ParseError::Syntax(token.pos)),
                Kind::Mark(_) => Err(ParseError::Syntax(token.pos)),
            },
        }
    }

    /// Takes a number, which has to be next.
    pub(crate) fn number(&mut self) -> Result<u32, ParseError>
        ensures read { Gives itself result self.new (number_at self.old) }
        ensures shorter { OnOk result (length self.new < length self.old) }
    {
        match self.next() {
            None => Err(ParseError::Syntax(self.place())),
            Some(token) => match token.kind {
                Kind::Number(number) => Ok(number),
                Kind::Name => Err(ParseError::Syntax(token.pos)),
                Kind::Mark(_) => Err(ParseError::Syntax(token.pos)),
            },
        }
    }

    /// Takes the operator, if one of a layer up to this is next.
    #[tactic(auto, unfolding(hx_grammar::specs::Reading::operator_at), using(crate::proofs::Marks::operator_found, crate::proofs::Marks::operator_above, crate::proofs::Marks::operator_none))]
    pub(crate) fn take_operator(&mut self, layer: u8) -> Option<(BinaryOp, Pos)>
        ensures { MatchOption result ((operator_at layer self.old ≡ None) × (self.new ≡ self.old)) (λ o. operator_at layer self.old ≡ Some (o.0, o.1, self.new)) }
    {
        match self.peek() {
            None => None,
            Some(token) => match token.kind {
                Kind::Mark(mark) => match binary_of(mark) {
                    Some(op) => {
                        if layer_of(op) <= layer {
                            self.skip();
                            Some((op, token.pos))
                        } else {
                            None
                        }
                    }
                    None => None,
                },
                Kind::Name => None,
                Kind::Number(_) => None,
            },
        }
    }
}

/// The place just behind the last token.
fn end_of(tokens: &[Token]) -> Pos {
    match tokens.last() {
        None => Pos { line: 1, col: 1 },
        Some(token) => Pos {
            line: token.pos.line,
            col: token
                .pos
                .col
                .saturating_add(u32::try_from(token.text.len()).unwrap_or(u32::MAX)),
        },
    }
}
