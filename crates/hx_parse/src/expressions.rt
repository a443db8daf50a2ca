// Expressions: operands, and the operators between them by their layers.

ghost use Rattle.std.specs.Prelude.{◌≡◌, ◌<◌, ◌≤◌, ◌+◌, ◌-◌, map, length, suc, max, IfOk, OnOk};
ghost use Rattle.hx_tree.specs.Tree as tree;
ghost use Rattle.hx_tree.specs.View.{expr_of};
ghost use Rattle.hx_tree.specs.Height.{height, heights};
ghost use Rattle.hx_grammar.specs.Reading.{expr_at, chained_at, arms_at, operand_at, named_at, marked_at, unary_at, arguments_at};
ghost use Rattle.hx_parse.specs.Gives.{Gives, name_in};

use crate::error::{ParseError, both};
use crate::operators::{ALL, OPERANDS, layer_of};
use crate::parser::Parser;
use hx_lex::Token;
use hx_tree::make;
use hx_tree::token::{Kind, Mark, Pos};
use hx_tree::tree::{BinaryOp, Expr, UnaryOp};
use std::alloc::{AllocError, Global};

/// An expression and its height.
#[derive(Drop)]
struct Measured {
    expr: Expr,
    height: usize,
}

/// Arguments, and the height of the highest.
#[derive(Drop)]
struct Arguments {
    all: Vec<Expr>,
    height: usize,
}

impl<'t, 's> Parser<'t, 's> {
    /// An expression of height at most `room`.
    pub(crate) fn expression(&mut self, room: usize) -> Result<Expr, ParseError>
        ensures read { Gives expr_of result self.new (expr_at room 11 self.old) }
        ensures shorter { OnOk result (length self.new < length self.old) }
    {
        let all = self.expr(ALL, room)?;
        Ok(all.expr)
    }

    /// The arguments of a call and the `)` behind them, where the name and the `(` are taken.
    pub(crate) fn call_arguments(&mut self, room: usize) -> Result<Vec<Expr>, ParseError>
        ensures read { Gives (λ v. map expr_of v.items) result self.new (arguments_at (expr_at room) self.old) }
        ensures shorter { OnOk result (length self.new ≤ length self.old) }
    {
        let arguments = self.arguments(room)?;
        Ok(arguments.all)
    }

    /// An expression of this layer, of height at most `room`.
    #[cycle(expr)]
    fn expr(&mut self, layer: u8, room: usize) -> Result<Measured, ParseError>
        ensures read { Gives (λ s. expr_of s.expr) result self.new (expr_at room layer self.old) }
        ensures height { IfOk result (λ s. (s.height ≡ height (expr_of s.expr)) × (s.height ≤ room)) }
        ensures shorter { OnOk result (length self.new < length self.old) }
    {
        if room == 0 {
            return Err(ParseError::TooDeep);
        }
        let test = self.chained(layer, room)?;
        if layer < ALL || !self.take(Mark::Question) {
            return Ok(test);
        }
        if test.height == room {
            return Err(ParseError::TooDeep);
        }
        self.arms(test, room - 1)
    }

    /// Operands and the operators of layers up to this between them, of height at most `room`.
    #[cycle(expr)]
    fn chained(&mut self, layer: u8, room: usize) -> Result<Measured, ParseError>
        requires room { 0 < room }
        ensures read { Gives (λ s. expr_of s.expr) result self.new (chained_at (expr_at (room - 1)) room layer self.old) }
        ensures height { IfOk result (λ s. (s.height ≡ height (expr_of s.expr)) × (s.height ≤ room)) }
        ensures shorter { OnOk result (length self.new < length self.old) }
    {
        let mut left = self.operand(room - 1)?;
        while let Some((op, pos)) = self.take_operator(layer) {
            if left.height == room {
                return Err(ParseError::TooDeep);
            }
            let right = self.expr(layer_of(op) - 1, room - 1)?;
            left = binary(self.alloc, op, pos, left, right)?;
        }
        Ok(left)
    }

    /// What stands behind a test and its `?`, which are taken: two expressions of height at most `room`, and all as one.
    #[cycle(expr)]
    #[tactic(auto, unfolding(hx_grammar::specs::Reading::arms_at))]
    fn arms(&mut self, test: Measured, room: usize) -> Result<Measured, ParseError>
        requires test { (test.height ≡ height (expr_of test.expr)) × (test.height ≤ room) }
        requires room { room < usize.MAX }
        ensures read { Gives (λ s. expr_of s.expr) result self.new (arms_at (expr_at room) (expr_of test.expr) self.old) }
        ensures height { IfOk result (λ s. (s.height ≡ height (expr_of s.expr)) × (s.height ≤ room + 1)) }
        ensures shorter { OnOk result (length self.new < length self.old) }
    {
        let chosen = self.expr(ALL, room);
        let (test, chosen) = both(test, self.closed(chosen, Mark::Colon))?;
        let ((test, chosen), other) = both((test, chosen), self.expr(ALL, room))?;
        Ok(conditional(self.alloc, test, chosen, other)?)
    }

    /// An operand, whose parts have height at most `room`.
    #[cycle(expr)]
    #[tactic(auto, unfolding(hx_grammar::specs::Reading::operand_at), using(crate::proofs::Marks::behind_shorter))]
    fn operand(&mut self, room: usize) -> Result<Measured, ParseError>
        requires room { room < usize.MAX }
        ensures read { Gives (λ s. expr_of s.expr) result self.new (operand_at (expr_at room) self.old) }
        ensures height { IfOk result (λ s. (s.height ≡ height (expr_of s.expr)) × (s.height ≤ room + 1)) }
        ensures shorter { OnOk result (length self.new < length self.old) }
    {
        match self.next() {
            None => Err(ParseError::Syntax(self.place())),
            Some(token) => match token.kind {
                Kind::Number(n) => Ok(Measured {
                    expr: Expr::Number(n),
                    height: 1,
                }),
                Kind::Name => self.named(token, room),
                Kind::Mark(mark) => self.marked(mark, token.pos, room),
            },
        }
    }

    /// The operand that begins with a name, which is taken.
    #[cycle(expr)]
    #[tactic(auto, unfolding(hx_grammar::specs::Reading::named_at), using(crate::proofs::Marks::behind_shorter))]
    fn named(&mut self, token: Token<'s>, room: usize) -> Result<Measured, ParseError>
        requires room { room < usize.MAX }
        ensures read { Gives (λ s. expr_of s.expr) result self.new (named_at (expr_at room) (name_in token.entry) self.old) }
        ensures height { IfOk result (λ s. (s.height ≡ height (expr_of s.expr)) × (s.height ≤ room + 1)) }
        ensures shorter { OnOk result (length self.new ≤ length self.old) }
    {
        let name = self.name_in(token)?;
        if self.take(Mark::OpenBracket) {
            let index = self.expr(ALL, room);
            let (name, index) = both(name, self.closed(index, Mark::CloseBracket))?;
            return Ok(Measured {
                height: index.height + 1,
                expr: Expr::Element(name, Box::new(self.alloc, index.expr)?),
            });
        }
        if self.take(Mark::OpenParen) {
            let (name, arguments) = both(name, self.arguments(room))?;
            return Ok(Measured {
                height: arguments.height + 1,
                expr: make::call(name, arguments.all),
            });
        }
        Ok(Measured {
            expr: Expr::Variable(name),
            height: 1,
        })
    }

    /// The operand that begins with a mark at `pos`, which is taken.
    #[cycle(expr)]
    #[tactic(auto, unfolding(hx_grammar::specs::Reading::marked_at), using(crate::proofs::Marks::behind_shorter))]
    fn marked(&mut self, mark: Mark, pos: Pos, room: usize) -> Result<Measured, ParseError>
        requires room { room < usize.MAX }
        ensures read { Gives (λ s. expr_of s.expr) result self.new (marked_at (expr_at room) mark self.old) }
        ensures height { IfOk result (λ s. (s.height ≡ height (expr_of s.expr)) × (s.height ≤ room + 1)) }
        ensures shorter { OnOk result (length self.new < length self.old) }
    {
        match mark {
            Mark::OpenParen => {
                let inner = self.expr(ALL, room);
                let inner = self.closed(inner, Mark::CloseParen)?;
                Ok(Measured {
                    height: inner.height + 1,
                    expr: Expr::Paren(Box::new(self.alloc, inner.expr)?),
                })
            }
            Mark::Minus => self.unary(UnaryOp::Negate, room),
            Mark::Tilde => self.unary(UnaryOp::Invert, room),
            Mark::Exclamation => self.unary(UnaryOp::Not, room),
            _ => Err(ParseError::Syntax(pos)),
        }
    }

    /// The operand of an operator before it, which is taken, and both as an expression.
    #[cycle(expr)]
    #[tactic(auto, unfolding(hx_grammar::specs::Reading::unary_at), using(crate::proofs::Marks::behind_shorter))]
    fn unary(&mut self, op: UnaryOp, room: usize) -> Result<Measured, ParseError>
        requires room { room < usize.MAX }
        ensures read { Gives (λ s. expr_of s.expr) result self.new (unary_at (expr_at room) op self.old) }
        ensures height { IfOk result (λ s. (s.height ≡ height (expr_of s.expr)) × (s.height ≤ room + 1)) }
        ensures shorter { OnOk result (length self.new < length self.old) }
    {
        let inner = self.expr(OPERANDS, room)?;
        Ok(Measured {
            height: inner.height + 1,
            expr: Expr::Unary(op, Box::new(self.alloc, inner.expr)?),
        })
    }

    /// The arguments of a call and the `)` behind them.
    #[cycle(expr)]
    fn arguments(&mut self, room: usize) -> Result<Arguments, ParseError>
        ensures read { Gives (λ a. map expr_of a.all.items) result self.new (arguments_at (expr_at room) self.old) }
        ensures height { IfOk result (λ a. (a.height ≡ heights (tree.exprs (map expr_of a.all.items))) × (a.height ≤ room)) }
        ensures shorter { OnOk result (length self.new ≤ length self.old) }
    {
        let mut all = Vec::new(self.alloc);
        if self.take(Mark::CloseParen) {
            return Ok(Arguments { all, height: 0 });
        }
        let first = self.expr(ALL, room)?;
        let mut height = first.height;
        all.push(first.expr)?;
        while self.take(Mark::Comma) {
            let next = self.expr(ALL, room)?;
            height = height.max(next.height);
            all.push(next.expr)?;
        }
        self.expect(Mark::CloseParen)?;
        Ok(Arguments { all, height })
    }
}

/// A test, and what is chosen where it isn't 0 and where it is.
fn conditional(
    alloc: Global,
    test: Measured,
    chosen: Measured,
    other: Measured,
) -> Result<Measured, AllocError>
    requires test { test.height < usize.MAX }
    requires chosen { chosen.height < usize.MAX }
    requires other { other.height < usize.MAX }
    ensures tree { IfOk result (λ s. expr_of s.expr ≡ tree.Conditional (expr_of test.expr) (expr_of chosen.expr) (expr_of other.expr)) }
    ensures height { IfOk result (λ s. s.height ≡ suc (max test.height (max chosen.height other.height))) }
{
    Ok(Measured {
        height: test.height.max(chosen.height.max(other.height)) + 1,
        expr: Expr::Conditional(
            Box::new(alloc, test.expr)?,
            Box::new(alloc, chosen.expr)?,
            Box::new(alloc, other.expr)?,
        ),
    })
}

/// An operator between two operands.
fn binary(
    alloc: Global,
    op: BinaryOp,
    pos: Pos,
    left: Measured,
    right: Measured,
) -> Result<Measured, AllocError>
    requires left { left.height < usize.MAX }
    requires right { right.height < usize.MAX }
    ensures tree { IfOk result (λ s. expr_of s.expr ≡ tree.Binary op pos (expr_of left.expr) (expr_of right.expr)) }
    ensures height { IfOk result (λ s. s.height ≡ suc (max left.height right.height)) }
{
    Ok(Measured {
        height: left.height.max(right.height) + 1,
        expr: Expr::Binary(
            op,
            pos,
            Box::new(alloc, left.expr)?,
            Box::new(alloc, right.expr)?,
        ),
    })
}
