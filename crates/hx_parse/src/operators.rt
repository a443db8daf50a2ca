// The operators that marks are, and the layers of those that stand between two operands.

ghost use Rattle.std.specs.Prelude.{◌≡◌};
ghost use Rattle.hx_tree.specs.Grammar.{layer, operator_layer};
ghost use Rattle.hx_grammar.specs.Reading.{binary_of, updating_of};

use hx_tree::token::Mark;
use hx_tree::tree::{BinaryOp, Operator};

/// The layer of operands.
pub(crate) const OPERANDS: u8 = 0;

/// The layer of all expressions, that of the conditional operator.
pub(crate) const ALL: u8 = 11;

/// The operator between two operands that a mark is.
pub(crate) fn binary_of(mark: Mark) -> Option<BinaryOp>
    ensures { result ≡ binary_of mark }
{
    match mark {
        Mark::Times => Some(BinaryOp::Strict(Operator::Mul)),
        Mark::Divide => Some(BinaryOp::Strict(Operator::Div)),
        Mark::Remainder => Some(BinaryOp::Strict(Operator::Rem)),
        Mark::Plus => Some(BinaryOp::Strict(Operator::Add)),
        Mark::Minus => Some(BinaryOp::Strict(Operator::Sub)),
        Mark::ShiftLeft => Some(BinaryOp::Strict(Operator::ShiftLeft)),
        Mark::ShiftRight => Some(BinaryOp::Strict(Operator::ShiftRight)),
        Mark::Less => Some(BinaryOp::Strict(Operator::Less)),
        Mark::LessEqual => Some(BinaryOp::Strict(Operator::LessEqual)),
        Mark::Greater => Some(BinaryOp::Strict(Operator::Greater)),
        Mark::GreaterEqual => Some(BinaryOp::Strict(Operator::GreaterEqual)),
        Mark::Equal => Some(BinaryOp::Strict(Operator::Equal)),
        Mark::NotEqual => Some(BinaryOp::Strict(Operator::NotEqual)),
        Mark::Ampersand => Some(BinaryOp::Strict(Operator::BitAnd)),
        Mark::Caret => Some(BinaryOp::Strict(Operator::BitXor)),
        Mark::Bar => Some(BinaryOp::Strict(Operator::BitOr)),
        Mark::AndAnd => Some(BinaryOp::And),
        Mark::BarBar => Some(BinaryOp::Or),
        _ => None,
    }
}

/// The layer of an operator, from 1 for the tightest.
pub(crate) fn layer_of(op: BinaryOp) -> u8
    ensures { result ≡ layer op }
{
    match op {
        BinaryOp::Strict(operator) => layer_of_operator(operator),
        BinaryOp::And => 9,
        BinaryOp::Or => 10,
    }
}

fn layer_of_operator(op: Operator) -> u8
    ensures { result ≡ operator_layer op }
{
    match op {
        Operator::Mul | Operator::Div | Operator::Rem => 1,
        Operator::Add | Operator::Sub => 2,
        Operator::ShiftLeft | Operator::ShiftRight => 3,
        Operator::Less | Operator::LessEqual | Operator::Greater | Operator::GreaterEqual => 4,
        Operator::Equal | Operator::NotEqual => 5,
        Operator::BitAnd => 6,
        Operator::BitXor => 7,
        Operator::BitOr => 8,
    }
}

/// The operator of the assignment that a mark is, as `+` of `+=`.
pub(crate) fn updating_of(mark: Mark) -> Option<Operator>
    ensures { result ≡ updating_of mark }
{
    match mark {
        Mark::TimesAssign => Some(Operator::Mul),
        Mark::DivideAssign => Some(Operator::Div),
        Mark::RemainderAssign => Some(Operator::Rem),
        Mark::PlusAssign => Some(Operator::Add),
        Mark::MinusAssign => Some(Operator::Sub),
        Mark::ShiftLeftAssign => Some(Operator::ShiftLeft),
        Mark::ShiftRightAssign => Some(Operator::ShiftRight),
        Mark::AmpersandAssign => Some(Operator::BitAnd),
        Mark::CaretAssign => Some(Operator::BitXor),
        Mark::BarAssign => Some(Operator::BitOr),
        _ => None,
    }
}
