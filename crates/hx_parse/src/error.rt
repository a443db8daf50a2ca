// Why tokens are refused.

ghost use Rattle.std.specs.Prelude.{◌≡◌, Ok, Err, IfOk, IfErr, MatchResult};
ghost use Rattle.hx_parse.specs.Answer.{number_of, pos_of};
ghost use Rattle.hx_parse.specs.Gives.{Stops, Extends};
ghost use Rattle.hx_parse.specs.declared.error.ParseError.TheVariants.{Memory};

use hx_tree::token::Pos;
use std::alloc::{AllocError, AllocFailed, Global};
use thiserror::Error;

/// Why tokens are refused. Each cause has a number.
#[derive(Clone, Copy, Debug, PartialEq, Eq, Error)]
pub enum ParseError {
    /// 10: the tokens spell no program of any height. The place is that of the first token such that no program begins with
    /// the tokens up to and with it, or just behind the last token.
    #[error("no program goes on so at {line}:{col}", line = .0.line, col = .0.col)]
    Syntax(Pos),
    /// 11: the tokens spell no program of at most the height limit.
    #[error("no program of at most 200 nodes on a path")]
    TooDeep,
    /// 12: there was no memory for the tree.
    #[error("out of memory")]
    Memory,
}

impl ParseError {
    /// The number of the refusal: 10, 11 or 12.
    pub fn number(self) -> u32
        ensures { result ≡ number_of self }
    {
        match self {
            ParseError::Syntax(_) => 10,
            ParseError::TooDeep => 11,
            ParseError::Memory => 12,
        }
    }

    /// The place of the refusal; 10 alone has one.
    pub fn pos(self) -> Option<Pos>
        ensures { result ≡ pos_of self }
    {
        match self {
            ParseError::Syntax(pos) => Some(pos),
            ParseError::TooDeep => None,
            ParseError::Memory => None,
        }
    }
}

impl From<AllocError> for ParseError {
    ghost from_gives = { λ _ e. e ≡ Memory };

    fn from(_e: AllocError) -> ParseError {
        ParseError::Memory
    }
}

impl<T: Drop> From<AllocFailed<T>> for ParseError {
    ghost from_gives = { λ _ e. e ≡ Memory };

    fn from(_e: AllocFailed<T>) -> ParseError {
        ParseError::Memory
    }
}

/// Both values, or the error in place of the second.
pub(crate) fn both<T: Drop, U>(
    first: T,
    second: Result<U, ParseError>,
) -> Result<(T, U), ParseError>
    ensures { MatchResult result (λ both. (both.0 ≡ first) × (second ≡ Ok both.1)) (λ e. second ≡ Err e) }
{
    match second {
        Ok(second) => Ok((first, second)),
        Err(error) => Err(error),
    }
}

/// The value in a box, or the error in place of it.
pub(crate) fn boxed<T: Drop>(
    alloc: Global,
    value: Result<T, ParseError>,
) -> Result<Box<T>, ParseError>
    ensures given { IfOk result (λ b. value ≡ Ok b.value) }
    ensures refused { IfErr result (λ e. Stops value e) }
{
    Ok(Box::new(alloc, value?)?)
}

/// The list with the value behind it, or the error in place of both.
pub(crate) fn pushed<T: Drop>(
    mut all: Vec<T>,
    value: Result<T, ParseError>,
) -> Result<Vec<T>, ParseError>
    ensures given { IfOk result (λ v. Extends all.items value v.items) }
    ensures refused { IfErr result (λ e. Stops value e) }
{
    all.push(value?)?;
    Ok(all)
}
