// From sources to codes, by the stages' own calls.

use hx_check::check::check;
use hx_check::checked::Checked;
use hx_check::error::CheckError;
use hx_code::code::Code;
use hx_exec::executable::Executable;
use hx_lex::{LexError, tokens};
use hx_lower::{LowerError, lower};
use hx_parse::{ParseError, parse};
use hx_tree::token::Pos;
use std::alloc::{AllocError, Global};

/// Which stage refuses a source, and why.
#[derive(Clone, Copy)]
pub(crate) enum Refused {
    Lex(LexError),
    Parse(ParseError),
    Check(CheckError),
    Lower(LowerError),
}

impl Refused {
    pub(crate) fn number(&self) -> u32 {
        match self {
            Refused::Lex(error) => error.number(),
            Refused::Parse(error) => error.number(),
            Refused::Check(error) => error.number(),
            Refused::Lower(LowerError::Memory) => 30,
        }
    }

    /// The column of its place, 0 where it has none.
    pub(crate) fn column(&self) -> u32 {
        let place: Option<Pos> = match self {
            Refused::Lex(error) => error.pos(),
            Refused::Parse(error) => error.pos(),
            Refused::Check(error) => error.pos(),
            Refused::Lower(_) => None,
        };
        match place {
            Some(place) => place.col,
            None => 0,
        }
    }
}

/// What the checker makes of a source.
pub(crate) fn checked(alloc: Global, source: &[u8]) -> Result<Checked, Refused> {
    let tokens = tokens(alloc, source).map_err(Refused::Lex)?;
    let program = parse(alloc, tokens.as_slice()).map_err(Refused::Parse)?;
    match check(alloc, program) {
        Ok(checked) => Ok(checked),
        Err(error) => Err(Refused::Check(error)),
    }
}

/// The code of a source.
pub(crate) fn compile(alloc: Global, source: &[u8]) -> Result<Code, Refused> {
    let checked = checked(alloc, source)?;
    lower(alloc, &checked).map_err(Refused::Lower)
}

/// Code that can be executed; in a box it is let go by a call.
pub(crate) fn executable(alloc: Global, code: Code) -> Result<Box<Executable>, AllocError> {
    let executable = Executable::new(alloc, code)?;
    Ok(Box::new(alloc, executable)?)
}
