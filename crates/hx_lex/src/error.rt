// Why a source has no tokens.

ghost use Rattle.std.specs.Prelude.{◌≡◌};
ghost use Rattle.hx_lex.specs.declared.error.LexError.TheVariants.{Memory};

use hx_tree::token::Pos;
use std::alloc::{AllocError, AllocFailed};
use thiserror::Error;

/// Why a source was refused. The first four are told with the place of the byte where they begin.
#[derive(Clone, Copy, Debug, PartialEq, Eq, Error)]
pub enum LexError {
    /// 1: a byte that begins no token, no comment and no white space (ISO/IEC 9899:2011, 6.4).
    #[error("a byte that begins no token at {line}:{col}", line = .0.line, col = .0.col)]
    ForeignByte(Pos),
    /// 2: letters, digits and underscores behind a digit that are no constant from 0 to 2147483647 (6.4.4.1).
    #[error("no constant at {line}:{col}", line = .0.line, col = .0.col)]
    BadConstant(Pos),
    /// 3: a comment that isn't closed (6.4.9).
    #[error("a comment without an end at {line}:{col}", line = .0.line, col = .0.col)]
    OpenComment(Pos),
    /// 4: a name of more than 63 bytes (6.4.2).
    #[error("a name of more than 63 bytes at {line}:{col}", line = .0.line, col = .0.col)]
    LongName(Pos),
    /// 5: a source of more than 65,536 bytes.
    #[error("a source of more than 65536 bytes")]
    TooLong,
    /// 6: no memory for the tokens.
    #[error("out of memory")]
    Memory,
}

impl LexError {
    ghost use Rattle.hx_lex.specs.Answer.{number_of, pos_of};

    /// The refusal's number, from 1 to 6.
    pub fn number(self) -> u32
        ensures { result ≡ number_of self }
    {
        match self {
            LexError::ForeignByte(_) => 1,
            LexError::BadConstant(_) => 2,
            LexError::OpenComment(_) => 3,
            LexError::LongName(_) => 4,
            LexError::TooLong => 5,
            LexError::Memory => 6,
        }
    }

    /// The place in the source, for the first four.
    pub fn pos(self) -> Option<Pos>
        ensures { result ≡ pos_of self }
    {
        match self {
            LexError::ForeignByte(pos) => Some(pos),
            LexError::BadConstant(pos) => Some(pos),
            LexError::OpenComment(pos) => Some(pos),
            LexError::LongName(pos) => Some(pos),
            LexError::TooLong => None,
            LexError::Memory => None,
        }
    }
}

impl From<AllocError> for LexError {
    ghost from_gives = { λ _ e. e ≡ Memory };

    fn from(_e: AllocError) -> LexError {
        LexError::Memory
    }
}

impl<T: Drop> From<AllocFailed<T>> for LexError {
    ghost from_gives = { λ _ e. e ≡ Memory };

    fn from(_e: AllocFailed<T>) -> LexError {
        LexError::Memory
    }
}
