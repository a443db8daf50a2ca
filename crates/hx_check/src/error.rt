// Why a tree is refused.

ghost use Rattle.std.specs.Prelude.{◌≡◌};
ghost use Rattle.hx_check.specs.declared.error.CheckError.TheVariants.{Memory as OutOfMemory};
ghost use Rattle.hx_check.specs.Refusals.{number_of, place_of};

use hx_tree::token::Pos;
use std::alloc::{AllocError, AllocFailed};
use thiserror::Error;

/// Why a tree is refused. A place is that of the name or of the word at fault.
#[derive(Clone, Copy, PartialEq, Eq, Debug, Error)]
pub enum CheckError {
    /// 20: a name that isn't known where it stands.
    #[error("refused 20 at {}:{}", .0.line, .0.col)]
    UnknownName(Pos),
    /// 21: a name that its scope has already; the place of the second.
    #[error("refused 21 at {}:{}", .0.line, .0.col)]
    DoubledName(Pos),
    /// 22: an array without an index, an index on an int, a function as a variable, a variable that
    /// is called, the value of a void function, `return` with a value in a void function or without
    /// one in an int function.
    #[error("refused 22 at {}:{}", .0.line, .0.col)]
    WrongKind(Pos),
    /// 23: a call with too few or too many arguments.
    #[error("refused 23 at {}:{}", .0.line, .0.col)]
    WrongCount(Pos),
    /// 24: `break` or `continue` outside a loop.
    #[error("refused 24 at {}:{}", .0.line, .0.col)]
    OutsideLoop(Pos),
    /// 25: no `int main()` without parameters.
    #[error("refused 25")]
    NoMain,
    /// 26: a limit is passed, at the name of a global or of a function.
    #[error("refused 26 at {}:{}", .0.line, .0.col)]
    LimitPassed(Pos),
    /// 26: the tree is too high, or has a number that no source spells.
    #[error("refused 26")]
    TooLarge,
    /// 27: no memory.
    #[error("refused 27")]
    Memory,
}

impl CheckError {
    /// The number that the refusal is told by, from 20 to 27.
    pub fn number(self) -> u32
        ensures { result ≡ number_of self }
    {
        match self {
            CheckError::UnknownName(_) => 20,
            CheckError::DoubledName(_) => 21,
            CheckError::WrongKind(_) => 22,
            CheckError::WrongCount(_) => 23,
            CheckError::OutsideLoop(_) => 24,
            CheckError::NoMain => 25,
            CheckError::LimitPassed(_) => 26,
            CheckError::TooLarge => 26,
            CheckError::Memory => 27,
        }
    }

    /// The place of the fault, where it has one.
    pub fn pos(self) -> Option<Pos>
        ensures { result ≡ place_of self }
    {
        match self {
            CheckError::UnknownName(pos) => Some(pos),
            CheckError::DoubledName(pos) => Some(pos),
            CheckError::WrongKind(pos) => Some(pos),
            CheckError::WrongCount(pos) => Some(pos),
            CheckError::OutsideLoop(pos) => Some(pos),
            CheckError::NoMain => None,
            CheckError::LimitPassed(pos) => Some(pos),
            CheckError::TooLarge => None,
            CheckError::Memory => None,
        }
    }
}

impl From<AllocError> for CheckError {
    ghost from_gives = { λ _ e. e ≡ OutOfMemory };

    fn from(_error: AllocError) -> CheckError {
        CheckError::Memory
    }
}

impl<T: Drop> From<AllocFailed<T>> for CheckError {
    ghost from_gives = { λ _ e. e ≡ OutOfMemory };

    fn from(_error: AllocFailed<T>) -> CheckError {
        CheckError::Memory
    }
}
