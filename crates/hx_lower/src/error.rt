// Why a program isn't lowered.

ghost use Rattle.std.specs.Prelude.{◌≡◌};
ghost use Rattle.hx_lower.specs.declared.error.LowerError.TheVariants.{Memory as OutOfMemory};

use std::alloc::AllocError;
use thiserror::Error;

/// Why a program isn't lowered.
#[derive(Clone, Copy, PartialEq, Eq, Debug, Error)]
pub enum LowerError {
    /// 30: no memory for the words, or more words than 32 bits number.
    #[error("refused 30")]
    Memory,
}

impl From<AllocError> for LowerError {
    ghost from_gives = { λ _ e. e ≡ OutOfMemory };

    fn from(_error: AllocError) -> LowerError {
        LowerError::Memory
    }
}
