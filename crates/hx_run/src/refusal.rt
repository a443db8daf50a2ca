// Why a source isn't run.

ghost use Rattle.std.specs.Prelude.{◌≡◌};
ghost use Rattle.hx_run.specs.Refusals.{is_memory, is_of_device, number_of, pos_of, refusal_of_input, refusal_of_plain};
ghost use Rattle.hx_run.specs.Executions.{refusal_of_reading};
ghost use Rattle.hx_run.specs.declared.refusal.Refusal.TheVariants as refusal;

use hx_check::error::CheckError;
use hx_device::ReadError;
use hx_input::InputError;
use hx_lex::LexError;
use hx_lower::LowerError;
use hx_parse::ParseError;
use hx_pool::PoolError;
use hx_tree::token::Pos;
use hx_word::plain::PlainError;
use thiserror::Error;

/// Why a source isn't run, or an input text not read. Each cause has a number, and mostly a place.
#[derive(Clone, Copy, PartialEq, Eq, Debug, Error)]
pub enum Refusal {
    /// 1 to 6: the source has no tokens.
    #[error(transparent)]
    Lex(LexError),
    /// 10 to 12: its tokens spell no program.
    #[error(transparent)]
    Parse(ParseError),
    /// 20 to 27: the program isn't accepted.
    #[error(transparent)]
    Check(CheckError),
    /// 30: no memory for its code.
    #[error(transparent)]
    Lower(LowerError),
    /// 50: no memory for a marked loop's board, or for the loop on one thread in its place.
    #[error("no memory for a marked loop")]
    Pool,
    /// 60: the settings are out of range.
    #[error("settings out of range")]
    Settings,
    /// 61: the input doesn't fit the program.
    #[error("input that does not fit")]
    InputTooLong,
    /// 62: no memory for the run.
    #[error("out of memory")]
    Memory,
    /// 63: a read of the source failed.
    #[error("read failed")]
    ReadFailed,
    /// 64: a write failed.
    #[error("write failed")]
    WriteFailed,
    /// 65: an input text that spells no list of numbers.
    #[error("no input text")]
    InputText,
}

impl Refusal {
    /// The number of the cause.
    pub fn number(&self) -> u32
        ensures { result ≡ number_of self.now }
    {
        match self {
            Refusal::Lex(e) => e.number(),
            Refusal::Parse(e) => e.number(),
            Refusal::Check(e) => e.number(),
            Refusal::Lower(LowerError::Memory) => 30,
            Refusal::Pool => 50,
            Refusal::Settings => 60,
            Refusal::InputTooLong => 61,
            Refusal::Memory => 62,
            Refusal::ReadFailed => 63,
            Refusal::WriteFailed => 64,
            Refusal::InputText => 65,
        }
    }

    /// The place in the source, where the cause has one.
    pub fn pos(&self) -> Option<Pos>
        ensures { result ≡ pos_of self.now }
    {
        match self {
            Refusal::Lex(e) => e.pos(),
            Refusal::Parse(e) => e.pos(),
            Refusal::Check(e) => e.pos(),
            _ => None,
        }
    }

    /// Whether a device failed: 63 or 64.
    pub fn is_of_device(&self) -> bool
        ensures { result ≡ is_of_device self.now }
    {
        matches!(self, Refusal::ReadFailed | Refusal::WriteFailed)
    }

    /// Whether memory was refused: 6, 12, 27, 30, 50 or 62.
    pub fn is_memory(&self) -> bool
        ensures { result ≡ is_memory self.now }
    {
        matches!(
            self,
            Refusal::Lex(LexError::Memory)
                | Refusal::Parse(ParseError::Memory)
                | Refusal::Check(CheckError::Memory)
                | Refusal::Lower(LowerError::Memory)
                | Refusal::Pool
                | Refusal::Memory
        )
    }
}

impl From<LexError> for Refusal {
    ghost from_gives = { λ e r. r ≡ refusal.Lex e };

    fn from(e: LexError) -> Refusal {
        Refusal::Lex(e)
    }
}

impl From<ParseError> for Refusal {
    ghost from_gives = { λ e r. r ≡ refusal.Parse e };

    fn from(e: ParseError) -> Refusal {
        Refusal::Parse(e)
    }
}

impl From<CheckError> for Refusal {
    ghost from_gives = { λ e r. r ≡ refusal.Check e };

    fn from(e: CheckError) -> Refusal {
        Refusal::Check(e)
    }
}

impl From<LowerError> for Refusal {
    ghost from_gives = { λ e r. r ≡ refusal.Lower e };

    fn from(e: LowerError) -> Refusal {
        Refusal::Lower(e)
    }
}

impl From<PoolError> for Refusal {
    ghost from_gives = { λ e r. r ≡ refusal.Pool };

    fn from(e: PoolError) -> Refusal {
        match e {
            PoolError::Memory(_) => Refusal::Pool,
        }
    }
}

impl From<PlainError> for Refusal {
    ghost from_gives = { λ e r. r ≡ refusal_of_plain e };

    fn from(e: PlainError) -> Refusal {
        match e {
            PlainError::InputUnfit => Refusal::InputTooLong,
            PlainError::OutOfMemory => Refusal::Memory,
        }
    }
}

impl From<InputError> for Refusal {
    ghost from_gives = { λ e r. r ≡ refusal_of_input e };

    fn from(e: InputError) -> Refusal {
        match e {
            InputError::BadText => Refusal::InputText,
            InputError::Memory => Refusal::Memory,
        }
    }
}

impl From<ReadError> for Refusal {
    ghost from_gives = { λ e r. r ≡ refusal_of_reading e };

    fn from(e: ReadError) -> Refusal {
        match e {
            ReadError::Failed => Refusal::ReadFailed,
            ReadError::Memory => Refusal::Memory,
        }
    }
}
