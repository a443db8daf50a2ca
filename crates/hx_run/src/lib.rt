//! Whole runs: from the bytes of a source and an input to a finish or a refusal. Everything is put together from the public
//! contracts of the stages; `specs/Headline.antt` says what a finish promises.
#![tactic(auto)]

mod executing;
mod inputs;
mod passing;
mod reading;
mod refusal;
mod running;
mod showing;
mod source;

pub use executing::{Done, Mode, execute, execute_plain};
pub use hx_pool::{Call, Gate, Point, Unwatched};
pub use inputs::parse_input;
pub use reading::read_source;
pub use refusal::Refusal;
pub use running::{PlainRan, are_in_range, run, run_on, run_plain};
pub use showing::Tail;
pub use source::{compile, executable_of, parse_source};
