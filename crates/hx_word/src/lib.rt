//! The plain machine: valid code, word after word, over one store, the iterations of its regions one
//! after another.
#![tactic(auto)]

pub mod entry;
mod iterations;
pub mod laws;
mod loops;
pub mod opened;
mod opening;
mod passing;
pub mod plain;
pub mod region_run;
pub mod room;
mod seen;
mod state;
pub mod text;

pub use entry::{Entry, RegionEnd};
pub use hx_code::table::{Carried, Func, Region, Spot, Tables};
pub use hx_code::validate::validate;
pub use hx_code::word::{Array, Ask, Exit, Next, Output, Word};
pub use hx_exec::Stretched;
pub use hx_exec::executable::Executable;
pub use hx_exec::local::Local;
pub use plain::{Open, Paused, Plain, PlainError, Ran, Reached};
pub use region_run::RegionRun;
