//! The report of a finish: how the run ended, and its counts, each on a line of its own. `specs/Report.antt` says which text
//! that is; `report` writes it, and `put_counts` and `put_fault` write the parts that a trace has as well. `put_globals` writes
//! the final globals, by `specs/Globals.antt`.
#![tactic(auto)]

mod globals;
mod text;

pub use globals::put_globals;
pub use text::{put_counts, put_fault, report};
