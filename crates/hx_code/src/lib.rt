//! The words of the machine, the tables beside them, and when both are valid code: every reader of the
//! machine, plain or speculative, stands on it.
#![tactic(auto)]

pub mod code;
pub mod counter;
mod same;
pub mod table;
pub mod validate;
pub mod word;
