//! The words of a program: their definition by the parts of a resolved program, and the proof that
//! they do what the program means. The function that makes them stands in a crate above.
#![tactic(auto)]

pub mod laws;
pub mod line;
