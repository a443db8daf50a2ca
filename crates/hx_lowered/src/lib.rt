//! The words of an accepted program are valid code: a theorem over the definitions of lowering,
//! as the contract of a function that does nothing.
#![tactic(auto)]

pub mod laws;
