//! How the tokens of a program are read from left to right, and that this finds the one tree that
//! the grammar gives them.
#![tactic(auto)]

pub mod laws;
