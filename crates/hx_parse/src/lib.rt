//! The tree that the tokens of a source spell. The parser goes through the tokens from left to right, and never deeper than the
//! height limit; what it reads at each place is a definition of `hx_grammar`, where it is proved that this is the grammar's
//! tree, and the only one.
#![tactic(auto)]

mod error;
mod expressions;
mod items;
mod operators;
mod parser;
mod parsing;
mod statements;

pub use error::ParseError;
pub use parsing::parse;
