//! The lexer: from the bytes of a source to its tokens, with their texts, spans and places.
//! `specs/Answer.antt` says what an answer means, over the tokens that hx_tree's `Lexis` defines;
//! `specs/Reading.antt` is the lexer as a function on lists.
#![tactic(auto)]

mod byte;
mod error;
mod lexer;
mod piece;
mod spelling;
mod token;

pub use byte::is_space;
pub use error::LexError;
pub use lexer::tokens;
pub use token::{Span, Token};
