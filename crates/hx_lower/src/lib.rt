//! Lowering: the words of a checked program, and their listing.
#![tactic(auto)]

mod assignment;
mod draft;
mod error;
mod expression;
mod listings;
mod lowering;
mod program;
mod size;
mod statement;
mod target;

pub use error::LowerError;
pub use listings::listing;
pub use lowering::lower;
