//! Read marks: what an iteration has read of words that it hadn't written, each with the value that it saw. A map of so many
//! words at most; `specs/Table.antt` says what such a map is.
#![tactic(auto)]

pub mod find;
pub mod laws;
pub mod marks;

pub use find::find_tag;
pub use marks::{Entry, Full, Marks};
