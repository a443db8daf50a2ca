//! What the words of a region are called: globals by their names, elements of arrays by name and place, and the locals that a region
//! carries by the names that they have in its function.
#![tactic(auto)]

pub mod laws;
mod locals;
mod loops;
mod names;

pub use loops::lines_of;
pub use names::names_of;
