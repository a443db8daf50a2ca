//! What the numbers of refusals and faults mean, each with a wrong source and a right one.
#![tactic(auto)]

mod fault;
mod refusal;
mod row;

pub use fault::fault_texts;
pub use refusal::refusal_texts;
pub use row::Explanation;
