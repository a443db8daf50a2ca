//! How words of one call are done: by the instructions of a code, up to one that stands for a call, a return or a turn, and
//! word by word where no instruction stands.
#![tactic(auto)]

pub mod listing;
pub mod run;
pub mod single;
pub mod stretch;
