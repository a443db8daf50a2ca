//! The region of valid code, as the theorem on speculation knows one: it holds of any iteration that asks for one thing at a time.
//! Here stands the iteration of a code with when two of its states are the same, and the proof that the region that it makes goes as
//! the machine's own does, word by word.
#![tactic(auto)]

pub mod laws;
