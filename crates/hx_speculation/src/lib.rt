//! Why speculation gives the answer of one thread: what a board does with the iterations of a region, by definition, and the proof
//! that whatever it shows is a state of the plain region. The proofs hold of every iteration that asks for one thing at a time.
#![tactic(auto)]

pub mod laws;
