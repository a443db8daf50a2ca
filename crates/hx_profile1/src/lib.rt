//! Profile 1 of the language, from before `?:` and `do`: its tree and its definitions, and the program of today that a program of it
//! is. `specs/Promises.antt` says what that program keeps.
#![tactic(auto)]

mod lift;
pub mod p1;

pub use lift::from_profile1;
