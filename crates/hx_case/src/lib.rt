//! Which case of its number a refusal or a fault is: the line of the source with a mark below its place, and a sentence.
//! `specs/Pointed.antt` says what is shown of the source.
#![tactic(auto)]

mod bytes;
mod case;
mod declared;
mod input;
mod limit;
mod line;
mod names;
mod say;
mod syntax;

pub use case::{case_of_fault, case_of_source};
pub use input::{case_of_input, case_of_input_text, case_of_settings};
