//! What a command line asks for, and what is done then, over files and streams. What is written is that of `hx_answer`.
#![tactic(auto)]

mod commands;
mod doing;
mod files;
mod request;

pub use doing::{command, tell_no_words};
pub use request::{Paths, Request, read_words};
