//! The program `hydra`: a command line over files and streams.
#![tactic(auto)]

use hx_command::{command, tell_no_words};
use std::io;
use std::process::ExitCode;

// The words of the command line, the program's own name first.
fn words_of(rt: &HostRuntime) -> io::Result<Vec<String>> {
    Ok(std::env::args(rt)?.collect(rt.alloc())?)
}

fn main(rt: HostRuntime) -> ExitCode {
    let mut err = rt.stderr();
    let words = match words_of(&rt) {
        Ok(words) => words,
        Err(error) => return ExitCode::from(tell_no_words(&error, &mut err)),
    };
    let mut out = io::writer(&rt);
    ExitCode::from(command(&rt, words.as_slice(), &mut out, &mut err))
}
