// What a command line asks for.

use crate::commands::hydra_command;
use clap::{ArgMatches, Error};
use hx_answer::{Asked, Schedule, Shown};
use hx_run::{Mode, Tail};
use hx_tree::outcome::Settings;
use std::alloc::Global;
use std::convert::AsStr;

/// A program and its input, as files, and whether more is told of what is refused of them.
#[derive(Clone, Copy, Debug)]
pub struct Paths<'a> {
    pub source: &'a str,
    pub input: Option<&'a str>,
    pub explains: bool,
}

/// What is asked for.
#[derive(Clone, Copy, Debug)]
pub enum Request<'a> {
    /// A run.
    Execute(Paths<'a>, Mode, Settings),
    /// A schedule of a region.
    Replay(Paths<'a>, Schedule<'a>),
    /// What holds the marked loops of a run of at most so many words back.
    Advise(Paths<'a>, u64),
    /// Whether a source is accepted.
    Check(Paths<'a>),
    /// What a number means; none where the words are no number.
    Explain(Option<Asked>),
    /// The listing of a source's words.
    Words(&'a str),
}

// What a command without these options hands on. Its loops run on one thread, so they change nothing.
const ONE_WORKER: Settings = Settings {
    workers: 1,
    marks: 1,
    buffer: 1,
};

fn paths_of<'a>(matches: &ArgMatches<'a>) -> Paths<'a> {
    Paths {
        source: source_of(matches),
        input: matches.get_str("input"),
        explains: matches.get_flag("explain"),
    }
}

// The paths of a command that takes no input.
fn paths_of_source<'a>(matches: &ArgMatches<'a>) -> Paths<'a> {
    Paths {
        source: source_of(matches),
        input: None,
        explains: matches.get_flag("explain"),
    }
}

// The paths of a command that explains nothing.
fn paths_of_replay<'a>(matches: &ArgMatches<'a>) -> Paths<'a> {
    Paths {
        source: source_of(matches),
        input: matches.get_str("input"),
        explains: false,
    }
}

fn tail_of(matches: &ArgMatches<'_>) -> Tail {
    Tail {
        stats: matches.get_flag("stats"),
        globals: matches.get_flag("globals"),
    }
}

// What is to be explained: a number, or `fault` and a number.
fn asked_of(matches: &ArgMatches<'_>) -> Option<Asked> {
    let first = matches.get_str("NUMBER")?;
    match matches.get_str("KIND") {
        None => Some(Asked::Refusal(first.parse::<u32>().ok()?)),
        Some(kind) if first == "fault" => Some(Asked::Fault(kind.parse::<u32>().ok()?)),
        Some(_) => None,
    }
}

// The number of an option. Each has a default, so there is one always.
fn small_number(matches: &ArgMatches<'_>, name: &str) -> u32 {
    matches.get_one::<u32>(name).unwrap_or(0)
}

fn number(matches: &ArgMatches<'_>, name: &str) -> u64 {
    matches.get_one::<u64>(name).unwrap_or(0)
}

fn settings_of(matches: &ArgMatches<'_>) -> Settings {
    Settings {
        workers: small_number(matches, "workers"),
        marks: small_number(matches, "marks"),
        buffer: small_number(matches, "buffer"),
    }
}

fn source_of<'a>(matches: &ArgMatches<'a>) -> &'a str {
    matches.get_str("FILE").unwrap_or("")
}

fn shown_of_replay(matches: &ArgMatches<'_>) -> Shown {
    if matches.get_flag("events") {
        Shown::Events
    } else {
        Shown::Trace
    }
}

fn shown_of_timeline(matches: &ArgMatches<'_>) -> Shown {
    if matches.get_flag("text") {
        Shown::Table
    } else {
        Shown::Picture
    }
}

fn schedule_of<'a>(matches: &ArgMatches<'a>, shown: Shown) -> Schedule<'a> {
    Schedule {
        nth: number(matches, "entry"),
        steps: number(matches, "steps"),
        settings: settings_of(matches),
        digits: matches.get_str("SCHEDULE").unwrap_or("").as_bytes(),
        shown,
    }
}

fn request_of<'a>(name: &str, inner: &ArgMatches<'a>) -> Option<Request<'a>> {
    if name == "run" {
        let mode = Mode::Run {
            tail: tail_of(inner),
        };
        Some(Request::Execute(paths_of(inner), mode, settings_of(inner)))
    } else if name == "plain" {
        let mode = Mode::Plain {
            steps: number(inner, "steps"),
            tail: tail_of(inner),
        };
        Some(Request::Execute(paths_of(inner), mode, ONE_WORKER))
    } else if name == "replay" {
        let asked = schedule_of(inner, shown_of_replay(inner));
        Some(Request::Replay(paths_of_replay(inner), asked))
    } else if name == "timeline" {
        let asked = schedule_of(inner, shown_of_timeline(inner));
        Some(Request::Replay(paths_of_replay(inner), asked))
    } else if name == "advise" {
        Some(Request::Advise(paths_of_replay(inner), number(inner, "steps")))
    } else if name == "check" {
        Some(Request::Check(paths_of_source(inner)))
    } else if name == "words" {
        Some(Request::Words(source_of(inner)))
    } else if name == "explain" {
        Some(Request::Explain(asked_of(inner)))
    } else {
        None
    }
}

/// Reads a command line, or tells what is wrong with it. `None` stands for a line that names no command.
pub fn read_words<'a, S: AsStr>(
    alloc: Global,
    words: &'a [S],
) -> Result<Option<Request<'a>>, Error> {
    let matches = hydra_command(alloc)?.try_get_matches_from(words)?;
    match matches.subcommand() {
        Some((name, inner)) => Ok(request_of(name, inner)),
        None => Ok(None),
    }
}
