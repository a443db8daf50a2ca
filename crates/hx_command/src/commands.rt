// The commands of the program, their options and their help.

use clap::{Arg, ArgAction, Command, value_parser};
use std::alloc::{AllocError, Global};

// What stands behind a command.
#[derive(Clone, Copy)]
enum Takes<'a> {
    // a word that has to be there
    Word,
    // a word that may be there
    OptionalWord,
    // the name of a file, behind the option's own
    File,
    // a number of 32 bits in the same way, and what it is where it isn't told
    Small(&'a str),
    // one of 64
    Large(&'a str),
    // nothing: the option is there or not
    Flag,
}

#[derive(Clone, Copy)]
struct Argument<'a> {
    name: &'a str,
    takes: Takes<'a>,
    help: &'a str,
}

// A command, what is said of it, and what it takes.
#[derive(Clone, Copy)]
struct Described<'a> {
    name: &'a str,
    about: &'a str,
    more: &'a str,
    arguments: &'a [Argument<'a>],
}

const FILE: Argument<'static> = Argument {
    name: "FILE",
    takes: Takes::Word,
    help: "The source of a program",
};

const INPUT: Argument<'static> = Argument {
    name: "input",
    takes: Takes::File,
    help: "Numbers for the global array 'in', with white space between them",
};

const WORKERS: Argument<'static> = Argument {
    name: "workers",
    takes: Takes::Small("4"),
    help: "How many workers run the turns of a marked loop, 1 to 16",
};

const MARKS: Argument<'static> = Argument {
    name: "marks",
    takes: Takes::Small("512"),
    help: "How many words a turn may have read before it waits for those ahead of it, 1 to 4096",
};

const BUFFER: Argument<'static> = Argument {
    name: "buffer",
    takes: Takes::Small("64"),
    help: "How many words a turn may have written before it waits for those ahead of it, 1 to 4096",
};

const STEPS: Argument<'static> = Argument {
    name: "steps",
    takes: Takes::Large("1000000000"),
    help: "How many words of the machine are run at the most",
};

const STATS: Argument<'static> = Argument {
    name: "stats",
    takes: Takes::Flag,
    help: "Print how the run ended and what was counted, behind what the program prints",
};

const GLOBALS: Argument<'static> = Argument {
    name: "globals",
    takes: Takes::Flag,
    help: "Print a line for each global as the run left it, behind all else",
};

const EXPLAIN: Argument<'static> = Argument {
    name: "explain",
    takes: Takes::Flag,
    help: "Behind a refusal or a fault show its line, and say what is wrong there",
};

const SCHEDULE: Argument<'static> = Argument {
    name: "SCHEDULE",
    takes: Takes::Word,
    help: "Whose turn it is, again and again: a digit for each step, from 0 for the first worker on, and a to f for those from 10 on",
};

const ENTRY: Argument<'static> = Argument {
    name: "entry",
    takes: Takes::Large("1"),
    help: "Which of the marked loops that the run enters is replayed, counted from 1",
};

const EVENTS: Argument<'static> = Argument {
    name: "events",
    takes: Takes::Flag,
    help: "Tell what each step came to, a line for each, ahead of all else",
};

const TEXT: Argument<'static> = Argument {
    name: "text",
    takes: Takes::Flag,
    help: "Print a table in place of the picture",
};

const NUMBER: Argument<'static> = Argument {
    name: "NUMBER",
    takes: Takes::Word,
    help: "The number of a refusal, or the word 'fault'",
};

const KIND: Argument<'static> = Argument {
    name: "KIND",
    takes: Takes::OptionalWord,
    help: "Behind 'fault', the number of the fault",
};

static COMMANDS: [Described<'static>; 8] = [
    Described {
        name: "run",
        about: "Runs a program, its marked loops on threads",
        more: "Workers and tables never change what a program prints, only what --stats counts of it.\n\
               Exit status: 0 for a normal end, 1 for a fault of the program, 2 for a refusal, 3 for want of memory, 4 for a file.",
        arguments: &[FILE, INPUT, WORKERS, MARKS, BUFFER, STATS, GLOBALS, EXPLAIN],
    },
    Described {
        name: "plain",
        about: "Runs a program on one thread, word by word, for at most so many words",
        more: "It prints what 'run' prints. A run that isn't over after its words prints nothing, and its exit status is 2.",
        arguments: &[FILE, INPUT, STEPS, STATS, GLOBALS, EXPLAIN],
    },
    Described {
        name: "replay",
        about: "Replays a marked loop by a schedule of your own, and prints what it has settled and counted",
        more: "The program runs plainly up to the loop. Then each digit of SCHEDULE lets one worker do its next step: begin an iteration, or run to its \
               next load, store, print or end of a turn, and do that.\n\
               The text that the loop has printed comes first, then its state, then the counts.\n\
               Try it: hydra replay count.hc 01010110011110000 --workers 2 --events",
        arguments: &[
            FILE, SCHEDULE, ENTRY, EVENTS, INPUT, WORKERS, MARKS, BUFFER, STEPS,
        ],
    },
    Described {
        name: "timeline",
        about: "Draws what 'replay' does, as an SVG picture on standard output",
        more: "Time goes down, a line for each digit of SCHEDULE. Each worker has a lane, and each attempt at an iteration a box in it.\n\
               Try it: hydra timeline count.hc 01010110011110000 --workers 2 > count.svg",
        arguments: &[
            FILE, SCHEDULE, ENTRY, TEXT, INPUT, WORKERS, MARKS, BUFFER, STEPS,
        ],
    },
    Described {
        name: "advise",
        about: "Runs a program on one thread, and says of each marked loop what holds it back",
        more: "Of each loop: how often it was opened, its turns, what a turn does, and whether its turns were independent in this run. Where \
               they weren't: the words that turns read which an earlier turn wrote, in how many turns, and how far back.\n\
               A run that isn't over after its words is told of as far as it came.",
        arguments: &[FILE, INPUT, STEPS],
    },
    Described {
        name: "check",
        about: "Says 'ok' where a program is accepted",
        more: "Otherwise the refusal is told with its number and mostly its place, line and column, as in 'hydra: refused 10 at 1:22'.",
        arguments: &[FILE, EXPLAIN],
    },
    Described {
        name: "words",
        about: "Lists the words that a program is compiled to",
        more: "A line for the globals, for each function and for each marked loop, and then the words, numbered from 0.",
        arguments: &[FILE],
    },
    Described {
        name: "explain",
        about: "Says what the number of a refusal or a fault means, with a wrong source and a right one",
        more: "Try it: hydra explain 10, and hydra explain fault 2",
        arguments: &[NUMBER, KIND],
    },
];

fn argument_of<'a>(alloc: Global, described: Argument<'a>) -> Arg<'a> {
    let Argument { name, takes, help } = described;
    let arg = Arg::new(alloc, name).help(help);
    match takes {
        Takes::Word => arg.required(true).action(ArgAction::Set),
        Takes::OptionalWord => arg.action(ArgAction::Set),
        Takes::File => arg.long(name).value_name("FILE").action(ArgAction::Set),
        Takes::Small(default) => option(arg, name, default).value_parser(value_parser!(u32)),
        Takes::Large(default) => option(arg, name, default).value_parser(value_parser!(u64)),
        Takes::Flag => arg.long(name).action(ArgAction::SetTrue),
    }
}

// An option with a number behind it.
fn option<'a>(arg: Arg<'a>, name: &'a str, default: &'a str) -> Arg<'a> {
    arg.long(name)
        .value_name("N")
        .action(ArgAction::Set)
        .default_value(default)
}

fn command_of<'a>(alloc: Global, described: Described<'a>) -> Result<Command<'a>, AllocError> {
    let mut command = Command::new(alloc, described.name)
        .about(described.about)
        .after_help(described.more);
    for taken in described.arguments {
        command = command.arg(argument_of(alloc, *taken))?;
    }
    Ok(command)
}

// The program's own, without its commands.
fn bare_command<'a>(alloc: Global) -> Result<Command<'a>, AllocError> {
    let hydra = Command::new(alloc, "hydra").bin_name("hydra")?;
    Ok(
        hydra
            .about(
                "Compiles and runs programs of a small integer C whose loops 'pfor' and 'pwhile' may run speculatively, and always answers what one thread would",
            )
            .after_help(
                "A first program, in a file count.hc:\n\
                 \n\
                 \x20   int c;\n\
                 \x20   int main() { pwhile (c < 3) { print(c); c = c + 1; } }\n\
                 \n\
                 'hydra run count.hc' prints 0, 1 and 2, and 'hydra run count.hc --stats' what was counted on the way as well.\n\
                 'hydra COMMAND --help' tells what a command takes.",
            )
            .subcommand_required(true)
            .arg_required_else_help(true),
    )
}

/// The program's command line.
pub(crate) fn hydra_command<'a>(alloc: Global) -> Result<Command<'a>, AllocError> {
    let mut hydra = bare_command(alloc)?;
    for described in &COMMANDS {
        hydra = hydra.subcommand(command_of(alloc, *described)?)?;
    }
    Ok(hydra)
}
