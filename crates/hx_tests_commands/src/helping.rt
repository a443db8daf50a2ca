// Help, and what is told of wrong command lines.

use crate::whole::done_by;
use std::process::Abort;
use std::rt::Files;
use std::sync::Wait;
use std::thread::Threads;

fn holds(text: &[u8], part: &str) -> bool {
    (0..text.len()).any(|at| text[at..].starts_with(part.as_bytes()))
}

// That help goes to the output and has all of these.
fn helps<R: Abort + Files + AllocGlobal + Threads + Wait + Sync>(
    rt: &R,
    words: &[&str],
    parts: &[&str],
) {
    let found = done_by(rt, words);
    assert_eq!(rt; found.status, 0);
    assert!(rt; found.err.is_empty());
    for part in parts {
        assert!(rt; holds(found.out.as_slice(), part), "{part}");
    }
}

#[test]
fn tells_commands_and_options(rt: HostRuntime) {
    let commands = [
        "Usage: hydra <COMMAND>",
        "run ",
        "plain ",
        "replay ",
        "check ",
        "words ",
    ];
    helps(&rt, &["hydra", "--help"], &commands);
    let run = [
        "--input <FILE>",
        "--workers <N>",
        "--marks <N>",
        "--buffer <N>",
        "--stats",
    ];
    helps(&rt, &["hydra", "run", "--help"], &run);
    let plain = [
        "--input <FILE>",
        "--steps <N>",
        "--stats",
        "[default: 1000000000]",
    ];
    helps(&rt, &["hydra", "plain", "--help"], &plain);
    let replay = [
        "<SCHEDULE>",
        "--entry <N>",
        "--events",
        "--steps <N>",
        "--workers <N>",
        "[default: 1]",
    ];
    helps(&rt, &["hydra", "replay", "--help"], &replay);
    helps(&rt, &["hydra", "check", "--help"], &["<FILE>"]);
    helps(&rt, &["hydra", "words", "--help"], &["<FILE>"]);
}

// That a wrong command line is told so, with status 2.
fn complains<R: Abort + Files + AllocGlobal + Threads + Wait + Sync>(
    rt: &R,
    words: &[&str],
    part: &str,
) {
    let found = done_by(rt, words);
    assert_eq!(rt; found.status, 2);
    assert!(rt; found.out.is_empty());
    assert!(rt; holds(found.err.as_slice(), part), "{part}");
}

#[test]
fn tells_what_is_wrong(rt: HostRuntime) {
    complains(&rt, &["hydra", "run"], "Usage: hydra run");
    complains(&rt, &["hydra", "replay", "x"], "<SCHEDULE>");
    complains(&rt, &["hydra", "leap", "x"], "leap");
    complains(
        &rt,
        &["hydra", "run", "x", "--workers", "two"],
        "--workers <N>",
    );
    complains(&rt, &["hydra", "check", "x", "--steps", "1"], "--steps");
}
