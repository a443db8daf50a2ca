// Files, inputs and outputs at the edges of what is served.

use crate::whole::{SUM, TWO_TURNS, done_by, expect, shows};
use hx_command::{Request, command, read_words};
use hx_run::Mode;
use hx_tree::outcome::Settings;
use std::alloc::Global;
use std::io::Write;
use std::process::Abort;
use std::rt::Files;
use std::sync::Wait;
use std::test::Fail;
use std::thread::Threads;
use std::{fs, io};

const READ_FAILED: &[u8] = b"hydra: read failed\n";

#[test]
fn tells_of_files_that_give_nothing(rt: HostRuntime) {
    for command in ["run", "plain", "check", "words"] {
        let absent = done_by(&rt, &["hydra", command, "no-such-file"]);
        expect(&rt, &absent, b"", READ_FAILED, 4);
        let directory = done_by(&rt, &["hydra", command, "."]);
        expect(&rt, &directory, b"", READ_FAILED, 4);
    }
}

// So many blanks, and a text behind them.
fn behind_blanks<R: AllocGlobal>(rt: &R, blanks: usize, text: &[u8]) -> Result<Vec<u8>, Fail> {
    let mut all = vec![in rt.alloc(); b' '; blanks]?;
    all.extend_from_slice(text)?;
    Ok(all)
}

// The last byte that is read of a source is the first that is too much.
#[test]
fn reads_sources_to_their_limit(rt: HostRuntime) -> Result<(), Fail> {
    let p = "hydra-test-long.hc";
    let words = ["hydra", "check", p];
    let full = behind_blanks(&rt, 65536 - 12, b"int main(){}")?;
    shows(&rt, p, full.as_slice(), &words, b"ok\n", b"", 0)?;
    let mut over = full;
    over.push(b'$')?;
    shows(
        &rt,
        p,
        over.as_slice(),
        &words,
        b"",
        b"hydra: refused 5\n",
        2,
    )
}

#[test]
fn reads_inputs_to_their_limit(rt: HostRuntime) -> Result<(), Fail> {
    let p = "hydra-test-long-input.hc";
    let i = "hydra-test-long-input.in";
    let words = ["hydra", "run", p, "--input", i];
    let full = behind_blanks(&rt, 1048576 - 1, b"7")?;
    fs::write(&rt, i, full.as_slice())?;
    shows(&rt, p, SUM, &words, b"7\n", b"", 0)?;
    let mut over = full;
    over.push(b'x')?;
    fs::write(&rt, i, over.as_slice())?;
    shows(&rt, p, SUM, &words, b"", b"hydra: refused 65\n", 2)?;
    fs::remove_file(&rt, i)?;
    Ok(())
}

#[test]
fn reads_the_input_before_the_source(rt: HostRuntime) -> Result<(), Fail> {
    let i = "hydra-test-first.in";
    fs::write(&rt, i, b"07")?;
    for command in ["run", "plain"] {
        let words = ["hydra", command, "no-such-file", "--input", i];
        expect(&rt, &done_by(&rt, &words), b"", b"hydra: refused 65\n", 2);
    }
    fs::remove_file(&rt, i)?;
    Ok(())
}

#[test]
fn gives_plain_runs_their_input(rt: HostRuntime) -> Result<(), Fail> {
    let p = "hydra-test-plain-input.hc";
    let i = "hydra-test-plain-input.in";
    fs::write(&rt, i, b"5 -7 1")?;
    let words = ["hydra", "plain", p, "--input", i];
    shows(&rt, p, SUM, &words, b"-1\n", b"", 0)?;
    fs::remove_file(&rt, i)?;
    Ok(())
}

#[test]
fn serves_settings_up_to_their_limits(rt: HostRuntime) -> Result<(), Fail> {
    let p = "hydra-test-limits.hc";
    let served = [
        ("--workers", "16"),
        ("--marks", "4096"),
        ("--buffer", "4096"),
    ];
    for (option, value) in served {
        let words = ["hydra", "run", p, option, value];
        shows(&rt, p, TWO_TURNS, &words, b"", b"", 0)?;
    }
    let refused = [
        ("--workers", "17"),
        ("--workers", "0"),
        ("--marks", "4097"),
        ("--marks", "0"),
        ("--buffer", "4097"),
        ("--buffer", "0"),
    ];
    for (option, value) in refused {
        let words = ["hydra", "run", p, option, value];
        shows(&rt, p, TWO_TURNS, &words, b"", b"hydra: refused 60\n", 2)?;
    }
    Ok(())
}

// How many words a command runs at most.
fn steps_of(alloc: Global, words: &[&str]) -> Option<u64> {
    match read_words(alloc, words) {
        Ok(Some(Request::Execute(_, Mode::Plain { steps, .. }, _))) => Some(steps),
        Ok(Some(Request::Replay(_, asked))) => Some(asked.steps),
        _ => None,
    }
}

// Which settings a command has.
fn settings_of(alloc: Global, words: &[&str]) -> Option<Settings> {
    match read_words(alloc, words) {
        Ok(Some(Request::Execute(_, _, settings))) => Some(settings),
        _ => None,
    }
}

#[test]
fn has_its_defaults(rt: HostRuntime) {
    let plain = steps_of(rt.alloc(), &["hydra", "plain", "x"]);
    assert_eq!(&rt; plain, Some(1_000_000_000));
    let replay = steps_of(rt.alloc(), &["hydra", "replay", "x", "0"]);
    assert_eq!(&rt; replay, Some(1_000_000_000));
    let wanted = Settings {
        workers: 4,
        marks: 512,
        buffer: 64,
    };
    assert!(&rt; settings_of(rt.alloc(), &["hydra", "run", "x"]) == Some(wanted));
}

// An output that takes so many bytes at once, and may fail as it is flushed.
#[derive(Drop)]
struct Slow {
    taken: Vec<u8>,
    at_once: usize,
    flushes: bool,
}

impl Write for Slow {
    fn write(&mut self, bytes: &[u8]) -> io::Result<usize> {
        let count = bytes.len().min(self.at_once);
        match self.taken.extend_from_slice(&bytes[..count]) {
            Ok(()) => Ok(count),
            Err(_) => Err(io::Error::from(io::ErrorKind::OutOfMemory)),
        }
    }

    fn flush(&mut self) -> io::Result<()> {
        if self.flushes {
            Ok(())
        } else {
            Err(io::Error::from(io::ErrorKind::BrokenPipe))
        }
    }
}

// What such an output has taken of a command, what was told, and the status.
fn slowly<R: Abort + Files + AllocGlobal + Threads + Wait + Sync>(
    rt: &R,
    words: &[&str],
    at_once: usize,
    flushes: bool,
) -> (Vec<u8>, Vec<u8>, u8) {
    let mut out = Slow {
        taken: Vec::new(rt.alloc()),
        at_once,
        flushes,
    };
    let mut err = Vec::new(rt.alloc());
    let status = command(rt, words, &mut out, &mut err);
    (out.taken, err, status)
}

// That a command writes this to an output that takes one byte at a time, and tells of one that fails as it is flushed.
fn writes_in_the_end<R: Abort + Files + AllocGlobal + Threads + Wait + Sync>(
    rt: &R,
    words: &[&str],
    wanted: &[u8],
) {
    let (out, err, status) = slowly(rt, words, 1, true);
    assert_eq!(rt; out.as_slice(), wanted);
    assert!(rt; err.is_empty() && status == 0);
    let (_, err, status) = slowly(rt, words, 100, false);
    assert_eq!(rt; err.as_slice(), b"hydra: write failed\n".as_slice());
    assert_eq!(rt; status, 4);
}

#[test]
fn writes_whatever_an_output_takes_at_once(rt: HostRuntime) -> Result<(), Fail> {
    let p = "hydra-test-slow.hc";
    fs::write(&rt, p, b"int main(){ print(12345); }")?;
    writes_in_the_end(&rt, &["hydra", "run", p], b"12345\n");
    writes_in_the_end(&rt, &["hydra", "plain", p], b"12345\n");
    writes_in_the_end(&rt, &["hydra", "check", p], b"ok\n");
    let words = b"globals 0\nfunc main 0 0 0\n0 const 12345\n1 print 1 13\n2 const 0\n3 ret\n";
    writes_in_the_end(&rt, &["hydra", "words", p], words);
    let explained =
        b"'break' or 'continue' stands outside a loop.\nwrong: int main(){ break; }\nright: int main(){ while(1) break; }\n";
    writes_in_the_end(&rt, &["hydra", "explain", "24"], explained);
    fs::remove_file(&rt, p)?;
    Ok(())
}

#[test]
fn writes_help_to_an_output_that_takes_one_byte(rt: HostRuntime) {
    let whole = done_by(&rt, &["hydra", "--help"]);
    let (out, _, status) = slowly(&rt, &["hydra", "--help"], 1, true);
    assert!(&rt; out.as_slice() == whole.out.as_slice() && status == 0);
}

#[test]
fn tells_of_help_that_is_not_taken(rt: HostRuntime) {
    for (at_once, flushes) in [(0, true), (100, false)] {
        let (_, err, status) = slowly(&rt, &["hydra", "--help"], at_once, flushes);
        assert_eq!(&rt; err.as_slice(), b"hydra: write failed\n".as_slice());
        assert_eq!(&rt; status, 4);
    }
}
