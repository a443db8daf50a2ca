// Whole commands, on files that each test writes for itself.

use hx_command::command;
use std::io::Write;
use std::process::Abort;
use std::rt::Files;
use std::sync::Wait;
use std::test::Fail;
use std::thread::Threads;
use std::{fs, io};

// What a command wrote, and its status.
#[derive(Drop)]
pub(crate) struct Shown {
    pub out: Vec<u8>,
    pub err: Vec<u8>,
    pub status: u8,
}

pub(crate) fn done_by<R: Files + AllocGlobal + Threads + Wait + Sync>(
    rt: &R,
    words: &[&str],
) -> Shown {
    let mut out = Vec::new(rt.alloc());
    let mut err = Vec::new(rt.alloc());
    let status = command(rt, words, &mut out, &mut err);
    Shown { out, err, status }
}

// A command on a file that has this source for as long as the command runs.
fn on_source<R: Files + AllocGlobal + Threads + Wait + Sync>(
    rt: &R,
    path: &str,
    source: &[u8],
    words: &[&str],
) -> Result<Shown, Fail> {
    fs::write(rt, path, source)?;
    let found = done_by(rt, words);
    fs::remove_file(rt, path)?;
    Ok(found)
}

pub(crate) fn expect(rt: &impl Abort, found: &Shown, out: &[u8], err: &[u8], status: u8) {
    assert_eq!(rt; found.out.as_slice(), out);
    assert_eq!(rt; found.err.as_slice(), err);
    assert_eq!(rt; found.status, status);
}

// That a command on a file of this source writes this and ends with this status.
pub(crate) fn shows<R: Abort + Files + AllocGlobal + Threads + Wait + Sync>(
    rt: &R,
    path: &str,
    source: &[u8],
    words: &[&str],
    out: &[u8],
    err: &[u8],
    status: u8,
) -> Result<(), Fail> {
    let found = on_source(rt, path, source, words)?;
    expect(rt, &found, out, err, status);
    Ok(())
}

const COUNT: &[u8] = b"int c; int main(){ pwhile(c<3){ print(c); c=c+1; } }";

pub(crate) const TWO_TURNS: &[u8] = b"int c; int main(){ pwhile(c<2){ c=c+1; } }";

pub(crate) const PAST_THE_END: &[u8] =
    b"int a[4]; int main(){ pfor(int i=0;i<8;i++){ a[i]=i+1; print(i);} }";

pub(crate) const SUM: &[u8] =
    b"int in[3]; int n_in; int main(){ int s=0; pfor(int i=0;i<n_in;i++) s+=in[i]; print(s); return s; }";

#[test]
fn runs_programs(rt: HostRuntime) -> Result<(), Fail> {
    let p = "hydra-test-runs.hc";
    shows(
        &rt,
        p,
        COUNT,
        &["hydra", "run", p, "--workers", "2"],
        b"0\n1\n2\n",
        b"",
        0,
    )?;
    shows(&rt, p, COUNT, &["hydra", "plain", p], b"0\n1\n2\n", b"", 0)?;
    shows(
        &rt,
        p,
        PAST_THE_END,
        &["hydra", "run", p],
        b"0\n1\n2\n3\n",
        b"hydra: fault 2 at 1:46\n",
        1,
    )?;
    Ok(())
}

#[test]
fn refuses_sources(rt: HostRuntime) -> Result<(), Fail> {
    let p = "hydra-test-refuses.hc";
    shows(
        &rt,
        p,
        b"int main(){ print(1) }",
        &["hydra", "run", p],
        b"",
        b"hydra: refused 10 at 1:22\n",
        2,
    )?;
    shows(
        &rt,
        p,
        b"int main(){ break; }",
        &["hydra", "check", p],
        b"",
        b"hydra: refused 24 at 1:13\n",
        2,
    )?;
    shows(
        &rt,
        p,
        b"",
        &["hydra", "words", p],
        b"",
        b"hydra: refused 25\n",
        2,
    )?;
    shows(
        &rt,
        p,
        COUNT,
        &["hydra", "run", p, "--workers", "0"],
        b"",
        b"hydra: refused 60\n",
        2,
    )?;
    shows(&rt, p, COUNT, &["hydra", "check", p], b"ok\n", b"", 0)?;
    Ok(())
}

#[test]
fn counts_steps(rt: HostRuntime) -> Result<(), Fail> {
    let p = "hydra-test-steps.hc";
    shows(
        &rt,
        p,
        b"int main(){}",
        &["hydra", "plain", p, "--steps", "1"],
        b"",
        b"hydra: not ended after 1 steps\n",
        2,
    )?;
    shows(
        &rt,
        p,
        b"int main(){}",
        &["hydra", "plain", p, "--steps", "2"],
        b"",
        b"",
        0,
    )?;
    shows(
        &rt,
        p,
        TWO_TURNS,
        &["hydra", "plain", p, "--steps", "25"],
        b"",
        b"hydra: not ended after 25 steps\n",
        2,
    )?;
    shows(
        &rt,
        p,
        TWO_TURNS,
        &["hydra", "plain", p, "--steps", "26"],
        b"",
        b"",
        0,
    )?;
    Ok(())
}

#[test]
fn reads_input(rt: HostRuntime) -> Result<(), Fail> {
    let p = "hydra-test-input.hc";
    let i = "hydra-test-input.in";
    let words = ["hydra", "run", p, "--input", i];
    fs::write(&rt, i, b"5 -7")?;
    shows(&rt, p, SUM, &words, b"-2\n", b"", 0)?;
    fs::write(&rt, i, b"1 2 3 4")?;
    shows(&rt, p, SUM, &words, b"", b"hydra: refused 61\n", 2)?;
    fs::write(&rt, i, b"07")?;
    shows(&rt, p, SUM, &words, b"", b"hydra: refused 65\n", 2)?;
    fs::remove_file(&rt, i)?;
    shows(&rt, p, SUM, &words, b"", b"hydra: read failed\n", 4)?;
    Ok(())
}

#[test]
fn lists_words(rt: HostRuntime) -> Result<(), Fail> {
    let p = "hydra-test-words.hc";
    shows(
        &rt,
        p,
        b"int main(){}",
        &["hydra", "words", p],
        b"globals 0\nfunc main 0 0 0\n0 const 0\n1 ret\n",
        b"",
        0,
    )?;
    let wanted = b"globals 1\nfunc main 0 0 0\nregion 1 20 carried copied\n\
0 enter 0 11\n1 glob 0\n2 const 2\n3 lt\n4 jfalse 10\n5 glob 0\n6 const 1\n7 add\n8 setglob 0\n9 turn\n10 leave\n\
11 glob 0\n12 const 2\n13 lt\n14 jfalse 20\n15 glob 0\n16 const 1\n17 add\n18 setglob 0\n19 jump 11\n20 const 0\n21 ret\n";
    shows(&rt, p, TWO_TURNS, &["hydra", "words", p], wanted, b"", 0)?;
    Ok(())
}

#[test]
fn reads_command_lines(rt: HostRuntime) {
    let help = done_by(&rt, &["hydra", "--help"]);
    assert_eq!(&rt; help.status, 0);
    assert!(&rt; help.out.len() > 0 && help.err.is_empty());
    let help = done_by(&rt, &["hydra", "run", "--help"]);
    assert_eq!(&rt; help.status, 0);
    let absent = done_by(&rt, &["hydra", "run", "no-such-file", "--workers", "0"]);
    expect(&rt, &absent, b"", b"hydra: read failed\n", 4);
}

#[test]
fn refuses_command_lines(rt: HostRuntime) {
    let wrong: [&[&str]; 15] = [
        &["hydra"],
        &["hydra", "run"],
        &["hydra", "leap", "x"],
        &["hydra", "replay", "x"],
        &["hydra", "run", "x", "--workers", "two"],
        &["hydra", "run", "x", "--workers", "4294967296"],
        &["hydra", "replay", "x", "0", "--entry", "first"],
        &["hydra", "plain", "x", "--steps", "18446744073709551616"],
        &["hydra", "run", "x", "--steps", "1"],
        &["hydra", "plain", "x", "--workers", "1"],
        &["hydra", "run", "x", "--entry", "1"],
        &["hydra", "replay", "x", "0", "--stats"],
        &["hydra", "run", "x", "--events"],
        &["hydra", "check", "x", "--steps", "1"],
        &["hydra", "words", "x", "--input", "y"],
    ];
    for words in wrong {
        let found = done_by(&rt, words);
        assert_eq!(&rt; found.status, 2);
        assert!(&rt; found.out.is_empty() && found.err.len() > 0);
    }
}

// An output that takes nothing.
#[derive(Drop)]
struct Closed;

impl Write for Closed {
    fn write(&mut self, _bytes: &[u8]) -> io::Result<usize> {
        Err(io::Error::from(io::ErrorKind::BrokenPipe))
    }

    fn flush(&mut self) -> io::Result<()> {
        Ok(())
    }
}

#[test]
fn tells_of_a_closed_output(rt: HostRuntime) -> Result<(), Fail> {
    let p = "hydra-test-closed.hc";
    fs::write(&rt, p, COUNT)?;
    let mut err = Vec::new(rt.alloc());
    let status = command(&rt, &["hydra", "run", p], &mut Closed, &mut err);
    fs::remove_file(&rt, p)?;
    assert_eq!(&rt; status, 4);
    assert_eq!(&rt; err.as_slice(), b"hydra: write failed\n".as_slice());
    Ok(())
}
