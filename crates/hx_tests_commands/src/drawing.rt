// Timelines. The tables are drawn by hand from the events of the same schedules.

use crate::whole::{TWO_TURNS, done_by, shows};
use std::fs;
use std::process::Abort;
use std::rt::Files;
use std::sync::Wait;
use std::test::Fail;
use std::thread::Threads;

const VIOLATION: &[u8] = b"      worker 0                    worker 1\n\
1     iteration 0\n\
2     |                           iteration 1\n\
3     loads c: 0                  |\n\
4     |                           loads c: 0\n\
5     stores c: 1                 x\n\
6     |                           squashed\n\
7     |                           iteration 1, attempt 2\n\
8     gets the head               |\n\
9     commits                     |\n\
10                                loads c: 1\n\
11                                stores c: 2\n\
12                                gets the head\n\
13                                commits\n\
14    iteration 2\n\
15    loads c: 2\n\
16    gets the head\n\
17    commits, loop over\n";

const FORWARDED: &[u8] = b"      worker 0                    worker 1\n\
1     iteration 0\n\
2     loads c: 0\n\
3     stores c: 1\n\
4     |                           iteration 1\n\
5     |                           loads c: 1 < iteration 0\n";

const DROPPED: &[u8] = b"      worker 0                    worker 1\n\
1     iteration 0\n\
2     |                           iteration 1\n\
3     gets the head               |\n\
4     commits, prints 5           |\n\
5     commits, loop over          x\n\
6                                 loop over\n";

fn draws<R: Abort + Files + AllocGlobal + Threads + Wait + Sync>(
    rt: &R,
    path: &str,
    source: &[u8],
    schedule: &str,
    out: &[u8],
) -> Result<(), Fail> {
    let words = [
        "hydra",
        "timeline",
        path,
        schedule,
        "--workers",
        "2",
        "--text",
    ];
    shows(rt, path, source, &words, out, b"", 0)
}

#[test]
fn draws_tables(rt: HostRuntime) -> Result<(), Fail> {
    let p = "hydra-test-draws.hc";
    draws(&rt, p, TWO_TURNS, "01010110011110000", VIOLATION)?;
    draws(&rt, p, TWO_TURNS, "00011", FORWARDED)?;
    let source = b"int main(){ pwhile(1){ print(5); print(1/0); } }";
    draws(&rt, p, source, "010001", DROPPED)
}

// How often a part stands in a text.
fn count_of(text: &[u8], part: &[u8]) -> usize {
    let mut count = 0usize;
    for start in 0..text.len() {
        if text[start..].starts_with(part) {
            count = count.saturating_add(1);
        }
    }
    count
}

// Three boxes, an arrow for a word that is forwarded, and a line for a violation.
#[test]
fn draws_pictures(rt: HostRuntime) -> Result<(), Fail> {
    let p = "hydra-test-draws-pictures.hc";
    fs::write(&rt, p, TWO_TURNS)?;
    let words = ["hydra", "timeline", p, "01010111", "--workers", "2"];
    let found = done_by(&rt, &words);
    fs::remove_file(&rt, p)?;
    let svg = found.out.as_slice();
    assert_eq!(&rt; found.status, 0);
    assert_eq!(&rt; count_of(svg, b"<svg xmlns="), 1);
    assert_eq!(&rt; count_of(svg, b"<rect rx="), 3);
    assert_eq!(&rt; count_of(svg, b"marker-end="), 1);
    assert_eq!(&rt; count_of(svg, b"<path d=\"M0 0L9 4"), 1);
    assert_eq!(&rt; count_of(svg, b"z\"/>\n"), 1);
    assert_eq!(&rt; count_of(svg, b"</svg>\n"), 1);
    Ok(())
}
