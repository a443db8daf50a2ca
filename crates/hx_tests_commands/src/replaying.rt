// Schedules, replayed.

use crate::whole::{SUM, TWO_TURNS, done_by, expect, shows};
use hx_answer::{NoTrace, Schedule, Shown, replay_of};
use hx_run::Refusal;
use hx_tree::outcome::Settings;
use std::alloc::Global;
use std::fs;
use std::process::Abort;
use std::rt::Files;
use std::sync::Wait;
use std::test::Fail;
use std::thread::Threads;

const WHOLE: &str = "01010110011110000";

const LEFT: &[u8] =
    b"state left\nturns 2\nrepeats 1\nviolations 1\nrestarts 1\nholds 0\nabandons 0\ndiscarded 0\nspared 0\n";

const RUNNING: &[u8] =
    b"state running\nturns 0\nrepeats 0\nviolations 1\nrestarts 1\nholds 0\nabandons 0\ndiscarded 0\nspared 0\n";

const OPENED: &[u8] =
    b"state running\nturns 0\nrepeats 0\nviolations 0\nrestarts 0\nholds 0\nabandons 0\ndiscarded 0\nspared 0\n";

const NO_ENTRY: &[u8] = b"hydra: no such region entry\n";

const NO_WORKER: &[u8] = b"hydra: refused 40\n";

// What a replay on two workers writes, with other options behind.
fn replays<R: Abort + Files + AllocGlobal + Threads + Wait + Sync>(
    rt: &R,
    path: &str,
    schedule: &str,
    out: &[u8],
    err: &[u8],
    status: u8,
) -> Result<(), Fail> {
    let words = ["hydra", "replay", path, schedule, "--workers", "2"];
    shows(rt, path, TWO_TURNS, &words, out, err, status)
}

#[test]
fn replays_schedules(rt: HostRuntime) -> Result<(), Fail> {
    let p = "hydra-test-replays.hc";
    replays(&rt, p, WHOLE, LEFT, b"", 0)?;
    replays(&rt, p, "01010", RUNNING, b"", 0)?;
    replays(&rt, p, "", OPENED, b"", 0)?;
    replays(&rt, p, "012", b"", NO_WORKER, 2)?;
    replays(&rt, p, "01a", b"", NO_WORKER, 2)?;
    Ok(())
}

fn asked(digits: &[u8]) -> Schedule<'_> {
    Schedule {
        nth: 1,
        steps: 1,
        settings: Settings {
            workers: 2,
            marks: 512,
            buffer: 64,
        },
        digits,
        shown: Shown::Trace,
    }
}

// The first word of the store that a schedule leaves settled.
fn first_word(alloc: Global, digits: &[u8]) -> Option<i32> {
    let replayed = replay_of(alloc, TWO_TURNS, &[], &asked(digits)).ok()?;
    replayed.told.trace.store.as_slice().first().copied()
}

#[test]
fn settles_stores(rt: HostRuntime) {
    let all = WHOLE.as_bytes();
    assert_eq!(&rt; first_word(rt.alloc(), all), Some(2));
    assert_eq!(&rt; first_word(rt.alloc(), &all[..5]), Some(0));
    let refused = replay_of(rt.alloc(), TWO_TURNS, &[], &asked(b"012")).err();
    assert_eq!(&rt;
        refused.map(|why| matches!(why, NoTrace::Schedule(_))),
        Some(true)
    );
}

fn is_said(rt: &impl Abort, alloc: Global, why: NoTrace, text: &str) -> Result<(), Fail> {
    let said = format!(in alloc; "{why}")?;
    assert_eq!(rt; said.as_str(), text);
    Ok(())
}

#[test]
fn says_why_there_is_no_trace(rt: HostRuntime) -> Result<(), Fail> {
    let alloc = rt.alloc();
    is_said(&rt, alloc, NoTrace::NoEntry, "no such region entry")?;
    is_said(&rt, alloc, NoTrace::NotEnded, "not ended")?;
    let refused = NoTrace::Refused(Refusal::Settings);
    is_said(&rt, alloc, refused, "settings out of range")?;
    match replay_of(alloc, TWO_TURNS, &[], &asked(b"012")) {
        Ok(_) => assert!(&rt; false),
        Err(why) => is_said(&rt, alloc, why, "an entry of the schedule names no worker")?,
    }
    Ok(())
}

#[test]
fn replays_entries(rt: HostRuntime) -> Result<(), Fail> {
    let p = "hydra-test-entries.hc";
    let first = ["hydra", "replay", p, "", "--steps", "1"];
    shows(&rt, p, TWO_TURNS, &first, OPENED, b"", 0)?;
    let late = ["hydra", "replay", p, "", "--steps", "0"];
    let told = b"hydra: not ended after 0 steps\n";
    shows(&rt, p, TWO_TURNS, &late, b"", told, 2)?;
    let none = ["hydra", "replay", p, "9", "--entry", "0"];
    shows(&rt, p, TWO_TURNS, &none, b"", NO_ENTRY, 2)?;
    let second = ["hydra", "replay", p, "9", "--entry", "2"];
    shows(&rt, p, TWO_TURNS, &second, b"", NO_ENTRY, 2)?;
    Ok(())
}

#[test]
fn refuses_replays_in_order(rt: HostRuntime) -> Result<(), Fail> {
    let p = "hydra-test-replay-order.hc";
    let i = "hydra-test-replay-order.in";
    let words = [
        "hydra",
        "replay",
        p,
        "x",
        "--input",
        i,
        "--workers",
        "0",
        "--entry",
        "0",
    ];
    fs::write(&rt, i, b"07")?;
    expect(&rt, &done_by(&rt, &words), b"", b"hydra: refused 65\n", 2);
    fs::write(&rt, i, b"1 2 3 4")?;
    expect(&rt, &done_by(&rt, &words), b"", b"hydra: read failed\n", 4);
    shows(&rt, p, b"", &words, b"", b"hydra: refused 60\n", 2)?;
    let words = [
        "hydra",
        "replay",
        p,
        "x",
        "--input",
        i,
        "--workers",
        "8",
        "--entry",
        "0",
    ];
    shows(&rt, p, b"", &words, b"", b"hydra: refused 25\n", 2)?;
    shows(&rt, p, SUM, &words, b"", b"hydra: refused 61\n", 2)?;
    fs::write(&rt, i, b"1 2 3")?;
    shows(&rt, p, SUM, &words, b"", NO_ENTRY, 2)?;
    let words = ["hydra", "replay", p, "x", "--input", i];
    shows(&rt, p, SUM, &words, b"", NO_WORKER, 2)?;
    fs::remove_file(&rt, i)?;
    Ok(())
}

#[test]
fn prints_what_a_region_has_settled(rt: HostRuntime) -> Result<(), Fail> {
    let p = "hydra-test-settles.hc";
    let source = b"int main(){ pwhile(1) return 7; }";
    let words = ["hydra", "replay", p, "000", "--workers", "1"];
    let wanted =
        b"state returned 7\nturns 0\nrepeats 0\nviolations 0\nrestarts 0\nholds 0\nabandons 0\ndiscarded 0\nspared 0\n";
    shows(&rt, p, source, &words, wanted, b"", 0)?;
    let source = b"int main(){ pwhile(1){ print(5); emit(65); print(1/0); } }";
    let words = ["hydra", "replay", p, "00000", "--workers", "1"];
    let wanted =
        b"5\nAstate fault 1 at 1:51\nturns 0\nrepeats 0\nviolations 0\nrestarts 0\nholds 0\nabandons 0\ndiscarded 0\nspared 0\n";
    shows(&rt, p, source, &words, wanted, b"", 0)?;
    Ok(())
}

// Iteration 0 stores a word that iteration 2 has read of iteration 1.
#[test]
fn replays_a_covered_store(rt: HostRuntime) -> Result<(), Fail> {
    let p = "hydra-test-covered.hc";
    let source = b"int d; int main(){ pfor(int i=0;i<3;i++){ if(i<2) d=i+4; else print(d); } }";
    let words = ["hydra", "replay", p, "0121200011222000", "--workers", "3"];
    let spared =
        b"5\nstate left\nturns 3\nrepeats 0\nviolations 0\nrestarts 0\nholds 0\nabandons 0\ndiscarded 0\nspared 1\n";
    shows(&rt, p, source, &words, spared, b"", 0)
}

// What is replayed in docs/REPLAYING.md, beside the schedule with a violation.
#[test]
fn replays_lessons(rt: HostRuntime) -> Result<(), Fail> {
    let p = "hydra-test-lessons.hc";
    let forwarded =
        b"state left\nturns 2\nrepeats 0\nviolations 0\nrestarts 0\nholds 0\nabandons 0\ndiscarded 0\nspared 0\n";
    replays(&rt, p, "00011100110000", forwarded, b"", 0)?;
    let source = b"int d; int main(){ pfor(int i=0;i<2;i++){ if(i==0) d=0; else print(d); } }";
    let words = ["hydra", "replay", p, "0110100111000", "--workers", "2"];
    let spared =
        b"0\nstate left\nturns 2\nrepeats 0\nviolations 0\nrestarts 0\nholds 0\nabandons 0\ndiscarded 0\nspared 1\n";
    shows(&rt, p, source, &words, spared, b"", 0)?;
    let source = b"int a; int done; int main(){ pwhile(done<1){ a=5; done=1; } }";
    let words = [
        "hydra",
        "replay",
        p,
        "000011111000111011",
        "--workers",
        "2",
        "--buffer",
        "1",
    ];
    let held =
        b"state left\nturns 1\nrepeats 0\nviolations 1\nrestarts 1\nholds 2\nabandons 0\ndiscarded 0\nspared 0\n";
    shows(&rt, p, source, &words, held, b"", 0)
}
