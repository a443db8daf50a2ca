// Numbers that are explained, refusals that are told in more words, and globals.

use crate::whole::{PAST_THE_END, SUM, TWO_TURNS, done_by, expect, shows};
use hx_explain::{fault_texts, refusal_texts};
use hx_run::{PlainRan, compile, run_plain};
use hx_tree::outcome::End;
use std::alloc::Global;
use std::fs;
use std::test::Fail;

#[test]
fn explains_numbers(rt: HostRuntime) {
    let ten = done_by(&rt, &["hydra", "explain", "10"]);
    let wanted =
        b"The tokens spell no program. The place is the first token that can't stand there; what is missing belongs before it.\n\
wrong: int main(){ print(1) }\nright: int main(){ print(1); }\n";
    expect(&rt, &ten, wanted, b"", 0);
    let fault = done_by(&rt, &["hydra", "explain", "fault", "2"]);
    let wanted =
        b"An index is below 0, or not below the array's length. The place is the array's name.\n\
wrong: int a[4]; int main(){ a[4]=1; }\nright: int a[4]; int main(){ a[3]=1; }\n";
    expect(&rt, &fault, wanted, b"", 0);
    let none: [&[&str]; 6] = [
        &["hydra", "explain", "7"],
        &["hydra", "explain", "x"],
        &["hydra", "explain", "fault"],
        &["hydra", "explain", "fault", "5"],
        &["hydra", "explain", "fault", "x"],
        &["hydra", "explain", "10", "2"],
    ];
    for words in none {
        expect(
            &rt,
            &done_by(&rt, words),
            b"",
            b"hydra: no such number\n",
            2,
        );
    }
}

// The number that a source is refused by, or 0.
fn refused(alloc: Global, source: &str) -> u32 {
    match compile(alloc, source.as_bytes()) {
        Ok(_) => 0,
        Err(refusal) => refusal.number(),
    }
}

// The kind of fault that a source's run ends by, or 0.
fn faulted(alloc: Global, source: &str) -> u32 {
    match run_plain(alloc, source.as_bytes(), &[], 1_000_000_000) {
        Ok(PlainRan::Ended(finish)) => match finish.outcome.end {
            End::Fault(fault) => u32::from(fault.kind.number()),
            End::Normal(_) => 0,
        },
        _ => 99,
    }
}

#[test]
fn explains_by_sources_that_are_answered_so(rt: HostRuntime) {
    for number in [1, 2, 3, 4, 10, 20, 21, 22, 23, 24, 25, 26] {
        let Some(texts) = refusal_texts(number) else {
            assert!(&rt; false, "{number}");
            return;
        };
        assert_eq!(&rt; refused(rt.alloc(), texts.wrong), number);
        assert_eq!(&rt; refused(rt.alloc(), texts.right), 0);
    }
    for kind in 1..5 {
        let Some(texts) = fault_texts(kind) else {
            assert!(&rt; false, "{kind}");
            return;
        };
        assert_eq!(&rt; faulted(rt.alloc(), texts.wrong), kind);
        assert_eq!(&rt; faulted(rt.alloc(), texts.right), 0);
    }
}

#[test]
fn tells_more_of_refusals(rt: HostRuntime) -> Result<(), Fail> {
    let p = "hydra-test-more.hc";
    let source = b"int main(){ print(1) }";
    let told =
        b"hydra: refused 10 at 1:22\nint main(){ print(1) }\n                     ^\n'}' can't stand here; ';' can.\n";
    for command in ["run", "plain", "check"] {
        let words = ["hydra", command, p, "--explain"];
        shows(&rt, p, source, &words, b"", told, 2)?;
    }
    let words = ["hydra", "check", p, "--explain"];
    shows(&rt, p, TWO_TURNS, &words, b"ok\n", b"", 0)?;
    let told = b"hydra: refused 25\nThere is no function 'main'.\n";
    shows(&rt, p, b"", &words, b"", told, 2)?;
    let words = ["hydra", "run", p, "--explain", "--workers", "17"];
    let told = b"hydra: refused 60\n--workers 17 is out of range: it goes from 1 to 16.\n";
    shows(&rt, p, TWO_TURNS, &words, b"", told, 2)?;
    let words = ["hydra", "run", p, "--explain"];
    let told =
        b"hydra: fault 2 at 1:46\nint a[4]; int main(){ pfor(int i=0;i<8;i++){ a[i]=i+1; print(i);} }\n\
\x20                                            ^\nThe index isn't one of 'a', which go from 0 to 3.\n";
    shows(&rt, p, PAST_THE_END, &words, b"0\n1\n2\n3\n", told, 1)?;
    Ok(())
}

#[test]
fn tells_more_of_files(rt: HostRuntime) -> Result<(), Fail> {
    let p = "hydra-test-more-files.hc";
    let i = "hydra-test-more-files.in";
    let told = b"hydra: read failed\n'no-such-file' can't be opened.\n";
    for command in ["run", "plain", "check"] {
        let words = ["hydra", command, "no-such-file", "--explain"];
        expect(&rt, &done_by(&rt, &words), b"", told, 4);
    }
    let words = ["hydra", "run", ".", "--explain"];
    let told = b"hydra: read failed\nThe source opens, and can't be read. It may be a directory.\n";
    expect(&rt, &done_by(&rt, &words), b"", told, 4);
    let words = ["hydra", "run", p, "--explain", "--input", "."];
    let told = b"hydra: read failed\n'.' can't be read.\n";
    expect(&rt, &done_by(&rt, &words), b"", told, 4);
    let words = ["hydra", "run", p, "--explain", "--input", i];
    fs::write(&rt, i, b"5 07")?;
    let told = b"hydra: refused 65\n'07' is no number of the input.\n";
    expect(&rt, &done_by(&rt, &words), b"", told, 2);
    fs::write(&rt, i, b"1 2 3 4")?;
    let told = b"hydra: refused 61\nThe input has 4 numbers, and the array 'in' has room for 3.\n";
    shows(&rt, p, SUM, &words, b"", told, 2)?;
    fs::remove_file(&rt, i)?;
    Ok(())
}

#[test]
fn prints_globals(rt: HostRuntime) -> Result<(), Fail> {
    let p = "hydra-test-globals.hc";
    let source =
        b"int a[3]={1,-2}; int main(){ pfor(int i=0;i<3;i++) a[i]+=i; print(7); } int b=40;";
    let run = ["hydra", "run", p, "--globals"];
    shows(&rt, p, source, &run, b"7\na 1 -1 2\nb 40\n", b"", 0)?;
    let plain = ["hydra", "plain", p, "--globals", "--stats"];
    let wanted =
        b"7\nend normal 0\nregions 1\nturns 3\nrepeats 0\nviolations 0\nrestarts 0\nholds 0\nabandons 0\ndiscarded 0\nspared 0\na 1 -1 2\nb 40\n";
    shows(&rt, p, source, &plain, wanted, b"", 0)?;
    let fault = b"hydra: fault 2 at 1:46\n";
    let run = ["hydra", "run", p, "--globals"];
    shows(
        &rt,
        p,
        PAST_THE_END,
        &run,
        b"0\n1\n2\n3\na 1 2 3 4\n",
        fault,
        1,
    )?;
    Ok(())
}
