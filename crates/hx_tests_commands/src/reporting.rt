// Reports of runs, and the lines of devices and of want of memory.

use crate::whole::{PAST_THE_END, shows};
use hx_answer::tell_refusal;
use hx_run::Refusal;
use std::alloc::Global;
use std::process::Abort;
use std::test::Fail;

// The second turn divides by what the first one has stored.
const DIVIDES: &[u8] =
    b"int d; int main(){ pfor(int i=0;i<2;i++){ if(i==0) d=2; else print(10/d); } }";

const REPORT: &[u8] =
    b"5\nend normal 0\nregions 1\nturns 2\nrepeats 0\nviolations 0\nrestarts 0\nholds 0\nabandons 0\ndiscarded 0\nspared 0\n";

const FAULT_REPORT: &[u8] =
    b"0\n1\n2\n3\nend fault 2 at 1:46\nregions 1\nturns 4\nrepeats 0\nviolations 0\nrestarts 0\nholds 0\nabandons 0\ndiscarded 0\nspared 0\n";

#[test]
fn reports_runs(rt: HostRuntime) -> Result<(), Fail> {
    let p = "hydra-test-reports.hc";
    let run = ["hydra", "run", p, "--stats", "--workers", "1"];
    shows(&rt, p, DIVIDES, &run, REPORT, b"", 0)?;
    let plain = ["hydra", "plain", p, "--stats"];
    shows(&rt, p, DIVIDES, &plain, REPORT, b"", 0)?;
    let fault = b"hydra: fault 2 at 1:46\n";
    shows(&rt, p, PAST_THE_END, &plain, FAULT_REPORT, fault, 1)?;
    Ok(())
}

#[test]
fn reports_nothing_of_a_run_that_is_not_over(rt: HostRuntime) -> Result<(), Fail> {
    let p = "hydra-test-reports-none.hc";
    let words = ["hydra", "plain", p, "--stats", "--steps", "1"];
    let told = b"hydra: not ended after 1 steps\n";
    shows(&rt, p, DIVIDES, &words, b"", told, 2)
}

fn is_told(rt: &impl Abort, alloc: Global, refusal: Refusal, line: &[u8], status: u8) {
    let mut err = Vec::new(alloc);
    let answer = tell_refusal(&mut err, &refusal);
    assert_eq!(rt; err.as_slice(), line);
    assert_eq!(rt; answer.code(), status);
}

#[test]
fn tells_of_memory_and_devices(rt: HostRuntime) {
    let alloc = rt.alloc();
    is_told(&rt, alloc, Refusal::Memory, b"hydra: memory\n", 3);
    is_told(&rt, alloc, Refusal::Pool, b"hydra: memory\n", 3);
    is_told(&rt, alloc, Refusal::ReadFailed, b"hydra: read failed\n", 4);
    is_told(
        &rt,
        alloc,
        Refusal::WriteFailed,
        b"hydra: write failed\n",
        4,
    );
    is_told(&rt, alloc, Refusal::Settings, b"hydra: refused 60\n", 2);
}
