// What replays tell of each step. The lines are worked by hand from the rules of replays.

use crate::whole::{TWO_TURNS, shows};
use std::process::Abort;
use std::rt::Files;
use std::sync::Wait;
use std::test::Fail;
use std::thread::Threads;

// What a replay on two workers, with these options, tells and writes.
fn tells<R: Abort + Files + AllocGlobal + Threads + Wait + Sync>(
    rt: &R,
    path: &str,
    source: &[u8],
    schedule: &str,
    buffer: &str,
    out: &[u8],
) -> Result<(), Fail> {
    let words = [
        "hydra",
        "replay",
        path,
        schedule,
        "--workers",
        "2",
        "--buffer",
        buffer,
        "--events",
    ];
    shows(rt, path, source, &words, out, b"", 0)
}

const VIOLATION: &[u8] = b"\
worker 0 starts iteration 0\n\
worker 1 starts iteration 1\n\
worker 0 loads c: 0\n\
worker 1 loads c: 0\n\
worker 0 stores c: 1, and iteration 1 begins again\n\
worker 1 is squashed\n\
worker 1 starts iteration 1, attempt 2\n\
worker 0 gets the head\n\
worker 0 commits iteration 0\n\
worker 1 loads c: 1\n\
worker 1 stores c: 2\n\
worker 1 gets the head\n\
worker 1 commits iteration 1\n\
worker 0 starts iteration 2\n\
worker 0 loads c: 2\n\
worker 0 gets the head\n\
worker 0 commits iteration 2, and leaves the loop\n\
state left\nturns 2\nrepeats 1\nviolations 1\nrestarts 1\nholds 0\nabandons 0\ndiscarded 0\nspared 0\n";

const FORWARDING: &[u8] = b"\
worker 0 starts iteration 0\n\
worker 0 loads c: 0\n\
worker 0 stores c: 1\n\
worker 1 starts iteration 1\n\
worker 1 loads c: 1, from iteration 0\n\
worker 1 stores c: 2\n\
worker 0 gets the head\n\
worker 0 commits iteration 0\n\
worker 1 gets the head\n\
worker 1 commits iteration 1\n\
worker 0 starts iteration 2\n\
worker 0 loads c: 2\n\
worker 0 gets the head\n\
worker 0 commits iteration 2, and leaves the loop\n\
state left\nturns 2\nrepeats 0\nviolations 0\nrestarts 0\nholds 0\nabandons 0\ndiscarded 0\nspared 0\n";

const HOLD: &[u8] = b"\
worker 0 starts iteration 0\n\
worker 0 loads done: 0\n\
worker 0 stores a: 5\n\
worker 0 finds its table full at done, and holds\n\
worker 1 starts iteration 1\n\
worker 1 loads done: 0\n\
worker 1 stores a: 5\n\
worker 1 finds its table full at done, and holds\n\
worker 1 isn't the head yet\n\
worker 0 gets the head\n\
worker 0 commits iteration 0 so far, and goes on\n\
worker 0 stores done: 1, and iteration 1 begins again\n\
worker 1 is squashed\n\
worker 1 starts iteration 1, attempt 2\n\
worker 1 loads done: 1, from iteration 0\n\
worker 0 commits iteration 0\n\
worker 1 gets the head\n\
worker 1 commits iteration 1, and leaves the loop\n\
state left\nturns 1\nrepeats 0\nviolations 1\nrestarts 1\nholds 2\nabandons 0\ndiscarded 0\nspared 0\n";

// The lessons of docs/REPLAYING.md.
#[test]
fn tells_lessons(rt: HostRuntime) -> Result<(), Fail> {
    let p = "hydra-test-tells.hc";
    tells(&rt, p, TWO_TURNS, "01010110011110000", "64", VIOLATION)?;
    tells(&rt, p, TWO_TURNS, "00011100110000", "64", FORWARDING)?;
    let flag = b"int a; int done; int main(){ pwhile(done<1){ a=5; done=1; } }";
    tells(&rt, p, flag, "000011111000111011", "1", HOLD)
}

// Prints of both kinds, a fault that drops an iteration, and steps behind the end.
const PRINTS: &[u8] = b"\
worker 0 starts iteration 0\n\
worker 1 starts iteration 1\n\
worker 0 gets the head\n\
worker 0 commits iteration 0 so far, prints 5, and goes on\n\
worker 0 commits iteration 0 so far, prints byte 65, and goes on\n\
worker 0 commits iteration 0, and ends by fault 1 at 1:51; iteration 1 is dropped\n\
worker 1 finds the loop over\n\
worker 1 finds the loop over\n\
5\nAstate fault 1 at 1:51\nturns 0\nrepeats 0\nviolations 0\nrestarts 0\nholds 0\nabandons 0\ndiscarded 1\nspared 0\n";

#[test]
fn tells_prints_and_ends(rt: HostRuntime) -> Result<(), Fail> {
    let p = "hydra-test-tells-prints.hc";
    let source = b"int main(){ pwhile(1){ print(5); emit(65); print(1/0); } }";
    tells(&rt, p, source, "01000011", "64", PRINTS)
}

const NAMES: &[u8] = b"\
worker 0 starts iteration 0\n\
worker 0 loads sum: 0\n\
worker 0 loads a[1]: 4\n\
worker 0 stores sum: 4\n\
worker 0 gets the head\n\
worker 0 commits iteration 0\n\
worker 1 starts iteration 1\n\
worker 1 loads sum: 4\n\
worker 1 loads a[2]: 5\n\
state running\nturns 1\nrepeats 0\nviolations 0\nrestarts 0\nholds 0\nabandons 0\ndiscarded 0\nspared 0\n";

// Elements of an array by their places in it, and a carried local by its own name, which stands behind three others of the function, one of them in a `do`.
#[test]
fn tells_names(rt: HostRuntime) -> Result<(), Fail> {
    let p = "hydra-test-tells-names.hc";
    let source =
        b"int g; int a[3] = {3,4,5}; int h; int other(){ int x; return 0; } int main(){ int y; { int z; z=1; } do { int w; w=1; } while(0); int sum=0; pfor(int i=1;i<3;i++) sum=sum+a[i]; print(sum); }";
    tells(&rt, p, source, "000000111", "64", NAMES)
}

const SHORT: &[u8] = b"\
worker 0 starts iteration 0\n\
worker 0 stores g: 112\n\
worker 0 gets the head\n\
state running\nturns 0\nrepeats 0\nviolations 0\nrestarts 0\nholds 0\nabandons 0\ndiscarded 0\nspared 0\n";

const LONG: &[u8] = b"\
worker 0 starts iteration 0\n\
worker 0 computes on\n\
worker 0 stores g: -112\n\
state running\nturns 0\nrepeats 0\nviolations 0\nrestarts 0\nholds 0\nabandons 0\ndiscarded 0\nspared 0\n";

// Before the store of `g` a turn has 4 words for its test, 2 for `k`, 2 for its first value, 9 for each of 112 rounds, 4 for the last test
// and 1 for what is stored: 1,021. With `k=k;` there are 2 more, and with `k=-k;` 3 more.
#[test]
fn tells_long_computations(rt: HostRuntime) -> Result<(), Fail> {
    let p = "hydra-test-tells-long.hc";
    let short =
        b"int g; int main(){ pfor(int i=0;i<1;i++){ int k; for(k=0;k<112;k++) ; k=k; g=k; } }";
    tells(&rt, p, short, "000", "64", SHORT)?;
    let long =
        b"int g; int main(){ pfor(int i=0;i<1;i++){ int k; for(k=0;k<112;k++) ; k=-k; g=k; } }";
    tells(&rt, p, long, "000", "64", LONG)
}
