// Stores that change nothing of what a later iteration has read restart nobody, and are counted as spared.

use crate::boards::{Played, plays};
use hx_board::State;

const EQUAL: &[u8] = b"int d; int main(){ pfor(int i=0;i<2;i++){ if(i==0) d=0; else print(d); } }";

const COVERED: &[u8] =
    b"int d; int main(){ pfor(int i=0;i<3;i++){ if(i<2) d=i+4; else print(d); } }";

// Iteration 1 has read d before iteration 0 stores the value that d has.
#[test]
fn an_equal_store_restarts_nobody(rt: HostRuntime) {
    let steps = [0, 1, 1, 0, 1, 0, 0, 1, 1, 1, 0, 0, 0];
    let wanted = Played {
        state: State::Left,
        text: b"0\n",
        store: &[0],
        counts: [2, 0, 0, 0, 0, 0, 0, 1],
    };
    plays(&rt, rt.alloc(), EQUAL, 2, &steps, wanted);
}

// Iteration 2 has read what iteration 1 wrote to d before iteration 0 stores another value.
#[test]
fn a_covered_store_restarts_nobody(rt: HostRuntime) {
    let steps = [0, 1, 2, 1, 2, 0, 0, 0, 1, 1, 2, 2, 2, 0, 0, 0];
    let wanted = Played {
        state: State::Left,
        text: b"5\n",
        store: &[5],
        counts: [3, 0, 0, 0, 0, 0, 0, 1],
    };
    plays(&rt, rt.alloc(), COVERED, 3, &steps, wanted);
}

// .. and begins again where it read d before iteration 1 stored there.
#[test]
fn an_uncovered_store_restarts_a_reader(rt: HostRuntime) {
    let wanted = Played {
        state: State::Running,
        text: b"",
        store: &[0],
        counts: [0, 0, 1, 1, 0, 0, 0, 0],
    };
    plays(&rt, rt.alloc(), COVERED, 3, &[0, 1, 2, 2, 1], wanted);
}
