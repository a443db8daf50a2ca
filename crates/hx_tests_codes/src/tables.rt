// Which instructions stand for the words of lowered code.

use crate::stages::{compile, executable};
use hx_exec::executable::Executable;
use hx_instruction::instruction::Instruction;
use std::alloc::Global;
use std::process::Abort;

// How many instructions a code has, how many words in it go by themselves, and how many instructions are jumps ahead.
fn counted_in(code: &Executable) -> [usize; 3] {
    let lines = code.listing().lines;
    let stops = lines
        .iter()
        .filter(|line| matches!(line.instruction, Instruction::Stop))
        .count();
    let jumps = lines
        .iter()
        .filter(|line| matches!(line.instruction, Instruction::Forward(_, _, _)))
        .count();
    [lines.len() - stops, stops, jumps]
}

// The same of the code of a source.
fn counted(alloc: Global, source: &[u8]) -> Option<[usize; 3]> {
    let code = compile(alloc, source).ok()?;
    let code = executable(alloc, code).ok()?;
    Some(counted_in(&code))
}

fn are(rt: &impl Abort, alloc: Global, source: &[u8], instructions: usize) {
    let [found, stops, _] = counted(alloc, source).unwrap_or([0; 3]);
    assert_eq!(rt; (found, stops), (instructions, 1));
}

// The 21 words of this main are nine instructions, and none goes by itself: what stops is the end behind them.
#[test]
fn lowered_code_has_instructions(rt: HostRuntime) {
    are(
        &rt,
        rt.alloc(),
        b"int total; int main(){ int sum=0; for(int i=0;i<10;i++) sum=sum+i; total=sum; }",
        9,
    );
}

// `s=s+a[i]`, of five words, is one of them.
#[test]
fn a_sum_with_an_element_is_one(rt: HostRuntime) {
    are(
        &rt,
        rt.alloc(),
        b"int a[9]; int main(){ int s=0; for(int i=0;i<9;i++) s=s+a[i]; return s; }",
        10,
    );
}

// `s=m[i*3+s]`, of seven words, is one of them.
#[test]
fn an_element_of_a_row_is_one(rt: HostRuntime) {
    are(
        &rt,
        rt.alloc(),
        b"int m[9]; int main(){ int s=0; for(int i=0;i<3;i++) s=m[i*3+s]; return s; }",
        10,
    );
}

// `if(i%3==0)`, of six words, is one of them.
#[test]
fn a_branch_on_a_remainder_is_one(rt: HostRuntime) {
    are(
        &rt,
        rt.alloc(),
        b"int main(){ int s=0; for(int i=0;i<9;i++) if(i%3==0) s=i; return s; }",
        11,
    );
}

// `i<n` and its branch, of four words, are one of them, where n is a global.
#[test]
fn a_branch_on_a_global_is_one(rt: HostRuntime) {
    are(
        &rt,
        rt.alloc(),
        b"int n; int main(){ int s=0; for(int i=0;i<n;i++) s=s+i; return s; }",
        10,
    );
}

// `a[1]=5`, `a[1]`, `a[2]`, the sum and its return, and the two words at the end of each function.
#[test]
fn an_element_whose_index_is_a_number_is_one(rt: HostRuntime) {
    are(
        &rt,
        rt.alloc(),
        b"int a[3]; int main(){ a[1]=5; return a[1]+a[2]; }",
        7,
    );
}

// `int i=2`, `2*i`, the sum and its return, and the two words at the end.
#[test]
fn a_number_before_a_local_is_no_move(rt: HostRuntime) {
    are(&rt, rt.alloc(), b"int main(){ int i=2; return 2*i+1; }", 6);
}

// Tests on values that are no comparison, and locals that become the value of a test.
const TESTS: [&[u8]; 3] = [
    b"int main(){ int s=0; for(int i=0;i<9;i++){ if(i%3) s++; if(i-5) s++; if(i^s) s++; } return s; }",
    b"int main(){ int n=9; int s=0; while(n/2){ s+=n; n/=2; } return s; }",
    b"int main(){ int b=0; int c=0; for(int i=0;i<9;i++){ b=i>3&&i<7; c=i==1||b; } return c; }",
];

#[test]
fn tests_and_their_values_have_instructions(rt: HostRuntime) {
    for source in &TESTS {
        let [_, stops, _] = counted(rt.alloc(), source).unwrap_or([0; 3]);
        assert_eq!(rt; stops, 1);
    }
}

// The end of the loop goes back to its test, which the jump past `else` does at once; past the second one there is no loop's end.
#[test]
fn a_jump_to_the_end_of_a_loop_goes_back_at_once(rt: HostRuntime) {
    let source =
        b"int main(){ int s=0; for(int i=0;i<9;i++){ if(i>4) s=s+i; else s=s-i; } if(s>2) s=1; else s=0; return s; }";
    let [_, stops, jumps] = counted(rt.alloc(), source).unwrap_or([0; 3]);
    assert_eq!(rt; (stops, jumps), (1, 1));
}

// Two instructions of the code of a source.
fn both_of(alloc: Global, source: &[u8], first: usize, second: usize) -> Option<[Instruction; 2]> {
    let code = compile(alloc, source).ok()?;
    let code = executable(alloc, code).ok()?;
    let lines = code.listing().lines;
    Some([
        lines.get(first)?.instruction,
        lines.get(second)?.instruction,
    ])
}

// The end of the inner loop is nine words from place 18 on, with its test. It goes back to the one at 14, which is 13 words less, or out to
// the one at 23, which is 4 less. That is the end of the outer loop: nine words, back to 8 or out to 28.
#[test]
fn the_end_of_a_loop_leads_out_at_once(rt: HostRuntime) {
    let source =
        b"int main(){ int s=0; for(int i=0;i<9;i++){ for(int j=0;j<5;j++) s=s+j; } return s; }";
    let [inner, outer] = both_of(rt.alloc(), source, 6, 8).unwrap_or([Instruction::Stop; 2]);
    assert!(rt;
        matches!(
            inner,
            Instruction::StepBackIfLessNumber(2, 1, 2, 5, 5, 13, 8, 4)
        )
    );
    assert!(rt;
        matches!(
            outer,
            Instruction::StepBackIfLessNumber(1, 1, 1, 9, 3, 24, 10, 4)
        )
    );
}
