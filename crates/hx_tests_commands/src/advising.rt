// Advice on programs whose verdicts were found by hand.

use crate::whole::{done_by, shows};
use hx_answer::advice_of;
use std::alloc::{AllocError, Global};
use std::fs;
use std::process::Abort;
use std::test::Fail;

// The lines of a text that say what was found, without those that say what a turn costs.
fn found_in(alloc: Global, text: &[u8]) -> Result<Vec<u8>, AllocError> {
    let mut found = Vec::new(alloc);
    let mut line = Vec::new(alloc);
    for byte in text {
        line.push(*byte)?;
        if *byte == b'\n' {
            if !line.starts_with(b"  a turn") && !line.starts_with(b"  few") {
                found.extend_from_slice(&line)?;
            }
            line.clear();
        }
    }
    Ok(found)
}

fn says(rt: &(impl Abort + AllocGlobal), source: &[u8], found: &[u8]) -> Result<(), Fail> {
    let Ok(text) = advice_of(rt.alloc(), source, &[], 100_000) else {
        return Err(Fail::from("refused"));
    };
    let lines = found_in(rt.alloc(), &text)?;
    assert_eq!(rt; lines.as_slice(), found);
    Ok(())
}

#[test]
fn advises_on_sums(rt: HostRuntime) -> Result<(), Fail> {
    says(
        &rt,
        b"int main(){ int s=0; pfor(int i=0;i<10;i++) s+=i; print(s); }",
        b"region 0 in main, line 1: opened 1 time, 10 turns\n\
          \x20 not independent: 9 turns read what an earlier turn wrote\n\
          \x20   s: in 9 turns, at least 1 turn behind the one that wrote it\n",
    )?;
    says(
        &rt,
        b"int v[6]={1,5,2,6,3,4}; int m; int main(){ pfor(int i=0;i<6;i++) if(v[i]>m) m=v[i]; }",
        b"region 0 in main, line 1: opened 1 time, 6 turns\n\
          \x20 not independent: 5 turns read what an earlier turn wrote\n\
          \x20   m: in 5 turns, at least 1 turn behind the one that wrote it\n",
    )
}

#[test]
fn advises_on_prefix_sums(rt: HostRuntime) -> Result<(), Fail> {
    says(
        &rt,
        b"int a[10]; int main(){ pfor(int i=1;i<10;i++) a[i]=a[i-1]+i; }",
        b"region 0 in main, line 1: opened 1 time, 9 turns\n\
          \x20 not independent: 8 turns read what an earlier turn wrote\n\
          \x20   a[1] to a[8]: 8 elements, each in 1 turn, at least 1 turn behind the one that wrote it\n",
    )?;
    says(
        &rt,
        b"int a[12]; int main(){ pfor(int i=3;i<12;i++) a[i]=a[i-3]; }",
        b"region 0 in main, line 1: opened 1 time, 9 turns\n\
          \x20 not independent: 6 turns read what an earlier turn wrote\n\
          \x20   a[3] to a[8]: 6 elements, each in 1 turn, at least 3 turns behind the one that wrote it\n",
    )
}

#[test]
fn advises_on_stencils(rt: HostRuntime) -> Result<(), Fail> {
    says(
        &rt,
        b"int a[10]; int main(){ pfor(int i=0;i<10;i++) a[i]=i; }",
        b"region 0 in main, line 1: opened 1 time, 10 turns\n\
          \x20 independent: no turn read what an earlier turn wrote\n",
    )?;
    says(
        &rt,
        b"int a[12],b[12]; int main(){ pfor(int i=1;i<11;i++) b[i]=a[i-1]+a[i]+a[i+1]; }",
        b"region 0 in main, line 1: opened 1 time, 10 turns\n\
          \x20 independent: no turn read what an earlier turn wrote\n",
    )?;
    says(
        &rt,
        b"int a[10]; int main(){ pfor(int i=0;i<9;i++) a[i]=a[i+1]; }",
        b"region 0 in main, line 1: opened 1 time, 9 turns\n\
          \x20 independent: no turn read what an earlier turn wrote\n",
    )
}

#[test]
fn advises_on_walks(rt: HostRuntime) -> Result<(), Fail> {
    says(
        &rt,
        b"int next[4]={2,3,1,-1}; int main(){ int at=0; pwhile(at!=-1) at=next[at]; }",
        b"region 0 in main, line 1: opened 1 time, 4 turns\n\
          \x20 not independent: 4 turns read what an earlier turn wrote\n\
          \x20   at: in 4 turns, at least 1 turn behind the one that wrote it\n",
    )?;
    says(
        &rt,
        b"int a[5]; int main(){ int i=0; pwhile(i<5){ a[i]=1; i=i+1; } }",
        b"region 0 in main, line 1: opened 1 time, 5 turns\n\
          \x20 not independent: 5 turns read what an earlier turn wrote\n\
          \x20   i: in 5 turns, at least 1 turn behind the one that wrote it\n",
    )
}

#[test]
fn advises_on_histograms(rt: HostRuntime) -> Result<(), Fail> {
    says(
        &rt,
        b"int v[6]={3,1,4,0,5,2}; int h[6]; int main(){ pfor(int i=0;i<6;i++) h[v[i]]++; }",
        b"region 0 in main, line 1: opened 1 time, 6 turns\n\
          \x20 independent: no turn read what an earlier turn wrote\n",
    )?;
    says(
        &rt,
        b"int v[6]={3,1,3,0,1,3}; int h[4]; int main(){ pfor(int i=0;i<6;i++) h[v[i]]++; }",
        b"region 0 in main, line 1: opened 1 time, 6 turns\n\
          \x20 not independent: 3 turns read what an earlier turn wrote\n\
          \x20   h[1] to h[3]: 2 elements, each in 1 to 2 turns, at least 2 turns behind the one that wrote it\n",
    )
}

#[test]
fn advises_on_flags(rt: HostRuntime) -> Result<(), Fail> {
    says(
        &rt,
        b"int found; int a[8]={0,0,1}; int main(){ pfor(int i=0;i<8;i++) if(!found) if(a[i]) found=1; }",
        b"region 0 in main, line 1: opened 1 time, 8 turns\n\
          \x20 not independent: 5 turns read what an earlier turn wrote\n\
          \x20   found: in 5 turns, at least 1 turn behind the one that wrote it\n",
    )?;
    says(
        &rt,
        b"int t; int a[6]; int main(){ pfor(int i=0;i<6;i++){ if(i%2==0) t=i; a[i]=t; } }",
        b"region 0 in main, line 1: opened 1 time, 6 turns\n\
          \x20 not independent: 3 turns read what an earlier turn wrote\n\
          \x20   t: in 3 turns, at least 1 turn behind the one that wrote it\n",
    )
}

#[test]
fn advises_on_words_of_a_turn(rt: HostRuntime) -> Result<(), Fail> {
    says(
        &rt,
        b"int t; int a[5]; int main(){ pfor(int i=0;i<5;i++){ t=i; a[i]=t+1; } }",
        b"region 0 in main, line 1: opened 1 time, 5 turns\n\
          \x20 independent: no turn read what an earlier turn wrote\n",
    )?;
    says(
        &rt,
        b"int a[4]; int main(){ int t; pfor(int i=0;i<4;i++){ t=i*2; a[i]=t; } }",
        b"region 0 in main, line 1: opened 1 time, 4 turns\n\
          \x20 independent: no turn read what an earlier turn wrote\n",
    )
}

#[test]
fn advises_on_inner_loops(rt: HostRuntime) -> Result<(), Fail> {
    says(
        &rt,
        b"int a[4]; int main(){ pfor(int i=0;i<4;i++){ int s=0; for(int j=0;j<3;j++) s+=i*j; a[i]=s; } }",
        b"region 0 in main, line 1: opened 1 time, 4 turns\n\
          \x20 independent: no turn read what an earlier turn wrote\n",
    )?;
    says(
        &rt,
        b"int a[9];\nvoid fill(int r){\n pfor(int j=0;j<3;j++) a[r*3+j]=j;\n}\nint main(){\n pfor(int r=0;r<3;r++){\n  pfor(int k=0;k<2;k++) a[r]=k;\n  fill(r);\n }\n}\n",
        b"region 0 in fill, line 3: not opened\n\
          region 1 in main, line 6: opened 1 time, 3 turns\n\
          \x20 independent: no turn read what an earlier turn wrote\n",
    )
}

#[test]
fn advises_on_early_exits(rt: HostRuntime) -> Result<(), Fail> {
    says(
        &rt,
        b"int a[10]; int main(){ pfor(int i=0;i<10;i++){ if(i==4) break; a[i]=1; } }",
        b"region 0 in main, line 1: opened 1 time, 4 turns\n\
          \x20 independent: no turn read what an earlier turn wrote\n",
    )?;
    says(
        &rt,
        b"int p; int f(){ pfor(int i=0;i<10;i++){ p++; if(i==3) return i; } return -1; } int main(){ print(f()); }",
        b"region 0 in f, line 1: opened 1 time, 3 turns\n\
          \x20 not independent: 3 turns read what an earlier turn wrote\n\
          \x20   p: in 3 turns, at least 1 turn behind the one that wrote it\n",
    )?;
    says(
        &rt,
        b"int a[6]; int main(){ pfor(int i=0;i<6;i++){ if(i%2) continue; a[i]=a[i]+1; } }",
        b"region 0 in main, line 1: opened 1 time, 6 turns\n\
          \x20 independent: no turn read what an earlier turn wrote\n",
    )?;
    says(
        &rt,
        b"int a[4]; int main(){ pfor(int i=0;i<8;i++) a[i]=i; }",
        b"region 0 in main, line 1: opened 1 time, 4 turns\n\
          \x20 independent: no turn read what an earlier turn wrote\n",
    )
}

#[test]
fn advises_on_loops_that_open_again(rt: HostRuntime) -> Result<(), Fail> {
    says(
        &rt,
        b"int a[4],b[4]; int main(){ for(int r=0;r<3;r++){ pfor(int i=0;i<4;i++) b[i]=a[i]+1; pfor(int i=0;i<4;i++) a[i]=b[i]; } }",
        b"region 0 in main, line 1: opened 3 times, 12 turns\n\
          \x20 independent: no turn read what an earlier turn wrote\n\
          region 1 in main, line 1: opened 3 times, 12 turns\n\
          \x20 independent: no turn read what an earlier turn wrote\n",
    )?;
    says(
        &rt,
        b"int n; int f(int k){ pfor(int i=0;i<3;i++) n+=k; return 0; } int main(){ f(0); f(1); }",
        b"region 0 in f, line 1: opened 2 times, 6 turns\n\
          \x20 not independent: 4 turns read what an earlier turn wrote\n\
          \x20   n: in 4 turns, at least 1 turn behind the one that wrote it\n",
    )?;
    says(&rt, b"int main(){ print(1); }", b"no marked loops\n")
}

// What a turn costs, counted by hand in the listing; a run that is stopped; and what is refused.
#[test]
fn tells_of_runs(rt: HostRuntime) -> Result<(), Fail> {
    let p = "hydra-test-advises.hc";
    let source = b"int c; int main(){ pwhile(1) c=c+1; }";
    let out = b"region 0 in main, line 1: opened 1 time, 2 turns\n\
        \x20 a turn: 7.5 words, 1.0 loads, 1.0 stores\n\
        \x20 not independent: 1 turn read what an earlier turn wrote\n\
        \x20   c: in 1 turn, at least 1 turn behind the one that wrote it\n\
        \x20 few words a turn: such a loop gains nothing\n\
        not ended after 271 steps: all this is of the turns that ran\n";
    let words = ["hydra", "advise", p, "--steps", "271"];
    shows(&rt, p, source, &words, out, b"", 0)?;
    let words = ["hydra", "advise", p];
    shows(
        &rt,
        p,
        b"int main(",
        &words,
        b"",
        b"hydra: refused 10 at 1:10\n",
        2,
    )
}

#[test]
fn advises_on_inputs(rt: HostRuntime) -> Result<(), Fail> {
    let p = "hydra-test-advises-in.hc";
    let q = "hydra-test-advises-in.in";
    let source =
        b"int in[4]; int n_in; int h[9]; int main(){ pfor(int i=0;i<n_in;i++) h[in[i]]++; }";
    fs::write(&rt, q, b"7 2 7\n")?;
    fs::write(&rt, p, source)?;
    let found = done_by(&rt, &["hydra", "advise", p, "--input", q]);
    fs::remove_file(&rt, p)?;
    fs::remove_file(&rt, q)?;
    let lines = found_in(rt.alloc(), &found.out)?;
    assert_eq!(&rt;
        lines.as_slice(),
        b"region 0 in main, line 1: opened 1 time, 3 turns\n\
        \x20 not independent: 1 turn read what an earlier turn wrote\n\
        \x20   h[7]: in 1 turn, at least 2 turns behind the one that wrote it\n"
            .as_slice()
    );
    Ok(())
}
