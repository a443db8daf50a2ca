// Programs that are run by the plain machine, on workers and where no thread starts, with what they come to.

use crate::answers::{NORMAL, Row};
use hx_tree::outcome::{End, Fault, FaultKind};
use hx_tree::token::Pos;

// Loops whose turns need nothing, or little, of one another.
pub static LOOPS: [Row<'static>; 5] = [
    Row {
        source: b"int a[8]; int main(){ pfor(int i=0;i<8;i++) a[i]=i*i; print(a[7]); }",
        text: b"49\n",
        globals: Some(&[0, 1, 4, 9, 16, 25, 36, 49]),
        regions: 1,
        turns: 8,
        ..NORMAL
    },
    Row {
        source: b"int main(){ int s=0; pfor(int i=1;i<=100;i++) s+=i; print(s); }",
        text: b"5050\n",
        regions: 1,
        turns: 100,
        ..NORMAL
    },
    Row {
        source: b"int n[4]={2,3,1,-1}; int main(){ int p=0; pwhile(p!=-1){ print(p); p=n[p]; } }",
        text: b"0\n2\n1\n3\n",
        globals: Some(&[2, 3, 1, -1]),
        regions: 1,
        turns: 4,
        ..NORMAL
    },
    Row {
        source: b"int main(){ pfor(int i=0;i<10;i++) print(i); }",
        text: b"0\n1\n2\n3\n4\n5\n6\n7\n8\n9\n",
        regions: 1,
        turns: 10,
        ..NORMAL
    },
    Row {
        source: b"int d; int main(){ pfor(int i=0;i<2;i++){ if(i==0) d=2; else print(10/d); } }",
        text: b"5\n",
        globals: Some(&[2]),
        regions: 1,
        turns: 2,
        ..NORMAL
    },
];

// Loops whose turns need one another, or that are left, or in one another.
pub static DEPENDENT: [Row<'static>; 4] = [
    Row {
        source: b"int a; int b; int c; int main(){ pwhile(c<2){ a=a+1; print(a); b=b+a; print(b); c=c+1; } }",
        text: b"1\n1\n2\n3\n",
        globals: Some(&[2, 3, 2]),
        regions: 1,
        turns: 2,
        ..NORMAL
    },
    Row {
        source: b"int a[8]; int main(){ pfor(int i=0;i<8;i++){ if(i==3) break; a[i]=1; } }",
        globals: Some(&[1, 1, 1, 0, 0, 0, 0, 0]),
        regions: 1,
        turns: 3,
        ..NORMAL
    },
    Row {
        source: b"int main(){ pfor(int i=5;i<5;i++) print(i); }",
        regions: 1,
        ..NORMAL
    },
    Row {
        source: b"int a[2]; int main(){ pfor(int i=0;i<2;i++) pfor(int j=0;j<3;j++) a[i]+=j; print(a[0]+a[1]); }",
        text: b"6\n",
        globals: Some(&[3, 3]),
        regions: 1,
        turns: 2,
        ..NORMAL
    },
];

// A loop that a return leaves.
pub static FIND: [Row<'static>; 1] = [Row {
    source: b"int find(int k){ pfor(int i=0;i<9;i++){ if(i*i==k) return i; } return -1; } int main(){ print(find(49)); print(find(50)); }",
    text: b"7\n-1\n",
    regions: 2,
    turns: 16,
    ..NORMAL
}];

pub static WITHOUT_LOOPS: [Row<'static>; 2] = [
    Row {
        source: b"int main(){ print((-2147483647-1)/(-1)); print((-2147483647-1)%(-1)); print(2147483647+1); print(-7/2); print(-7%2); print(1<<33); }",
        text: b"-2147483648\n0\n-2147483648\n-3\n-1\n2\n",
        ..NORMAL
    },
    Row {
        source: b"int main(){ emit(65); emit(266); emit(-1); }",
        text: b"\x41\x0a\xff",
        ..NORMAL
    },
];

// A loop that ends by a fault in its fifth turn.
pub static PAST_ITS_ARRAY: [Row<'static>; 1] = [Row {
    source: b"int a[4]; int main(){ pfor(int i=0;i<8;i++){ a[i]=i+1; print(i);} }",
    text: b"0\n1\n2\n3\n",
    globals: Some(&[1, 2, 3, 4]),
    end: End::Fault(Fault {
        kind: FaultKind::IndexOutOfRange,
        pos: Pos { line: 1, col: 46 },
    }),
    regions: 1,
    turns: 4,
    ..NORMAL
}];

// Other faults, and what main returns.
pub static ENDS: [Row<'static>; 3] = [
    Row {
        source: b"int a[2]; int main(){ pfor(int i=0;i<3;i++){ a[0]=i; print(i); a[1]=1/(1-i); } }",
        text: b"0\n1\n",
        globals: Some(&[1, 1]),
        end: End::Fault(Fault {
            kind: FaultKind::ZeroDivisor,
            pos: Pos { line: 1, col: 70 },
        }),
        regions: 1,
        turns: 1,
        ..NORMAL
    },
    Row {
        source: b"int f(int n){ return f(n+1); } int main(){ print(f(0)); }",
        end: End::Fault(Fault {
            kind: FaultKind::CallTooDeep,
            pos: Pos { line: 1, col: 22 },
        }),
        ..NORMAL
    },
    Row {
        source: b"int in[3]; int n_in; int main(){ int s=0; pfor(int i=0;i<n_in;i++) s+=in[i]; print(s); return s; }",
        input: &[5, -7],
        text: b"-2\n",
        globals: Some(&[5, -7, 0, 2]),
        end: End::Normal(-2),
        regions: 1,
        turns: 2,
        ..NORMAL
    },
];

// Counters that wrap, or are used behind the loop.
pub static COUNTERS: [Row<'static>; 2] = [
    Row {
        source: b"int main(){ pfor(int i=2147483646;i>0;i++) print(i); }",
        text: b"2147483646\n2147483647\n",
        regions: 1,
        turns: 2,
        ..NORMAL
    },
    Row {
        source: b"int main(){ int i; pfor(i=10;i>4;i-=4) emit(65); print(i); }",
        text: b"AA2\n",
        regions: 1,
        turns: 2,
        ..NORMAL
    },
];
