// Listings of whole sources, worked out by hand from the rules of lowering.

use crate::stages::compile;
use hx_lower::listing;
use std::alloc::Global;
use std::process::Abort;

fn listed(alloc: Global, source: &[u8]) -> Option<Vec<u8>> {
    let code = compile(alloc, source).ok()?;
    listing(alloc, &code).ok()
}

fn lists(rt: &impl Abort, alloc: Global, source: &[u8], wanted: &[u8]) {
    match listed(alloc, source) {
        Some(text) => assert_eq!(rt; text.as_slice(), wanted),
        None => assert!(rt; false),
    }
}

#[test]
fn the_shortest(rt: HostRuntime) {
    lists(
        &rt,
        rt.alloc(),
        b"int main(){}",
        b"globals 0\nfunc main 0 0 0\n0 const 0\n1 ret\n",
    );
}

#[test]
fn a_local(rt: HostRuntime) {
    lists(
        &rt,
        rt.alloc(),
        b"int main(){ int s; }",
        b"globals 0\nfunc main 0 0 1\n0 const 0\n1 setpriv 0\n2 const 0\n3 ret\n",
    );
}

// A loop over a global word: it carries nothing.
#[test]
fn a_marked_loop(rt: HostRuntime) {
    let wanted = b"globals 1\nfunc main 0 0 0\nregion 1 20 carried copied\n\
0 enter 0 11\n1 glob 0\n2 const 2\n3 lt\n4 jfalse 10\n5 glob 0\n6 const 1\n7 add\n8 setglob 0\n9 turn\n10 leave\n\
11 glob 0\n12 const 2\n13 lt\n14 jfalse 20\n15 glob 0\n16 const 1\n17 add\n18 setglob 0\n19 jump 11\n20 const 0\n21 ret\n";
    lists(
        &rt,
        rt.alloc(),
        b"int c; int main(){ pwhile(c<2){ c=c+1; } }",
        wanted,
    );
}

// The counter of a `pfor` has no cell: its word is a private one in the region's version too.
#[test]
fn a_computed_counter(rt: HostRuntime) {
    let wanted = b"globals 2\nfunc main 0 0 1\nregion 3 28 carried copied induct 0 1\n\
0 const 0\n1 setpriv 0\n2 enter 0 16\n\
3 priv 0\n4 const 2\n5 lt\n6 jfalse 15\n7 priv 0\n8 priv 0\n9 setelem 0 2 1 45\n10 priv 0\n11 const 1\n12 add\n13 setpriv 0\n14 turn\n15 leave\n\
16 priv 0\n17 const 2\n18 lt\n19 jfalse 28\n20 priv 0\n21 priv 0\n22 setelem 0 2 1 45\n23 priv 0\n24 const 1\n25 add\n26 setpriv 0\n27 jump 16\n\
28 const 0\n29 ret\n";
    lists(
        &rt,
        rt.alloc(),
        b"int a[2]; int main(){ pfor(int i=0;i<2;i++) a[i]=i; }",
        wanted,
    );
}

// The sum is carried, and the counter isn't.
#[test]
fn a_carried_sum(rt: HostRuntime) {
    let wanted = b"globals 0\nfunc main 0 0 2\nregion 5 32 carried 0=0 copied induct 1 1\n\
0 const 0\n1 setpriv 0\n2 const 1\n3 setpriv 1\n4 enter 0 19\n\
5 priv 1\n6 const 3\n7 le\n8 jfalse 18\n9 glob 0\n10 priv 1\n11 add\n12 setglob 0\n13 priv 1\n14 const 1\n15 add\n16 setpriv 1\n17 turn\n18 leave\n\
19 priv 1\n20 const 3\n21 le\n22 jfalse 32\n23 priv 0\n24 priv 1\n25 add\n26 setpriv 0\n27 priv 1\n28 const 1\n29 add\n30 setpriv 1\n31 jump 19\n\
32 priv 0\n33 print 1 51\n34 const 0\n35 ret\n";
    lists(
        &rt,
        rt.alloc(),
        b"int main(){ int s=0; pfor(int i=1;i<=3;i++) s+=i; print(s); }",
        wanted,
    );
}

// A step that is no counting one: both locals are carried, in cells behind the globals.
#[test]
fn carried_locals(rt: HostRuntime) {
    let wanted = b"globals 0\nfunc main 0 0 2\nregion 5 32 carried 0=0 1=1 copied\n\
0 const 0\n1 setpriv 0\n2 const 1\n3 setpriv 1\n4 enter 0 19\n\
5 glob 1\n6 const 3\n7 le\n8 jfalse 18\n9 glob 0\n10 glob 1\n11 add\n12 setglob 0\n13 glob 1\n14 const 1\n15 add\n16 setglob 1\n17 turn\n18 leave\n\
19 priv 1\n20 const 3\n21 le\n22 jfalse 32\n23 priv 0\n24 priv 1\n25 add\n26 setpriv 0\n27 priv 1\n28 const 1\n29 add\n30 setpriv 1\n31 jump 19\n\
32 priv 0\n33 print 1 53\n34 const 0\n35 ret\n";
    lists(
        &rt,
        rt.alloc(),
        b"int main(){ int s=0; pfor(int i=1;i<=3;i=i+1) s+=i; print(s); }",
        wanted,
    );
}

// What may end with a fault has its place.
#[test]
fn a_call(rt: HostRuntime) {
    lists(
        &rt,
        rt.alloc(),
        b"int f(){;} int main(){ print(f()); }",
        b"globals 0\nfunc f 0 0 0\nfunc main 2 0 0\n0 const 0\n1 ret\n2 call 0 1 30\n3 print 1 24\n4 const 0\n5 ret\n",
    );
}
