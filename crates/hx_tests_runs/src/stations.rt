// Workers that stay from loop to loop.

use crate::answers::{NORMAL, Row, expect_by, is_as, run_of};
use hx_run::Unwatched;
use hx_tree::outcome::Settings;

// A thousand short loops, each of two turns that add to one global.
static THOUSAND: Row<'static> = Row {
    source: b"int c; int main(){ int k; for(k=0;k<1000;k++) pfor(int i=0;i<2;i++) c+=k; print(c); }",
    text: b"999000\n",
    globals: Some(&[999000]),
    regions: 1000,
    turns: 2000,
    ..NORMAL
};

#[test]
fn a_thousand_loops(rt: HostRuntime) {
    for workers in [1, 2, 8] {
        let settings = Settings {
            workers,
            marks: 512,
            buffer: 64,
        };
        let counted = run_of(&rt, rt.alloc(), &THOUSAND, settings, &Unwatched);
        expect_by(&rt, is_as(&THOUSAND, counted), THOUSAND.source, settings);
    }
}
