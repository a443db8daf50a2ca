// The list of refusals of docs/LANGUAGE.md, and its table of sources. docs/write_test.sh writes this file.

use hx_explain::refusal_texts;
use hx_run::compile;
use hx_tree::token::Pos;

const NUMBERS: &[u32] = &[
    1, 2, 3, 4, 5, 6, 10, 11, 12, 20, 21, 22, 23, 24, 25, 26, 27, 30, 40, 41, 50, 60, 61, 62, 63,
    64, 65,
];

// A source, the number of its refusal, and the line and column of its place, or zeros.
const ROWS: &[(&[u8], u32, u32, u32)] = &[
    (b"", 25, 0, 0),
    (b"/* x", 3, 1, 1),
    (b"int $x;", 1, 1, 5),
    (b"int main(){ int x=08; }", 2, 1, 19),
    (b"int", 10, 1, 4),
    (b"int main(){ int x = 1 +; }", 10, 1, 24),
    (b"int main(){ print(--1); }", 10, 1, 19),
    (b"int f(){ return x; } int main(){}", 20, 1, 17),
    (b"int x; int x; int main(){}", 21, 1, 12),
    (b"int f(int a,int a){} int main(){}", 21, 1, 17),
    (b"void g(){} int main(){ print(g()); }", 22, 1, 30),
    (
        b"int f(int a){ return a; } int main(){ print(f()); }",
        23,
        1,
        45,
    ),
    (b"int main(){ break; }", 24, 1, 13),
    (b"int a[0]; int main(){}", 26, 1, 5),
];

#[test]
fn lists_the_numbers_that_are_explained(rt: HostRuntime) {
    for number in 0..100u32 {
        let is_listed = NUMBERS.contains(&number);
        assert_eq!(&rt; refusal_texts(number).is_some(), is_listed);
    }
}

#[test]
fn lists_sources_with_their_answers(rt: HostRuntime) {
    for (source, number, line, col) in ROWS {
        match compile(rt.alloc(), source) {
            Ok(_) => assert!(&rt; false),
            Err(refusal) => {
                let pos = refusal.pos().unwrap_or(Pos { line: 0, col: 0 });
                assert_eq!(&rt; refusal.number(), *number);
                assert_eq!(&rt; [pos.line, pos.col], [*line, *col]);
            }
        }
    }
}
