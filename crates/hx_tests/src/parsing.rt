// What no clause says: the places of refusals, that memory suffices, and which tree a text is.

use crate::answers::{expect, is_shown};
use crate::building::{append, copied};
use hx_lex::{Token, tokens};
use hx_parse::{ParseError, parse};
use hx_tree::token::Pos;
use hx_tree::tree::{Item, Part, Program, Stmt};
use std::alloc::{AllocError, Global};
use std::process::Abort;

/// The number of a refusal, and the line and column of its place; zeros for what is not there.
type Answer = (u32, u32, u32);

const TAKEN: Answer = (0, 0, 0);

const TOO_DEEP: Answer = (11, 0, 0);

fn told(outcome: &Result<Program, ParseError>) -> Answer {
    match outcome {
        Ok(_) => TAKEN,
        Err(refusal) => match refusal.pos() {
            None => (refusal.number(), 0, 0),
            Some(pos) => (refusal.number(), pos.line, pos.col),
        },
    }
}

/// How tokens are answered.
fn parsed(alloc: Global, tokens: &[Token<'_>]) -> Answer {
    told(&parse(alloc, tokens))
}

/// How a source is answered; 1 stands for a source without tokens.
fn answer(alloc: Global, source: &[u8]) -> Answer {
    match tokens(alloc, source) {
        Err(_) => (1, 0, 0),
        Ok(all) => parsed(alloc, all.as_slice()),
    }
}

/// Texts in one another: one, another so many times, a third, a fourth as many times, and a fifth.
type Nest = [&'static [u8]; 5];

fn nested(rt: &(impl Abort + Alloc<A = Global>), nest: &Nest, count: usize) -> Vec<u8> {
    let [before, opened, middle, closed, behind] = nest;
    let mut all = copied(rt, before);
    append(rt, &mut all, opened, count);
    append(rt, &mut all, middle, 1);
    append(rt, &mut all, closed, count);
    append(rt, &mut all, behind, 1);
    all
}

/// That texts which stand so many times in one another are answered so.
fn expect_answer(rt: &(impl Abort + Alloc<A = Global>), nest: &Nest, count: usize, wanted: Answer) {
    let source = nested(rt, nest, count);
    let is_right = answer(rt.alloc(), source.as_slice()) == wanted;
    assert!(rt; is_right, "{count} times {}", nest[1].escape_ascii());
}

fn expect_answers(rt: &(impl Abort + Alloc<A = Global>), rows: &[(Nest, usize, Answer)]) {
    for (nest, count, wanted) in rows {
        expect_answer(rt, nest, *count, *wanted);
    }
}

static PLACES: [(&[u8], Answer); 75] = [
    (b"int main(){ print(1) }", (10, 1, 22)),
    (b"int main(){ int x = 1 +; }", (10, 1, 24)),
    (b"int main(){ print(--1); }", (10, 1, 19)),
    (b"int main(){ print(- -1); }", (0, 0, 0)),
    (b"int", (10, 1, 4)),
    (b"", (0, 0, 0)),
    (b"int x", (10, 1, 6)),
    (b"int 7;", (10, 1, 5)),
    (b"int f(){ x 1; }", (10, 1, 12)),
    (b"int f(){ x y; }", (10, 1, 12)),
    (b"int x\n  y;", (10, 2, 3)),
    (b"int do1=1, while1, iff; int main(){}", (0, 0, 0)),
    (b"int while;", (10, 1, 5)),
    (b"int main(){ int do=1; }", (10, 1, 17)),
    (b"int x, f();", (10, 1, 9)),
    (b"void x;", (10, 1, 7)),
    (b"void x = 1;", (10, 1, 8)),
    (b"int x = y;", (10, 1, 9)),
    (b"int x = - - 1;", (10, 1, 11)),
    (b"int x = 1 + 1;", (10, 1, 11)),
    (b"int a[];", (10, 1, 7)),
    (b"int a[-1];", (10, 1, 7)),
    (b"int a[2] = 1;", (10, 1, 12)),
    (b"int a[2] = {};", (10, 1, 13)),
    (b"int a[2] = {1,};", (10, 1, 15)),
    (b"int a[2] = {1, -2}, b = -3;", (0, 0, 0)),
    (b"int a[2][2];", (10, 1, 9)),
    (b"f();", (10, 1, 1)),
    (b"int f(int){}", (10, 1, 10)),
    (b"int f(int a, b){}", (10, 1, 14)),
    (b"int f(int a,){}", (10, 1, 13)),
    (b"int f(void a){}", (10, 1, 12)),
    (b"int f(void, int a){}", (10, 1, 11)),
    (b"int f();", (10, 1, 8)),
    (b"int f(void){} int g(int a, int b){}", (0, 0, 0)),
    (b"int f(){} }", (10, 1, 11)),
    (b"int f(){", (10, 1, 9)),
    (b"int f(){ int a[1]; }", (10, 1, 15)),
    (b"int f(){ x; }", (10, 1, 11)),
    (b"int f(){ 1; }", (10, 1, 10)),
    (b"int f(){ x = ; }", (10, 1, 14)),
    (b"int f(){ x[1]; }", (10, 1, 14)),
    (b"int f(){ x[1](); }", (10, 1, 14)),
    (b"int f(){ x + 1; }", (10, 1, 12)),
    (b"int f(){ ++x; }", (10, 1, 10)),
    (b"int f(){ x++ = 1; }", (10, 1, 14)),
    (b"int f(){ x = y = 1; }", (10, 1, 16)),
    (b"int f(){ f(1,); }", (10, 1, 14)),
    (b"int f(){ f(,1); }", (10, 1, 12)),
    (b"int f(){ f(1 2); }", (10, 1, 14)),
    (b"int f(){ print 1; }", (10, 1, 16)),
    (b"int f(){ print(); }", (10, 1, 16)),
    (b"int f(){ print(1), }", (10, 1, 18)),
    (b"int f(){ else; }", (10, 1, 10)),
    (b"int f(){ if (1) ; else else ; }", (10, 1, 24)),
    (b"int f(){ if (1) int x; }", (10, 1, 17)),
    (b"int f(){ if 1 ; }", (10, 1, 13)),
    (b"int f(){ while () ; }", (10, 1, 17)),
    (b"int f(){ for (;;) }", (10, 1, 19)),
    (b"int f(){ for (;) ; }", (10, 1, 16)),
    (b"int f(){ for (f();;) ; }", (10, 1, 16)),
    (b"int f(){ for (;;int x) ; }", (10, 1, 17)),
    (b"int f(){ for (;;x) ; }", (10, 1, 18)),
    (b"int f(){ break 1; }", (10, 1, 16)),
    (b"int f(){ continue }", (10, 1, 19)),
    (b"int f(){ return ) }", (10, 1, 17)),
    (b"int f(){ return 1 }", (10, 1, 19)),
    (b"int f(){ return 1 = 2; }", (10, 1, 19)),
    (b"int f(){ x = !~-(1); }", (0, 0, 0)),
    (b"int f(){ x = 1 ! 2; }", (10, 1, 16)),
    (b"int f(){ x = a[1; }", (10, 1, 17)),
    (b"int f(){ x = (1; }", (10, 1, 16)),
    (b"int f(){ x = a[1][2]; }", (10, 1, 18)),
    (b"int f(){ x = f(1)(2); }", (10, 1, 18)),
    (b"int f(){ x = 1 && && 2; }", (10, 1, 19)),
];

#[test]
fn faults_have_their_places(rt: HostRuntime) {
    for (source, wanted) in &PLACES {
        let is_right = answer(rt.alloc(), source) == *wanted;
        expect(&rt, is_right, source);
    }
}

/// A program with each construct of the language.
const EACH: &[u8] = b"int g = -1, a[3] = {1, -2}, b;
void p(void) {}
int f(int x, int y) {
    int z, w = x * (y - 2) / 3 % 4;
    ; z = ~x << 1 >> 2; a[z] += !w; a[0]++; z--; f(z, a[1]); p();
    if (x < y && x <= 1 || y > 2) print(x); else emit(f(1, 2));
    while (x != 1) { break; }
    pwhile (x == 2) continue;
    for (int i = 0, j; i >= 1; i++) return x ^ y | z & w;
    for (z = -1; ; ) if (z) ;
    pfor (;;) return;
}";

/// That no program goes on right behind this token.
fn behind(token: &Token<'_>) -> Answer {
    let length = u32::try_from(token.text.len()).unwrap_or(u32::MAX);
    (10, token.pos.line, token.pos.col.saturating_add(length))
}

/// Whether a front of tokens is refused right behind its last token.
fn ends_too_soon(front: &[Token<'_>], found: Answer) -> bool {
    match front.last() {
        Some(token) => found == behind(token),
        None => false,
    }
}

/// How many fronts of these tokens, without the whole, are programs; each other one has to end too soon.
fn count_programs(rt: &impl Abort, alloc: Global, all: &[Token<'_>]) -> u32 {
    let mut count = 0u32;
    for length in 0..all.len() {
        let front = &all[..length];
        let found = parsed(alloc, front);
        if found == TAKEN {
            count = count.saturating_add(1);
        } else {
            assert!(rt; ends_too_soon(front, found), "{length} tokens");
        }
    }
    count
}

/// That of the fronts of these tokens three are programs: nothing, the globals, and these with p.
fn expect_fronts(rt: &(impl Abort + Alloc<A = Global>), all: &[Token<'_>]) {
    expect(rt, parsed(rt.alloc(), all) == TAKEN, b"the whole");
    expect(rt, count_programs(rt, rt.alloc(), all) == 3, b"the fronts");
}

#[test]
fn fronts_end_too_soon(rt: HostRuntime) {
    match tokens(rt.alloc(), EACH) {
        Ok(all) => expect_fronts(&rt, all.as_slice()),
        Err(_) => expect(&rt, false, EACH),
    }
}

/// Whether a statement is an `if` with an `else`.
fn has_else(stmt: &Stmt) -> bool {
    match stmt {
        Stmt::IfElse(_, _, _) => true,
        _ => false,
    }
}

/// Whether a statement is a loop over such an `if`.
fn loops_over_else(stmt: &Stmt) -> bool {
    match stmt {
        Stmt::While(_, _, body) => has_else(body),
        _ => false,
    }
}

/// Whether the parts of a body are one `if` without an `else` before such a loop.
fn are_else_within(parts: &[Part]) -> bool {
    match parts {
        [Part::Stmt(Stmt::If(_, body))] => loops_over_else(body),
        _ => false,
    }
}

/// Whether an item is a function with such a body.
fn has_else_within(item: &Item) -> bool {
    match item {
        Item::Function(main) => are_else_within(main.body.as_slice()),
        Item::Globals(_) => false,
    }
}

/// Whether a program is one such function.
fn is_else_within(program: &Program) -> bool {
    match program.items.as_slice() {
        [item] => has_else_within(item),
        _ => false,
    }
}

/// Whether tokens are read as such a program.
fn reads_else_within(alloc: Global, tokens: &[Token<'_>]) -> bool {
    match parse(alloc, tokens) {
        Ok(program) => is_else_within(&program),
        Err(_) => false,
    }
}

#[test]
fn an_else_goes_to_the_nearest_if(rt: HostRuntime) {
    let source = b"int main(){ if (1) while (2) if (3) ; else ; }";
    match tokens(rt.alloc(), source) {
        Ok(all) => expect(&rt, reads_else_within(rt.alloc(), all.as_slice()), source),
        Err(_) => expect(&rt, false, source),
    }
}

/// `int main(){ print(E); }`, where E is 1 in pairs of parentheses.
const PARENTHESES: Nest = [b"int main(){ print(", b"(", b"1", b")", b"); }"];

const SUM: Nest = [b"int main(){ print(1", b"+1", b"", b"", b"); }"];

/// A function whose body has blocks, each in the one before.
const BLOCKS: Nest = [b"int main(){ ", b"{", b"", b"}", b" }"];

const LIST: Nest = [b"int main(){ f(1", b", 1", b"", b"", b"); }"];

static HEIGHTS: [(Nest, usize, Answer); 7] = [
    // The program, the function, its body and the statement stand above the expression, which has a node for each pair and one.
    (PARENTHESES, 195, TAKEN),
    (PARENTHESES, 196, TOO_DEEP),
    // A sum of so many numbers has a node for each.
    (SUM, 195, TAKEN),
    (SUM, 196, TOO_DEEP),
    // Blocks in the body of a function, which has height 3 with the function and the program.
    (BLOCKS, 197, TAKEN),
    (BLOCKS, 198, TOO_DEEP),
    // A list is no higher than its highest member.
    (LIST, 1000, TAKEN),
];

#[test]
fn the_height_has_a_limit(rt: HostRuntime) {
    expect_answers(&rt, &HEIGHTS);
}

/// Each choice stands in the last part of the one before.
const NESTED_CHOICES: Nest = [b"int main(){ print(", b"1?1:", b"", b"", b"1);  }"];

// The last of these sources has 65,536 bytes.
static CHOICES: [(Nest, usize, Answer); 3] = [
    (NESTED_CHOICES, 195, TAKEN),
    (NESTED_CHOICES, 196, TOO_DEEP),
    (NESTED_CHOICES, 16378, TOO_DEEP),
];

#[test]
fn choices_go_to_the_height_limit(rt: HostRuntime) {
    expect_answers(&rt, &CHOICES);
}

// 197 blocks could still end here; with one more they could not, and a fault behind them may be told or not.
static HIGHEST_FAULTS: [(Nest, usize, Answer); 3] = [
    ([b"int main(){ ", b"{", b"", b"", b")"], 197, (10, 1, 210)),
    ([b"int main(){ ", b"{", b"", b"", b"f;"], 196, (10, 1, 210)),
    (
        [b"int main(){ print(", b"(", b"", b"", b";"],
        195,
        (10, 1, 214),
    ),
];

#[test]
fn a_fault_behind_the_highest_tree_is_one_of_syntax(rt: HostRuntime) {
    expect_answers(&rt, &HIGHEST_FAULTS);
}

static DEEP: [(Nest, usize, Answer); 4] = [
    (
        [b"int main(){ print(", b"(", b"", b"", b""],
        30000,
        TOO_DEEP,
    ),
    ([b"int main()", b"{", b"", b"", b""], 65000, TOO_DEEP),
    (
        [b"int main(){ print(", b"- ", b"", b"", b""],
        30000,
        TOO_DEEP,
    ),
    ([b"int main(){ ", b"if (1) ", b"", b"", b""], 9000, TOO_DEEP),
];

#[test]
fn deep_sources_end_in_a_refusal(rt: HostRuntime) {
    expect_answers(&rt, &DEEP);
}

fn tells(alloc: Global, refusal: ParseError, number: u32, place: Option<Pos>, text: &[u8]) -> bool {
    refusal.number() == number && refusal.pos() == place && is_shown(alloc, &refusal, text)
}

const PLACE: Pos = Pos { line: 3, col: 14 };

static REFUSALS: [(ParseError, u32, Option<Pos>, &[u8]); 2] = [
    (
        ParseError::Syntax(PLACE),
        10,
        Some(PLACE),
        b"no program goes on so at 3:14",
    ),
    (
        ParseError::TooDeep,
        11,
        None,
        b"no program of at most 200 nodes on a path",
    ),
];

#[test]
fn refusals_have_numbers_and_texts(rt: HostRuntime) {
    for (refusal, number, place, text) in &REFUSALS {
        expect(
            &rt,
            tells(rt.alloc(), *refusal, *number, *place, text),
            text,
        );
    }
    let memory = ParseError::from(AllocError);
    let text = b"out of memory";
    expect(&rt, tells(rt.alloc(), memory, 12, None, text), text);
}
