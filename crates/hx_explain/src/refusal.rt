// What the numbers of refusals mean, by the stage that refuses.

ghost use Rattle.std.specs.Prelude.{◌≡◌, is_some};
ghost use Rattle.hx_explain.specs.Numbers.{is_memory, is_of_names, is_of_runs, is_of_tokens, is_of_tree, is_of_uses, is_refusal};

use crate::row::{Explanation, explained};

// The tokens: 1 to 5.
fn of_tokens(number: u32) -> Option<Explanation>
    ensures { is_some result ≡ is_of_tokens number }
{
    if number == 1 {
        explained(
            "A byte that begins no token stands outside comments.",
            "int $x; int main(){}",
            "int x; int main(){}",
        )
    } else if number == 2 {
        explained(
            "A number is no decimal up to 2147483647 without leading zeros.",
            "int main(){ print(08); }",
            "int main(){ print(8); }",
        )
    } else if number == 3 {
        explained(
            "A comment '/*' isn't closed.",
            "int main(){} /* the end",
            "int main(){} /* the end */",
        )
    } else if number == 4 {
        explained(
            "A name has more than 63 bytes.",
            "int a234567890123456789012345678901234567890123456789012345678901234; int main(){}",
            "int a23456789012345678901234567890123456789012345678901234567890123; int main(){}",
        )
    } else if number == 5 {
        explained(
            "The source has more than 65,536 bytes.",
            "int main(){} and 65,525 blanks",
            "int main(){}",
        )
    } else {
        None
    }
}

// The tree: 10 and 11.
fn of_tree(number: u32) -> Option<Explanation>
    ensures { is_some result ≡ is_of_tree number }
{
    if number == 10 {
        explained(
            "The tokens spell no program. The place is the first token that can't stand there; what is missing belongs before it.",
            "int main(){ print(1) }",
            "int main(){ print(1); }",
        )
    } else if number == 11 {
        explained(
            "The program's tree is higher than 200: statements, expressions or parentheses stand too deep in one another.",
            "int main(){ print(1); } with 196 pairs of parentheses round the 1",
            "int main(){ print(1); }",
        )
    } else {
        None
    }
}

// Names and their kinds: 20 to 23.
fn of_names(number: u32) -> Option<Explanation>
    ensures { is_some result ≡ is_of_names number }
{
    if number == 20 {
        explained(
            "A name isn't known where it stands.",
            "int main(){ x=1; }",
            "int main(){ int x; x=1; }",
        )
    } else if number == 21 {
        explained(
            "A name is declared twice in one scope. The place is the second one.",
            "int x; int x; int main(){}",
            "int x; int y; int main(){}",
        )
    } else if number == 22 {
        explained(
            "A name is used as what it isn't: an array without an index, an index on no array, a function as a variable, a variable called, a void function's value; or a 'return' doesn't fit its function.",
            "int a[4]; int main(){ print(a); }",
            "int a[4]; int main(){ print(a[0]); }",
        )
    } else if number == 23 {
        explained(
            "A call has more or fewer arguments than the function has parameters.",
            "int f(int a){ return a; } int main(){ print(f()); }",
            "int f(int a){ return a; } int main(){ print(f(1)); }",
        )
    } else {
        None
    }
}

// What stands where it can't, and limits: 24 to 26.
fn of_uses(number: u32) -> Option<Explanation>
    ensures { is_some result ≡ is_of_uses number }
{
    if number == 24 {
        explained(
            "'break' or 'continue' stands outside a loop.",
            "int main(){ break; }",
            "int main(){ while(1) break; }",
        )
    } else if number == 25 {
        explained(
            "There is no 'int main()' without parameters.",
            "void main(){}",
            "int main(){}",
        )
    } else if number == 26 {
        explained(
            "A limit is passed: of functions, parameters, locals, operands or global words; or an array has length 0, or fewer elements than initialisers.",
            "int a[0]; int main(){}",
            "int a[1]; int main(){}",
        )
    } else {
        None
    }
}

// Schedules, settings and input: 40, 60, 61 and 65; and what fails as it is read or written: 63 and 64.
fn of_runs(number: u32) -> Option<Explanation>
    ensures { is_some result ≡ is_of_runs number }
{
    if number == 40 {
        explained(
            "A byte of the schedule is no digit, or the digit of no worker: with N workers the digits go from 0 to N - 1, where a to f stand for 10 to 15.",
            "hydra replay FILE 012 --workers 2",
            "hydra replay FILE 011 --workers 2",
        )
    } else if number == 60 {
        explained(
            "The settings are out of range: 1 to 16 workers, and 1 to 4096 words for the marks and for the buffer each.",
            "hydra run FILE --workers 0",
            "hydra run FILE --workers 2",
        )
    } else if number == 61 {
        explained(
            "The input is longer than the global array 'in', or there is no such array.",
            "int main(){} with the input 1 2",
            "int in[2]; int main(){} with the input 1 2",
        )
    } else if number == 63 {
        explained(
            "A file doesn't open, or a read of it failed. It is told as 'hydra: read failed'.",
            "hydra run no-such-file",
            "hydra run FILE",
        )
    } else if number == 64 {
        explained(
            "A write failed, and a beginning of the output may be written. It is told as 'hydra: write failed'.",
            "hydra run FILE > /dev/full",
            "hydra run FILE",
        )
    } else if number == 65 {
        explained(
            "The input text is no list of decimals of 32 bits with white space between them, or has more than 1,048,576 bytes.",
            "the input 07",
            "the input 7",
        )
    } else {
        None
    }
}

// Want of memory, by the stage that asked for it: 6, 12, 27, 30, 41, 50 and 62.
fn of_memory(number: u32) -> Option<Explanation>
    ensures { is_some result ≡ is_memory number }
{
    if matches!(number, 6 | 12 | 27 | 30 | 41 | 50 | 62) {
        explained(
            "Memory was refused, and nothing is said of the source. It is told as 'hydra: memory'.",
            "any source, where there is no memory",
            "the same source, where there is",
        )
    } else {
        None
    }
}

/// What a refusal's number means: there are texts for 1 to 6, 10 to 12, 20 to 27, 30, 40, 41, 50 and 60 to 65, and for no other number.
pub fn refusal_texts(number: u32) -> Option<Explanation>
    ensures { is_some result ≡ is_refusal number }
{
    let found = of_tokens(number).or(of_tree(number));
    let found = found.or(of_names(number)).or(of_uses(number));
    found.or(of_runs(number)).or(of_memory(number))
}
