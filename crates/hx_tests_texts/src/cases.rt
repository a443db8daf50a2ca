// Cases as they are told, behind the line of their place.

use hx_case::{case_of_fault, case_of_input, case_of_input_text, case_of_settings, case_of_source};
use hx_tree::outcome::{Fault, FaultKind, Settings};
use hx_tree::token::Pos;
use std::alloc::{AllocError, Global};
use std::process::Abort;
use std::test::Fail;

fn expect(
    rt: &impl Abort,
    found: Result<Vec<u8>, AllocError>,
    wanted: &[u8],
) -> Result<(), AllocError> {
    assert_eq!(rt; found?.as_slice(), wanted);
    Ok(())
}

// That the case of a refusal in the first line is told so, behind the line and the mark.
fn tells(
    rt: &impl Abort,
    alloc: Global,
    source: &[u8],
    number: u32,
    col: u32,
    wanted: &[u8],
) -> Result<(), AllocError> {
    let pos = Pos { line: 1, col };
    let found = case_of_source(alloc, source, number, Some(pos))?;
    let text = found.as_slice();
    let behind = match text.iter().position(|b| *b == b'^') {
        Some(mark) => text.len().min(mark.saturating_add(2)),
        None => text.len(),
    };
    assert_eq!(rt; &text[behind..], wanted);
    Ok(())
}

#[test]
fn points_at_the_place(rt: HostRuntime) -> Result<(), Fail> {
    let source = b"int x;\n\tint \xc3\xa4 $;\r\nint y;";
    let pos = Pos { line: 2, col: 9 };
    let found = case_of_source(rt.alloc(), source, 1, Some(pos));
    let wanted = b"\tint \xc3\xa4 $; \n\t      ^\nNo token begins with '$'.\n";
    expect(&rt, found, wanted)?;
    Ok(())
}

#[test]
fn tells_bytes(rt: HostRuntime) -> Result<(), Fail> {
    let alloc = rt.alloc();
    tells(&rt, alloc, b"int $x;", 1, 5, b"No token begins with '$'.\n")?;
    tells(
        &rt,
        alloc,
        b"int \x01;",
        1,
        5,
        b"No token begins with the byte 1.\n",
    )?;
    let zero = b"'08' begins with 0: there are no octal numbers, and no zeros in front.\n";
    tells(&rt, alloc, b"int x=08;", 2, 7, zero)?;
    let letter = b"'1a' begins like a number and has a letter or an underscore in it.\n";
    tells(&rt, alloc, b"int x=1a;", 2, 7, letter)?;
    let great = b"'2147483648' is greater than 2147483647.\n";
    tells(&rt, alloc, b"int x=2147483648;", 2, 7, great)?;
    Ok(())
}

#[test]
fn tells_what_can_stand(rt: HostRuntime) -> Result<(), Fail> {
    let alloc = rt.alloc();
    let semicolon = b"'}' can't stand here; ';' can.\n";
    tells(&rt, alloc, b"int main(){ print(1) }", 10, 22, semicolon)?;
    let operator = b"'2' can't stand here; an operator or ')' can.\n";
    tells(&rt, alloc, b"int main(){ print(1 2); }", 10, 21, operator)?;
    let expression = b"';' can't stand here; an expression can.\n";
    tells(
        &rt,
        alloc,
        b"int main(){ int x = 1 +; }",
        10,
        24,
        expression,
    )?;
    let item = b"'x' can't stand here; 'int' or 'void' can.\n";
    tells(&rt, alloc, b"x", 10, 1, item)?;
    let name = b"The source can't end here; a name can follow.\n";
    tells(&rt, alloc, b"int", 10, 4, name)?;
    let part = b"'else' can't stand here; a statement, 'int' or '}' can.\n";
    tells(&rt, alloc, b"int main(){ else; }", 10, 13, part)?;
    let place = b"'1' can't stand here; an assignment, '(' or '[' can.\n";
    tells(&rt, alloc, b"int f(){ x 1; }", 10, 12, place)?;
    Ok(())
}

#[test]
fn tells_names(rt: HostRuntime) -> Result<(), Fail> {
    let alloc = rt.alloc();
    tells(
        &rt,
        alloc,
        b"int main(){ x=1; }",
        20,
        13,
        b"'x' isn't declared.\n",
    )?;
    let elsewhere = b"'x' isn't known here, but in another place of this function: \
a local is known from behind its declaration to the end of its block.\n";
    tells(
        &rt,
        alloc,
        b"int main(){ {int x;} x=1; }",
        20,
        22,
        elsewhere,
    )?;
    let first = b"'x' is declared already, at 1:5.\n";
    tells(&rt, alloc, b"int x; int x; int main(){}", 21, 12, first)?;
    let scope = b"'a' is declared in this scope already.\n";
    tells(
        &rt,
        alloc,
        b"int f(int a,int a){} int main(){}",
        21,
        17,
        scope,
    )?;
    let few = b"'f' has 1 parameter, and is called with 0 arguments.\n";
    tells(
        &rt,
        alloc,
        b"int f(int a){ return a; } int main(){ print(f()); }",
        23,
        45,
        few,
    )?;
    let many = b"'f' has 2 parameters, and is called with 3 arguments.\n";
    tells(
        &rt,
        alloc,
        b"int f(int a,int b){} int main(){ f(f(1,2),3,4); }",
        23,
        34,
        many,
    )?;
    let outside = b"This 'break' stands in no loop of its function.\n";
    tells(&rt, alloc, b"int main(){ break; }", 24, 13, outside)?;
    Ok(())
}

#[test]
fn tells_kinds(rt: HostRuntime) -> Result<(), Fail> {
    let alloc = rt.alloc();
    let array = b"'a' is an array, which is read and assigned with an index.\n";
    tells(
        &rt,
        alloc,
        b"int a[4]; int main(){ print(a); }",
        22,
        29,
        array,
    )?;
    let index = b"'a' is an int, and only arrays have an index.\n";
    tells(&rt, alloc, b"int a; int main(){ a[0]=1; }", 22, 20, index)?;
    let local = b"'a' is an int, and only functions are called.\n";
    tells(&rt, alloc, b"int main(){ int a; a(); }", 22, 20, local)?;
    let nothing = b"'g' is a void function, and has no value.\n";
    tells(
        &rt,
        alloc,
        b"void g(){} int main(){ print(g()); }",
        22,
        30,
        nothing,
    )?;
    let function = b"'g' is a function, which is called with parentheses.\n";
    tells(
        &rt,
        alloc,
        b"void g(){} int main(){ print(g); }",
        22,
        30,
        function,
    )?;
    let unsure = b"'g' has an index here, and is no array.\n";
    tells(
        &rt,
        alloc,
        b"int g[2]; int main(){ int g; print(g[0]); }",
        22,
        36,
        unsure,
    )?;
    let none = b"An int function returns a value, and this 'return' has none.\n";
    tells(&rt, alloc, b"int main(){ return; }", 22, 13, none)?;
    let some = b"A void function returns no value, and this 'return' has one.\n";
    tells(
        &rt,
        alloc,
        b"void g(){ return 1; } int main(){}",
        22,
        11,
        some,
    )?;
    Ok(())
}

#[test]
fn tells_limits(rt: HostRuntime) -> Result<(), Fail> {
    let alloc = rt.alloc();
    let empty = b"The array 'a' has length 0, and has to have at least 1.\n";
    tells(&rt, alloc, b"int a[0]; int main(){}", 26, 5, empty)?;
    let long = b"'a' has 262145 elements, and at most 262144 are allowed.\n";
    tells(&rt, alloc, b"int a[262145]; int main(){}", 26, 5, long)?;
    let initialisers = b"'a' has 3 initialisers, and at most 2 are allowed.\n";
    tells(
        &rt,
        alloc,
        b"int a[2]={1,2,3}; int main(){}",
        26,
        5,
        initialisers,
    )?;
    let all = b"With 'b' all globals together pass 262144 words.\n";
    tells(&rt, alloc, b"int a[262144],b; int main(){}", 26, 15, all)?;
    let nine = b"'f' has 9 parameters, and at most 8 are allowed.\n";
    let source = b"int f(int a,int b,int c,int d,int e,int f,int g,int h,int i){} int main(){}";
    tells(&rt, alloc, source, 26, 5, nine)?;
    Ok(())
}

// A missing `main`, which has no place.
fn tells_main(
    rt: &impl Abort,
    alloc: Global,
    source: &[u8],
    wanted: &[u8],
) -> Result<(), AllocError> {
    expect(rt, case_of_source(alloc, source, 25, None), wanted)
}

#[test]
fn tells_mains(rt: HostRuntime) -> Result<(), Fail> {
    let alloc = rt.alloc();
    tells_main(&rt, alloc, b"", b"There is no function 'main'.\n")?;
    tells_main(
        &rt,
        alloc,
        b"int main;",
        b"'main' is a variable, and has to be a function.\n",
    )?;
    let void = b"'main' is a void function, and has to return an int.\n";
    tells_main(&rt, alloc, b"void main(){}", void)?;
    let given = b"'main' has parameters, and may have none.\n";
    tells_main(&rt, alloc, b"int main(int n){}", given)?;
    Ok(())
}

#[test]
fn tells_inputs_and_settings(rt: HostRuntime) -> Result<(), Fail> {
    let alloc = rt.alloc();
    let room = b"The input has 4 numbers, and the array 'in' has room for 3.\n";
    expect(
        &rt,
        case_of_input(alloc, b"int in[3]; int main(){}", 4),
        room,
    )?;
    let none = b"The input has 1 number, and the program has no global array 'in'.\n";
    expect(&rt, case_of_input(alloc, b"int in; int main(){}", 1), none)?;
    let words: [(&[u8], &[u8]); 5] = [
        (b"5 -7 07", b"'07' is no number of the input.\n"),
        (
            b"-2147483648\n2147483647 -0",
            b"'-0' is no number of the input.\n",
        ),
        (b"2147483648", b"'2147483648' is no number of the input.\n"),
        (b"0 1,2", b"'1,2' is no number of the input.\n"),
        (b"9999999999", b"'9999999999' is no number of the input.\n"),
    ];
    for (text, wanted) in words {
        expect(&rt, case_of_input_text(alloc, text), wanted)?;
    }
    let settings = Settings {
        workers: 17,
        marks: 512,
        buffer: 64,
    };
    let workers = b"--workers 17 is out of range: it goes from 1 to 16.\n";
    expect(&rt, case_of_settings(alloc, settings), workers)?;
    let settings = Settings {
        workers: 8,
        marks: 4096,
        buffer: 4097,
    };
    let buffer = b"--buffer 4097 is out of range: it goes from 1 to 4096.\n";
    expect(&rt, case_of_settings(alloc, settings), buffer)?;
    Ok(())
}

#[test]
fn tells_faults(rt: HostRuntime) -> Result<(), Fail> {
    let source = b"int a[4]; int main(){ a[4]=1; }";
    let fault = Fault {
        kind: FaultKind::IndexOutOfRange,
        pos: Pos { line: 1, col: 23 },
    };
    let found = case_of_fault(rt.alloc(), source, fault);
    let wanted = b"int a[4]; int main(){ a[4]=1; }\n                      ^\n\
The index isn't one of 'a', which go from 0 to 3.\n";
    expect(&rt, found, wanted)?;
    Ok(())
}
