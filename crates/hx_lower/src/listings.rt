// Code as text.

ghost use Rattle.std.specs.Prelude.{◌≡◌, ◌++◌, OnOk, IfOk, decimal};
ghost use Rattle.hx_lower.specs.Listing.{number_behind, signed_behind, line_end, place_behind, unary_name, operator_name, word_name as name_of_word, array_behind, operator_behind, operands_behind, word_behind, words_behind, function_behind, functions_behind, carried_behind, copied_behind, induct_behind, region_behind, regions_behind, listing_of};

use hx_code::code::Code;
use hx_code::table::{Carried, Func, Induct, Region};
use hx_code::word::{Array, Word};
use hx_tree::token::Pos;
use hx_tree::tree::{Operator, UnaryOp};
use itoa::Buffer;
use std::alloc::{AllocError, Global};

/// The listing of code: how many words the globals have, the functions, the regions, and the words, each on a line of
/// its own. Numbers are in decimal.
pub fn listing(alloc: Global, code: &Code) -> Result<Vec<u8>, AllocError>
    ensures { IfOk result (λ text. text.items ≡ listing_of code.now) }
{
    let mut text = Vec::from_slice(alloc, b"globals")?;
    put_number(&mut text, code.globals())?;
    end_line(&mut text)?;
    put_functions(&mut text, code.functions())?;
    put_regions(&mut text, code.regions())?;
    put_words(&mut text, code.words())?;
    Ok(text)
}

fn put_digits(text: &mut Vec<u8>, n: u64) -> Result<(), AllocError>
    ensures { OnOk result (text.new.items ≡ text.old.items ++ decimal n) }
{
    text.extend_from_slice(Buffer::new().format(n).as_bytes())
}

fn put_number(text: &mut Vec<u8>, n: u32) -> Result<(), AllocError>
    ensures { OnOk result (text.new.items ≡ number_behind n text.old.items) }
{
    text.extend_from_slice(b" ")?;
    put_digits(text, u64::from(n))
}

fn put_signed(text: &mut Vec<u8>, n: i32) -> Result<(), AllocError>
    ensures { OnOk result (text.new.items ≡ signed_behind n text.old.items) }
{
    text.extend_from_slice(b" ")?;
    text.extend_from_slice(Buffer::new().format(n).as_bytes())
}

fn end_line(text: &mut Vec<u8>) -> Result<(), AllocError>
    ensures { OnOk result (text.new.items ≡ line_end text.old.items) }
{
    text.extend_from_slice(b"\n")
}

fn put_place(text: &mut Vec<u8>, at: Pos) -> Result<(), AllocError>
    ensures { OnOk result (text.new.items ≡ place_behind at text.old.items) }
{
    put_number(text, at.line)?;
    put_number(text, at.col)
}

fn put_functions(text: &mut Vec<u8>, functions: &[Func]) -> Result<(), AllocError>
    ensures { OnOk result (text.new.items ≡ functions_behind functions.now text.old.items) }
{
    for function in functions {
        put_function(text, function)?;
    }
    Ok(())
}

fn put_function(text: &mut Vec<u8>, function: &Func) -> Result<(), AllocError>
    ensures { OnOk result (text.new.items ≡ function_behind function.now text.old.items) }
{
    text.extend_from_slice(b"func ")?;
    text.extend_from_slice(&function.name)?;
    put_number(text, function.entry)?;
    put_number(text, function.parameters)?;
    put_number(text, function.privates)?;
    end_line(text)
}

fn put_regions(text: &mut Vec<u8>, regions: &[Region]) -> Result<(), AllocError>
    ensures { OnOk result (text.new.items ≡ regions_behind regions.now text.old.items) }
{
    for region in regions {
        put_region(text, region)?;
    }
    Ok(())
}

fn put_region(text: &mut Vec<u8>, region: &Region) -> Result<(), AllocError>
    ensures { OnOk result (text.new.items ≡ region_behind region.now text.old.items) }
{
    text.extend_from_slice(b"region")?;
    put_number(text, region.start)?;
    put_number(text, region.exit)?;
    text.extend_from_slice(b" carried")?;
    put_carried(text, &region.carried)?;
    text.extend_from_slice(b" copied")?;
    put_copied(text, &region.copied)?;
    put_induct(text, region.induct)?;
    end_line(text)
}

fn put_carried(text: &mut Vec<u8>, carried: &[Carried]) -> Result<(), AllocError>
    ensures { OnOk result (text.new.items ≡ carried_behind carried.now text.old.items) }
{
    for c in carried {
        put_number(text, c.private)?;
        text.extend_from_slice(b"=")?;
        put_digits(text, u64::from(c.cell))?;
    }
    Ok(())
}

fn put_copied(text: &mut Vec<u8>, copied: &[u32]) -> Result<(), AllocError>
    ensures { OnOk result (text.new.items ≡ copied_behind copied.now text.old.items) }
{
    for k in copied {
        put_number(text, *k)?;
    }
    Ok(())
}

fn put_induct(text: &mut Vec<u8>, induct: Option<Induct>) -> Result<(), AllocError>
    ensures { OnOk result (text.new.items ≡ induct_behind induct text.old.items) }
{
    match induct {
        None => Ok(()),
        Some(induct) => {
            text.extend_from_slice(b" induct")?;
            put_number(text, induct.private)?;
            put_signed(text, induct.step)
        }
    }
}

fn put_words(text: &mut Vec<u8>, words: &[Word]) -> Result<(), AllocError>
    ensures { OnOk result (text.new.items ≡ words_behind words.now 0 text.old.items) }
{
    for (place, word) in words.iter().enumerate() {
        put_word(text, place as u64, *word)?;
    }
    Ok(())
}

fn put_word(text: &mut Vec<u8>, place: u64, word: Word) -> Result<(), AllocError>
    ensures { OnOk result (text.new.items ≡ word_behind place word text.old.items) }
{
    put_digits(text, place)?;
    text.extend_from_slice(b" ")?;
    text.extend_from_slice(word_name(word))?;
    put_operands(text, word)?;
    end_line(text)
}

fn put_operands(text: &mut Vec<u8>, word: Word) -> Result<(), AllocError>
    ensures { OnOk result (text.new.items ≡ operands_behind word text.old.items) }
{
    match word {
        Word::Const(n) => put_signed(text, n),
        Word::Priv(k) => put_number(text, k),
        Word::SetPriv(k) => put_number(text, k),
        Word::Glob(address) => put_number(text, address),
        Word::SetGlob(address) => put_number(text, address),
        Word::Elem(array, at) => put_array(text, array, at),
        Word::SetElem(array, at) => put_array(text, array, at),
        Word::Binary(op, at) => put_operator(text, op, at),
        Word::Jump(to) => put_number(text, to),
        Word::JumpFalse(to) => put_number(text, to),
        Word::JumpTrue(to) => put_number(text, to),
        Word::Call(function, at) => {
            put_number(text, function)?;
            put_place(text, at)
        }
        Word::Print(at) => put_place(text, at),
        Word::Emit(at) => put_place(text, at),
        Word::Enter(region, to) => {
            put_number(text, region)?;
            put_number(text, to)
        }
        Word::Dup | Word::Drop | Word::Unary(_) | Word::Ret | Word::Turn | Word::Leave => Ok(()),
    }
}

fn put_array(text: &mut Vec<u8>, array: Array, at: Pos) -> Result<(), AllocError>
    ensures { OnOk result (text.new.items ≡ array_behind array at text.old.items) }
{
    put_number(text, array.base)?;
    put_number(text, array.length)?;
    put_place(text, at)
}

fn put_operator(text: &mut Vec<u8>, op: Operator, at: Pos) -> Result<(), AllocError>
    ensures { OnOk result (text.new.items ≡ operator_behind op at text.old.items) }
{
    match op {
        Operator::Div => put_place(text, at),
        Operator::Rem => put_place(text, at),
        _ => Ok(()),
    }
}

fn word_name(word: Word) -> &'static [u8]
    ensures { result.now ≡ name_of_word word }
{
    match word {
        Word::Const(_) => b"const",
        Word::Priv(_) => b"priv",
        Word::SetPriv(_) => b"setpriv",
        Word::Glob(_) => b"glob",
        Word::SetGlob(_) => b"setglob",
        Word::Elem(_, _) => b"elem",
        Word::SetElem(_, _) => b"setelem",
        Word::Dup => b"dup",
        Word::Drop => b"drop",
        Word::Unary(op) => name_of_unary(op),
        Word::Binary(op, _) => name_of_operator(op),
        Word::Jump(_) => b"jump",
        Word::JumpFalse(_) => b"jfalse",
        Word::JumpTrue(_) => b"jtrue",
        Word::Call(_, _) => b"call",
        Word::Ret => b"ret",
        Word::Print(_) => b"print",
        Word::Emit(_) => b"emit",
        Word::Enter(_, _) => b"enter",
        Word::Turn => b"turn",
        Word::Leave => b"leave",
    }
}

fn name_of_unary(op: UnaryOp) -> &'static [u8]
    ensures { result.now ≡ unary_name op }
{
    match op {
        UnaryOp::Negate => b"neg",
        UnaryOp::Not => b"not",
        UnaryOp::Invert => b"inv",
    }
}

fn name_of_operator(op: Operator) -> &'static [u8]
    ensures { result.now ≡ operator_name op }
{
    match op {
        Operator::Mul => b"mul",
        Operator::Div => b"div",
        Operator::Rem => b"rem",
        Operator::Add => b"add",
        Operator::Sub => b"sub",
        Operator::ShiftLeft => b"shl",
        Operator::ShiftRight => b"shr",
        Operator::Less => b"lt",
        Operator::LessEqual => b"le",
        Operator::Greater => b"gt",
        Operator::GreaterEqual => b"ge",
        Operator::Equal => b"eq",
        Operator::NotEqual => b"ne",
        Operator::BitAnd => b"and",
        Operator::BitXor => b"xor",
        Operator::BitOr => b"or",
    }
}
