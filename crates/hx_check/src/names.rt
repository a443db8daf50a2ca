// What a name stands for where it is used: a local, or else a global.

ghost use Rattle.std.specs.Prelude.{◌≡◌};
ghost use Rattle.hx_tree.specs.View.{name_of};
ghost use Rattle.hx_resolved.specs.Views.{resolved_expr, resolved_place};
ghost use Rattle.hx_check.specs.Views.{symbols_in, scopes_of};
ghost use Rattle.hx_check.specs.Reading.{check_variable, check_array, check_callee, gives_value, read, write};

use crate::error::CheckError;
use crate::locals::{Scopes, private_word};
use crate::table::Symbols;
use hx_resolved::program::{Expr, Place, Words};
use hx_resolved::symbol::Symbol;
use hx_tree::tree::{Name, Returns};

/// An int that can be read and assigned: a private word of the function, or a store word.
#[derive(Clone, Copy)]
pub enum Variable {
    Private(u32),
    Word(u32),
}

impl Variable {
    /// The variable, read.
    pub(crate) fn read(self) -> Expr
        ensures { resolved_expr result ≡ read self }
    {
        match self {
            Variable::Private(word) => Expr::Private(word),
            Variable::Word(word) => Expr::Word(word),
        }
    }

    /// The variable, assigned to.
    pub(crate) fn write(self) -> Place
        ensures { resolved_place result ≡ write self }
    {
        match self {
            Variable::Private(word) => Place::Private(word),
            Variable::Word(word) => Place::Word(word),
        }
    }
}

/// The int of this name: 20 where the name isn't known, 22 where it is no int.
pub(crate) fn int_named(
    symbols: &Symbols,
    scopes: &Scopes,
    x: &Name,
) -> Result<Variable, CheckError>
    ensures { result ≡ check_variable (name_of x.now) (symbols_in symbols.now) (scopes_of scopes.now) }
{
    if let Some(word) = private_word(scopes, x.text.as_slice()) {
        return Ok(Variable::Private(word));
    }
    match symbols.look_up(x.text.as_slice()) {
        Some(Symbol::Int(word)) => Ok(Variable::Word(word)),
        Some(_) => Err(CheckError::WrongKind(x.pos)),
        None => Err(CheckError::UnknownName(x.pos)),
    }
}

/// The array of this name: 20 where the name isn't known, 22 where it is no array.
pub(crate) fn array_named(symbols: &Symbols, scopes: &Scopes, x: &Name) -> Result<Words, CheckError>
    ensures { result ≡ check_array (name_of x.now) (symbols_in symbols.now) (scopes_of scopes.now) }
{
    if private_word(scopes, x.text.as_slice()).is_some() {
        return Err(CheckError::WrongKind(x.pos));
    }
    match symbols.look_up(x.text.as_slice()) {
        Some(Symbol::Array(base, length)) => Ok(Words { base, length }),
        Some(_) => Err(CheckError::WrongKind(x.pos)),
        None => Err(CheckError::UnknownName(x.pos)),
    }
}

// Whether a function gives a value, where one is wanted.
fn gives_value(is_value: bool, returns: Returns) -> bool
    ensures { result ≡ gives_value is_value returns }
{
    match returns {
        Returns::Int => true,
        Returns::Void => !is_value,
    }
}

/// The number of the function of this name, called with so many arguments: 20 where the name isn't
/// known, 22 where it is no function, or a void one whose value is wanted, 23 where the number of
/// arguments is wrong.
pub(crate) fn function_named(
    symbols: &Symbols,
    scopes: &Scopes,
    is_value: bool,
    f: &Name,
    arguments: usize,
) -> Result<u32, CheckError>
    ensures { result ≡ check_callee is_value (name_of f.now) arguments (symbols_in symbols.now) (scopes_of scopes.now) }
{
    if private_word(scopes, f.text.as_slice()).is_some() {
        return Err(CheckError::WrongKind(f.pos));
    }
    match symbols.look_up(f.text.as_slice()) {
        Some(Symbol::Function(number, returns, parameters)) => {
            if !gives_value(is_value, returns) {
                Err(CheckError::WrongKind(f.pos))
            } else if parameters as usize == arguments {
                Ok(number)
            } else {
                Err(CheckError::WrongCount(f.pos))
            }
        }
        Some(_) => Err(CheckError::WrongKind(f.pos)),
        None => Err(CheckError::UnknownName(f.pos)),
    }
}
