// The global names of a program, declared item by item.

ghost use Rattle.std.specs.Prelude.{◌≡◌, ◌+◌, ◌≤◌, OnOk, IfOk, IsTrue, None, Some, [], ◌∷◌, ◌++◌, map};
ghost use Rattle.hx_tree.specs.Tree.{param_names};
ghost use Rattle.hx_tree.specs.View.{name_of, global_of, shape_of, params_of, func_of, item_of};
ghost use Rattle.hx_tree.specs.World.{look_up};
ghost use Rattle.hx_tree.specs.Accepted.{shape_words};
ghost use Rattle.hx_resolved.specs.Symbols.{symbol_at};
ghost use Rattle.hx_check.specs.Views.{pair_of, symbols_in, declared_of};
ghost use Rattle.hx_check.specs.Reading.{IsReading, IsReadingNext, check_free, constants_fit, shape_fits, declare_global, declare_function, declare_globals, declare_items, nothing_declared, check_main, same};

use crate::error::CheckError;
use crate::table::Symbols;
use hx_resolved::symbol::Symbol;
use hx_tree::limits::{ARRAY_LIMIT, CONSTANT_LIMIT, FUNCTION_LIMIT, GLOBAL_LIMIT, PARAMETER_LIMIT};
use hx_tree::tree::{Constant, Func, GlobalDecl, Item, Name, Params, Returns, Shape};
use indexmap::IndexMap;
use std::alloc::{AllocError, Global};

/// The parameters of a function.
pub(crate) fn param_names(params: &Params) -> &[Name]
    ensures { map name_of result.now ≡ param_names (params_of params.now) }
{
    match params {
        Params::Nothing => &[],
        Params::Void => &[],
        Params::Names(names) => names.as_slice(),
    }
}

fn constants_fit(constants: &[Constant]) -> bool
    ensures { result ≡ constants_fit constants.now }
{
    for constant in constants {
        if constant.number > CONSTANT_LIMIT {
            return false;
        }
    }
    true
}

fn shape_fits(shape: &Shape) -> bool
    ensures { result ≡ shape_fits (shape_of shape.now) }
{
    match shape {
        Shape::Int(None) => true,
        Shape::Int(Some(constant)) => constant.number <= CONSTANT_LIMIT,
        Shape::Array(length, constants) => {
            *length >= 1
                && *length <= ARRAY_LIMIT
                && constants.len() <= *length as usize
                && constants_fit(constants)
        }
    }
}

fn shape_words(shape: &Shape) -> u32
    ensures { result ≡ shape_words (shape_of shape.now) }
{
    match shape {
        Shape::Int(_) => 1,
        Shape::Array(length, _) => *length,
    }
}

fn symbol_at(shape: &Shape, word: u32) -> Symbol
    ensures { result ≡ symbol_at (shape_of shape.now) word }
{
    match shape {
        Shape::Int(_) => Symbol::Int(word),
        Shape::Array(length, _) => Symbol::Array(word, *length),
    }
}

/// Adds a name that the table doesn't have.
fn insert(
    alloc: Global,
    table: &mut IndexMap<Vec<u8>, Symbol>,
    text: &[u8],
    symbol: Symbol,
) -> Result<(), AllocError>
    requires { look_up (map pair_of table.old.entries) text.now ≡ None }
    ensures { OnOk result (map pair_of table.new.entries ≡ map pair_of table.old.entries ++ (text.now, symbol) ∷ []) }
{
    let key = Vec::from_slice(alloc, text)?;
    table.insert(key, symbol)?;
    Ok(())
}

impl Symbols {
    /// What a name stands for, where it is declared.
    pub(crate) fn look_up(&self, text: &[u8]) -> Option<Symbol>
        ensures { result ≡ look_up (symbols_in self.now) text.now }
    {
        self.table.get(text).copied()
    }

    /// Refuses a name that is declared already.
    fn check_free(&self, x: &Name) -> Result<(), CheckError>
        ensures { result ≡ check_free (name_of x.now) (declared_of self.now) }
    {
        if self.look_up(x.text.as_slice()).is_some() {
            return Err(CheckError::DoubledName(x.pos));
        }
        Ok(())
    }

    /// Declares a global.
    fn declare_global(&mut self, alloc: Global, global: &GlobalDecl) -> Result<(), CheckError>
        ensures { IsReadingNext (declare_global (global_of global.now) (declared_of self.old)) (declared_of self.new) result }
    {
        self.check_free(&global.name)?;
        if !shape_fits(&global.shape) {
            return Err(CheckError::LimitPassed(global.name.pos));
        }
        let words = self.words + shape_words(&global.shape);
        if words as usize > GLOBAL_LIMIT {
            return Err(CheckError::LimitPassed(global.name.pos));
        }
        let symbol = symbol_at(&global.shape, self.words);
        insert(alloc, &mut self.table, global.name.text.as_slice(), symbol)?;
        self.words = words;
        Ok(())
    }

    /// Declares a function.
    fn declare_function(&mut self, alloc: Global, f: &Func) -> Result<(), CheckError>
        ensures { IsReadingNext (declare_function (func_of f.now) (declared_of self.old)) (declared_of self.new) result }
    {
        self.check_free(&f.name)?;
        if self.functions as usize >= FUNCTION_LIMIT {
            return Err(CheckError::LimitPassed(f.name.pos));
        }
        let parameters = param_names(&f.params).len();
        if parameters > PARAMETER_LIMIT {
            return Err(CheckError::LimitPassed(f.name.pos));
        }
        let symbol = Symbol::Function(self.functions, f.returns, parameters as u32);
        insert(alloc, &mut self.table, f.name.text.as_slice(), symbol)?;
        self.functions += 1;
        Ok(())
    }

    fn declare_globals(&mut self, alloc: Global, globals: &[GlobalDecl]) -> Result<(), CheckError>
        ensures { IsReadingNext (declare_globals (map global_of globals.now) (declared_of self.old)) (declared_of self.new) result }
    {
        for global in globals {
            self.declare_global(alloc, global)?;
        }
        Ok(())
    }

    /// Declares all names of a program, in source order.
    pub(crate) fn of_items(alloc: Global, items: &[Item]) -> Result<Symbols, CheckError>
        ensures { IsReading (declare_items (map item_of items.now) nothing_declared) declared_of result }
    {
        let mut symbols = Symbols {
            table: IndexMap::new(alloc),
            words: 0,
            functions: 0,
        };
        for item in items {
            match item {
                Item::Globals(globals) => symbols.declare_globals(alloc, globals)?,
                Item::Function(f) => symbols.declare_function(alloc, f)?,
            }
        }
        Ok(symbols)
    }

    /// The number of the function `int main()`.
    pub(crate) fn main(&self) -> Result<u32, CheckError>
        ensures { IsReading (check_main (symbols_in self.now)) same result }
    {
        match self.look_up(b"main") {
            Some(Symbol::Function(number, Returns::Int, 0)) => Ok(number),
            _ => Err(CheckError::NoMain),
        }
    }
}
