// Declarations of globals, functions, and the items of a program.

ghost use Rattle.std.specs.Prelude.{◌≡◌, ◌<◌, ◌≤◌, map, length, OnOk};
ghost use Rattle.hx_tree.specs.View.{name_of, shape_of, global_of, params_of, item_of};
ghost use Rattle.hx_grammar.specs.Reading.{listed, listed_from, constant_at, values_at, shape_at, global_at, globals_at, param_at, params_at, function_at, int_item_at, void_item_at, item_at, all_of, until_end};
ghost use Rattle.hx_parse.specs.Gives.{Gives, itself};

use crate::error::{ParseError, both, pushed};
use crate::parser::Parser;
use hx_tree::token::Mark;
use hx_tree::tree::{Constant, Func, GlobalDecl, Item, Name, Params, Returns, Shape};

impl<'t, 's> Parser<'t, 's> {
    // ---- declarations of globals

    /// A number, with a sign or without.
    #[tactic(auto, unfolding(hx_grammar::specs::Reading::constant_at), using(crate::proofs::Marks::behind_shorter))]
    fn constant(&mut self) -> Result<Constant, ParseError>
        ensures read { Gives itself result self.new (constant_at self.old) }
        ensures shorter { OnOk result (length self.new < length self.old) }
    {
        if self.take(Mark::Minus) {
            let number = self.number()?;
            return Ok(Constant {
                is_negated: true,
                number,
            });
        }
        let number = self.number()?;
        Ok(Constant {
            is_negated: false,
            number,
        })
    }

    /// One constant or more, with commas between.
    fn constants(&mut self) -> Result<Vec<Constant>, ParseError>
        ensures read { Gives (λ v. v.items) result self.new (listed constant_at self.old) }
        ensures shorter { OnOk result (length self.new < length self.old) }
    {
        let mut all = pushed(Vec::new(self.alloc), self.constant())?;
        while self.take(Mark::Comma) {
            all = pushed(all, self.constant())?;
        }
        Ok(all)
    }

    /// The initialisers of an array, if they are there.
    #[tactic(auto, unfolding(hx_grammar::specs::Reading::values_at), using(crate::proofs::Marks::behind_shorter))]
    fn values(&mut self) -> Result<Vec<Constant>, ParseError>
        ensures read { Gives (λ v. v.items) result self.new (values_at self.old) }
        ensures shorter { OnOk result (length self.new ≤ length self.old) }
    {
        if self.take(Mark::Assign) {
            self.expect(Mark::OpenBrace)?;
            let all = self.constants();
            return self.closed(all, Mark::CloseBrace);
        }
        Ok(Vec::new(self.alloc))
    }

    /// What stands behind the name of a global.
    #[tactic(auto, unfolding(hx_grammar::specs::Reading::shape_at), using(crate::proofs::Marks::behind_shorter))]
    fn shape(&mut self) -> Result<Shape, ParseError>
        ensures read { Gives shape_of result self.new (shape_at self.old) }
        ensures shorter { OnOk result (length self.new ≤ length self.old) }
    {
        if self.take(Mark::OpenBracket) {
            let words = self.number();
            let words = self.closed(words, Mark::CloseBracket)?;
            let values = self.values()?;
            return Ok(Shape::Array(words, values));
        }
        if self.take(Mark::Assign) {
            let value = self.constant()?;
            return Ok(Shape::Int(Some(value)));
        }
        Ok(Shape::Int(None))
    }

    /// A global of a declaration.
    #[tactic(auto, unfolding(hx_grammar::specs::Reading::global_at))]
    fn global(&mut self) -> Result<GlobalDecl, ParseError>
        ensures read { Gives global_of result self.new (global_at self.old) }
        ensures shorter { OnOk result (length self.new < length self.old) }
    {
        let name = self.name()?;
        let shape = self.shape()?;
        Ok(GlobalDecl { name, shape })
    }

    /// The further globals of a declaration, each behind a comma, with the first before them.
    fn further_globals(&mut self, first: GlobalDecl) -> Result<Vec<GlobalDecl>, ParseError>
        ensures read { Gives (λ v. map global_of v.items) result self.new (listed_from global_at (global_of first) self.old) }
        ensures shorter { OnOk result (length self.new ≤ length self.old) }
    {
        let mut all = Vec::new(self.alloc);
        all.push(first)?;
        while self.take(Mark::Comma) {
            all = pushed(all, self.global())?;
        }
        Ok(all)
    }

    /// The declaration of globals, where the `int` and the first name are taken.
    #[tactic(auto, unfolding(hx_grammar::specs::Reading::globals_at))]
    fn globals(&mut self, name: Name) -> Result<Item, ParseError>
        ensures read { Gives item_of result self.new (globals_at (name_of name) self.old) }
        ensures shorter { OnOk result (length self.new < length self.old) }
    {
        let (name, shape) = both(name, self.shape())?;
        let all = self.further_globals(GlobalDecl { name, shape });
        let all = self.closed(all, Mark::Semicolon)?;
        Ok(Item::Globals(all))
    }

    // ---- functions

    /// A parameter.
    #[tactic(auto, unfolding(hx_grammar::specs::Reading::param_at))]
    fn parameter(&mut self) -> Result<Name, ParseError>
        ensures read { Gives name_of result self.new (param_at self.old) }
        ensures shorter { OnOk result (length self.new < length self.old) }
    {
        self.expect(Mark::Int)?;
        self.name()
    }

    /// One parameter or more, with commas between.
    fn parameters(&mut self) -> Result<Vec<Name>, ParseError>
        ensures read { Gives (λ v. map name_of v.items) result self.new (listed param_at self.old) }
        ensures shorter { OnOk result (length self.new < length self.old) }
    {
        let mut all = pushed(Vec::new(self.alloc), self.parameter())?;
        while self.take(Mark::Comma) {
            all = pushed(all, self.parameter())?;
        }
        Ok(all)
    }

    /// What stands between the parentheses of a function, and the `)` behind it.
    #[tactic(auto, unfolding(hx_grammar::specs::Reading::params_at), using(crate::proofs::Marks::behind_shorter))]
    fn params(&mut self) -> Result<Params, ParseError>
        ensures read { Gives params_of result self.new (params_at self.old) }
        ensures shorter { OnOk result (length self.new < length self.old) }
    {
        if self.take(Mark::CloseParen) {
            return Ok(Params::Nothing);
        }
        if self.take(Mark::Void) {
            self.expect(Mark::CloseParen)?;
            return Ok(Params::Void);
        }
        let names = self.parameters();
        let names = self.closed(names, Mark::CloseParen)?;
        Ok(Params::Names(names))
    }

    /// A function, where its name and the `(` are taken; the parts of its body have height at most `room`.
    #[tactic(auto, unfolding(hx_grammar::specs::Reading::function_at))]
    fn function(&mut self, returns: Returns, name: Name, room: usize) -> Result<Item, ParseError>
        ensures read { Gives item_of result self.new (function_at room returns (name_of name) self.old) }
        ensures shorter { OnOk result (length self.new < length self.old) }
    {
        let params = self.params();
        let (name, params) = both(name, self.closed(params, Mark::OpenBrace))?;
        let ((name, params), body) = both((name, params), self.parts(room))?;
        Ok(Item::Function(Func {
            returns,
            name,
            params,
            body,
        }))
    }

    // ---- items

    /// A function or a declaration of globals, where the `int` that it begins with is taken.
    #[tactic(auto, unfolding(hx_grammar::specs::Reading::int_item_at), using(crate::proofs::Marks::behind_shorter))]
    fn int_item(&mut self, room: usize) -> Result<Item, ParseError>
        ensures read { Gives item_of result self.new (int_item_at room self.old) }
        ensures shorter { OnOk result (length self.new < length self.old) }
    {
        let name = self.name()?;
        if self.take(Mark::OpenParen) {
            return self.function(Returns::Int, name, room);
        }
        self.globals(name)
    }

    /// A function, where the `void` that it begins with is taken.
    #[tactic(auto, unfolding(hx_grammar::specs::Reading::void_item_at))]
    fn void_item(&mut self, room: usize) -> Result<Item, ParseError>
        ensures read { Gives item_of result self.new (void_item_at room self.old) }
        ensures shorter { OnOk result (length self.new < length self.old) }
    {
        let name = self.name()?;
        self.expect(Mark::OpenParen)?;
        self.function(Returns::Void, name, room)
    }

    /// An item, where the parts of a function's body have height at most `room`.
    #[tactic(auto, unfolding(hx_grammar::specs::Reading::item_at), using(crate::proofs::Marks::behind_shorter))]
    fn item(&mut self, room: usize) -> Result<Item, ParseError>
        ensures read { Gives item_of result self.new (item_at room self.old) }
        ensures shorter { OnOk result (length self.new < length self.old) }
    {
        if self.take(Mark::Int) {
            return self.int_item(room);
        }
        if self.take(Mark::Void) {
            return self.void_item(room);
        }
        Err(ParseError::Syntax(self.place()))
    }

    /// The items up to the last token.
    pub(crate) fn items(&mut self, room: usize) -> Result<Vec<Item>, ParseError>
        ensures { Gives (λ v. map item_of v.items) result self.new (all_of until_end (item_at room) self.old) }
    {
        let mut all = Vec::new(self.alloc);
        while !self.is_done() {
            all = pushed(all, self.item(room))?;
        }
        Ok(all)
    }
}
