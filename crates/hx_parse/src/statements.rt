// Declarations of locals, assignments and statements.

ghost use Rattle.std.specs.Prelude.{◌≡◌, ◌<◌, ◌≤◌, map, length, option_map, OnOk, Some, None};
ghost use Rattle.hx_tree.specs.declared.token.Mark.TheVariants as mark;
ghost use Rattle.hx_tree.specs.View.{name_of, expr_of, local_of, place_of, assignment_of, init_of, for_clauses_of, stmt_of, part_of};
ghost use Rattle.hx_grammar.specs.Reading.{expr_at, in_parens_at, optional_at, local_at, locals_at, place_at, update_at, updated_at, assigned_at, assignment_at, init_turn, init_at, for_clauses_at, part_at, parts_at, named_stmt_turn, named_stmt_at, print_at, emit_at, return_at, if_at, else_at, while_at, do_at, for_at, marked_stmt_at, stmt_with, stmt_at};
ghost use Rattle.hx_parse.specs.Gives.{Gives, name_in};

use crate::error::{ParseError, both, boxed, pushed};
use crate::operators::updating_of;
use crate::parser::Parser;
use hx_lex::Token;
use hx_tree::make;
use hx_tree::token::{Kind, Mark, Pos};
use hx_tree::tree::{Assignment, Expr, ForClauses, Init, LocalDecl, Name, Part, Place, Stmt};

impl<'t, 's> Parser<'t, 's> {
    // ---- declarations of locals

    /// The locals of a declaration of height at most `room`, where the `int` is taken.
    fn locals(&mut self, room: usize) -> Result<Vec<LocalDecl>, ParseError>
        ensures read { Gives (λ v. map local_of v.items) result self.new (locals_at room self.old) }
        ensures shorter { OnOk result (length self.new < length self.old) }
    {
        if room == 0 {
            return Err(ParseError::TooDeep);
        }
        let mut all = pushed(Vec::new(self.alloc), self.local(room - 1))?;
        while self.take(Mark::Comma) {
            all = pushed(all, self.local(room - 1))?;
        }
        Ok(all)
    }

    /// A local, whose initialiser has height at most `room`.
    #[tactic(auto, unfolding(hx_grammar::specs::Reading::local_at), using(crate::proofs::Marks::behind_shorter))]
    fn local(&mut self, room: usize) -> Result<LocalDecl, ParseError>
        ensures read { Gives local_of result self.new (local_at room self.old) }
        ensures shorter { OnOk result (length self.new < length self.old) }
    {
        let name = self.name()?;
        if self.take(Mark::Assign) {
            let (name, value) = both(name, self.expression(room))?;
            return Ok(LocalDecl {
                name,
                init: Some(value),
            });
        }
        Ok(LocalDecl { name, init: None })
    }

    // ---- assignments

    /// An assignment of height at most `room`.
    #[tactic(auto, unfolding(hx_grammar::specs::Reading::assignment_at))]
    fn assignment(&mut self, room: usize) -> Result<Assignment, ParseError>
        ensures read { Gives assignment_of result self.new (assignment_at room self.old) }
        ensures shorter { OnOk result (length self.new < length self.old) }
    {
        let name = self.name()?;
        self.assigned(name, room)
    }

    /// An assignment of height at most `room`, where the name that it begins with is taken.
    #[tactic(auto, using(crate::proofs::Steps::assigned_zero, crate::proofs::Steps::assigned_is))]
    fn assigned(&mut self, name: Name, room: usize) -> Result<Assignment, ParseError>
        ensures read { Gives assignment_of result self.new (assigned_at room (name_of name) self.old) }
        ensures shorter { OnOk result (length self.new < length self.old) }
    {
        if room == 0 {
            return Err(ParseError::TooDeep);
        }
        let target = self.target(name, room - 1)?;
        self.updated(target, room - 1)
    }

    /// What is assigned to, where its name is taken; its index has height at most `room`.
    #[tactic(auto, unfolding(hx_grammar::specs::Reading::place_at), using(crate::proofs::Marks::behind_shorter))]
    fn target(&mut self, name: Name, room: usize) -> Result<Place, ParseError>
        ensures read { Gives place_of result self.new (place_at room (name_of name) self.old) }
        ensures shorter { OnOk result (length self.new ≤ length self.old) }
    {
        if self.take(Mark::OpenBracket) {
            let index = self.expression(room);
            let (name, index) = both(name, self.closed(index, Mark::CloseBracket))?;
            return Ok(Place::Element(name, index));
        }
        Ok(Place::Variable(name))
    }

    /// What is done to a place, which is taken, with a value of height at most `room`.
    #[tactic(auto, unfolding(hx_grammar::specs::Reading::updated_at))]
    fn updated(&mut self, target: Place, room: usize) -> Result<Assignment, ParseError>
        ensures read { Gives assignment_of result self.new (updated_at room (place_of target) self.old) }
        ensures shorter { OnOk result (length self.new < length self.old) }
    {
        match self.next() {
            None => Err(ParseError::Syntax(self.place())),
            Some(token) => match token.kind {
                Kind::Mark(mark) => self.update(target, mark, token.pos, room),
                Kind::Name | Kind::Number(_) => Err(ParseError::Syntax(token.pos)),
            },
        }
    }

    /// What is done to a place, where the mark at `pos` that says so is taken.
    fn update(
        &mut self,
        target: Place,
        mark: Mark,
        pos: Pos,
        room: usize,
    ) -> Result<Assignment, ParseError>
        ensures read { Gives assignment_of result self.new (update_at room (place_of target) mark pos self.old) }
        ensures shorter { OnOk result (length self.new ≤ length self.old) }
    {
        match mark {
            Mark::Assign => {
                let (target, value) = both(target, self.expression(room))?;
                Ok(Assignment::Set(target, value))
            }
            Mark::Increment => Ok(Assignment::Increment(target)),
            Mark::Decrement => Ok(Assignment::Decrement(target)),
            _ => match updating_of(mark) {
                Some(op) => {
                    let (target, value) = both(target, self.expression(room))?;
                    Ok(Assignment::Update(target, op, pos, value))
                }
                None => Err(ParseError::Syntax(pos)),
            },
        }
    }

    // ---- statements without statements in them

    /// An expression in parentheses.
    #[tactic(auto, unfolding(hx_grammar::specs::Reading::in_parens_at))]
    fn in_parens(&mut self, room: usize) -> Result<Expr, ParseError>
        ensures read { Gives expr_of result self.new (in_parens_at room self.old) }
        ensures shorter { OnOk result (length self.new < length self.old) }
    {
        self.expect(Mark::OpenParen)?;
        let inner = self.expression(room);
        self.closed(inner, Mark::CloseParen)
    }

    /// An expression, if one is there, and the `;` behind it.
    #[tactic(auto, unfolding(hx_grammar::specs::Reading::optional_at), using(crate::proofs::Marks::behind_shorter))]
    fn optional_expression(&mut self, room: usize) -> Result<Option<Expr>, ParseError>
        ensures read { Gives (λ e. option_map expr_of e) result self.new (optional_at mark.Semicolon (expr_at room 11) self.old) }
        ensures shorter { OnOk result (length self.new < length self.old) }
    {
        if self.take(Mark::Semicolon) {
            return Ok(None);
        }
        let value = self.expression(room);
        let value = self.closed(value, Mark::Semicolon)?;
        Ok(Some(value))
    }

    /// The statement that begins with a name, which is taken: a call or an assignment.
    #[tactic(auto, unfolding(hx_grammar::specs::Reading::named_stmt_at), using(crate::proofs::Marks::behind_shorter))]
    fn named_statement(&mut self, token: Token<'s>, room: usize) -> Result<Stmt, ParseError>
        ensures read { Gives stmt_of result self.new (named_stmt_at room (name_in token.entry) self.old) }
        ensures shorter { OnOk result (length self.new < length self.old) }
    {
        let name = self.name_in(token)?;
        if self.take(Mark::OpenParen) {
            self.call_statement(name, room)
        } else {
            self.assign_statement(name, room)
        }
    }

    /// A call as a statement, where the name and the `(` are taken.
    fn call_statement(&mut self, name: Name, room: usize) -> Result<Stmt, ParseError>
        ensures read { Gives stmt_of result self.new (named_stmt_turn room (name_of name) self.old (Some self.old)) }
        ensures shorter { OnOk result (length self.new < length self.old) }
    {
        let arguments = self.call_arguments(room);
        let (name, arguments) = both(name, self.closed(arguments, Mark::Semicolon))?;
        Ok(Stmt::CallStatement(name, arguments))
    }

    /// An assignment as a statement, where the name that it begins with is taken.
    fn assign_statement(&mut self, name: Name, room: usize) -> Result<Stmt, ParseError>
        ensures read { Gives stmt_of result self.new (named_stmt_turn room (name_of name) self.old None) }
        ensures shorter { OnOk result (length self.new < length self.old) }
    {
        let assignment = self.assigned(name, room);
        let assignment = self.closed(assignment, Mark::Semicolon)?;
        Ok(Stmt::Assign(assignment))
    }

    /// What stands behind a `print` at `pos`.
    #[tactic(auto, unfolding(hx_grammar::specs::Reading::print_at))]
    fn print(&mut self, pos: Pos, room: usize) -> Result<Stmt, ParseError>
        ensures read { Gives stmt_of result self.new (print_at room pos self.old) }
        ensures shorter { OnOk result (length self.new ≤ length self.old) }
    {
        let value = self.in_parens(room);
        let value = self.closed(value, Mark::Semicolon)?;
        Ok(Stmt::Print(pos, value))
    }

    /// What stands behind an `emit` at `pos`.
    #[tactic(auto, unfolding(hx_grammar::specs::Reading::emit_at))]
    fn emit(&mut self, pos: Pos, room: usize) -> Result<Stmt, ParseError>
        ensures read { Gives stmt_of result self.new (emit_at room pos self.old) }
        ensures shorter { OnOk result (length self.new ≤ length self.old) }
    {
        let value = self.in_parens(room);
        let value = self.closed(value, Mark::Semicolon)?;
        Ok(Stmt::Emit(pos, value))
    }

    /// What stands behind a `return` at `pos`.
    #[tactic(auto, unfolding(hx_grammar::specs::Reading::return_at))]
    fn return_statement(&mut self, pos: Pos, room: usize) -> Result<Stmt, ParseError>
        ensures read { Gives stmt_of result self.new (return_at room pos self.old) }
        ensures shorter { OnOk result (length self.new ≤ length self.old) }
    {
        let value = self.optional_expression(room)?;
        Ok(Stmt::Return(pos, value))
    }

    // ---- the parentheses of a `for`

    /// What stands in the parentheses of a `for`, with them.
    #[tactic(auto, unfolding(hx_grammar::specs::Reading::for_clauses_at))]
    fn for_clauses(&mut self, room: usize) -> Result<ForClauses, ParseError>
        ensures read { Gives for_clauses_of result self.new (for_clauses_at room self.old) }
        ensures shorter { OnOk result (length self.new < length self.old) }
    {
        self.expect(Mark::OpenParen)?;
        let init = self.init(room)?;
        let init_and_test = both(init, self.optional_expression(room))?;
        let ((init, test), step) = both(init_and_test, self.step(room))?;
        Ok(ForClauses { init, test, step })
    }

    /// What a `for` begins with, and the `;` behind it.
    #[tactic(auto, unfolding(hx_grammar::specs::Reading::init_at), using(crate::proofs::Marks::behind_shorter))]
    fn init(&mut self, room: usize) -> Result<Init, ParseError>
        ensures read { Gives init_of result self.new (init_at room self.old) }
        ensures shorter { OnOk result (length self.new < length self.old) }
    {
        if self.take(Mark::Semicolon) {
            Ok(Init::Nothing)
        } else if self.take(Mark::Int) {
            self.init_locals(room)
        } else {
            self.init_assignment(room)
        }
    }

    /// The locals that a `for` begins with, and the `;` behind them, where the `int` is taken.
    fn init_locals(&mut self, room: usize) -> Result<Init, ParseError>
        ensures read { Gives init_of result self.new (init_turn room self.old None (Some self.old)) }
        ensures shorter { OnOk result (length self.new < length self.old) }
    {
        let locals = self.locals(room);
        let locals = self.closed(locals, Mark::Semicolon)?;
        Ok(Init::Locals(locals))
    }

    /// The assignment that a `for` begins with, and the `;` behind it.
    fn init_assignment(&mut self, room: usize) -> Result<Init, ParseError>
        ensures read { Gives init_of result self.new (init_turn room self.old None None) }
        ensures shorter { OnOk result (length self.new < length self.old) }
    {
        let assignment = self.assignment(room);
        let assignment = self.closed(assignment, Mark::Semicolon)?;
        Ok(Init::Assign(assignment))
    }

    /// What a `for` does at the end of each turn, and the `)` behind it.
    #[tactic(auto, unfolding(hx_grammar::specs::Reading::optional_at), using(crate::proofs::Marks::behind_shorter))]
    fn step(&mut self, room: usize) -> Result<Option<Assignment>, ParseError>
        ensures read { Gives (λ a. option_map assignment_of a) result self.new (optional_at mark.CloseParen (assignment_at room) self.old) }
        ensures shorter { OnOk result (length self.new < length self.old) }
    {
        if self.take(Mark::CloseParen) {
            return Ok(None);
        }
        let assignment = self.assignment(room);
        let assignment = self.closed(assignment, Mark::CloseParen)?;
        Ok(Some(assignment))
    }

    // ---- statements

    /// A statement of height at most `room`.
    #[cycle(stmt)]
    #[tactic(auto, using(crate::proofs::Steps::stmt_zero, crate::proofs::Steps::stmt_is))]
    fn statement(&mut self, room: usize) -> Result<Stmt, ParseError>
        ensures read { Gives stmt_of result self.new (stmt_at room self.old) }
        ensures shorter { OnOk result (length self.new < length self.old) }
    {
        if room == 0 {
            return Err(ParseError::TooDeep);
        }
        self.some_statement(room - 1)
    }

    /// A statement, whose parts have height at most `room`.
    #[cycle(stmt)]
    #[tactic(auto, unfolding(hx_grammar::specs::Reading::stmt_with))]
    fn some_statement(&mut self, room: usize) -> Result<Stmt, ParseError>
        ensures read { Gives stmt_of result self.new (stmt_with room (stmt_at room) self.old) }
        ensures shorter { OnOk result (length self.new < length self.old) }
    {
        match self.next() {
            None => Err(ParseError::Syntax(self.place())),
            Some(token) => match token.kind {
                Kind::Number(_) => Err(ParseError::Syntax(token.pos)),
                Kind::Name => self.named_statement(token, room),
                Kind::Mark(mark) => self.marked_statement(mark, token.pos, room),
            },
        }
    }

    /// The statement that begins with a mark at `pos`, which is taken.
    #[cycle(stmt)]
    #[tactic(auto, unfolding(hx_grammar::specs::Reading::marked_stmt_at, hx_grammar::specs::Reading::block_at))]
    fn marked_statement(&mut self, mark: Mark, pos: Pos, room: usize) -> Result<Stmt, ParseError>
        ensures read { Gives stmt_of result self.new (marked_stmt_at room (stmt_at room) mark pos self.old) }
        ensures shorter { OnOk result (length self.new ≤ length self.old) }
    {
        match mark {
            Mark::Semicolon => Ok(Stmt::Empty),
            Mark::OpenBrace => {
                let parts = self.parts(room)?;
                Ok(make::block(parts))
            }
            Mark::Print => self.print(pos, room),
            Mark::Emit => self.emit(pos, room),
            Mark::If => self.choice(room),
            Mark::While => self.while_loop(false, room),
            Mark::MarkedWhile => self.while_loop(true, room),
            Mark::Do => self.do_loop(room),
            Mark::For => self.for_loop(false, room),
            Mark::MarkedFor => self.for_loop(true, room),
            Mark::Break => self.closed(Ok(Stmt::Break(pos)), Mark::Semicolon),
            Mark::Continue => self.closed(Ok(Stmt::Continue(pos)), Mark::Semicolon),
            Mark::Return => self.return_statement(pos, room),
            _ => Err(ParseError::Syntax(pos)),
        }
    }

    /// The parts of a block and the `}` behind them, where the `{` is taken.
    #[cycle(stmt)]
    pub(crate) fn parts(&mut self, room: usize) -> Result<Vec<Part>, ParseError>
        ensures read { Gives (λ v. map part_of v.items) result self.new (parts_at room (stmt_at room) self.old) }
        ensures shorter { OnOk result (length self.new ≤ length self.old) }
    {
        let mut all = Vec::new(self.alloc);
        while !self.take(Mark::CloseBrace) {
            all = pushed(all, self.part(room))?;
        }
        Ok(all)
    }

    /// A part of a block, of height at most `room`.
    #[cycle(stmt)]
    #[tactic(auto, unfolding(hx_grammar::specs::Reading::part_at), using(crate::proofs::Marks::behind_shorter))]
    fn part(&mut self, room: usize) -> Result<Part, ParseError>
        ensures read { Gives part_of result self.new (part_at room (stmt_at room) self.old) }
        ensures shorter { OnOk result (length self.new < length self.old) }
    {
        if self.take(Mark::Int) {
            let locals = self.locals(room);
            let locals = self.closed(locals, Mark::Semicolon)?;
            return Ok(Part::Locals(locals));
        }
        let statement = self.statement(room)?;
        Ok(Part::Stmt(statement))
    }

    /// What stands behind an `if`.
    #[cycle(stmt)]
    #[tactic(auto, unfolding(hx_grammar::specs::Reading::if_at))]
    fn choice(&mut self, room: usize) -> Result<Stmt, ParseError>
        ensures read { Gives stmt_of result self.new (if_at room (stmt_at room) self.old) }
        ensures shorter { OnOk result (length self.new ≤ length self.old) }
    {
        let test = self.in_parens(room)?;
        let (test, body) = both(test, self.body(room))?;
        self.choice_behind(test, body, room)
    }

    /// An `if` whose `else` is read, if it is there.
    #[cycle(stmt)]
    #[tactic(auto, unfolding(hx_grammar::specs::Reading::else_at), using(crate::proofs::Marks::behind_shorter))]
    fn choice_behind(
        &mut self,
        test: Expr,
        body: Box<Stmt>,
        room: usize,
    ) -> Result<Stmt, ParseError>
        ensures read { Gives stmt_of result self.new (else_at (stmt_at room) (expr_of test) (stmt_of body.value) self.old) }
        ensures shorter { OnOk result (length self.new ≤ length self.old) }
    {
        if self.take(Mark::Else) {
            let ((test, body), other) = both((test, body), self.body(room))?;
            return Ok(Stmt::IfElse(test, body, other));
        }
        Ok(Stmt::If(test, body))
    }

    /// What stands behind a `while` or a `pwhile`.
    #[cycle(stmt)]
    #[tactic(auto, unfolding(hx_grammar::specs::Reading::while_at))]
    fn while_loop(&mut self, is_marked: bool, room: usize) -> Result<Stmt, ParseError>
        ensures read { Gives stmt_of result self.new (while_at room (stmt_at room) is_marked self.old) }
        ensures shorter { OnOk result (length self.new ≤ length self.old) }
    {
        let test = self.in_parens(room)?;
        let (test, body) = both(test, self.body(room))?;
        Ok(Stmt::While(is_marked, test, body))
    }

    /// What stands behind a `do`.
    #[cycle(stmt)]
    #[tactic(auto, unfolding(hx_grammar::specs::Reading::do_at))]
    fn do_loop(&mut self, room: usize) -> Result<Stmt, ParseError>
        ensures read { Gives stmt_of result self.new (do_at room (stmt_at room) self.old) }
        ensures shorter { OnOk result (length self.new ≤ length self.old) }
    {
        let body = self.body(room);
        let body = self.closed(body, Mark::While)?;
        let test = self.in_parens(room);
        let (body, test) = both(body, self.closed(test, Mark::Semicolon))?;
        Ok(Stmt::DoWhile(body, test))
    }

    /// What stands behind a `for` or a `pfor`.
    #[cycle(stmt)]
    #[tactic(auto, unfolding(hx_grammar::specs::Reading::for_at))]
    fn for_loop(&mut self, is_marked: bool, room: usize) -> Result<Stmt, ParseError>
        ensures read { Gives stmt_of result self.new (for_at room (stmt_at room) is_marked self.old) }
        ensures shorter { OnOk result (length self.new ≤ length self.old) }
    {
        let clauses = self.for_clauses(room)?;
        let (clauses, body) = both(clauses, self.body(room))?;
        Ok(Stmt::For(is_marked, clauses, body))
    }

    /// A statement inside another one, of height at most `room`.
    #[cycle(stmt)]
    fn body(&mut self, room: usize) -> Result<Box<Stmt>, ParseError>
        ensures read { Gives (λ b. stmt_of b.value) result self.new (stmt_at room self.old) }
        ensures shorter { OnOk result (length self.new < length self.old) }
    {
        boxed(self.alloc, self.statement(room))
    }
}
