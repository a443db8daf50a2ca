//! The tree of a program of profile 1, which has no `?:` and no `do`. What a node can't hold another of is as today: names,
//! globals, parameters and operators.

use hx_tree::token::Pos;
use hx_tree::tree::{BinaryOp, GlobalDecl, Name, Operator, Params, Returns, UnaryOp};

/// The most words of all globals.
pub const GLOBAL_LIMIT: usize = 65536;

/// The most words of an array.
pub const ARRAY_LIMIT: u32 = 65536;

/// A whole source.
#[derive(Drop)]
pub struct Program {
    pub items: Vec<Item>,
}

/// A declaration of globals, as `int g, a[3];`, or a function.
#[derive(Drop)]
pub enum Item {
    Globals(Vec<GlobalDecl>),
    Function(Func),
}

/// A function.
#[derive(Drop)]
pub struct Func {
    pub returns: Returns,
    pub name: Name,
    pub params: Params,
    pub body: Vec<Part>,
}

/// A part of a block: a declaration, as `int x, y = 1;`, or a statement.
#[derive(Drop)]
#[cycle(statements)]
pub enum Part {
    Locals(Vec<LocalDecl>),
    Stmt(Stmt),
}

/// One local of a declaration.
#[derive(Drop)]
pub struct LocalDecl {
    pub name: Name,
    pub init: Option<Expr>,
}

/// A statement. The flag of a loop says that it is marked.
#[derive(Drop)]
#[cycle(statements)]
pub enum Stmt {
    Block(Vec<Part>),
    Empty,
    Assign(Assignment),
    CallStatement(Name, Vec<Expr>),
    Print(Pos, Expr),
    Emit(Pos, Expr),
    If(Expr, Box<Stmt>),
    IfElse(Expr, Box<Stmt>, Box<Stmt>),
    While(bool, Expr, Box<Stmt>),
    For(bool, ForClauses, Box<Stmt>),
    Break(Pos),
    Continue(Pos),
    Return(Pos, Option<Expr>),
}

/// What stands between the parentheses of a `for`.
#[derive(Drop)]
pub struct ForClauses {
    pub init: Init,
    pub test: Option<Expr>,
    pub step: Option<Assignment>,
}

/// What a `for` begins with.
#[derive(Drop)]
pub enum Init {
    Nothing,
    Locals(Vec<LocalDecl>),
    Assign(Assignment),
}

/// An assignment: `x = e`, `x += e`, `x++` or `x--`.
#[derive(Drop)]
pub enum Assignment {
    Set(Place, Expr),
    Update(Place, Operator, Pos, Expr),
    Increment(Place),
    Decrement(Place),
}

/// What is assigned to.
#[derive(Drop)]
pub enum Place {
    Variable(Name),
    Element(Name, Expr),
}

/// An expression.
#[derive(Drop)]
pub enum Expr {
    Number(u32),
    Variable(Name),
    Element(Name, Box<Expr>),
    Call(Name, Vec<Expr>),
    Paren(Box<Expr>),
    Unary(UnaryOp, Box<Expr>),
    Binary(BinaryOp, Pos, Box<Expr>, Box<Expr>),
}
