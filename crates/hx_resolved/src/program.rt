// An accepted program in which each name is what it stands for: a private word of its function, a
// store word, an array's words or a function's number.

use hx_tree::token::Pos;
use hx_tree::tree::{BinaryOp, Operator, UnaryOp};

/// The words of an array: the first of them in the store, and how many there are.
#[derive(Clone, Copy, PartialEq, Eq, Debug)]
pub struct Words {
    pub base: u32,
    pub length: u32,
}

/// An expression; parentheses are gone.
///
/// `Private` is a private word of the function, counted from 0: its parameters, then its locals in
/// source order. `Word` is a store word, counted from 0 over all globals. `Element` and `Call` have
/// the place of the name; a call has the function's number, counted from 0 in source order.
/// `Conditional` has its test, and what it is where that isn't 0 and where it is.
#[derive(Drop)]
pub enum Expr {
    Number(u32),
    Private(u32),
    Word(u32),
    Element(Words, Pos, Box<Expr>),
    Call(u32, Pos, Vec<Expr>),
    Unary(UnaryOp, Box<Expr>),
    Binary(BinaryOp, Pos, Box<Expr>, Box<Expr>),
    Conditional(Box<Expr>, Box<Expr>, Box<Expr>),
}

/// What is assigned to.
#[derive(Drop)]
pub enum Place {
    Private(u32),
    Word(u32),
    Element(Words, Pos, Expr),
}

/// `p = e`, or `p += e` and its kin with the operator and its place; `p++` and `p--` are updates by 1.
#[derive(Drop)]
pub enum Assignment {
    Set(Place, Expr),
    Update(Place, Operator, Pos, Expr),
}

/// One local of a declaration with its first value, or an assignment.
#[derive(Drop)]
pub enum Simple {
    Declare(u32, Expr),
    Assign(Assignment),
}

/// A private word that is counted, and by how much.
#[derive(Clone, Copy, PartialEq, Eq, Debug)]
pub struct Induct {
    pub private: u32,
    pub step: i32,
}

/// What stands between the parentheses of a loop: what goes before it, the test of each turn, and
/// the step at the end of each.
///
/// `counts` is what the step counts, where it is written `x++`, `x--`, `x += N` or `x -= N` with a
/// local `x` and a number token `N`.
#[derive(Drop)]
pub struct Clauses {
    pub init: Vec<Simple>,
    pub test: Option<Expr>,
    pub step: Option<Assignment>,
    pub counts: Option<Induct>,
}

/// The private words that a region takes along, both lists in rising order: those that its turns
/// assign, and those that they only read. The induction local, if there is one, is in neither: a
/// turn's number tells its value.
#[derive(Drop)]
pub struct Region {
    pub carried: Vec<u32>,
    pub copied: Vec<u32>,
    pub induct: Option<Induct>,
}

/// A loop that runs turn after turn, or a marked loop that stands in no other marked loop of its
/// function.
#[derive(Drop)]
pub enum LoopKind {
    Plain,
    Region(Region),
}

/// A statement. A local without a value becomes 0, and `return;` returns 0.
#[derive(Drop)]
pub enum Stmt {
    Block(Vec<Stmt>),
    Simple(Simple),
    CallStatement(u32, Pos, Vec<Expr>),
    Print(Pos, Expr),
    Emit(Pos, Expr),
    If(Expr, Box<Stmt>),
    IfElse(Expr, Box<Stmt>, Box<Stmt>),
    Loop(LoopKind, Clauses, Box<Stmt>),
    DoWhile(Box<Stmt>, Expr),
    Break,
    Continue,
    Return(Expr),
}

/// A function: its name, how many parameters it has, how many private words (the parameters among
/// them), how many operands it holds at most in one call, and its body.
#[derive(Drop)]
pub struct Function {
    pub name: Vec<u8>,
    pub parameters: u32,
    pub privates: u32,
    pub need: u32,
    pub body: Vec<Stmt>,
}

/// A whole program: its functions in source order, the number of main, the store words of the
/// globals as they begin without input, the words of the array `in`, and the store word of the int
/// `n_in`, where they are declared so.
#[derive(Drop)]
pub struct Program {
    pub functions: Vec<Function>,
    pub main: u32,
    pub opening: Vec<i32>,
    pub input: Option<Words>,
    pub input_length: Option<u32>,
}
