// The words of the machine, and what they ask of those around a call.

use hx_tree::outcome::Fault;
use hx_tree::token::Pos;
use hx_tree::tree::{Operator, UnaryOp};

/// Words of the store that follow one another: an array.
#[derive(Clone, Copy, PartialEq, Eq, Debug)]
pub struct Array {
    pub base: u32,
    pub length: u32,
}

/// A word of the machine. A place is that of the fault that the word may end with.
#[derive(Clone, Copy, PartialEq, Eq, Debug)]
pub enum Word {
    /// Pushes a number.
    Const(i32),
    /// Pushes a private word.
    Priv(u32),
    /// Pops into a private word.
    SetPriv(u32),
    /// Pushes a word of the store.
    Glob(u32),
    /// Pops into a word of the store.
    SetGlob(u32),
    /// Pops an index and pushes the element there; out of range is a fault.
    Elem(Array, Pos),
    /// Pops a value and an index, and stores the value there; out of range is a fault.
    SetElem(Array, Pos),
    /// Pushes the topmost operand again.
    Dup,
    /// Pops.
    Drop,
    /// An operator on the topmost operand.
    Unary(UnaryOp),
    /// An operator on the two topmost operands, the right one on top; a division by zero is a fault.
    Binary(Operator, Pos),
    /// Goes to a place.
    Jump(u32),
    /// Pops, and goes to a place where it is 0.
    JumpFalse(u32),
    /// Pops, and goes to a place where it isn't 0.
    JumpTrue(u32),
    /// Calls a function with the arguments on top; at the greatest depth that is a fault.
    Call(u32, Pos),
    /// Ends the call with the topmost operand as its value.
    Ret,
    /// Pops and prints a number with a line feed; a fault where the text would pass its limit.
    Print(Pos),
    /// Pops and prints a byte; a fault where the text would pass its limit.
    Emit(Pos),
    /// Opens a region, or goes to a place while one is active.
    Enter(u32, u32),
    /// Ends an iteration's turn.
    Turn,
    /// Leaves the region.
    Leave,
}

/// What is printed: a number with its line feed, or a byte.
#[derive(Clone, Copy, PartialEq, Eq, Debug)]
pub enum Output {
    Number(i32),
    Byte(u8),
}

/// What the next word asks of those around a call.
#[derive(Clone, Copy, PartialEq, Eq, Debug)]
pub enum Ask {
    /// Nothing: the word is done.
    Goes,
    /// The word of the store at an address, on top.
    Loads(u32),
    /// A value in the store, at an address.
    Stores(u32, i32),
    /// Text, and where it doesn't fit a fault at a place.
    Prints(Output, Pos),
    /// The end of the run by a fault.
    Faults(Fault),
    /// A call of a function.
    Calls(u32, Pos),
    /// A region to be opened, or the place to go to while one is active.
    Enters(u32, u32),
    /// The end of an iteration's turn.
    Turns,
    /// The end of the region.
    Leaves,
    /// The end of the call, with a value.
    Returns(i32),
}

/// Where a call goes on, and how many operands it has there, once it has what it asks.
#[derive(Clone, Copy)]
pub struct Next {
    pub place: u32,
    pub height: usize,
}

/// How a region ends: left, by a return from the function that opened it, or by a fault.
#[derive(Clone, Copy, PartialEq, Eq, Debug)]
pub enum Exit {
    Left,
    Returned(i32),
    Faulted(Fault),
}
