// What a frame stops for.

ghost use Rattle.std.specs.Prelude.{◌≡◌};
ghost use Rattle.hx_frame.specs.Action.{action_for, stop_for};

use hx_code::word::{Ask, Next, Output};
use hx_tree::outcome::Fault;

/// What an iteration waits with until it is the head, since it can't be undone.
#[derive(Clone, Copy, PartialEq, Eq, Debug)]
pub enum Action {
    /// Prints a number.
    Print(i32),
    /// Prints a byte.
    Emit(u8),
    /// Ends the region by a fault.
    Fault(Fault),
    /// Ends the turn.
    TurnEnd,
    /// Leaves the region.
    Leave,
    /// Ends the region by a return from its function.
    Return(i32),
    /// Nothing: a table was full, and the head needs no room there.
    None,
}

/// Why a stretch of words ended.
#[derive(Clone, Copy, PartialEq, Eq, Debug)]
pub enum Stop {
    /// Before a load of a word that the frame can't tell by itself.
    NeedLoad(u32),
    /// Before a store of a value in a word.
    NeedStore(u32, i32),
    /// Before something that only the head may do.
    NeedHead(Action),
    /// After as many words as were allowed.
    Limit,
}

/// What the last stretch stopped for, and was not given yet, and where the word goes on that needs it.
#[derive(Clone, Copy)]
pub(crate) enum Need {
    Nothing,
    ForLoad(u32, Next),
    ForStore(u32, i32, Next),
    ForHead(Ask, Next),
    Held,
}

impl Need {
    /// The stop that tells of it.
    pub(crate) fn stop(self) -> Stop
        ensures { result ≡ stop_for self }
    {
        match self {
            Need::Nothing => Stop::Limit,
            Need::ForLoad(word, _) => Stop::NeedLoad(word),
            Need::ForStore(word, value, _) => Stop::NeedStore(word, value),
            Need::ForHead(ask, _) => Stop::NeedHead(waits_with(ask)),
            Need::Held => Stop::NeedHead(Action::None),
        }
    }
}

/// What is waited with before a word that asks this.
pub(crate) fn waits_with(ask: Ask) -> Action
    ensures { result ≡ action_for ask }
{
    match ask {
        Ask::Prints(Output::Number(value), _) => Action::Print(value),
        Ask::Prints(Output::Byte(byte), _) => Action::Emit(byte),
        Ask::Faults(fault) => Action::Fault(fault),
        Ask::Turns => Action::TurnEnd,
        Ask::Leaves | Ask::Enters(_, _) => Action::Leave,
        Ask::Returns(value) => Action::Return(value),
        Ask::Goes | Ask::Loads(_) | Ask::Stores(_, _) | Ask::Calls(_, _) => Action::None,
    }
}
