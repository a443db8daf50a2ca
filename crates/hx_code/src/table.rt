// What is told of words beside them: functions, regions, and the place of each word in both.

ghost use Rattle.std.specs.Prelude.{◌≡◌, IsTrue, ◌↔◌};

use crate::same::{is_same_counter, same_bytes, same_carried, same_numbers};
use crate::word::Array;
use std::marker::Model;

/// What is told of a word's place: its function, its region, and how many operands its call holds there.
#[derive(Clone, Copy, PartialEq, Eq, Debug)]
pub struct Spot {
    pub function: u32,
    pub region: Option<u32>,
    pub height: u32,
}

/// A private word and the cell that carries it.
#[derive(Clone, Copy, PartialEq, Eq, Debug)]
pub struct Carried {
    pub private: u32,
    pub cell: u32,
}

/// A private word that counts iterations: in iteration j it begins with what it held as the region opened and j steps
/// more, wrapped to 32 bits.
#[derive(Clone, Copy, PartialEq, Eq, Debug)]
pub struct Induct {
    pub private: u32,
    pub step: i32,
}

/// A function.
#[derive(Drop)]
pub struct Func {
    /// The name in the source.
    pub name: Vec<u8>,
    /// The place of the first word.
    pub entry: u32,
    /// How many arguments a call takes.
    pub parameters: u32,
    /// How many private words a call has, its parameters among them.
    pub privates: u32,
}

impl Model for Func {
    ghost use Rattle.hx_code.specs.Code.{FuncView};

    ghost Value = { FuncView };

    ghost view = { λ f. record { name = f.name.items; entry = f.entry; parameters = f.parameters; privates = f.privates } };
}

impl Func {
    /// Whether both are the same.
    pub(crate) fn is_same(&self, other: &Func) -> bool
        ensures { IsTrue result ↔ (self.now ≡ other.now) }
    {
        self.entry == other.entry
            && self.parameters == other.parameters
            && self.privates == other.privates
            && same_bytes(&self.name, &other.name)
    }
}

/// A region.
#[derive(Drop)]
pub struct Region {
    /// The place where an iteration begins.
    pub start: u32,
    /// The place where the opening call goes on once the region is left.
    pub exit: u32,
    /// The private words that are carried in cells.
    pub carried: Vec<Carried>,
    /// The private words that are copied into each iteration.
    pub copied: Vec<u32>,
    /// The private word that counts the iterations, where there is one.
    pub induct: Option<Induct>,
}

impl Model for Region {
    ghost use Rattle.hx_code.specs.Code.{RegionView};

    ghost Value = { RegionView };

    ghost view = { λ r. record { start = r.start; exit = r.exit; carried = r.carried.items; copied = r.copied.items; induct = r.induct } };
}

impl Region {
    /// Whether both are the same.
    pub(crate) fn is_same(&self, other: &Region) -> bool
        ensures { IsTrue result ↔ (self.now ≡ other.now) }
    {
        self.start == other.start
            && self.exit == other.exit
            && same_carried(&self.carried, &other.carried)
            && same_numbers(&self.copied, &other.copied)
            && is_same_counter(self.induct, other.induct)
    }
}

/// What is told of the words of a program beside them.
#[derive(Drop)]
pub struct Tables {
    /// One for each word.
    pub spots: Vec<Spot>,
    pub functions: Vec<Func>,
    pub regions: Vec<Region>,
    /// How many words the globals have.
    pub globals: u32,
    /// Their values as a run begins, before its input.
    pub opening: Vec<i32>,
    /// The function that a run calls first.
    pub main: u32,
    /// The array that the input fills, where there is one.
    pub input: Option<Array>,
    /// The word that begins as the input's length, where there is one.
    pub input_length: Option<u32>,
}
