// What a global name stands for.

use hx_tree::tree::Returns;

/// What a global name stands for: an int and its store word; an array, its first store word and its
/// length; or a function, its number, what it returns and how many parameters it has.
#[derive(Clone, Copy, PartialEq, Eq, Debug)]
pub enum Symbol {
    Int(u32),
    Array(u32, u32),
    Function(u32, Returns, u32),
}
