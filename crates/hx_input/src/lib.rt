//! The input text of a run: numbers with white space between them. `specs/InputText.antt` says which numbers a text spells;
//! `parse_input` answers them, and refuses a text exactly where it spells none; `word_len` and `number_of` read one word of it.
#![tactic(auto)]

mod input;

pub use input::{InputError, number_of, parse_input, word_len};
