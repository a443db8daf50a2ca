// What an iteration that is the head does with what it waits with, and what is counted.

ghost use Rattle.std.specs.Prelude.{◌≡◌, ◌+◌, ◌≤◌, ◌++◌, length, vec_len, vec_capacity};
ghost use Rattle.hx_speculation.specs.Board.{counts_store};
ghost use Rattle.hx_board.specs.Board.{first_counts};
ghost use Rattle.hx_board.specs.Effect.{effect_of, printed_by};

use hx_code::word::{Ask, Exit};
use hx_tree::limits::TEXT_LIMIT;
use hx_tree::outcome::{Counts, Fault, FaultKind};
use hx_word::text::print;

/// What becomes of an iteration that has done what it waited with.
#[derive(Clone, Copy)]
pub(crate) enum Effect {
    GoesOn,
    Passes,
    Ends(Exit),
}

/// What it waits with takes effect on the text, which stands behind so many bytes.
pub(crate) fn takes_effect(ask: Ask, text: &mut Vec<u8>, before: usize) -> Effect
    requires room { TEXT_LIMIT ≤ vec_capacity text.old }
    requires fits { before + vec_len text.old ≤ TEXT_LIMIT }
    ensures effect { result ≡ effect_of before (length text.old.items) ask }
    ensures items { text.new.items ≡ text.old.items ++ printed_by before (length text.old.items) ask }
    ensures room { TEXT_LIMIT ≤ vec_capacity text.new }
{
    match ask {
        Ask::Prints(output, at) => {
            if print(text, before, output) {
                Effect::GoesOn
            } else {
                Effect::Ends(Exit::Faulted(Fault {
                    kind: FaultKind::TextFull,
                    pos: at,
                }))
            }
        }
        Ask::Turns => Effect::Passes,
        Ask::Leaves | Ask::Enters(_, _) => Effect::Ends(Exit::Left),
        Ask::Returns(value) => Effect::Ends(Exit::Returned(value)),
        Ask::Faults(fault) => Effect::Ends(Exit::Faulted(fault)),
        Ask::Goes | Ask::Loads(_) | Ask::Stores(_, _) | Ask::Calls(_, _) => Effect::GoesOn,
    }
}

/// Nothing is counted but the region.
pub(crate) fn first_counts() -> Counts
    ensures { result ≡ first_counts }
{
    Counts::plain(1, 0)
}

/// A store is counted that made so many iterations begin again, or none, though a later one had marked the word.
pub(crate) fn count_store(counts: &mut Counts, restarted: usize, had_readers: bool)
    ensures { counts.new ≡ counts_store restarted had_readers counts.old }
{
    if restarted > 0 {
        counts.violations = counts.violations.saturating_add(1);
        counts.restarts = counts.restarts.saturating_add(restarted as u64);
    } else if had_readers {
        counts.spared = counts.spared.saturating_add(1);
    }
}
