// What the step of a loop counts.

ghost use Rattle.std.specs.Prelude.{◌≡◌, option_map};
ghost use Rattle.hx_tree.specs.View.{expr_of, place_of, assignment_of};
ghost use Rattle.hx_resolved.specs.Counts as counts;
ghost use Rattle.hx_check.specs.Views.{scopes_of};

use crate::locals::{Scopes, private_word};
use hx_resolved::program::Induct;
use hx_tree::limits::CONSTANT_LIMIT;
use hx_tree::tree;
use hx_tree::tree::Operator;

/// The value of a number token.
fn number_token(e: &tree::Expr) -> Option<i32>
    ensures { result ≡ counts.number_token (expr_of e.now) }
{
    match e {
        tree::Expr::Number(number) if *number <= CONSTANT_LIMIT => Some(*number as i32),
        _ => None,
    }
}

/// By how much `x += e` and `x -= e` count, where `e` is a number token.
fn counted_by(op: Operator, e: &tree::Expr) -> Option<i32>
    ensures { result ≡ counts.counted_by op (expr_of e.now) }
{
    match op {
        Operator::Add => number_token(e),
        Operator::Sub => Some(-number_token(e)?),
        _ => None,
    }
}

/// A place that is a local's, counted by so much.
fn counted_at(p: &tree::Place, scopes: &Scopes, by: Option<i32>) -> Option<Induct>
    ensures { result ≡ counts.counted_at (place_of p.now) (scopes_of scopes.now) by }
{
    match p {
        tree::Place::Variable(x) => {
            let private = private_word(scopes, x.text.as_slice())?;
            let step = by?;
            Some(Induct { private, step })
        }
        tree::Place::Element(_, _) => None,
    }
}

/// What a step counts: `x++` and `x--` count a local by 1 and -1, `x += N` and `x -= N` with a number
/// token by N and -N.
pub(crate) fn step_counts(step: &Option<tree::Assignment>, scopes: &Scopes) -> Option<Induct>
    ensures { result ≡ counts.step_counts (option_map assignment_of step.now) (scopes_of scopes.now) }
{
    match step {
        Some(tree::Assignment::Increment(p)) => counted_at(p, scopes, Some(1)),
        Some(tree::Assignment::Decrement(p)) => counted_at(p, scopes, Some(-1)),
        Some(tree::Assignment::Update(p, op, _, e)) => counted_at(p, scopes, counted_by(*op, e)),
        _ => None,
    }
}
