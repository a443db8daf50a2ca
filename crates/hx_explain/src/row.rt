// What is said of one number.

ghost use Rattle.std.specs.Prelude.{IsSome};

/// What a number means, with a wrong source or call and a right one.
#[derive(Clone, Copy, PartialEq, Eq, Debug)]
pub struct Explanation {
    /// What the number means, in one sentence or two.
    pub meaning: &'static str,
    /// A source, an input or a call that is answered so.
    pub wrong: &'static str,
    /// One that isn't.
    pub right: &'static str,
}

/// The three texts of a number.
pub(crate) fn explained(
    meaning: &'static str,
    wrong: &'static str,
    right: &'static str,
) -> Option<Explanation>
    ensures { IsSome result }
{
    Some(Explanation {
        meaning,
        wrong,
        right,
    })
}
