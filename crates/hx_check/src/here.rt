// Where a statement stands.

ghost use Rattle.std.specs.Prelude.{◌≡◌};
ghost use Rattle.hx_check.specs.declared.error.CheckError.TheVariants.{OutsideLoop};
ghost use Rattle.hx_check.specs.Reading.{inside, unless, within_loop};

use crate::error::CheckError;
use hx_tree::token::Pos;
use hx_tree::tree::Returns;

/// Where a statement stands: what its function returns and how many private words it has, whether a
/// loop is around the statement, and whether a marked loop is.
#[derive(Clone, Copy)]
pub struct Here {
    pub returns: Returns,
    pub privates: u32,
    pub in_loop: bool,
    pub is_marked: bool,
}

impl Here {
    /// Where the body of a loop stands.
    pub(crate) fn inside(self, marked: bool) -> Here
        ensures { result ≡ inside marked self }
    {
        Here {
            returns: self.returns,
            privates: self.privates,
            in_loop: true,
            is_marked: self.is_marked || marked,
        }
    }

    /// Where the body of a `do` stands, which is never marked.
    pub(crate) fn within_loop(self) -> Here
        ensures { result ≡ within_loop self }
    {
        Here {
            in_loop: true,
            ..self
        }
    }

    /// Refuses a `break` or a `continue` outside a loop.
    pub(crate) fn check_loop(self, pos: Pos) -> Result<(), CheckError>
        ensures { result ≡ unless self.in_loop (OutsideLoop pos) }
    {
        if self.in_loop {
            Ok(())
        } else {
            Err(CheckError::OutsideLoop(pos))
        }
    }
}
