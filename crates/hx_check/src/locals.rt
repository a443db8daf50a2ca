// The locals that are known at a place.

ghost use Rattle.std.specs.Prelude.{◌≡◌, ◌+◌, OnOk, IfOk, IsTrue, ◌↔◌, [], ◌∷◌, map};
ghost use Rattle.hx_tree.specs.World.{look_up};
ghost use Rattle.hx_tree.specs.View.{name_of};
ghost use Rattle.hx_resolved.specs.Symbols.{private_word, with_word, is_in_scope};
ghost use Rattle.hx_check.specs.Views.{scope_of, scopes_of, known_of};
ghost use Rattle.hx_check.specs.Reading.{IsReading, IsReadingNow, same, check_new, declare, in_scope, out_of_scope};

use crate::error::CheckError;
use hx_tree::limits::PRIVATE_LIMIT;
use hx_tree::tree::Name;
use std::alloc::{AllocError, Global};
use std::mem;

/// The locals of a scope with their private words, the newest first.
#[derive(Drop)]
pub enum Scope {
    Empty,
    Local(Vec<u8>, u32, Box<Scope>),
}

/// The scopes around a place, the innermost first.
#[derive(Drop)]
pub enum Scopes {
    Outside,
    Inside(Scope, Box<Scopes>),
}

/// The locals that are known, and the next private word.
#[derive(Drop)]
pub struct Locals {
    pub scopes: Scopes,
    pub next: u32,
}

fn look_up(scope: &Scope, text: &[u8]) -> Option<u32>
    ensures { result ≡ look_up (scope_of scope.now) text.now }
{
    match scope {
        Scope::Empty => None,
        Scope::Local(name, word, rest) => {
            if name.as_slice() == text {
                Some(*word)
            } else {
                look_up(rest, text)
            }
        }
    }
}

/// The private word of a local, where it is known.
pub(crate) fn private_word(scopes: &Scopes, text: &[u8]) -> Option<u32>
    ensures { result ≡ private_word (scopes_of scopes.now) text.now }
{
    match scopes {
        Scopes::Outside => None,
        Scopes::Inside(scope, outer) => match look_up(scope, text) {
            Some(word) => Some(word),
            None => private_word(outer, text),
        },
    }
}

fn is_in_scope(scopes: &Scopes, text: &[u8]) -> bool
    ensures { result ≡ is_in_scope text.now (scopes_of scopes.now) }
{
    match scopes {
        Scopes::Outside => false,
        Scopes::Inside(scope, _) => look_up(scope, text).is_some(),
    }
}

fn add_local(scopes: &mut Scopes, alloc: Global, text: &[u8], word: u32) -> Result<(), AllocError>
    ensures { OnOk result (scopes_of scopes.new ≡ with_word (scopes_of scopes.old) text.now word) }
{
    match scopes {
        Scopes::Outside => {}
        Scopes::Inside(scope, _) => {
            let name = Vec::from_slice(alloc, text)?;
            let rest = mem::replace(scope, Scope::Empty);
            *scope = Scope::Local(name, word, Box::new(alloc, rest)?);
        }
    }
    Ok(())
}

impl Locals {
    /// Refuses a name that the innermost scope has already.
    pub(crate) fn check_new(&self, x: &Name) -> Result<(), CheckError>
        ensures { result ≡ check_new (name_of x.now) (known_of self.now) }
    {
        if is_in_scope(&self.scopes, x.text.as_slice()) {
            return Err(CheckError::DoubledName(x.pos));
        }
        Ok(())
    }

    /// Makes a name known in the innermost scope, and gives it the next private word.
    pub(crate) fn declare(&mut self, alloc: Global, x: &Name) -> Result<u32, CheckError>
        ensures { IsReadingNow (declare (name_of x.now) (known_of self.old)) same (known_of self.new) result }
    {
        let word = self.next;
        if word as usize >= PRIVATE_LIMIT {
            return Err(CheckError::LimitPassed(x.pos));
        }
        add_local(&mut self.scopes, alloc, x.text.as_slice(), word)?;
        self.next = word + 1;
        Ok(word)
    }

    /// Opens a scope.
    pub(crate) fn open(&mut self, alloc: Global) -> Result<(), AllocError>
        ensures { OnOk result (known_of self.new ≡ in_scope (known_of self.old)) }
    {
        let outer = mem::replace(&mut self.scopes, Scopes::Outside);
        self.scopes = Scopes::Inside(Scope::Empty, Box::new(alloc, outer)?);
        Ok(())
    }

    /// Closes the innermost scope.
    pub(crate) fn close(&mut self)
        ensures { known_of self.new ≡ out_of_scope (known_of self.old) }
    {
        match mem::replace(&mut self.scopes, Scopes::Outside) {
            Scopes::Outside => {}
            Scopes::Inside(_, outer) => self.scopes = Box::into_inner(outer),
        }
    }
}
