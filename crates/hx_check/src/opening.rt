// The store words of the globals as they begin without input.

ghost use Rattle.std.specs.Prelude.{◌≡◌, ◌++◌, ◌≤◌, ◌-◌, OnOk, IfOk, All, map, flat_map, replicate, length, pos};
ghost use Rattle.hx_tree.specs.declared.limits.TheConstants.{CONSTANT_LIMIT};
ghost use Rattle.hx_tree.specs.View.{shape_of, global_of, item_of};
ghost use Rattle.hx_tree.specs.Meaning.{constant_value, opening_words, item_globals};
ghost use Rattle.hx_tree.specs.Accepted.{AcceptsShape, AcceptsConstant};
ghost use Rattle.hx_check.specs.Opening.{GlobalsFit};

use hx_tree::tree::{Constant, GlobalDecl, Item, Shape};
use std::alloc::{AllocError, Global};

fn constant_value(c: Constant) -> i32
    requires { AcceptsConstant c }
    ensures { result ≡ constant_value c }
{
    let number = c.number as i32;
    if c.is_negated { -number } else { number }
}

fn add_constants(constants: &[Constant], out: &mut Vec<i32>) -> Result<(), AllocError>
    requires { All AcceptsConstant constants.now }
    ensures { OnOk result (out.new.items ≡ out.old.items ++ map constant_value constants.now) }
{
    for c in constants {
        out.push(constant_value(*c))?;
    }
    Ok(())
}

fn add_zeros(count: usize, out: &mut Vec<i32>) -> Result<(), AllocError>
    ensures { OnOk result (out.new.items ≡ out.old.items ++ replicate count (pos 0)) }
{
    for _k in 0..count {
        out.push(0)?;
    }
    Ok(())
}

fn add_shape(shape: &Shape, out: &mut Vec<i32>) -> Result<(), AllocError>
    requires { AcceptsShape (shape_of shape.now) }
    ensures { OnOk result (out.new.items ≡ out.old.items ++ opening_words (shape_of shape.now)) }
{
    match shape {
        Shape::Int(None) => out.push(0)?,
        Shape::Int(Some(c)) => out.push(constant_value(*c))?,
        Shape::Array(length, constants) => {
            add_constants(constants, out)?;
            add_zeros(*length as usize - constants.len(), out)?;
        }
    }
    Ok(())
}

fn add_globals(globals: &[GlobalDecl], out: &mut Vec<i32>) -> Result<(), AllocError>
    requires { All (λ g. AcceptsShape (shape_of g.shape)) globals.now }
    ensures { OnOk result (out.new.items ≡ out.old.items ++ flat_map (λ g. opening_words g.shape) (map global_of globals.now)) }
{
    for g in globals {
        add_shape(&g.shape, out)?;
    }
    Ok(())
}

/// The store words of all globals, in source order.
pub(crate) fn opening(alloc: Global, items: &[Item]) -> Result<Vec<i32>, AllocError>
    requires { All GlobalsFit items.now }
    ensures { IfOk result (λ v. v.items ≡ flat_map (λ g. opening_words g.shape) (flat_map item_globals (map item_of items.now))) }
{
    let mut all = Vec::new(alloc);
    for item in items {
        if let Item::Globals(globals) = item {
            add_globals(globals, &mut all)?;
        }
    }
    Ok(all)
}
