//! The parameters of scopes.

ghost use Rattle.std.specs.Prelude.{◌≡◌, if◌then◌else◌, IfOk};
ghost use Rattle.std.specs.List.{list_any};
ghost use Rattle.nu_value.specs.declared.header.ParamKind.TheVariants as param_kind;
ghost use Rattle.py_meaning.specs.Resolved as meaning;

use crate::here::Here;
use nu_text::RcStr;
use nu_value::{ParamKind, Shape};
use py_ast::{Expr, Param};
use std::alloc::{AllocError, Global};

/// The parameter of a comprehension and of the block of a class, which what they are given goes to.
pub fn handed(alloc: Global) -> Result<Shape, AllocError>
    ensures { IfOk result (λ shape. shape ≡ meaning.handed) }
{
    let mut shape = Shape::new(alloc);
    shape.push(ParamKind::Only, RcStr::from_str(alloc, ".0")?)?;
    Ok(shape)
}

fn has_slash(params: &[Param<Expr>]) -> bool
    ensures { result ≡ list_any meaning.is_slash params.now }
{
    for param in params {
        if let Param::Slash(_) = param {
            return true;
        }
    }
    false
}

// Parameters before a `/` are positional-only.
fn first_kind(has_slash: bool) -> ParamKind
    ensures { result ≡ (if has_slash then param_kind.Only else param_kind.Plain) }
{
    if has_slash {
        ParamKind::Only
    } else {
        ParamKind::Plain
    }
}

/// The kinds and names of parameters (reference, section 8.7).
pub fn shape<H: Here>(alloc: Global, here: &H, params: &[Param<Expr>]) -> Result<Shape, AllocError>
    ensures { IfOk result (λ shape. shape ≡ meaning.shape (H.context here.now) params.now) }
{
    let mut shape = Shape::new(alloc);
    let mut kind = first_kind(has_slash(params));
    for param in params {
        match param {
            Param::Named(_, name, _) => shape.push(kind, here.word(name)?)?,
            Param::Slash(_) => kind = ParamKind::Plain,
            Param::Star(_, Some(name)) => {
                shape.push(ParamKind::Star, here.word(name)?)?;
                kind = ParamKind::Key;
            }
            Param::Star(_, None) => kind = ParamKind::Key,
            Param::DoubleStar(_, name) => shape.push(ParamKind::Double, here.word(name)?)?,
        }
    }
    Ok(shape)
}
