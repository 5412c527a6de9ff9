//! What stands before the body of a function.

ghost use Rattle.std.specs.Prelude.{◌≡◌, IfOk};
ghost use Rattle.std.specs.List.{AllByRecursion};
ghost use Rattle.code_forms.specs.Fits.{ParamFits, HeaderFits};

use crate::constant::share_text;
use nu_value::{Header, Shape};
use std::alloc::{AllocError, Global};

// The same parameters.
fn share_params(alloc: Global, params: &Shape) -> Result<Shape, AllocError>
    ensures is { IfOk result (λ copy. copy ≡ params.now) }
    ensures fits { IfOk result (λ copy. AllByRecursion ParamFits copy) }
{
    let mut copy = Shape::new(alloc);
    for place in 0..params.len() {
        let Some((kind, name)) = params.at(place) else {
            unreachable!();
        };
        copy.push(kind, share_text(name)?)?;
    }
    Ok(copy)
}

/// The same header for one owner more, whose line and names are values of their types.
pub fn share_header(alloc: Global, header: &Header) -> Result<Header, AllocError>
    ensures is { IfOk result (λ copy. copy ≡ header.now) }
    ensures fits { IfOk result (λ copy. HeaderFits copy) }
{
    let line = header.line;
    Ok(Header {
        scope: share_text(&header.scope)?,
        params: share_params(alloc, &header.params)?,
        generator: header.generator,
        line,
    })
}
