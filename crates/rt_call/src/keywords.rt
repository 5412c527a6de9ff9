//! What is wrong with the keywords of a call.

ghost use Rattle.std.specs.Prelude.{◌≡◌, ◌<◌, ◌^◌, IfOk, length};
ghost use Rattle.op_rules.specs.Binding as spec;

use crate::params::{has_double, named_by};
use nu_text::RcStr;
use nu_value::{Items, ParamKind, Value};
use op_rules::{Bound, Named};
use std::alloc::{AllocError, Global};

const TYPE_ERROR: u64 = 35;

/// A TypeError with this text.
pub fn refused(alloc: Global, text: &str) -> Result<Bound, AllocError>
    ensures { IfOk result (λ b. b ≡ spec.refused text.now) }
{
    let mut items = Items::new(alloc);
    items.push(Value::Str(RcStr::from_str(alloc, text)?))?;
    Ok(Bound::Raise(TYPE_ERROR, items))
}

/// A TypeError whose text is made of these.
pub fn error(
    alloc: Global,
    scope: &str,
    front: &str,
    name: &str,
    back: &str,
) -> Result<Bound, AllocError>
    ensures { IfOk result (λ b. b ≡ spec.error scope.now front.now name.now back.now) }
{
    let mut text = String::from_str(alloc, scope)?;
    text.push_str(front)?;
    text.push_str(name)?;
    text.push_str(back)?;
    refused(alloc, text.as_str())
}

pub fn too_many(alloc: Global, scope: &str) -> Result<Bound, AllocError>
    ensures { IfOk result (λ b. b ≡ spec.too_many scope.now) }
{
    let mut text = String::from_str(alloc, scope)?;
    text.push_str("() takes too many positional arguments")?;
    refused(alloc, text.as_str())
}

fn keyword_error(
    alloc: Global,
    scope: &str,
    count: usize,
    double: bool,
    name: &str,
    named: Named,
) -> Result<Option<Bound>, AllocError>
    ensures { IfOk result (λ e. e ≡ spec.keyword_error scope.now count double name.now named) }
{
    match named {
        Named::AtPlace(place) if place < count => Ok(Some(error(
            alloc,
            scope,
            "() got multiple values for argument '",
            name,
            "'",
        )?)),
        Named::NoName if !double => Ok(Some(error(
            alloc,
            scope,
            "() got an unexpected keyword argument '",
            name,
            "'",
        )?)),
        _ => Ok(None),
    }
}

/// The first keyword's error, if one has any: so many arguments are positional.
pub fn keywords_error(
    alloc: Global,
    scope: &str,
    params: &[(ParamKind, RcStr)],
    count: usize,
    names: &[(RcStr, Value)],
) -> Result<Option<Bound>, AllocError>
    requires { length params.now < 2 ^ 64 }
    ensures { IfOk result (λ e. e ≡ spec.keywords_error scope.now params.now count names.now) }
{
    match names {
        [] => Ok(None),
        [pair, names @ ..] => {
            let name = pair.0.as_str();
            match keyword_error(
                alloc,
                scope,
                count,
                has_double(params),
                name,
                named_by(params, 0, 0, name),
            )? {
                Some(bound) => Ok(Some(bound)),
                None => keywords_error(alloc, scope, params, count, names),
            }
        }
    }
}
