//! Parameters of functions, and which of them a keyword names (reference, section 8.7).

ghost use Rattle.std.specs.Prelude.{◌≡◌, ◌+◌, ◌<◌, ◌≤◌, ◌^◌, length};
ghost use Rattle.op_rules.specs.Binding as spec;

use nu_text::RcStr;
use nu_value::ParamKind;
use op_rules::Named;

pub fn is_placed(kind: ParamKind) -> bool
    ensures { result ≡ spec.is_placed kind }
{
    matches!(kind, ParamKind::Only | ParamKind::Plain)
}

/// How many parameters have places.
pub fn places(params: &[(ParamKind, RcStr)]) -> usize
    ensures count { result ≡ spec.places params.now }
    ensures few { result ≤ length params.now }
{
    match params {
        [] => 0,
        [param, params @ ..] => usize::from(is_placed(param.0)) + places(params),
    }
}

pub fn has_star(params: &[(ParamKind, RcStr)]) -> bool
    ensures { result ≡ spec.has_star params.now }
{
    match params {
        [] => false,
        [param, params @ ..] => matches!(param.0, ParamKind::Star) || has_star(params),
    }
}

pub fn has_double(params: &[(ParamKind, RcStr)]) -> bool
    ensures { result ≡ spec.has_double params.now }
{
    match params {
        [] => false,
        [param, params @ ..] => matches!(param.0, ParamKind::Double) || has_double(params),
    }
}

/// Which of these parameters a keyword names, behind so many with places and of all kinds.
pub fn named_by(params: &[(ParamKind, RcStr)], place: usize, index: usize, name: &str) -> Named
    requires few { length params.now + place < 2 ^ 64 }
    requires small { length params.now + index < 2 ^ 64 }
    ensures { result ≡ spec.named params.now place index name.now }
{
    match params {
        [] => Named::NoName,
        [param, params @ ..] => {
            if param.1.as_str() == name {
                match param.0 {
                    ParamKind::Plain => return Named::AtPlace(place),
                    ParamKind::Key => return Named::ByKey(index),
                    _ => {}
                }
            }
            named_by(
                params,
                usize::from(is_placed(param.0)) + place,
                1 + index,
                name,
            )
        }
    }
}

pub fn is_at(named: Named, place: usize) -> bool
    ensures { result ≡ spec.is_at named place }
{
    match named {
        Named::AtPlace(at) => at == place,
        _ => false,
    }
}

pub fn is_key(named: Named, index: usize) -> bool
    ensures { result ≡ spec.is_key named index }
{
    match named {
        Named::ByKey(at) => at == index,
        _ => false,
    }
}
