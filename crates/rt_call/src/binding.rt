//! The values that a function's parameters get from a call.

ghost use Rattle.std.specs.Prelude.{◌≡◌, ◌+◌, ◌<◌, ◌≤◌, ◌^◌, true, IfOk, length, slice_get, option_copied};
ghost use Rattle.nu_value.specs.Classes.{first_of};
ghost use Rattle.nu_value.specs.Names.{value_at};
ghost use Rattle.op_rules.specs.Binding as spec;

use crate::keywords::{error, keywords_error, too_many};
use crate::params::{has_star, is_at, is_key, is_placed, named_by, places};
use nu_run::StopKind;
use nu_text::RcStr;
use nu_value::{Items, Names, ParamKind, Value};
use op_rules::Bound;
use std::alloc::{AllocError, Global};
use std::marker::Model;

/// The most items of a star's tuple.
const SIZE_LIMIT: usize = 16_777_216;

/// What a function is called with.
#[derive(Drop)]
pub struct Call<'a> {
    pub params: &'a [(ParamKind, RcStr)],
    /// The defaults of the last parameters with places.
    pub defaults: &'a Items,
    /// The defaults of keyword-only parameters.
    pub keywords: &'a Names,
    pub args: &'a [Value],
    pub names: &'a Names,
    /// The number of the next object.
    pub first: u64,
}

impl<'a> Model for Call<'a> {
    ghost use Rattle.op_rules.specs.Binding.{Call as Given, call_of};

    ghost Value = { Given };

    ghost view = { λ c. call_of c.params.now c.defaults.now c.keywords.now c.args.now c.names.now c.first };
}

fn default_of<'a>(call: &Call<'a>, place: usize) -> Option<&'a Value>
    requires { place ≤ spec.places call.now.params }
    ensures { option_copied result ≡ spec.default_of call.now.defaults (spec.places call.now.params) place }
{
    let defaults = call.defaults;
    let behind = places(call.params) - place;
    defaults.get(defaults.len().checked_sub(behind)?)
}

fn place_value<'a>(call: &Call<'a>, place: usize) -> Option<&'a Value>
    requires { place ≤ spec.places call.now.params }
    ensures { option_copied result ≡ first_of (slice_get call.now.args place) (spec.default_of call.now.defaults (spec.places call.now.params) place) }
{
    match call.args.get(place) {
        Some(value) => Some(value),
        None => default_of(call, place),
    }
}

// The keyword of an ordinary parameter, if it goes to the one at this place.
fn placed_keyword<'a>(call: &Call<'a>, name: &str, place: usize) -> Option<&'a Value>
    requires { length call.now.params < 2 ^ 64 }
    ensures { option_copied result ≡ spec.value_if (spec.is_at (spec.named call.now.params 0 0 name.now) place) (value_at call.now.names name.now) }
{
    let names = call.names;
    let value = names.get(name)?;
    if is_at(named_by(call.params, 0, 0, name), place) {
        Some(value)
    } else {
        None
    }
}

// The keyword of a keyword-only parameter, if it goes to the one with this number.
fn key_keyword<'a>(call: &Call<'a>, name: &str, index: usize) -> Option<&'a Value>
    requires { length call.now.params < 2 ^ 64 }
    ensures { option_copied result ≡ spec.value_if (spec.is_key (spec.named call.now.params 0 0 name.now) index) (value_at call.now.names name.now) }
{
    let names = call.names;
    let value = names.get(name)?;
    if is_key(named_by(call.params, 0, 0, name), index) {
        Some(value)
    } else {
        None
    }
}

fn plain_value<'a>(call: &Call<'a>, name: &str, place: usize) -> Option<&'a Value>
    requires few { length call.now.params < 2 ^ 64 }
    requires within { place ≤ spec.places call.now.params }
    ensures { option_copied result ≡ first_of (slice_get call.now.args place) (first_of (spec.value_if (spec.is_at (spec.named call.now.params 0 0 name.now) place) (value_at call.now.names name.now)) (spec.default_of call.now.defaults (spec.places call.now.params) place)) }
{
    if let Some(value) = call.args.get(place) {
        return Some(value);
    }
    match placed_keyword(call, name, place) {
        Some(value) => Some(value),
        None => default_of(call, place),
    }
}

fn key_value<'a>(call: &Call<'a>, name: &str, index: usize) -> Option<&'a Value>
    requires { length call.now.params < 2 ^ 64 }
    ensures { option_copied result ≡ first_of (spec.value_if (spec.is_key (spec.named call.now.params 0 0 name.now) index) (value_at call.now.names name.now)) (value_at call.now.keywords name.now) }
{
    match key_keyword(call, name, index) {
        Some(value) => Some(value),
        None => {
            let keywords = call.keywords;
            keywords.get(name)
        }
    }
}

fn copy_of(value: Option<&Value>) -> Result<Option<Value>, AllocError>
    ensures { IfOk result (λ v. v ≡ option_copied value.entry) }
{
    match value {
        Some(value) => Ok(Some(value.copy()?)),
        None => Ok(None),
    }
}

// The value of a parameter, before which so many with places and of all kinds stand.
fn value_for(
    call: &Call,
    place: usize,
    index: usize,
    param: &(ParamKind, RcStr),
) -> Result<Option<Value>, AllocError>
    requires few { length call.now.params < 2 ^ 64 }
    requires small { call.now.first + 1 < 2 ^ 64 }
    requires within { spec.is_placed param.now.0 ≡ true → place ≤ spec.places call.now.params }
    ensures { IfOk result (λ v. v ≡ spec.value_for call.now place index param.now) }
{
    let name = param.1.as_str();
    match param.0 {
        ParamKind::Only => copy_of(place_value(call, place)),
        ParamKind::Plain => copy_of(plain_value(call, name, place)),
        ParamKind::Key => copy_of(key_value(call, name, index)),
        ParamKind::Star => Ok(Some(Value::Obj(call.first))),
        ParamKind::Double => Ok(Some(Value::Obj(u64::from(has_star(call.params)) + call.first))),
    }
}

// The values of the parameters that are left, put behind the items; or the first parameter that has none.
fn values_into<'a>(
    call: &Call,
    place: usize,
    index: usize,
    left: &'a [(ParamKind, RcStr)],
    items: &mut Items,
) -> Result<Option<&'a RcStr>, AllocError>
    requires few { length call.now.params < 2 ^ 64 }
    requires small { call.now.first + 1 < 2 ^ 64 }
    requires within { length left.now + place < 2 ^ 64 }
    requires numbers { length left.now + index < 2 ^ 64 }
    requires places { spec.places left.now + place ≡ spec.places call.now.params }
    ensures { IfOk result (λ missing. spec.Filled (spec.values_from call.now place index left.now) items.old items.new (option_copied missing)) }
{
    match left {
        [] => Ok(None),
        [param, left @ ..] => match value_for(call, place, index, param)? {
            None => Ok(Some(&param.1)),
            Some(value) => {
                items.push(value)?;
                let place = usize::from(is_placed(param.0)) + place;
                values_into(call, place, 1 + index, left, items)
            }
        },
    }
}

// Whether the star's tuple is within the limit.
fn fits_star(call: &Call) -> bool
    ensures { result ≡ spec.fits_star call.now }
{
    !has_star(call.params) || call.args.len().saturating_sub(places(call.params)) <= SIZE_LIMIT
}

fn bound_values(alloc: Global, scope: &str, call: &Call) -> Result<Bound, AllocError>
    requires few { length call.now.params < 2 ^ 64 }
    requires small { call.now.first + 1 < 2 ^ 64 }
    ensures { IfOk result (λ b. b ≡ spec.bound_values scope.now call.now (spec.values_from call.now 0 0 call.now.params)) }
{
    let mut values = Items::new(alloc);
    if let Some(name) = values_into(call, 0, 0, call.params, &mut values)? {
        return error(alloc, scope, "() missing argument '", name.as_str(), "'");
    }
    if fits_star(call) {
        Ok(Bound::Ready(values))
    } else {
        Ok(Bound::Stop(StopKind::Size))
    }
}

/// The values that the parameters get from a call, or why they get none.
pub fn binding(alloc: Global, scope: &str, call: &Call) -> Result<Bound, AllocError>
    requires few { length call.now.params < 2 ^ 64 }
    requires small { call.now.first + 1 < 2 ^ 64 }
    ensures { IfOk result (λ b. b ≡ spec.binding scope.now call.now) }
{
    if places(call.params) < call.args.len() && !has_star(call.params) {
        return too_many(alloc, scope);
    }
    let names = call.names;
    match keywords_error(alloc, scope, call.params, call.args.len(), names.as_slice())? {
        Some(bound) => Ok(bound),
        None => bound_values(alloc, scope, call),
    }
}
