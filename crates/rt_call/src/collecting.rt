//! What a star and a double star collect.

ghost use Rattle.std.specs.Prelude.{◌≡◌, ◌<◌, ◌^◌, ◌++◌, ◌∷◌, [], IfOk, OnOk, length};
ghost use Rattle.std.proofs.Math.ListN.{drop};
ghost use Rattle.nu_value.specs.declared.object.Object.TheVariants as object;
ghost use Rattle.op_rules.specs.Binding as spec;

use crate::params::{has_double, has_star, named_by, places};
use nu_text::RcStr;
use nu_value::{Atom, Heap, Items, Key, Object, Pairs, ParamKind, Value};
use op_rules::Named;
use std::alloc::{AllocError, Global};

fn behind(args: &[Value], count: usize) -> &[Value]
    ensures { result.now ≡ drop count args.now }
{
    if count <= args.len() {
        &args[count..]
    } else {
        &[]
    }
}

/// The same values in a list of their own.
pub fn copied(alloc: Global, values: &[Value]) -> Result<Items, AllocError>
    ensures { IfOk result (λ items. items ≡ values.now) }
{
    let mut items = Items::new(alloc);
    for value in values {
        items.push(value.copy()?)?;
    }
    Ok(items)
}

fn make_tuple(
    alloc: Global,
    heap: &mut Heap,
    params: &[(ParamKind, RcStr)],
    args: &[Value],
) -> Result<(), AllocError>
    ensures { OnOk result (heap.new ≡ heap.old ++ object.Tuple (drop (spec.places params.now) args.now) ∷ []) }
{
    let items = copied(alloc, behind(args, places(params)))?;
    heap.make(Object::Tuple(items))?;
    Ok(())
}

// A keyword that names no parameter is put into pairs.
fn put_left(named: Named, pair: &(RcStr, Value), pairs: &mut Pairs) -> Result<(), AllocError>
    ensures { OnOk result (pairs.new ≡ spec.left_one named pair.now pairs.old) }
{
    match named {
        Named::NoName => {
            let key = Key::one(Atom::Str(pair.0.share()?));
            pairs.put(key, Value::Str(pair.0.share()?), pair.1.copy()?)
        }
        _ => Ok(()),
    }
}

fn left_into(
    params: &[(ParamKind, RcStr)],
    names: &[(RcStr, Value)],
    pairs: &mut Pairs,
) -> Result<(), AllocError>
    requires { length params.now < 2 ^ 64 }
    ensures { OnOk result (pairs.new ≡ spec.left_over params.now names.now pairs.old) }
{
    match names {
        [] => Ok(()),
        [pair, names @ ..] => {
            put_left(named_by(params, 0, 0, pair.0.as_str()), pair, pairs)?;
            left_into(params, names, pairs)
        }
    }
}

fn make_dict(
    alloc: Global,
    heap: &mut Heap,
    params: &[(ParamKind, RcStr)],
    names: &[(RcStr, Value)],
) -> Result<(), AllocError>
    requires { length params.now < 2 ^ 64 }
    ensures { OnOk result (heap.new ≡ heap.old ++ object.Dict (spec.left_over params.now names.now []) ∷ []) }
{
    let mut pairs = Pairs::new(alloc);
    left_into(params, names, &mut pairs)?;
    heap.make(Object::Dict(pairs))?;
    Ok(())
}

/// Makes what a star and a double star collect.
pub fn collect(
    alloc: Global,
    heap: &mut Heap,
    params: &[(ParamKind, RcStr)],
    args: &[Value],
    names: &[(RcStr, Value)],
) -> Result<(), AllocError>
    requires { length params.now < 2 ^ 64 }
    ensures { OnOk result (heap.new ≡ heap.old ++ spec.collected (spec.call_of params.now [] [] args.now names.now 0)) }
{
    if has_star(params) {
        make_tuple(alloc, heap, params, args)?;
    }
    if has_double(params) {
        make_dict(alloc, heap, params, names)?;
    }
    Ok(())
}
