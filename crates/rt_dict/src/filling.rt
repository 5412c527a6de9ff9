//! Dicts that are made and filled: displays, and the keywords of calls.

ghost use Rattle.std.specs.Prelude.{◌≡◌, ◌∷◌, ◌++◌, [], IfOk, OnOk, Some, slice_get};
ghost use Rattle.nu_value.specs.Pairs.{with_pair};
ghost use Rattle.nu_value.specs.Same.{object_of};
ghost use Rattle.op_forms.specs.Doing.{Fit, changed_by, put_at, makes, Did};
ghost use Rattle.nu_value.specs.declared.object.Object.TheVariants as object;
ghost use Rattle.op_rules.specs.Dicts as spec;
ghost use Rattle.op_rules.specs.Views.{pairs_in};

use crate::changes::put_into;
use crate::keys::{TYPE_ERROR, raised_of};
use nu_run::StopKind;
use nu_value::{Atom, Heap, Items, Key, Names, Object, Pairs, Value, object_of};
use op_forms::{After, OpEnd};
use op_rules::{ask, raised};
use std::alloc::{AllocError, Global};

/// A new dict.
pub fn dict_row(alloc: Global, heap: &mut Heap) -> Result<OpEnd, AllocError>
    ensures { IfOk result (λ e. Did (makes heap.old (object.Dict [])) heap.old heap.new e) }
{
    let number = heap.make(Object::Dict(Pairs::new(alloc)))?;
    Ok(OpEnd::Give(Value::Obj(number)))
}

/// Two values in a list.
pub fn two(alloc: Global, first: &Value, second: &Value) -> Result<Items, AllocError>
    ensures { IfOk result (λ items. items ≡ first.now ∷ second.now ∷ []) }
{
    let mut items = Items::new(alloc);
    items.push(first.copy()?)?;
    items.push(second.copy()?)?;
    Ok(items)
}

fn no_dict(alloc: Global) -> Result<OpEnd, AllocError>
    ensures { IfOk result (λ e. e ≡ spec.no_dict) }
{
    raised(alloc, TYPE_ERROR, "argument must be a dict")
}

/// Puts the pairs of a dict into another, by the built-in text.
pub fn merge_row(
    alloc: Global,
    heap: &Heap,
    dict: &Value,
    other: &Value,
) -> Result<OpEnd, AllocError>
    ensures { IfOk result (λ e. e ≡ spec.merge_row heap.now dict.now other.now) }
{
    match object_of(heap, other) {
        Some(Object::Dict(_)) => {
            let args = two(alloc, dict, other)?;
            Ok(ask(heap, "_nu_update", args, Names::new(alloc), After::Plain))
        }
        _ => no_dict(alloc),
    }
}

fn given_twice(alloc: Global, text: &str) -> Result<OpEnd, AllocError>
    ensures { IfOk result (λ e. e ≡ spec.given_twice text.now) }
{
    raised_of(
        alloc,
        TYPE_ERROR,
        "got multiple values for keyword argument '",
        text,
        "'",
    )
}

fn no_keyword(alloc: Global) -> Result<OpEnd, AllocError>
    ensures { IfOk result (λ e. e ≡ spec.no_keyword) }
{
    raised(alloc, TYPE_ERROR, "keywords must be strings")
}

// The key of a further keyword, or why it is none.
fn keyword(alloc: Global, pairs: &Pairs, value: &Value) -> Result<Result<Key, OpEnd>, AllocError>
    ensures { IfOk result (λ r. r ≡ spec.keyword pairs.now value.now) }
{
    let Value::Str(text) = value else {
        return Ok(Err(no_keyword(alloc)?));
    };
    let key = Key::one(Atom::Str(text.share()?));
    match pairs.find(&key) {
        None => Ok(Ok(key)),
        Some(_) => Ok(Err(given_twice(alloc, text.as_str())?)),
    }
}

fn keyput_on(
    alloc: Global,
    heap: &mut Heap,
    dict: u64,
    name: &Value,
    value: &Value,
) -> Result<OpEnd, AllocError>
    ensures { IfOk result (λ e. Did (spec.keyput_on dict name.now value.now (slice_get heap.old dict)) heap.old heap.new e) }
{
    let Some(Object::Dict(pairs)) = heap.get(dict) else {
        return Ok(OpEnd::Stop(StopKind::Unbuilt));
    };
    let key = match keyword(alloc, pairs, name)? {
        Ok(key) => key,
        Err(end) => return Ok(end),
    };
    put_into(heap, dict, key, name.copy()?, value.copy()?)?;
    Ok(OpEnd::Give(Value::None))
}

/// Puts a keyword of a call.
pub fn keyput_row(
    alloc: Global,
    heap: &mut Heap,
    dict: &Value,
    name: &Value,
    value: &Value,
) -> Result<OpEnd, AllocError>
    ensures { IfOk result (λ e. Did (spec.keyput_row heap.old dict.now name.now value.now) heap.old heap.new e) }
{
    match dict {
        Value::Obj(number) => keyput_on(alloc, heap, *number, name, value),
        _ => Ok(OpEnd::Stop(StopKind::Unbuilt)),
    }
}

fn push_couple(
    list: &mut Vec<(Value, Value)>,
    given: &Value,
    value: &Value,
) -> Result<(), AllocError>
    ensures { OnOk result (list.new.items ≡ list.old.items ++ (given.now, value.now) ∷ []) }
{
    list.push((given.copy()?, value.copy()?))?;
    Ok(())
}

// The values that stand for keys, and those that they map to.
fn couples(alloc: Global, pairs: &Pairs) -> Result<Vec<(Value, Value)>, AllocError>
    ensures { IfOk result (λ list. list.items ≡ spec.couples pairs.now) }
{
    let mut list = Vec::new(alloc);
    for place in 0..pairs.len() {
        let Some((_, given, value)) = pairs.at(place) else {
            return Ok(list);
        };
        push_couple(&mut list, given, value)?;
    }
    Ok(list)
}

// Puts a further keyword, or tells why it is refused.
fn merge_one(
    alloc: Global,
    pairs: &mut Pairs,
    given: &Value,
    value: &Value,
) -> Result<Option<OpEnd>, AllocError>
    ensures { IfOk result (λ r. spec.merge_if pairs.old (spec.keyword pairs.old given.now) (λ k. spec.outcome (with_pair pairs.old k given.now value.now) None) ≡ spec.outcome pairs.new r) }
{
    match keyword(alloc, pairs, given)? {
        Ok(key) => {
            pairs.put(key, given.copy()?, value.copy()?)?;
            Ok(None)
        }
        Err(end) => Ok(Some(end)),
    }
}

// Puts further keywords, up to the first that is refused.
fn merge_pairs(
    alloc: Global,
    pairs: &mut Pairs,
    more: &[(Value, Value)],
) -> Result<Option<OpEnd>, AllocError>
    ensures { IfOk result (λ r. spec.merge_all pairs.old more.now ≡ spec.outcome pairs.new r) }
{
    for place in 0..more.len() {
        let Some(couple) = more.get(place) else {
            return Ok(None);
        };
        match merge_one(alloc, pairs, &couple.0, &couple.1)? {
            None => {}
            Some(end) => return Ok(Some(end)),
        }
    }
    Ok(None)
}

fn merge_in(
    alloc: Global,
    object: &mut Object,
    more: &[(Value, Value)],
) -> Result<Option<OpEnd>, AllocError>
    ensures pairs { IfOk result (λ r. object.new ≡ changed_by (Fit (spec.merge_all (pairs_in (Some object.old)) more.now).pairs) object.old) }
    ensures refused { IfOk result (λ r. r ≡ spec.refused_in (Some object.old) more.now) }
{
    match object {
        Object::Dict(pairs) => merge_pairs(alloc, pairs, more),
        _ => Ok(None),
    }
}

fn merge_at(
    alloc: Global,
    heap: &mut Heap,
    dict: u64,
    more: &[(Value, Value)],
) -> Result<Option<OpEnd>, AllocError>
    ensures pairs { IfOk result (λ r. heap.new ≡ put_at heap.old dict (Fit (spec.merge_all (pairs_in (slice_get heap.old dict)) more.now).pairs) (slice_get heap.old dict)) }
    ensures refused { IfOk result (λ r. r ≡ spec.refused_in (slice_get heap.old dict) more.now) }
{
    match heap.get_mut(dict) {
        Some(object) => merge_in(alloc, object, more),
        None => Ok(None),
    }
}

fn none_or(refused: Option<OpEnd>) -> OpEnd
    ensures { result ≡ spec.none_or refused }
{
    match refused {
        Some(end) => end,
        None => OpEnd::Give(Value::None),
    }
}

fn keymerge_on(
    alloc: Global,
    heap: &mut Heap,
    dict: u64,
    other: &Value,
) -> Result<OpEnd, AllocError>
    ensures { IfOk result (λ e. Did (spec.keymerge_on dict (object_of heap.old other.now) (slice_get heap.old dict)) heap.old heap.new e) }
{
    let Some(Object::Dict(more)) = object_of(heap, other) else {
        return no_dict(alloc);
    };
    let Some(Object::Dict(_)) = heap.get(dict) else {
        return Ok(OpEnd::Stop(StopKind::Unbuilt));
    };
    let more = couples(alloc, more)?;
    let refused = merge_at(alloc, heap, dict, &more)?;
    Ok(none_or(refused))
}

/// Puts the keywords of a call that a dict has.
pub fn keymerge_row(
    alloc: Global,
    heap: &mut Heap,
    dict: &Value,
    other: &Value,
) -> Result<OpEnd, AllocError>
    ensures { IfOk result (λ e. Did (spec.keymerge_row heap.old dict.now other.now) heap.old heap.new e) }
{
    match dict {
        Value::Obj(number) => keymerge_on(alloc, heap, *number, other),
        _ => Ok(OpEnd::Stop(StopKind::Unbuilt)),
    }
}
