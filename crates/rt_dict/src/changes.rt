//! Changes of a dict.

ghost use Rattle.std.specs.Prelude.{◌≡◌, ◌<◌, IfOk, OnOk, OnErr, Some, [], length, remove, slice_get};
ghost use Rattle.op_forms.specs.Doing.{Put, Fit, changed_by, put_at, Did};
ghost use Rattle.op_rules.specs.DictMethods.{mapped_by};
ghost use Rattle.op_rules.specs.Dicts as spec;
ghost use Rattle.op_rules.specs.Views.{pairs_in};

use crate::keys::{key_error, key_or_end};
use nu_value::{Heap, Key, Object, Pairs, Value};
use op_forms::OpEnd;
use op_rules::no_item_changes;
use std::alloc::{AllocError, Global};

fn put_in(object: &mut Object, key: Key, given: Value, value: Value) -> Result<(), AllocError>
    ensures ok { OnOk result (object.new ≡ changed_by (Put key given value) object.old) }
    ensures err { OnErr result (object.new ≡ object.old) }
{
    match object {
        Object::Dict(pairs) => pairs.put(key, given, value),
        _ => Ok(()),
    }
}

/// Maps a key of the dict of this number to a value.
#[tactic(auto, using(crate::proofs::Putting::set_same))]
pub fn put_into(
    heap: &mut Heap,
    dict: u64,
    key: Key,
    given: Value,
    value: Value,
) -> Result<(), AllocError>
    ensures ok { OnOk result (heap.new ≡ put_at heap.old dict (Put key given value) (slice_get heap.old dict)) }
    ensures err { OnErr result (heap.new ≡ heap.old) }
{
    match heap.get_mut(dict) {
        Some(object) => put_in(object, key, given, value),
        None => Ok(()),
    }
}

// Takes a pair out; its value is left.
fn take_pair(pairs: &mut Pairs, place: usize) -> Value
    requires { place < length pairs.old }
    ensures value { mapped_by pairs.old place ≡ Some result }
    ensures rest { pairs.new ≡ remove pairs.old place }
{
    let (_, value) = pairs.remove(place);
    value
}

fn take_in(object: &mut Object, place: usize) -> Value
    requires { place < length (pairs_in (Some object.old)) }
    ensures value { mapped_by (pairs_in (Some object.old)) place ≡ Some result }
    ensures rest { object.new ≡ changed_by (Fit (remove (pairs_in (Some object.old)) place)) object.old }
{
    match object {
        Object::Dict(pairs) => take_pair(pairs, place),
        _ => unreachable!(),
    }
}

/// Takes a pair out of the dict of this number; its value is left.
pub fn take_from(heap: &mut Heap, dict: u64, place: usize) -> Value
    requires { place < length (pairs_in (slice_get heap.old dict)) }
    ensures value { mapped_by (pairs_in (slice_get heap.old dict)) place ≡ Some result }
    ensures rest { heap.new ≡ put_at heap.old dict (Fit (remove (pairs_in (slice_get heap.old dict)) place)) (slice_get heap.old dict) }
{
    match heap.get_mut(dict) {
        Some(object) => take_in(object, place),
        None => unreachable!(),
    }
}

fn clear_in(object: &mut Object)
    ensures { object.new ≡ changed_by (Fit []) object.old }
{
    if let Object::Dict(pairs) = object {
        pairs.clear();
    }
}

/// Takes all pairs out of the dict of this number.
pub fn clear_at(heap: &mut Heap, dict: u64)
    ensures { heap.new ≡ put_at heap.old dict (Fit []) (slice_get heap.old dict) }
{
    if let Some(object) = heap.get_mut(dict) {
        clear_in(object);
    }
}

fn setindex_on(
    alloc: Global,
    heap: &mut Heap,
    dict: u64,
    index: &Value,
    value: &Value,
) -> Result<OpEnd, AllocError>
    ensures { IfOk result (λ e. Did (spec.setindex_on heap.old dict index.now value.now (slice_get heap.old dict)) heap.old heap.new e) }
{
    let Some(Object::Dict(_)) = heap.get(dict) else {
        return no_item_changes(alloc, heap, &Value::Obj(dict));
    };
    let key = match key_or_end(alloc, heap, index)? {
        Ok(key) => key,
        Err(end) => return Ok(end),
    };
    put_into(heap, dict, key, index.copy()?, value.copy()?)?;
    Ok(OpEnd::Give(Value::None))
}

/// `x[i] = v`.
pub fn setindex_row(
    alloc: Global,
    heap: &mut Heap,
    container: &Value,
    index: &Value,
    value: &Value,
) -> Result<OpEnd, AllocError>
    ensures { IfOk result (λ e. Did (spec.setindex_row heap.old container.now index.now value.now) heap.old heap.new e) }
{
    match container {
        Value::Obj(number) => setindex_on(alloc, heap, *number, index, value),
        _ => no_item_changes(alloc, heap, container),
    }
}

fn delindex_on(
    alloc: Global,
    heap: &mut Heap,
    dict: u64,
    index: &Value,
) -> Result<OpEnd, AllocError>
    ensures { IfOk result (λ e. Did (spec.delindex_on heap.old dict index.now (slice_get heap.old dict)) heap.old heap.new e) }
{
    let Some(Object::Dict(pairs)) = heap.get(dict) else {
        return no_item_changes(alloc, heap, &Value::Obj(dict));
    };
    let key = match key_or_end(alloc, heap, index)? {
        Ok(key) => key,
        Err(end) => return Ok(end),
    };
    let Some(place) = pairs.find(&key) else {
        return key_error(alloc, index);
    };
    let _ = take_from(heap, dict, place);
    Ok(OpEnd::Give(Value::None))
}

/// `del x[i]`.
pub fn delindex_row(
    alloc: Global,
    heap: &mut Heap,
    container: &Value,
    index: &Value,
) -> Result<OpEnd, AllocError>
    ensures { IfOk result (λ e. Did (spec.delindex_row heap.old container.now index.now) heap.old heap.new e) }
{
    match container {
        Value::Obj(number) => delindex_on(alloc, heap, *number, index),
        _ => no_item_changes(alloc, heap, container),
    }
}
