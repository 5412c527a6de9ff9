//! What changes no dict: items, `in`, iterators and lengths.

ghost use Rattle.std.specs.Prelude.{◌≡◌, IfOk, length, slice_get};
ghost use Rattle.nu_value.specs.Pairs.{found_at, mapped_value};
ghost use Rattle.nu_value.specs.Same.{eq};
ghost use Rattle.op_forms.specs.Doing.{Did};
ghost use Rattle.op_rules.specs.Comparisons as comparisons;
ghost use Rattle.op_rules.specs.Keys as keys;
ghost use Rattle.op_rules.specs.NameRows as names;
ghost use Rattle.op_rules.specs.Views as spec;

use crate::keys::{key_error, key_or_end};
use nu_run::StopKind;
use nu_value::{
    Heap, Integer, Key, Object, Pairs, Sameness, Value, ViewKind, object_of, same_value,
};
use op_forms::OpEnd;
use op_rules::not_subscriptable;
use std::alloc::{AllocError, Global};

// How many pairs the dict of this number has.
fn dict_len(heap: &Heap, dict: u64) -> u64
    ensures { result ≡ length (spec.pairs_in (slice_get heap.now dict)) }
{
    match heap.get(dict) {
        Some(Object::Dict(pairs)) => pairs.len() as u64,
        _ => 0,
    }
}

/// How many pairs a dict has, or the dict of a view.
pub fn size_of(heap: &Heap, value: &Value) -> Option<u64>
    ensures { result ≡ spec.size_of heap.now value.now }
{
    match object_of(heap, value) {
        Some(Object::Dict(pairs)) => Some(pairs.len() as u64),
        Some(Object::View { dict, .. }) => Some(dict_len(heap, *dict)),
        _ => None,
    }
}

// What a key maps to, or the error that names the value.
fn value_under(alloc: Global, pairs: &Pairs, key: &Key, index: &Value) -> Result<OpEnd, AllocError>
    ensures { IfOk result (λ e. e ≡ names.value_or (mapped_value pairs.now key.now) (keys.key_error index.now)) }
{
    match pairs.value_of(key) {
        Some(value) => Ok(OpEnd::Give(value.copy()?)),
        None => key_error(alloc, index),
    }
}

fn value_keyed(
    alloc: Global,
    heap: &Heap,
    pairs: &Pairs,
    index: &Value,
) -> Result<OpEnd, AllocError>
    ensures { IfOk result (λ e. e ≡ spec.value_keyed pairs.now index.now (keys.key_or_end heap.now index.now)) }
{
    match key_or_end(alloc, heap, index)? {
        Ok(key) => value_under(alloc, pairs, &key, index),
        Err(end) => Ok(end),
    }
}

/// `x[i]`.
pub fn index_row(
    alloc: Global,
    heap: &Heap,
    value: &Value,
    index: &Value,
) -> Result<OpEnd, AllocError>
    ensures { IfOk result (λ e. e ≡ spec.index_row heap.now value.now index.now) }
{
    match object_of(heap, value) {
        Some(Object::Dict(pairs)) => value_keyed(alloc, heap, pairs, index),
        _ => not_subscriptable(alloc, heap, value),
    }
}

fn has_key(pairs: &Pairs, key: &Key) -> bool
    ensures { result ≡ spec.is_found (found_at pairs.now key.now) }
{
    match pairs.find(key) {
        Some(_) => true,
        None => false,
    }
}

fn key_within(alloc: Global, heap: &Heap, pairs: &Pairs, value: &Value) -> Result<OpEnd, AllocError>
    ensures { IfOk result (λ e. e ≡ spec.key_within pairs.now (keys.key_or_end heap.now value.now)) }
{
    match key_or_end(alloc, heap, value)? {
        Ok(key) => Ok(OpEnd::Give(Value::Bool(has_key(pairs, &key)))),
        Err(end) => Ok(end),
    }
}

// Whether one of the values of a dict is the same, or the first stop before that.
fn among_values(heap: &Heap, value: &Value, pairs: &Pairs) -> Sameness
    ensures { result ≡ spec.among_values (λ x. eq heap.now x value.now) pairs.now }
{
    for place in 0..pairs.len() {
        let Some((_, _, item)) = pairs.at(place) else {
            return Sameness::Different;
        };
        match same_value(heap, item, value) {
            Sameness::Different => {}
            answer => return answer,
        }
    }
    Sameness::Different
}

fn value_within(heap: &Heap, value: &Value, pairs: &Pairs) -> OpEnd
    ensures { result ≡ spec.value_within heap.now value.now pairs.now }
{
    match among_values(heap, value, pairs) {
        Sameness::Equal => OpEnd::Give(Value::Bool(true)),
        Sameness::Different => OpEnd::Give(Value::Bool(false)),
        Sameness::Depth => OpEnd::Stop(StopKind::Depth),
        Sameness::Unbuilt => OpEnd::Stop(StopKind::Unbuilt),
    }
}

fn in_view(
    alloc: Global,
    heap: &Heap,
    value: &Value,
    kind: ViewKind,
    pairs: &Pairs,
) -> Result<OpEnd, AllocError>
    ensures { IfOk result (λ e. e ≡ spec.in_view heap.now value.now kind pairs.now) }
{
    match kind {
        ViewKind::Keys => key_within(alloc, heap, pairs, value),
        ViewKind::Values => Ok(value_within(heap, value, pairs)),
        ViewKind::Both => Ok(OpEnd::Stop(StopKind::Unbuilt)),
    }
}

fn in_view_of(
    alloc: Global,
    heap: &Heap,
    value: &Value,
    kind: ViewKind,
    dict: u64,
) -> Result<OpEnd, AllocError>
    ensures { IfOk result (λ e. e ≡ spec.in_view heap.now value.now kind (spec.pairs_in (slice_get heap.now dict))) }
{
    match heap.get(dict) {
        Some(Object::Dict(pairs)) => in_view(alloc, heap, value, kind, pairs),
        _ => in_view(alloc, heap, value, kind, &Pairs::new(alloc)),
    }
}

/// `v in x`.
pub fn in_row(
    alloc: Global,
    heap: &Heap,
    value: &Value,
    container: &Value,
) -> Result<OpEnd, AllocError>
    ensures { IfOk result (λ e. e ≡ spec.in_row heap.now value.now container.now) }
{
    match object_of(heap, container) {
        Some(Object::Dict(pairs)) => key_within(alloc, heap, pairs, value),
        Some(Object::View { dict, kind }) => in_view_of(alloc, heap, value, *kind, *dict),
        _ => Ok(OpEnd::Stop(StopKind::Unbuilt)),
    }
}

/// A new iterator.
pub fn iter_row(alloc: Global, heap: &mut Heap, value: &Value) -> Result<OpEnd, AllocError>
    ensures { IfOk result (λ e. Did (spec.iter_row heap.old value.now) heap.old heap.new e) }
{
    let Some(size) = size_of(heap, value) else {
        return Ok(OpEnd::Stop(StopKind::Unbuilt));
    };
    let iterator = Object::iterator(alloc, value.copy()?, size)?;
    Ok(OpEnd::Give(Value::Obj(heap.make(iterator)?)))
}

/// `len(x)`.
pub fn len_row(heap: &Heap, value: &Value) -> OpEnd
    ensures { result ≡ spec.len_row heap.now value.now }
{
    match size_of(heap, value) {
        None => OpEnd::Stop(StopKind::Unbuilt),
        Some(size) => OpEnd::Give(Value::Int(Integer::new(size as i128))),
    }
}
