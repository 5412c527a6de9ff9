//! Items, iteration, truth and length by special methods.

ghost use Rattle.std.specs.Prelude.{◌≡◌, IfOk};
ghost use Rattle.nu_value.specs.Same.{object_of};
ghost use Rattle.op_rules.specs.Specials as spec;

use crate::specials::{asking, instance_special, kind_error, one_item, three_items, two_items};
use nu_run::StopKind;
use nu_value::{Heap, Object, Value, object_of};
use op_forms::{After, OpEnd};
use op_rules::{Special, no_item_changes, no_iterator, not_subscriptable};
use std::alloc::{AllocError, Global};

fn no_length(alloc: Global, heap: &Heap, value: &Value) -> Result<OpEnd, AllocError>
    ensures { IfOk result (λ e. e ≡ spec.no_length heap.now value.now) }
{
    kind_error(alloc, "object of type '", heap, value, "' has no len()")
}

/// `x[i]`.
pub fn special_index(
    alloc: Global,
    heap: &Heap,
    value: &Value,
    index: &Value,
) -> Result<OpEnd, AllocError>
    ensures { IfOk result (λ e. e ≡ spec.special_index heap.now value.now index.now) }
{
    match instance_special(heap, value, "__getitem__") {
        Special::Absent => not_subscriptable(alloc, heap, value),
        Special::Function(function) => {
            let items = two_items(alloc, value, index)?;
            Ok(asking(alloc, function, items, After::Plain))
        }
        Special::Other => Ok(OpEnd::Stop(StopKind::Unbuilt)),
    }
}

/// `x[i] = v`.
pub fn special_setindex(
    alloc: Global,
    heap: &Heap,
    value: &Value,
    index: &Value,
    item: &Value,
) -> Result<OpEnd, AllocError>
    ensures { IfOk result (λ e. e ≡ spec.special_setindex heap.now value.now index.now item.now) }
{
    match instance_special(heap, value, "__setitem__") {
        Special::Absent => no_item_changes(alloc, heap, value),
        Special::Function(function) => {
            let items = three_items(alloc, value, index, item)?;
            Ok(asking(alloc, function, items, After::Plain))
        }
        Special::Other => Ok(OpEnd::Stop(StopKind::Unbuilt)),
    }
}

/// `del x[i]`.
pub fn special_delindex(
    alloc: Global,
    heap: &Heap,
    value: &Value,
    index: &Value,
) -> Result<OpEnd, AllocError>
    ensures { IfOk result (λ e. e ≡ spec.special_delindex heap.now value.now index.now) }
{
    match instance_special(heap, value, "__delitem__") {
        Special::Absent => no_item_changes(alloc, heap, value),
        Special::Function(function) => {
            let items = two_items(alloc, value, index)?;
            Ok(asking(alloc, function, items, After::Plain))
        }
        Special::Other => Ok(OpEnd::Stop(StopKind::Unbuilt)),
    }
}

/// `x[a:b:c]`.
pub fn slice_on(alloc: Global, heap: &Heap, value: &Value) -> Result<OpEnd, AllocError>
    ensures { IfOk result (λ e. e ≡ spec.slice_on heap.now value.now (object_of heap.now value.now)) }
{
    match object_of(heap, value) {
        Some(Object::Instance { .. }) => Ok(OpEnd::Stop(StopKind::Unbuilt)),
        _ => not_subscriptable(alloc, heap, value),
    }
}

/// `next(x)`.
pub fn special_next(alloc: Global, heap: &Heap, value: &Value) -> Result<OpEnd, AllocError>
    ensures { IfOk result (λ e. e ≡ spec.special_next heap.now value.now) }
{
    match instance_special(heap, value, "__next__") {
        Special::Absent => no_iterator(alloc, heap, value),
        Special::Function(function) => {
            let items = one_item(alloc, value)?;
            Ok(asking(alloc, function, items, After::Plain))
        }
        Special::Other => Ok(OpEnd::Stop(StopKind::Unbuilt)),
    }
}

fn truth_by_length(alloc: Global, heap: &Heap, value: &Value) -> Result<OpEnd, AllocError>
    ensures { IfOk result (λ e. e ≡ spec.truth_by_length heap.now value.now) }
{
    match instance_special(heap, value, "__len__") {
        Special::Absent => Ok(OpEnd::Give(Value::Bool(true))),
        Special::Function(function) => {
            let items = one_item(alloc, value)?;
            Ok(asking(alloc, function, items, After::Some))
        }
        Special::Other => Ok(OpEnd::Stop(StopKind::Unbuilt)),
    }
}

/// Whether a value counts as true.
pub fn special_truth(alloc: Global, heap: &Heap, value: &Value) -> Result<OpEnd, AllocError>
    ensures { IfOk result (λ e. e ≡ spec.special_truth heap.now value.now) }
{
    match instance_special(heap, value, "__bool__") {
        Special::Absent => truth_by_length(alloc, heap, value),
        Special::Function(function) => {
            let items = one_item(alloc, value)?;
            Ok(asking(alloc, function, items, After::Truth))
        }
        Special::Other => Ok(OpEnd::Stop(StopKind::Unbuilt)),
    }
}

/// `len(x)`.
pub fn special_length(alloc: Global, heap: &Heap, value: &Value) -> Result<OpEnd, AllocError>
    ensures { IfOk result (λ e. e ≡ spec.special_length heap.now value.now) }
{
    match instance_special(heap, value, "__len__") {
        Special::Absent => no_length(alloc, heap, value),
        Special::Function(function) => {
            let items = one_item(alloc, value)?;
            Ok(asking(alloc, function, items, After::Length))
        }
        Special::Other => Ok(OpEnd::Stop(StopKind::Unbuilt)),
    }
}
