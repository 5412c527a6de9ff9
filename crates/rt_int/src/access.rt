//! Items and iteration of values that have none of their own (reference, section 6.3.2).

ghost use Rattle.std.specs.Prelude.{◌≡◌, IfOk, [], ◌∷◌};
ghost use Rattle.op_forms.specs.declared.op.Op.TheVariants as op;
ghost use Rattle.op_forms.specs.Answers as answers;
ghost use Rattle.op_rules.specs.Access as spec;

use nu_run::StopKind;
use nu_value::{Heap, Object, Value};
use op_forms::{How, OpEnd};
use op_rules::{asks_in, asks_iterator, no_item_changes, no_iterator, not_subscriptable};
use std::alloc::{AllocError, Global};

fn unbuilt() -> Result<OpEnd, AllocError>
    ensures { IfOk result (λ e. e ≡ answers.unbuilt) }
{
    Ok(OpEnd::Stop(StopKind::Unbuilt))
}

/// The item at an index.
pub fn index_row(alloc: Global, heap: &Heap, args: &[Value]) -> Result<OpEnd, AllocError>
    ensures { IfOk result (λ e. e ≡ spec.other_row op.Index heap.now args.now) }
{
    match args {
        [value, _] => not_subscriptable(alloc, heap, value),
        _ => unbuilt(),
    }
}

/// The item at an index gets a value.
pub fn setindex_row(alloc: Global, heap: &Heap, args: &[Value]) -> Result<OpEnd, AllocError>
    ensures { IfOk result (λ e. e ≡ spec.other_row op.SetIndex heap.now args.now) }
{
    match args {
        [value, _, _] => no_item_changes(alloc, heap, value),
        _ => unbuilt(),
    }
}

/// The item at an index goes.
pub fn delindex_row(alloc: Global, heap: &Heap, args: &[Value]) -> Result<OpEnd, AllocError>
    ensures { IfOk result (λ e. e ≡ spec.other_row op.DelIndex heap.now args.now) }
{
    match args {
        [value, _] => no_item_changes(alloc, heap, value),
        _ => unbuilt(),
    }
}

/// The items between bounds.
pub fn slice_row(alloc: Global, heap: &Heap, args: &[Value]) -> Result<OpEnd, AllocError>
    ensures { IfOk result (λ e. e ≡ spec.other_row op.Slice heap.now args.now) }
{
    match args {
        [value, _, _, _] => not_subscriptable(alloc, heap, value),
        _ => unbuilt(),
    }
}

fn iterator_of(alloc: Global, heap: &Heap, value: &Value) -> Result<OpEnd, AllocError>
    ensures { IfOk result (λ e. e ≡ spec.iter_of heap.now value.now) }
{
    let Value::Obj(number) = value else {
        return asks_iterator(alloc, heap, value);
    };
    match heap.get(*number) {
        Some(Object::Generator { .. }) => Ok(OpEnd::Give(Value::Obj(*number))),
        _ => asks_iterator(alloc, heap, value),
    }
}

/// The iterator of a value.
pub fn iter_row(alloc: Global, heap: &Heap, args: &[Value]) -> Result<OpEnd, AllocError>
    ensures { IfOk result (λ e. e ≡ spec.other_row op.Iter heap.now args.now) }
{
    match args {
        [value] => iterator_of(alloc, heap, value),
        _ => unbuilt(),
    }
}

fn next_of(alloc: Global, heap: &Heap, value: &Value) -> Result<OpEnd, AllocError>
    ensures { IfOk result (λ e. e ≡ spec.next_of heap.now value.now) }
{
    let Value::Obj(number) = value else {
        return no_iterator(alloc, heap, value);
    };
    match heap.get(*number) {
        Some(Object::Generator { .. }) => Ok(OpEnd::Resume(*number, How::Send(Value::None))),
        _ => no_iterator(alloc, heap, value),
    }
}

/// The next item of an iterator.
pub fn next_row(alloc: Global, heap: &Heap, args: &[Value]) -> Result<OpEnd, AllocError>
    ensures { IfOk result (λ e. e ≡ spec.other_row op.Next heap.now args.now) }
{
    match args {
        [value] => next_of(alloc, heap, value),
        _ => unbuilt(),
    }
}

/// Whether a value is among another's items.
pub fn in_row(alloc: Global, heap: &Heap, args: &[Value]) -> Result<OpEnd, AllocError>
    ensures { IfOk result (λ e. e ≡ spec.other_row op.In heap.now args.now) }
{
    match args {
        [value, container] => asks_in(alloc, heap, value, container),
        _ => unbuilt(),
    }
}
