//! Operators, of which dicts and views have none.

ghost use Rattle.std.specs.Prelude.{◌≡◌, IfOk};
ghost use Rattle.nu_value.specs.Same.{object_of};
ghost use Rattle.op_forms.specs.Fits as fits;
ghost use Rattle.op_rules.specs.Dicts as spec;

use crate::filling::two;
use nu_run::StopKind;
use nu_value::{Heap, Names, Object, Value, object_of};
use op_forms::{After, Op, OpEnd};
use op_rules::{ask, no_operand, no_operands, no_order};
use std::alloc::{AllocError, Global};

fn is_view(heap: &Heap, value: &Value) -> bool
    ensures { result ≡ spec.is_view (object_of heap.now value.now) }
{
    matches!(object_of(heap, value), Some(Object::View { .. }))
}

fn is_dict(heap: &Heap, value: &Value) -> bool
    ensures { result ≡ fits.is_dict (object_of heap.now value.now) }
{
    matches!(object_of(heap, value), Some(Object::Dict(_)))
}

fn is_list(heap: &Heap, value: &Value) -> bool
    ensures { result ≡ fits.is_list (object_of heap.now value.now) }
{
    matches!(object_of(heap, value), Some(Object::List(_)))
}

fn has_view(heap: &Heap, a: &Value, b: &Value) -> bool
    ensures { result ≡ spec.has_view heap.now a.now b.now }
{
    is_view(heap, a) || is_view(heap, b)
}

/// An operator of which one operand is a dict or a view.
pub fn plain_pair(
    alloc: Global,
    op: Op,
    heap: &Heap,
    a: &Value,
    b: &Value,
) -> Result<OpEnd, AllocError>
    ensures { IfOk result (λ e. e ≡ spec.plain_pair op heap.now a.now b.now) }
{
    if has_view(heap, a, b) {
        Ok(OpEnd::Stop(StopKind::Unbuilt))
    } else {
        no_operands(alloc, op.sign(), heap, a, b)
    }
}

/// `a | b`.
pub fn or_pair(alloc: Global, heap: &Heap, a: &Value, b: &Value) -> Result<OpEnd, AllocError>
    ensures { IfOk result (λ e. e ≡ spec.or_pair heap.now a.now b.now) }
{
    if is_dict(heap, a) {
        Ok(OpEnd::Stop(StopKind::Unbuilt))
    } else {
        plain_pair(alloc, Op::Or, heap, a, b)
    }
}

/// `a % b`.
pub fn mod_pair(alloc: Global, heap: &Heap, a: &Value, b: &Value) -> Result<OpEnd, AllocError>
    ensures { IfOk result (λ e. e ≡ spec.mod_pair heap.now a.now b.now) }
{
    match a {
        Value::Str(_) => Ok(OpEnd::Stop(StopKind::Unbuilt)),
        _ => plain_pair(alloc, Op::Mod, heap, a, b),
    }
}

/// `a += b`.
pub fn iadd_pair(alloc: Global, heap: &Heap, a: &Value, b: &Value) -> Result<OpEnd, AllocError>
    ensures { IfOk result (λ e. e ≡ spec.iadd_pair heap.now a.now b.now) }
{
    if is_list(heap, a) {
        let args = two(alloc, a, b)?;
        Ok(ask(heap, "_nu_addto", args, Names::new(alloc), After::Plain))
    } else {
        plain_pair(alloc, Op::IAdd, heap, a, b)
    }
}

/// An order of two operands of which one is a dict or a view.
pub fn order(alloc: Global, op: Op, heap: &Heap, a: &Value, b: &Value) -> Result<OpEnd, AllocError>
    ensures { IfOk result (λ e. e ≡ spec.dict_order op heap.now a.now b.now) }
{
    if has_view(heap, a, b) {
        Ok(OpEnd::Stop(StopKind::Unbuilt))
    } else {
        no_order(alloc, op.sign(), heap, a, b)
    }
}

/// An operator on a dict or a view.
pub fn one(alloc: Global, op: Op, heap: &Heap, a: &Value) -> Result<OpEnd, AllocError>
    ensures { IfOk result (λ e. e ≡ spec.dict_one op heap.now a.now) }
{
    if is_view(heap, a) {
        Ok(OpEnd::Stop(StopKind::Unbuilt))
    } else {
        no_operand(alloc, op.sign(), heap, a)
    }
}
