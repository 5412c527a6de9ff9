//! Operators, where an operand is a class, an instance or an exception.

ghost use Rattle.std.specs.Prelude.{◌≡◌, IfOk};
ghost use Rattle.nu_value.specs.Same.{object_of};
ghost use Rattle.op_rules.specs.Specials as spec;

use crate::specials::two_items;
use nu_run::StopKind;
use nu_value::{Heap, Names, Object, Value, object_of};
use op_forms::{After, Op, OpEnd};
use op_rules::{ask, no_operands, no_order};
use std::alloc::{AllocError, Global};

fn is_view(heap: &Heap, value: &Value) -> bool
    ensures { result ≡ spec.is_view (object_of heap.now value.now) }
{
    matches!(object_of(heap, value), Some(Object::View { .. }))
}

fn has_view(heap: &Heap, a: &Value, b: &Value) -> bool
    ensures { result ≡ spec.has_view heap.now a.now b.now }
{
    is_view(heap, a) || is_view(heap, b)
}

fn may_unite(heap: &Heap, a: &Value, b: &Value) -> bool
    ensures { result ≡ spec.may_unite heap.now a.now b.now }
{
    matches!(
        object_of(heap, a),
        Some(Object::Dict(_) | Object::Class { .. }),
    ) || matches!(object_of(heap, b), Some(Object::Class { .. }))
}

// `+=`: a list takes the items of what stands behind it.
fn add_to(alloc: Global, op: Op, heap: &Heap, a: &Value, b: &Value) -> Result<OpEnd, AllocError>
    ensures { IfOk result (λ e. e ≡ spec.add_to op heap.now a.now b.now) }
{
    match object_of(heap, a) {
        Some(Object::List(_)) => {
            let items = two_items(alloc, a, b)?;
            Ok(ask(heap, "_nu_addto", items, Names::new(alloc), After::Plain))
        }
        _ => no_operands(alloc, op.sign(), heap, a, b),
    }
}

fn plain_pair(alloc: Global, op: Op, heap: &Heap, a: &Value, b: &Value) -> Result<OpEnd, AllocError>
    ensures { IfOk result (λ e. e ≡ spec.plain_pair op heap.now a.now b.now) }
{
    match op {
        Op::Mod => match a {
            Value::Str(_) => Ok(OpEnd::Stop(StopKind::Unbuilt)),
            _ => no_operands(alloc, op.sign(), heap, a, b),
        },
        Op::Or => {
            if may_unite(heap, a, b) {
                return Ok(OpEnd::Stop(StopKind::Unbuilt));
            }
            no_operands(alloc, op.sign(), heap, a, b)
        }
        Op::IAdd => add_to(alloc, op, heap, a, b),
        _ => no_operands(alloc, op.sign(), heap, a, b),
    }
}

/// An operation on two values.
pub fn special_pair(
    alloc: Global,
    op: Op,
    heap: &Heap,
    a: &Value,
    b: &Value,
) -> Result<OpEnd, AllocError>
    ensures { IfOk result (λ e. e ≡ spec.special_pair op heap.now a.now b.now) }
{
    if has_view(heap, a, b) {
        return Ok(OpEnd::Stop(StopKind::Unbuilt));
    }
    plain_pair(alloc, op, heap, a, b)
}

/// An order of two values.
pub fn special_order(
    alloc: Global,
    op: Op,
    heap: &Heap,
    a: &Value,
    b: &Value,
) -> Result<OpEnd, AllocError>
    ensures { IfOk result (λ e. e ≡ spec.special_order op heap.now a.now b.now) }
{
    if has_view(heap, a, b) {
        return Ok(OpEnd::Stop(StopKind::Unbuilt));
    }
    no_order(alloc, op.sign(), heap, a, b)
}
