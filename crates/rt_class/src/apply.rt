//! The table's way to the rows.

ghost use Rattle.std.specs.Prelude.{◌≡◌, IfOk};
ghost use Rattle.nu_value.specs.Same.{object_of};
ghost use Rattle.op_forms.specs.Answers as answers;
ghost use Rattle.op_forms.specs.Doing.{Did};
ghost use Rattle.op_forms.specs.Signs as signs;
ghost use Rattle.op_rules.specs.Access as access;
ghost use Rattle.op_rules.specs.Classes as spec;
ghost use Rattle.op_rules.specs.Exceptions as exceptions;
ghost use Rattle.op_rules.specs.IntRows.{of_one, of_two};
ghost use Rattle.op_rules.specs.Kinds as kinds;
ghost use Rattle.op_rules.specs.Specials as specials;

use crate::attributes::{attribute, manager};
use crate::changes::{delattr_row, setattr_row};
use crate::exceptions::{exc_row, match_row, raise_row, trace};
use crate::items::{
    slice_on, special_delindex, special_index, special_next, special_setindex, special_truth,
};
use crate::lookups::class_of;
use crate::making::class_made;
use crate::operators::{special_order, special_pair};
use crate::outcome::carry_out;
use nu_run::StopKind;
use nu_value::{Codes, Heap, Value};
use op_forms::{Op, OpEnd};
use op_rules::{asks_in, asks_iterator, no_operand};
use std::alloc::{AllocError, Global};

fn unbuilt() -> Result<OpEnd, AllocError>
    ensures { IfOk result (λ e. e ≡ answers.unbuilt) }
{
    Ok(OpEnd::Stop(StopKind::Unbuilt))
}

fn pair(alloc: Global, op: Op, heap: &Heap, args: &[Value]) -> Result<OpEnd, AllocError>
    ensures { IfOk result (λ e. e ≡ of_two (specials.special_pair op heap.now) args.now) }
{
    match args {
        [a, b] => special_pair(alloc, op, heap, a, b),
        _ => Ok(OpEnd::Stop(StopKind::Unbuilt)),
    }
}

fn order(alloc: Global, op: Op, heap: &Heap, args: &[Value]) -> Result<OpEnd, AllocError>
    ensures { IfOk result (λ e. e ≡ of_two (specials.special_order op heap.now) args.now) }
{
    match args {
        [a, b] => special_order(alloc, op, heap, a, b),
        _ => Ok(OpEnd::Stop(StopKind::Unbuilt)),
    }
}

fn sign(alloc: Global, op: Op, heap: &Heap, args: &[Value]) -> Result<OpEnd, AllocError>
    ensures { IfOk result (λ e. e ≡ of_one (kinds.no_operand (signs.sign_of op) heap.now) args.now) }
{
    match args {
        [a] => no_operand(alloc, op.sign(), heap, a),
        _ => Ok(OpEnd::Stop(StopKind::Unbuilt)),
    }
}

fn index(alloc: Global, heap: &Heap, args: &[Value]) -> Result<OpEnd, AllocError>
    ensures { IfOk result (λ e. e ≡ of_two (specials.special_index heap.now) args.now) }
{
    match args {
        [value, place] => special_index(alloc, heap, value, place),
        _ => Ok(OpEnd::Stop(StopKind::Unbuilt)),
    }
}

fn setindex(alloc: Global, heap: &Heap, args: &[Value]) -> Result<OpEnd, AllocError>
    ensures { IfOk result (λ e. e ≡ specials.of_three (specials.special_setindex heap.now) args.now) }
{
    match args {
        [value, place, item] => special_setindex(alloc, heap, value, place, item),
        _ => Ok(OpEnd::Stop(StopKind::Unbuilt)),
    }
}

fn delindex(alloc: Global, heap: &Heap, args: &[Value]) -> Result<OpEnd, AllocError>
    ensures { IfOk result (λ e. e ≡ of_two (specials.special_delindex heap.now) args.now) }
{
    match args {
        [value, place] => special_delindex(alloc, heap, value, place),
        _ => Ok(OpEnd::Stop(StopKind::Unbuilt)),
    }
}

fn slice(alloc: Global, heap: &Heap, args: &[Value]) -> Result<OpEnd, AllocError>
    ensures { IfOk result (λ e. e ≡ specials.of_four (λ x a b c. specials.slice_on heap.now x (object_of heap.now x)) args.now) }
{
    match args {
        [value, _, _, _] => slice_on(alloc, heap, value),
        _ => Ok(OpEnd::Stop(StopKind::Unbuilt)),
    }
}

fn iter(alloc: Global, heap: &Heap, args: &[Value]) -> Result<OpEnd, AllocError>
    ensures { IfOk result (λ e. e ≡ of_one (access.asks_iterator heap.now) args.now) }
{
    match args {
        [value] => asks_iterator(alloc, heap, value),
        _ => Ok(OpEnd::Stop(StopKind::Unbuilt)),
    }
}

fn next(alloc: Global, heap: &Heap, args: &[Value]) -> Result<OpEnd, AllocError>
    ensures { IfOk result (λ e. e ≡ of_one (specials.special_next heap.now) args.now) }
{
    match args {
        [value] => special_next(alloc, heap, value),
        _ => Ok(OpEnd::Stop(StopKind::Unbuilt)),
    }
}

fn contains(alloc: Global, heap: &Heap, args: &[Value]) -> Result<OpEnd, AllocError>
    ensures { IfOk result (λ e. e ≡ of_two (access.asks_in heap.now) args.now) }
{
    match args {
        [value, container] => asks_in(alloc, heap, value, container),
        _ => Ok(OpEnd::Stop(StopKind::Unbuilt)),
    }
}

fn truth(alloc: Global, heap: &Heap, args: &[Value]) -> Result<OpEnd, AllocError>
    ensures { IfOk result (λ e. e ≡ of_one (specials.special_truth heap.now) args.now) }
{
    match args {
        [value] => special_truth(alloc, heap, value),
        _ => Ok(OpEnd::Stop(StopKind::Unbuilt)),
    }
}

fn special_row(alloc: Global, op: Op, heap: &Heap, args: &[Value]) -> Result<OpEnd, AllocError>
    ensures { IfOk result (λ e. e ≡ specials.special_row op heap.now args.now) }
{
    match op {
        Op::Index => index(alloc, heap, args),
        Op::SetIndex => setindex(alloc, heap, args),
        Op::DelIndex => delindex(alloc, heap, args),
        Op::Slice => slice(alloc, heap, args),
        Op::Iter => iter(alloc, heap, args),
        Op::Next => next(alloc, heap, args),
        Op::In => contains(alloc, heap, args),
        Op::Truth => truth(alloc, heap, args),
        Op::Add => pair(alloc, Op::Add, heap, args),
        Op::Sub => pair(alloc, Op::Sub, heap, args),
        Op::Mul => pair(alloc, Op::Mul, heap, args),
        Op::FloorDiv => pair(alloc, Op::FloorDiv, heap, args),
        Op::Mod => pair(alloc, Op::Mod, heap, args),
        Op::Pow => pair(alloc, Op::Pow, heap, args),
        Op::LShift => pair(alloc, Op::LShift, heap, args),
        Op::RShift => pair(alloc, Op::RShift, heap, args),
        Op::And => pair(alloc, Op::And, heap, args),
        Op::Or => pair(alloc, Op::Or, heap, args),
        Op::Xor => pair(alloc, Op::Xor, heap, args),
        Op::IAdd => pair(alloc, Op::IAdd, heap, args),
        Op::IMul => pair(alloc, Op::IMul, heap, args),
        Op::Lt => order(alloc, Op::Lt, heap, args),
        Op::Le => order(alloc, Op::Le, heap, args),
        Op::Gt => order(alloc, Op::Gt, heap, args),
        Op::Ge => order(alloc, Op::Ge, heap, args),
        Op::Neg => sign(alloc, Op::Neg, heap, args),
        Op::Pos => sign(alloc, Op::Pos, heap, args),
        Op::Inv => sign(alloc, Op::Inv, heap, args),
        _ => Ok(OpEnd::Stop(StopKind::Unbuilt)),
    }
}

/// The rows on values of which one that decides is an instance, a class or an exception.
pub fn apply_class(
    alloc: Global,
    op: Op,
    heap: &mut Heap,
    _codes: &Codes,
    args: &[Value],
) -> Result<OpEnd, AllocError>
    ensures { IfOk result (λ e. Did (spec.class_row op heap.old args.now) heap.old heap.new e) }
{
    special_row(alloc, op, heap, args)
}

fn attr(
    alloc: Global,
    find: bool,
    heap: &mut Heap,
    codes: &Codes,
    value: &Value,
    name: &Value,
) -> Result<OpEnd, AllocError>
    ensures { IfOk result (λ e. Did (spec.attr_of find codes.now heap.old value.now name.now) heap.old heap.new e) }
{
    match name {
        Value::Str(name) => {
            let outcome = attribute(alloc, find, codes, heap, value, name)?;
            carry_out(heap, outcome)
        }
        _ => unbuilt(),
    }
}

fn setattr(
    heap: &mut Heap,
    object: &Value,
    name: &Value,
    value: &Value,
) -> Result<OpEnd, AllocError>
    ensures { IfOk result (λ e. Did (spec.setattr_of heap.old object.now name.now value.now) heap.old heap.new e) }
{
    match name {
        Value::Str(name) => setattr_row(heap, object, name, value),
        _ => unbuilt(),
    }
}

fn delattr(
    alloc: Global,
    heap: &mut Heap,
    object: &Value,
    name: &Value,
) -> Result<OpEnd, AllocError>
    ensures { IfOk result (λ e. Did (spec.delattr_of heap.old object.now name.now) heap.old heap.new e) }
{
    match name {
        Value::Str(name) => delattr_row(alloc, heap, object, name.as_str()),
        _ => unbuilt(),
    }
}

fn managed(alloc: Global, heap: &mut Heap, value: &Value, name: &Value) -> Result<OpEnd, AllocError>
    ensures { IfOk result (λ e. Did (spec.manager_of heap.old value.now name.now) heap.old heap.new e) }
{
    match name {
        Value::Str(name) => {
            let outcome = manager(alloc, heap, value, name.as_str())?;
            carry_out(heap, outcome)
        }
        _ => unbuilt(),
    }
}

fn make_class(
    alloc: Global,
    heap: &mut Heap,
    name: &Value,
    base: &Value,
    space: &Value,
) -> Result<OpEnd, AllocError>
    ensures { IfOk result (λ e. Did (spec.class_of heap.old name.now base.now space.now) heap.old heap.new e) }
{
    match name {
        Value::Str(name) => {
            let outcome = class_made(alloc, heap, name, base, space)?;
            carry_out(heap, outcome)
        }
        _ => unbuilt(),
    }
}

fn trace_row(heap: &mut Heap, value: &Value) -> Result<OpEnd, AllocError>
    ensures { IfOk result (λ e. Did (exceptions.trace_row heap.old value.now) heap.old heap.new e) }
{
    let outcome = trace(heap, value);
    carry_out(heap, outcome)
}

/// The rows of attributes, classes and exceptions, on any values.
pub fn apply_attribute(
    alloc: Global,
    op: Op,
    heap: &mut Heap,
    codes: &Codes,
    args: &[Value],
) -> Result<OpEnd, AllocError>
    ensures { IfOk result (λ e. Did (spec.attribute_row op codes.now heap.old args.now) heap.old heap.new e) }
{
    match (op, args) {
        (Op::Attr, [value, name]) => attr(alloc, false, heap, codes, value, name),
        (Op::Find, [value, name]) => attr(alloc, true, heap, codes, value, name),
        (Op::SetAttr, [object, name, value]) => setattr(heap, object, name, value),
        (Op::DelAttr, [object, name]) => delattr(alloc, heap, object, name),
        (Op::Manager, [value, name]) => managed(alloc, heap, value, name),
        (Op::Class, [name, base, space]) => make_class(alloc, heap, name, base, space),
        (Op::ClassOf, [value]) => Ok(OpEnd::Give(Value::Obj(class_of(heap, value)))),
        (Op::Exc, [value]) => exc_row(alloc, heap, value),
        (Op::Raise, [value]) => Ok(raise_row(alloc, heap, value)),
        (Op::Match, [exception, classes]) => match_row(alloc, heap, exception, classes),
        (Op::Trace, [value]) => trace_row(heap, value),
        _ => unbuilt(),
    }
}
