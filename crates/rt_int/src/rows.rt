//! The rows, one kind of operation each.

ghost use Rattle.std.specs.Prelude.{◌≡◌, IfOk, slice_get};
ghost use Rattle.std.specs.Ordering.{int_cmp};
ghost use Rattle.op_rules.specs.Comparisons as comparisons;
ghost use Rattle.op_rules.specs.IntRows as spec;
ghost use Rattle.op_rules.specs.Numbers as numbers;

use nu_run::StopKind;
use nu_value::{Heap, Integer, Object, Sameness, Value, range_len, same_value};
use op_forms::{Op, OpEnd};
use op_rules::{Computed, compute, compute_one, no_operand, no_operands, no_order, raised};
use std::alloc::{AllocError, Global};

fn give_bool(truth: bool) -> OpEnd
    ensures { result ≡ comparisons.give_bool truth }
{
    OpEnd::Give(Value::Bool(truth))
}

/// What an operation on integers gives, raises or stops with.
fn computed_end(alloc: Global, computed: Computed) -> Result<OpEnd, AllocError>
    ensures { IfOk result (λ e. e ≡ numbers.computed_end computed) }
{
    match computed {
        Computed::Int(number) => Ok(OpEnd::Give(Value::Int(Integer::new(number)))),
        Computed::TooLarge => Ok(OpEnd::Stop(StopKind::Int)),
        Computed::Float => Ok(OpEnd::Stop(StopKind::Float)),
        Computed::ZeroDivision => raised(alloc, 23, "integer division or modulo by zero"),
        Computed::ZeroPower => raised(alloc, 23, "zero to a negative power"),
        Computed::NegativeCount => raised(alloc, 36, "negative shift count"),
        Computed::NoOperation => Ok(OpEnd::Stop(StopKind::Unbuilt)),
    }
}

/// What `&`, `|` and `^` give for two bools.
fn bool_op(op: Op, a: &Value, b: &Value) -> Option<bool>
    ensures { result ≡ spec.bool_op op a.now b.now }
{
    let (Value::Bool(x), Value::Bool(y)) = (a, b) else {
        return None;
    };
    match op {
        Op::And => Some(*x && *y),
        Op::Or => Some(*x || *y),
        Op::Xor => Some(*x != *y),
        _ => None,
    }
}

/// An operation on two numbers.
pub fn number_pair(
    alloc: Global,
    op: Op,
    heap: &Heap,
    a: &Value,
    b: &Value,
) -> Result<OpEnd, AllocError>
    ensures { IfOk result (λ e. e ≡ spec.number_pair op heap.now a.now b.now) }
{
    if let Some(truth) = bool_op(op, a, b) {
        return Ok(give_bool(truth));
    }
    match (a.number(), b.number()) {
        (Some(x), Some(y)) => computed_end(alloc, compute(op, x, y)),
        _ => no_operands(alloc, op.sign(), heap, a, b),
    }
}

/// Whether two numbers have the order that the operation asks for.
fn holds(op: Op, a: i128, b: i128) -> bool
    ensures { result ≡ comparisons.holds op (int_cmp a b) }
{
    match op {
        Op::Lt => a < b,
        Op::Le => a <= b,
        Op::Gt => a > b,
        Op::Ge => a >= b,
        _ => false,
    }
}

/// An order of two numbers.
pub fn number_order(
    alloc: Global,
    op: Op,
    heap: &Heap,
    a: &Value,
    b: &Value,
) -> Result<OpEnd, AllocError>
    ensures { IfOk result (λ e. e ≡ spec.number_order op heap.now a.now b.now) }
{
    match (a.number(), b.number()) {
        (Some(x), Some(y)) => Ok(give_bool(holds(op, x, y))),
        _ => no_order(alloc, op.sign(), heap, a, b),
    }
}

/// An operation on one number.
pub fn number_one(alloc: Global, op: Op, heap: &Heap, a: &Value) -> Result<OpEnd, AllocError>
    ensures { IfOk result (λ e. e ≡ spec.number_one op heap.now a.now) }
{
    match a.number() {
        Some(x) => computed_end(alloc, compute_one(op, x)),
        None => no_operand(alloc, op.sign(), heap, a),
    }
}

pub fn eq_row(heap: &Heap, a: &Value, b: &Value) -> OpEnd
    ensures { result ≡ comparisons.eq_row heap.now a.now b.now }
{
    match same_value(heap, a, b) {
        Sameness::Equal => give_bool(true),
        Sameness::Different => give_bool(false),
        Sameness::Depth => OpEnd::Stop(StopKind::Depth),
        Sameness::Unbuilt => OpEnd::Stop(StopKind::Unbuilt),
    }
}

pub fn ne_row(heap: &Heap, a: &Value, b: &Value) -> OpEnd
    ensures { result ≡ comparisons.ne_row heap.now a.now b.now }
{
    match same_value(heap, a, b) {
        Sameness::Equal => give_bool(false),
        Sameness::Different => give_bool(true),
        Sameness::Depth => OpEnd::Stop(StopKind::Depth),
        Sameness::Unbuilt => OpEnd::Stop(StopKind::Unbuilt),
    }
}

pub fn is_row(a: &Value, b: &Value) -> OpEnd
    ensures { result ≡ comparisons.is_row a.now b.now }
{
    give_bool(a.is_identical(b))
}

pub fn isnot_row(a: &Value, b: &Value) -> OpEnd
    ensures { result ≡ comparisons.isnot_row a.now b.now }
{
    give_bool(!a.is_identical(b))
}

pub fn not_row(a: &Value) -> OpEnd
    ensures { result ≡ comparisons.not_row a.now }
{
    match a {
        Value::Bool(truth) => give_bool(!*truth),
        _ => OpEnd::Stop(StopKind::Unbuilt),
    }
}

/// Whether a view shows anything.
fn dict_truth(heap: &Heap, dict: u64) -> bool
    ensures { result ≡ comparisons.dict_truth (slice_get heap.now dict) }
{
    match heap.get(dict) {
        Some(Object::Dict(pairs)) => pairs.len() != 0,
        _ => true,
    }
}

/// The truth of the object of this number.
fn object_truth(heap: &Heap, number: u64) -> OpEnd
    ensures { result ≡ comparisons.object_truth heap.now (slice_get heap.now number) }
{
    match heap.get(number) {
        Some(Object::Tuple(items)) => give_bool(items.len() != 0),
        Some(Object::List(items)) => give_bool(items.len() != 0),
        Some(Object::Dict(pairs)) => give_bool(pairs.len() != 0),
        Some(Object::Range { start, stop, step }) => give_bool(
            range_len(start.get(), stop.get(), step.get()) != 0,
        ),
        Some(Object::View { dict, .. }) => give_bool(dict_truth(heap, *dict)),
        Some(Object::Instance { .. }) => OpEnd::Stop(StopKind::Unbuilt),
        _ => give_bool(true),
    }
}

pub fn truth_row(heap: &Heap, a: &Value) -> OpEnd
    ensures { result ≡ comparisons.truth_row heap.now a.now }
{
    match a {
        Value::Unset => OpEnd::Stop(StopKind::Unbuilt),
        Value::None => give_bool(false),
        Value::Bool(truth) => give_bool(*truth),
        Value::Int(number) => give_bool(number.get() != 0),
        Value::Str(text) => give_bool(!text.as_str().is_empty()),
        Value::Obj(number) => object_truth(heap, *number),
    }
}
