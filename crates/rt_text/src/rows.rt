//! The rows, one kind of operation each.

ghost use Rattle.std.specs.Prelude.{◌≡◌, ◌+◌, ◌++◌, IfOk, string_bytes};
ghost use Rattle.nu_value.specs.declared.value.Value.TheVariants as value;
ghost use Rattle.op_forms.specs.declared.end.OpEnd.TheVariants as opend;
ghost use Rattle.op_rules.specs.Comparisons as comparisons;
ghost use Rattle.op_rules.specs.Kinds as kinds;
ghost use Rattle.op_forms.specs.Signs as signs;
ghost use Rattle.nu_text.specs.Characters as lengths;
ghost use Rattle.op_rules.specs.TextRows as spec;

use nu_run::StopKind;
use nu_text::{RcStr, characters};
use nu_value::{Heap, Value};
use op_forms::{Op, OpEnd};
use op_rules::{no_operands, no_order};
use std::alloc::{AllocError, Global};
use std::cmp::Ordering;

/// The most characters of a text.
pub const SIZE_LIMIT: u128 = 16_777_216;

/// A text is given.
pub fn give_text(alloc: Global, text: &str) -> Result<OpEnd, AllocError>
    ensures { IfOk result (λ e. e ≡ opend.Give (value.Str text.now)) }
{
    Ok(OpEnd::Give(Value::Str(RcStr::from_str(alloc, text)?)))
}

/// Two texts, one behind the other.
fn joined(alloc: Global, front: &str, back: &str) -> Result<OpEnd, AllocError>
    ensures { IfOk result (λ e. e ≡ spec.sized (lengths.characters front.now + lengths.characters back.now) (opend.Give (value.Str (front.now ++ back.now)))) }
{
    let count = characters(front.as_bytes()) as u128 + characters(back.as_bytes()) as u128;
    if SIZE_LIMIT < count {
        return Ok(OpEnd::Stop(StopKind::Size));
    }
    let mut text = String::from_str(alloc, front)?;
    text.push_str(back)?;
    give_text(alloc, text.as_str())
}

/// So many copies of a text.
fn copies(alloc: Global, text: &str, count: u128) -> Result<String, AllocError>
    ensures { IfOk result (λ all. string_bytes all ≡ spec.copies count text.now) }
{
    let mut all = String::new(alloc);
    let mut left = count;
    while 0 < left {
        all.push_str(text)?;
        left -= 1;
    }
    Ok(all)
}

fn copy_count(number: i128) -> u128
    ensures { result ≡ spec.copy_count number }
{
    if number < 0 { 0 } else { number as u128 }
}

/// A text repeated.
fn repeated(alloc: Global, text: &str, number: i128) -> Result<OpEnd, AllocError>
    ensures { IfOk result (λ e. e ≡ spec.repeated text.now (spec.copy_count number)) }
{
    let count = copy_count(number);
    if text.is_empty() {
        return give_text(alloc, "");
    }
    match (characters(text.as_bytes()) as u128).checked_mul(count) {
        Some(all) if all <= SIZE_LIMIT => {
            let all = copies(alloc, text, count)?;
            give_text(alloc, all.as_str())
        }
        _ => Ok(OpEnd::Stop(StopKind::Size)),
    }
}

/// `+`, where no operand is of another kind.
fn text_add(alloc: Global, op: Op, heap: &Heap, a: &Value, b: &Value) -> Result<OpEnd, AllocError>
    ensures { IfOk result (λ e. e ≡ spec.text_add (kinds.no_operands (signs.sign_of op) heap.now a.now b.now) a.now b.now) }
{
    match (a, b) {
        (Value::Str(front), Value::Str(back)) => joined(alloc, front.as_str(), back.as_str()),
        _ => no_operands(alloc, op.sign(), heap, a, b),
    }
}

/// A text, and what may be a number of copies.
fn repeated_by(
    alloc: Global,
    op: Op,
    heap: &Heap,
    a: &Value,
    b: &Value,
    text: &str,
    number: Option<i128>,
) -> Result<OpEnd, AllocError>
    ensures { IfOk result (λ e. e ≡ spec.repeated_by text.now (kinds.no_operands (signs.sign_of op) heap.now a.now b.now) number) }
{
    match number {
        Some(number) => repeated(alloc, text, number),
        None => no_operands(alloc, op.sign(), heap, a, b),
    }
}

/// `*`, where no operand is of another kind.
fn text_mul(alloc: Global, op: Op, heap: &Heap, a: &Value, b: &Value) -> Result<OpEnd, AllocError>
    ensures { IfOk result (λ e. e ≡ spec.text_mul (kinds.no_operands (signs.sign_of op) heap.now a.now b.now) a.now b.now) }
{
    match a {
        Value::Str(text) => repeated_by(alloc, op, heap, a, b, text.as_str(), b.number()),
        _ => match b {
            Value::Str(text) => repeated_by(alloc, op, heap, a, b, text.as_str(), a.number()),
            _ => no_operands(alloc, op.sign(), heap, a, b),
        },
    }
}

/// `%`, which formats a text.
fn text_mod(alloc: Global, op: Op, heap: &Heap, a: &Value, b: &Value) -> Result<OpEnd, AllocError>
    ensures { IfOk result (λ e. e ≡ spec.text_mod (kinds.no_operands (signs.sign_of op) heap.now a.now b.now) a.now) }
{
    match a {
        Value::Str(_) => Ok(OpEnd::Stop(StopKind::Unbuilt)),
        _ => no_operands(alloc, op.sign(), heap, a, b),
    }
}

/// An operation on two values of which one is a text.
pub fn text_operation(
    alloc: Global,
    op: Op,
    heap: &Heap,
    a: &Value,
    b: &Value,
) -> Result<OpEnd, AllocError>
    ensures { IfOk result (λ e. e ≡ spec.text_operation op heap.now a.now b.now) }
{
    match op {
        Op::Add | Op::IAdd => text_add(alloc, op, heap, a, b),
        Op::Mul | Op::IMul => text_mul(alloc, op, heap, a, b),
        Op::Mod => text_mod(alloc, op, heap, a, b),
        _ => no_operands(alloc, op.sign(), heap, a, b),
    }
}

/// Whether an order is one that the operation asks for.
fn holds(op: Op, order: Ordering) -> bool
    ensures { result ≡ comparisons.holds op order }
{
    match op {
        Op::Lt => order.is_lt(),
        Op::Le => order.is_le(),
        Op::Gt => order.is_gt(),
        Op::Ge => order.is_ge(),
        _ => false,
    }
}

/// An order of two values of which one is a text.
pub fn text_order(
    alloc: Global,
    op: Op,
    heap: &Heap,
    a: &Value,
    b: &Value,
) -> Result<OpEnd, AllocError>
    ensures { IfOk result (λ e. e ≡ spec.text_order op heap.now a.now b.now) }
{
    match (a, b) {
        (Value::Str(s), Value::Str(t)) => {
            let truth = holds(op, s.as_str().cmp(t.as_str()));
            Ok(OpEnd::Give(Value::Bool(truth)))
        }
        _ => no_order(alloc, op.sign(), heap, a, b),
    }
}
