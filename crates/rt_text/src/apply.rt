//! The table's way to the rows.

ghost use Rattle.std.specs.Prelude.{◌≡◌, IfOk, Ok};
ghost use Rattle.nu_run.specs.declared.StopKind.TheVariants as stop;
ghost use Rattle.op_forms.specs.declared.end.OpEnd.TheVariants as opend;
ghost use Rattle.op_forms.specs.Doing.{Did};
ghost use Rattle.op_rules.specs.TextAccess as access;
ghost use Rattle.op_rules.specs.IntRows.{of_one, of_two};
ghost use Rattle.op_rules.specs.Kinds as kinds;
ghost use Rattle.op_forms.specs.Signs as signs;
ghost use Rattle.op_rules.specs.TextRows as spec;

use crate::items::{in_text, text_index, text_iterator, text_slice};
use crate::rows::{text_operation, text_order};
use nu_run::StopKind;
use nu_value::{Codes, Heap, Value};
use op_forms::{Op, OpEnd};
use op_rules::{no_item_changes, no_iterator, no_operand};
use std::alloc::{AllocError, Global};

fn pair(alloc: Global, op: Op, heap: &Heap, args: &[Value]) -> Result<OpEnd, AllocError>
    ensures { IfOk result (λ e. e ≡ of_two (spec.text_operation op heap.now) args.now) }
{
    match args {
        [a, b] => text_operation(alloc, op, heap, a, b),
        _ => Ok(OpEnd::Stop(StopKind::Unbuilt)),
    }
}

fn order(alloc: Global, op: Op, heap: &Heap, args: &[Value]) -> Result<OpEnd, AllocError>
    ensures { IfOk result (λ e. e ≡ of_two (spec.text_order op heap.now) args.now) }
{
    match args {
        [a, b] => text_order(alloc, op, heap, a, b),
        _ => Ok(OpEnd::Stop(StopKind::Unbuilt)),
    }
}

fn one(alloc: Global, op: Op, heap: &Heap, args: &[Value]) -> Result<OpEnd, AllocError>
    ensures { IfOk result (λ e. e ≡ of_one (kinds.no_operand (signs.sign_of op) heap.now) args.now) }
{
    match args {
        [a] => no_operand(alloc, op.sign(), heap, a),
        _ => Ok(OpEnd::Stop(StopKind::Unbuilt)),
    }
}

// The operators and orders.
fn operators(alloc: Global, op: Op, heap: &Heap, args: &[Value]) -> Result<OpEnd, AllocError>
    ensures { IfOk result (λ e. e ≡ spec.text_row op heap.now args.now) }
{
    match op {
        Op::Add => pair(alloc, Op::Add, heap, args),
        Op::Sub => pair(alloc, Op::Sub, heap, args),
        Op::Mul => pair(alloc, Op::Mul, heap, args),
        Op::FloorDiv => pair(alloc, Op::FloorDiv, heap, args),
        Op::Mod => pair(alloc, Op::Mod, heap, args),
        Op::Pow => pair(alloc, Op::Pow, heap, args),
        Op::LShift => pair(alloc, Op::LShift, heap, args),
        Op::RShift => pair(alloc, Op::RShift, heap, args),
        Op::And => pair(alloc, Op::And, heap, args),
        Op::Or => pair(alloc, Op::Or, heap, args),
        Op::Xor => pair(alloc, Op::Xor, heap, args),
        Op::IAdd => pair(alloc, Op::IAdd, heap, args),
        Op::IMul => pair(alloc, Op::IMul, heap, args),
        Op::Lt => order(alloc, Op::Lt, heap, args),
        Op::Le => order(alloc, Op::Le, heap, args),
        Op::Gt => order(alloc, Op::Gt, heap, args),
        Op::Ge => order(alloc, Op::Ge, heap, args),
        Op::Neg => one(alloc, Op::Neg, heap, args),
        Op::Pos => one(alloc, Op::Pos, heap, args),
        Op::Inv => one(alloc, Op::Inv, heap, args),
        _ => Ok(OpEnd::Stop(StopKind::Unbuilt)),
    }
}

fn unbuilt() -> Result<OpEnd, AllocError>
    ensures { result ≡ Ok (opend.Stop stop.Unbuilt) }
{
    Ok(OpEnd::Stop(StopKind::Unbuilt))
}

fn index_row(alloc: Global, args: &[Value]) -> Result<OpEnd, AllocError>
    ensures { IfOk result (λ e. e ≡ access.index_row args.now) }
{
    match args {
        [Value::Str(text), index] => text_index(alloc, text, index),
        _ => unbuilt(),
    }
}

fn slice_row(alloc: Global, args: &[Value]) -> Result<OpEnd, AllocError>
    ensures { IfOk result (λ e. e ≡ access.slice_row args.now) }
{
    match args {
        [Value::Str(text), start, stop, step] => text_slice(alloc, text, start, stop, step),
        _ => unbuilt(),
    }
}

fn in_row(alloc: Global, args: &[Value]) -> Result<OpEnd, AllocError>
    ensures { IfOk result (λ e. e ≡ access.in_row args.now) }
{
    match args {
        [part, Value::Str(text)] => in_text(alloc, part, text.as_str()),
        _ => unbuilt(),
    }
}

fn setindex_row(alloc: Global, heap: &Heap, args: &[Value]) -> Result<OpEnd, AllocError>
    ensures { IfOk result (λ e. e ≡ access.setindex_row heap.now args.now) }
{
    match args {
        [value, _, _] => no_item_changes(alloc, heap, value),
        _ => unbuilt(),
    }
}

fn delindex_row(alloc: Global, heap: &Heap, args: &[Value]) -> Result<OpEnd, AllocError>
    ensures { IfOk result (λ e. e ≡ access.delindex_row heap.now args.now) }
{
    match args {
        [value, _] => no_item_changes(alloc, heap, value),
        _ => unbuilt(),
    }
}

fn next_row(alloc: Global, heap: &Heap, args: &[Value]) -> Result<OpEnd, AllocError>
    ensures { IfOk result (λ e. e ≡ access.next_row heap.now args.now) }
{
    match args {
        [value] => no_iterator(alloc, heap, value),
        _ => unbuilt(),
    }
}

fn iter_row(alloc: Global, heap: &mut Heap, args: &[Value]) -> Result<OpEnd, AllocError>
    ensures { IfOk result (λ e. Did (access.iter_row heap.old args.now) heap.old heap.new e) }
{
    match args {
        [Value::Str(text)] => text_iterator(alloc, heap, text),
        _ => unbuilt(),
    }
}

/// The rows that go by a text: operators and orders, characters, slices and parts (Python reference, 6.3.2, 6.3.3, 6.7 and
/// 6.10).
pub fn apply_text(
    alloc: Global,
    op: Op,
    heap: &mut Heap,
    _codes: &Codes,
    args: &[Value],
) -> Result<OpEnd, AllocError>
    ensures { IfOk result (λ e. Did (access.text_doing op heap.old args.now) heap.old heap.new e) }
{
    match op {
        Op::Index => index_row(alloc, args),
        Op::Slice => slice_row(alloc, args),
        Op::In => in_row(alloc, args),
        Op::SetIndex => setindex_row(alloc, heap, args),
        Op::DelIndex => delindex_row(alloc, heap, args),
        Op::Next => next_row(alloc, heap, args),
        Op::Iter => iter_row(alloc, heap, args),
        _ => operators(alloc, op, heap, args),
    }
}
