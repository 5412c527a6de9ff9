//! The table's way to the rows.

ghost use Rattle.std.specs.Prelude.{IfOk};
ghost use Rattle.op_forms.specs.Doing.{Did};
ghost use Rattle.op_rules.specs.Sequences as spec;

use crate::asking::{extend_row, unpack_row, unpackstar_row};
use crate::items::{delindex_row, index_row, len_row, list_row, push_row, setindex_row, tuple_row};
use crate::methods::method_on;
use crate::operators::{add_row, iadd_row, imul_row, in_row, mod_row, mul_row};
use crate::order::order_native;
use crate::ordering::order_row;
use crate::slices::slice_row;
use crate::steps::{iter_row, next_row};
use nu_run::StopKind;
use nu_value::{Codes, Heap, Names, Value};
use op_forms::{Op, OpEnd};
use op_rules::{no_operand, no_operands};
use std::alloc::{AllocError, Global};

// An operator on two values of which one is a sequence.
fn sequence_pair(
    alloc: Global,
    op: Op,
    heap: &mut Heap,
    a: &Value,
    b: &Value,
) -> Result<OpEnd, AllocError>
    ensures { IfOk result (λ e. Did (spec.sequence_pair op heap.old a.now b.now) heap.old heap.new e) }
{
    match op {
        Op::Add => add_row(alloc, Op::Add, heap, a, b),
        Op::IAdd => iadd_row(alloc, heap, a, b),
        Op::Mul => mul_row(alloc, Op::Mul, heap, a, b),
        Op::IMul => imul_row(alloc, heap, a, b),
        Op::Mod => mod_row(alloc, heap, a, b),
        _ => no_operands(alloc, op.sign(), heap, a, b),
    }
}

fn pair(alloc: Global, op: Op, heap: &mut Heap, args: &[Value]) -> Result<OpEnd, AllocError>
    ensures { IfOk result (λ e. Did (spec.operators_row op heap.old args.now) heap.old heap.new e) }
{
    match args {
        [a, b] => sequence_pair(alloc, op, heap, a, b),
        _ => Ok(OpEnd::Stop(StopKind::Unbuilt)),
    }
}

fn comparing(alloc: Global, op: Op, heap: &mut Heap, args: &[Value]) -> Result<OpEnd, AllocError>
    ensures { IfOk result (λ e. Did (spec.comparing_row op heap.old args.now) heap.old heap.new e) }
{
    match args {
        [a, b] => order_row(alloc, op, heap, a, b),
        _ => Ok(OpEnd::Stop(StopKind::Unbuilt)),
    }
}

fn one(alloc: Global, op: Op, heap: &mut Heap, args: &[Value]) -> Result<OpEnd, AllocError>
    ensures { IfOk result (λ e. Did (spec.signing_row op heap.old args.now) heap.old heap.new e) }
{
    match args {
        [a] => no_operand(alloc, op.sign(), heap, a),
        _ => Ok(OpEnd::Stop(StopKind::Unbuilt)),
    }
}

// The rows of displays and unpacking.
fn making(alloc: Global, op: Op, heap: &mut Heap, args: &[Value]) -> Result<OpEnd, AllocError>
    ensures { IfOk result (λ e. Did (spec.making_row op heap.old args.now) heap.old heap.new e) }
{
    match (op, args) {
        (Op::Tuple, _) => tuple_row(alloc, heap, args),
        (Op::List, _) => list_row(alloc, heap, args),
        (Op::Push, [list, value]) => push_row(heap, list, value),
        (Op::Extend, [list, value]) => extend_row(alloc, heap, list, value),
        (Op::Unpack, [value, count]) => unpack_row(alloc, heap, value, count),
        (Op::UnpackStar, [value, before, after]) => unpackstar_row(
            alloc, heap, value, before, after,
        ),
        _ => Ok(OpEnd::Stop(StopKind::Unbuilt)),
    }
}

// The rows of items and iteration.
fn accessing(alloc: Global, op: Op, heap: &mut Heap, args: &[Value]) -> Result<OpEnd, AllocError>
    ensures { IfOk result (λ e. Did (spec.accessing_row op heap.old args.now) heap.old heap.new e) }
{
    match (op, args) {
        (Op::Index, [x, i]) => index_row(alloc, heap, x, i),
        (Op::SetIndex, [x, i, value]) => setindex_row(alloc, heap, x, i, value),
        (Op::DelIndex, [x, i]) => delindex_row(alloc, heap, x, i),
        (Op::Slice, [x, start, stop, step]) => slice_row(alloc, heap, x, start, stop, step),
        (Op::Iter, [x]) => iter_row(alloc, heap, x),
        (Op::Next, [x]) => next_row(alloc, heap, x),
        (Op::In, [value, x]) => in_row(alloc, heap, value, x),
        _ => Ok(OpEnd::Stop(StopKind::Unbuilt)),
    }
}

/// The rows on values of which one is a list, a tuple, a range or an iterator, and none a dict or an instance; and those of
/// displays and unpacking.
pub fn apply_seq(
    alloc: Global,
    op: Op,
    heap: &mut Heap,
    _codes: &Codes,
    args: &[Value],
) -> Result<OpEnd, AllocError>
    ensures { IfOk result (λ e. Did (spec.sequence_row op heap.old args.now) heap.old heap.new e) }
{
    match op {
        Op::Tuple | Op::List | Op::Push | Op::Extend | Op::Unpack | Op::UnpackStar => making(
            alloc, op, heap, args,
        ),
        Op::Index | Op::SetIndex | Op::DelIndex | Op::Slice | Op::Iter | Op::Next | Op::In =>
            accessing(alloc, op, heap, args),
        Op::Lt | Op::Le | Op::Gt | Op::Ge => comparing(alloc, op, heap, args),
        Op::Neg | Op::Pos | Op::Inv => one(alloc, op, heap, args),
        Op::Add
        | Op::Sub
        | Op::Mul
        | Op::FloorDiv
        | Op::Mod
        | Op::Pow
        | Op::LShift
        | Op::RShift
        | Op::And
        | Op::Or
        | Op::Xor
        | Op::IAdd
        | Op::IMul => pair(alloc, op, heap, args),
        _ => Ok(OpEnd::Stop(StopKind::Unbuilt)),
    }
}

// A native that takes one value or two.
fn native(alloc: Global, name: &str, heap: &mut Heap, args: &[Value]) -> Result<OpEnd, AllocError>
    ensures { IfOk result (λ e. Did (spec.plain_native name.now heap.old args.now) heap.old heap.new e) }
{
    match args {
        [x] if name == "len" => len_row(alloc, heap, x),
        [l, r] if name == "_nu_order" => order_native(alloc, heap, l, r),
        _ => Ok(OpEnd::Stop(StopKind::Unbuilt)),
    }
}

/// Calls the method of this name of a list or tuple, or without a receiver the native of this name.
pub fn call_seq(
    alloc: Global,
    heap: &mut Heap,
    name: &str,
    receiver: &Value,
    args: &[Value],
    names: Names,
) -> Result<OpEnd, AllocError>
    ensures { IfOk result (λ e. Did (spec.sequence_call heap.old name.now receiver.now args.now names) heap.old heap.new e) }
{
    match receiver {
        Value::Unset if names.as_slice().is_empty() => native(alloc, name, heap, args),
        Value::Obj(number) => method_on(alloc, name, heap, *number, args, names),
        _ => Ok(OpEnd::Stop(StopKind::Unbuilt)),
    }
}
