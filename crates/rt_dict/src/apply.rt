//! The table's way to the rows.

ghost use Rattle.std.specs.Prelude.{◌≡◌, IfOk};
ghost use Rattle.op_forms.specs.Doing.{Did};
ghost use Rattle.op_rules.specs.Dicts as spec;
ghost use Rattle.op_rules.specs.IntRows.{of_one, of_two};

use crate::changes::{delindex_row, setindex_row};
use crate::filling::{dict_row, keymerge_row, keyput_row, merge_row};
use crate::operators;
use crate::views::{in_row, index_row, iter_row};
use nu_run::StopKind;
use nu_value::{Codes, Heap, Value};
use op_forms::{Op, OpEnd};
use op_rules::no_iterator;
use std::alloc::{AllocError, Global};

fn fill_row(alloc: Global, op: Op, heap: &mut Heap, args: &[Value]) -> Result<OpEnd, AllocError>
    ensures { IfOk result (λ e. Did (spec.fill_row op heap.old args.now) heap.old heap.new e) }
{
    match (op, args) {
        (Op::Dict, []) => dict_row(alloc, heap),
        (Op::Put, [dict, key, value]) => setindex_row(alloc, heap, dict, key, value),
        (Op::Merge, [dict, other]) => merge_row(alloc, heap, dict, other),
        (Op::KeyPut, [dict, key, value]) => keyput_row(alloc, heap, dict, key, value),
        (Op::KeyMerge, [dict, other]) => keymerge_row(alloc, heap, dict, other),
        _ => Ok(OpEnd::Stop(StopKind::Unbuilt)),
    }
}

fn access_row(alloc: Global, op: Op, heap: &mut Heap, args: &[Value]) -> Result<OpEnd, AllocError>
    ensures { IfOk result (λ e. Did (spec.access_row op heap.old args.now) heap.old heap.new e) }
{
    match (op, args) {
        (Op::Index, [value, index]) => index_row(alloc, heap, value, index),
        (Op::SetIndex, [container, index, value]) => setindex_row(
            alloc, heap, container, index, value,
        ),
        (Op::DelIndex, [container, index]) => delindex_row(alloc, heap, container, index),
        (Op::Iter, [value]) => iter_row(alloc, heap, value),
        (Op::Next, [value]) => no_iterator(alloc, heap, value),
        (Op::In, [value, container]) => in_row(alloc, heap, value, container),
        _ => Ok(OpEnd::Stop(StopKind::Unbuilt)),
    }
}

fn pair(alloc: Global, op: Op, heap: &Heap, args: &[Value]) -> Result<OpEnd, AllocError>
    ensures { IfOk result (λ e. e ≡ of_two (spec.plain_pair op heap.now) args.now) }
{
    match args {
        [a, b] => operators::plain_pair(alloc, op, heap, a, b),
        _ => Ok(OpEnd::Stop(StopKind::Unbuilt)),
    }
}

fn or(alloc: Global, heap: &Heap, args: &[Value]) -> Result<OpEnd, AllocError>
    ensures { IfOk result (λ e. e ≡ of_two (spec.or_pair heap.now) args.now) }
{
    match args {
        [a, b] => operators::or_pair(alloc, heap, a, b),
        _ => Ok(OpEnd::Stop(StopKind::Unbuilt)),
    }
}

fn modulo(alloc: Global, heap: &Heap, args: &[Value]) -> Result<OpEnd, AllocError>
    ensures { IfOk result (λ e. e ≡ of_two (spec.mod_pair heap.now) args.now) }
{
    match args {
        [a, b] => operators::mod_pair(alloc, heap, a, b),
        _ => Ok(OpEnd::Stop(StopKind::Unbuilt)),
    }
}

fn iadd(alloc: Global, heap: &Heap, args: &[Value]) -> Result<OpEnd, AllocError>
    ensures { IfOk result (λ e. e ≡ of_two (spec.iadd_pair heap.now) args.now) }
{
    match args {
        [a, b] => operators::iadd_pair(alloc, heap, a, b),
        _ => Ok(OpEnd::Stop(StopKind::Unbuilt)),
    }
}

fn order(alloc: Global, op: Op, heap: &Heap, args: &[Value]) -> Result<OpEnd, AllocError>
    ensures { IfOk result (λ e. e ≡ of_two (spec.dict_order op heap.now) args.now) }
{
    match args {
        [a, b] => operators::order(alloc, op, heap, a, b),
        _ => Ok(OpEnd::Stop(StopKind::Unbuilt)),
    }
}

fn one(alloc: Global, op: Op, heap: &Heap, args: &[Value]) -> Result<OpEnd, AllocError>
    ensures { IfOk result (λ e. e ≡ of_one (spec.dict_one op heap.now) args.now) }
{
    match args {
        [a] => operators::one(alloc, op, heap, a),
        _ => Ok(OpEnd::Stop(StopKind::Unbuilt)),
    }
}

fn operator(alloc: Global, op: Op, heap: &Heap, args: &[Value]) -> Result<OpEnd, AllocError>
    ensures { IfOk result (λ e. e ≡ spec.dict_operator op heap.now args.now) }
{
    match op {
        Op::Add => pair(alloc, Op::Add, heap, args),
        Op::Sub => pair(alloc, Op::Sub, heap, args),
        Op::Mul => pair(alloc, Op::Mul, heap, args),
        Op::FloorDiv => pair(alloc, Op::FloorDiv, heap, args),
        Op::Mod => modulo(alloc, heap, args),
        Op::Pow => pair(alloc, Op::Pow, heap, args),
        Op::LShift => pair(alloc, Op::LShift, heap, args),
        Op::RShift => pair(alloc, Op::RShift, heap, args),
        Op::And => pair(alloc, Op::And, heap, args),
        Op::Or => or(alloc, heap, args),
        Op::Xor => pair(alloc, Op::Xor, heap, args),
        Op::IAdd => iadd(alloc, heap, args),
        Op::IMul => pair(alloc, Op::IMul, heap, args),
        Op::Lt => order(alloc, Op::Lt, heap, args),
        Op::Le => order(alloc, Op::Le, heap, args),
        Op::Gt => order(alloc, Op::Gt, heap, args),
        Op::Ge => order(alloc, Op::Ge, heap, args),
        Op::Neg => one(alloc, Op::Neg, heap, args),
        Op::Pos => one(alloc, Op::Pos, heap, args),
        Op::Inv => one(alloc, Op::Inv, heap, args),
        _ => Ok(OpEnd::Stop(StopKind::Unbuilt)),
    }
}

/// The rows on dicts and their views.
pub fn apply_dict(
    alloc: Global,
    op: Op,
    heap: &mut Heap,
    _codes: &Codes,
    args: &[Value],
) -> Result<OpEnd, AllocError>
    ensures { IfOk result (λ e. Did (spec.dict_row op heap.old args.now) heap.old heap.new e) }
{
    match op {
        Op::Dict | Op::Put | Op::Merge | Op::KeyPut | Op::KeyMerge => fill_row(
            alloc, op, heap, args,
        ),
        Op::Index | Op::SetIndex | Op::DelIndex | Op::Iter | Op::Next | Op::In => access_row(
            alloc, op, heap, args,
        ),
        Op::Slice => Ok(OpEnd::Stop(StopKind::Unbuilt)),
        _ => operator(alloc, op, heap, args),
    }
}
