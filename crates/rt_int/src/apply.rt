//! The table's way to the rows.

ghost use Rattle.std.specs.Prelude.{◌≡◌, IfOk};
ghost use Rattle.op_rules.specs.Access as access;
ghost use Rattle.op_rules.specs.Comparisons as comparisons;
ghost use Rattle.op_rules.specs.IntRows as spec;

use crate::access::{delindex_row, in_row, index_row, iter_row, next_row, setindex_row, slice_row};
use crate::rows::{
    eq_row, is_row, isnot_row, ne_row, not_row, number_one, number_order, number_pair, truth_row,
};
use nu_run::StopKind;
use nu_value::{Codes, Heap, Value};
use op_forms::{Op, OpEnd};
use std::alloc::{AllocError, Global};

fn pair(alloc: Global, op: Op, heap: &Heap, args: &[Value]) -> Result<OpEnd, AllocError>
    ensures { IfOk result (λ e. e ≡ spec.of_two (spec.number_pair op heap.now) args.now) }
{
    match args {
        [a, b] => number_pair(alloc, op, heap, a, b),
        _ => Ok(OpEnd::Stop(StopKind::Unbuilt)),
    }
}

fn order(alloc: Global, op: Op, heap: &Heap, args: &[Value]) -> Result<OpEnd, AllocError>
    ensures { IfOk result (λ e. e ≡ spec.of_two (spec.number_order op heap.now) args.now) }
{
    match args {
        [a, b] => number_order(alloc, op, heap, a, b),
        _ => Ok(OpEnd::Stop(StopKind::Unbuilt)),
    }
}

fn one(alloc: Global, op: Op, heap: &Heap, args: &[Value]) -> Result<OpEnd, AllocError>
    ensures { IfOk result (λ e. e ≡ spec.of_one (spec.number_one op heap.now) args.now) }
{
    match args {
        [a] => number_one(alloc, op, heap, a),
        _ => Ok(OpEnd::Stop(StopKind::Unbuilt)),
    }
}

fn equality(heap: &Heap, args: &[Value]) -> OpEnd
    ensures { result ≡ spec.of_two (comparisons.eq_row heap.now) args.now }
{
    match args {
        [a, b] => eq_row(heap, a, b),
        _ => OpEnd::Stop(StopKind::Unbuilt),
    }
}

fn inequality(heap: &Heap, args: &[Value]) -> OpEnd
    ensures { result ≡ spec.of_two (comparisons.ne_row heap.now) args.now }
{
    match args {
        [a, b] => ne_row(heap, a, b),
        _ => OpEnd::Stop(StopKind::Unbuilt),
    }
}

fn identity(args: &[Value]) -> OpEnd
    ensures { result ≡ spec.of_two comparisons.is_row args.now }
{
    match args {
        [a, b] => is_row(a, b),
        _ => OpEnd::Stop(StopKind::Unbuilt),
    }
}

fn difference(args: &[Value]) -> OpEnd
    ensures { result ≡ spec.of_two comparisons.isnot_row args.now }
{
    match args {
        [a, b] => isnot_row(a, b),
        _ => OpEnd::Stop(StopKind::Unbuilt),
    }
}

fn negation(args: &[Value]) -> OpEnd
    ensures { result ≡ spec.of_one comparisons.not_row args.now }
{
    match args {
        [a] => not_row(a),
        _ => OpEnd::Stop(StopKind::Unbuilt),
    }
}

fn truth(heap: &Heap, args: &[Value]) -> OpEnd
    ensures { result ≡ spec.of_one (comparisons.truth_row heap.now) args.now }
{
    match args {
        [a] => truth_row(heap, a),
        _ => OpEnd::Stop(StopKind::Unbuilt),
    }
}

/// The rows on integers, on truth, on any two values and on values without items. They leave the heap as it is.
pub fn apply_int(
    alloc: Global,
    op: Op,
    heap: &mut Heap,
    _codes: &Codes,
    args: &[Value],
) -> Result<OpEnd, AllocError>
    ensures end { IfOk result (λ e. e ≡ access.other_row op heap.old args.now) }
    ensures heap { heap.new ≡ heap.old }
{
    match op {
        Op::Add => pair(alloc, Op::Add, heap, args),
        Op::Sub => pair(alloc, Op::Sub, heap, args),
        Op::Mul => pair(alloc, Op::Mul, heap, args),
        Op::FloorDiv => pair(alloc, Op::FloorDiv, heap, args),
        Op::Mod => pair(alloc, Op::Mod, heap, args),
        Op::Pow => pair(alloc, Op::Pow, heap, args),
        Op::LShift => pair(alloc, Op::LShift, heap, args),
        Op::RShift => pair(alloc, Op::RShift, heap, args),
        Op::And => pair(alloc, Op::And, heap, args),
        Op::Or => pair(alloc, Op::Or, heap, args),
        Op::Xor => pair(alloc, Op::Xor, heap, args),
        Op::IAdd => pair(alloc, Op::IAdd, heap, args),
        Op::IMul => pair(alloc, Op::IMul, heap, args),
        Op::Lt => order(alloc, Op::Lt, heap, args),
        Op::Le => order(alloc, Op::Le, heap, args),
        Op::Gt => order(alloc, Op::Gt, heap, args),
        Op::Ge => order(alloc, Op::Ge, heap, args),
        Op::Neg => one(alloc, Op::Neg, heap, args),
        Op::Pos => one(alloc, Op::Pos, heap, args),
        Op::Inv => one(alloc, Op::Inv, heap, args),
        Op::Eq => Ok(equality(heap, args)),
        Op::Ne => Ok(inequality(heap, args)),
        Op::Is => Ok(identity(args)),
        Op::IsNot => Ok(difference(args)),
        Op::Not => Ok(negation(args)),
        Op::Truth => Ok(truth(heap, args)),
        Op::Index => index_row(alloc, heap, args),
        Op::SetIndex => setindex_row(alloc, heap, args),
        Op::DelIndex => delindex_row(alloc, heap, args),
        Op::Slice => slice_row(alloc, heap, args),
        Op::Iter => iter_row(alloc, heap, args),
        Op::Next => next_row(alloc, heap, args),
        Op::In => in_row(alloc, heap, args),
        _ => Ok(OpEnd::Stop(StopKind::Unbuilt)),
    }
}
