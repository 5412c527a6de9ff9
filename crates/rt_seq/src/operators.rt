//! Operators on sequences: joining, repeating and membership.

ghost use Rattle.std.specs.Prelude.{◌≡◌, ◌&&◌, IfOk, int_le, int_lt, pos, slice_get};
ghost use Rattle.nu_value.specs.Ranges.{range_count};
ghost use Rattle.nu_value.specs.Same.{number_of, object_of};
ghost use Rattle.nu_value.specs.declared.object.Object.TheVariants as objects;
ghost use Rattle.nu_value.specs.declared.value.Value.TheVariants as values;
ghost use Rattle.op_forms.specs.Doing.{Fill, Did, changes_giving, ends, makes};
ghost use Rattle.op_forms.specs.Signs as signs;
ghost use Rattle.op_rules.specs.Kinds as kinds;
ghost use Rattle.op_rules.specs.SequenceOperators as spec;
ghost use Rattle.op_rules.specs.TextRows as texts;

use crate::asking::ask_two;
use crate::edits::{Edit, edit_at};
use crate::lists::{SIZE_LIMIT, joined, make, repeated};
use crate::search::place_of_value;
use nu_run::StopKind;
use nu_value::{Heap, Items, Object, Value, object_of, range_len};
use op_forms::{Op, OpEnd};
use op_rules::{asks_in, no_operands};
use std::alloc::{AllocError, Global};

// ---- `+`

/// `a + b`.
pub fn add_row(
    alloc: Global,
    op: Op,
    heap: &mut Heap,
    a: &Value,
    b: &Value,
) -> Result<OpEnd, AllocError>
    ensures { IfOk result (λ e. Did (spec.add_row op heap.old a.now b.now) heap.old heap.new e) }
{
    match (object_of(heap, a), object_of(heap, b)) {
        (Some(Object::List(xs)), Some(Object::List(ys))) => {
            if SIZE_LIMIT < xs.len() as u128 + ys.len() as u128 {
                return Ok(OpEnd::Stop(StopKind::Size));
            }
            let items = joined(alloc, xs.as_slice(), ys.as_slice())?;
            make(heap, Object::List(items))
        }
        (Some(Object::Tuple(xs)), Some(Object::Tuple(ys))) => {
            if SIZE_LIMIT < xs.len() as u128 + ys.len() as u128 {
                return Ok(OpEnd::Stop(StopKind::Size));
            }
            let items = joined(alloc, xs.as_slice(), ys.as_slice())?;
            make(heap, Object::Tuple(items))
        }
        _ => no_operands(alloc, op.sign(), heap, a, b),
    }
}

/// `a += b`.
pub fn iadd_row(alloc: Global, heap: &mut Heap, a: &Value, b: &Value) -> Result<OpEnd, AllocError>
    ensures { IfOk result (λ e. Did (spec.iadd_row heap.old a.now b.now) heap.old heap.new e) }
{
    match object_of(heap, a) {
        Some(Object::List(_)) => ask_two(alloc, heap, "_nu_addto", a, b),
        _ => add_row(alloc, Op::IAdd, heap, a, b),
    }
}

// ---- `*`

fn copy_count(number: i128) -> u128
    ensures { result ≡ texts.copy_count number }
{
    if number < 0 { 0 } else { number as u128 }
}

// The values of a list so many times, unless they are too many.
#[tactic(auto, using(crate::proofs::Repeats::repeated_nothing))]
fn repeated_within(
    alloc: Global,
    values: &[Value],
    number: i128,
) -> Result<Option<Items>, AllocError>
    ensures { IfOk result (λ items. items ≡ spec.repeated values.now (texts.copy_count number)) }
{
    let count = copy_count(number);
    if values.is_empty() {
        return Ok(Some(Items::new(alloc)));
    }
    match (values.len() as u128).checked_mul(count) {
        Some(all) if all <= SIZE_LIMIT => {
            let items = repeated(alloc, values, count)?;
            Ok(Some(items))
        }
        _ => Ok(None),
    }
}

fn make_list(heap: &mut Heap, items: Option<Items>) -> Result<OpEnd, AllocError>
    ensures { IfOk result (λ e. Did (spec.or_size (λ all. makes heap.old (objects.List all)) items) heap.old heap.new e) }
{
    match items {
        None => Ok(OpEnd::Stop(StopKind::Size)),
        Some(items) => make(heap, Object::List(items)),
    }
}

fn make_tuple(heap: &mut Heap, items: Option<Items>) -> Result<OpEnd, AllocError>
    ensures { IfOk result (λ e. Did (spec.or_size (λ all. makes heap.old (objects.Tuple all)) items) heap.old heap.new e) }
{
    match items {
        None => Ok(OpEnd::Stop(StopKind::Size)),
        Some(items) => make(heap, Object::Tuple(items)),
    }
}

// `a * b` where b is what is repeated.
fn mul_right(
    alloc: Global,
    op: Op,
    heap: &mut Heap,
    a: &Value,
    b: &Value,
) -> Result<OpEnd, AllocError>
    ensures { IfOk result (λ e. Did (spec.mul_on heap.old (ends (kinds.no_operands (signs.sign_of op) heap.old a.now b.now)) (object_of heap.old b.now) (number_of a.now)) heap.old heap.new e) }
{
    match (object_of(heap, b), a.number()) {
        (Some(Object::List(items)), Some(number)) => {
            let all = repeated_within(alloc, items.as_slice(), number)?;
            make_list(heap, all)
        }
        (Some(Object::Tuple(items)), Some(number)) => {
            let all = repeated_within(alloc, items.as_slice(), number)?;
            make_tuple(heap, all)
        }
        _ => no_operands(alloc, op.sign(), heap, a, b),
    }
}

/// `a * b`.
pub fn mul_row(
    alloc: Global,
    op: Op,
    heap: &mut Heap,
    a: &Value,
    b: &Value,
) -> Result<OpEnd, AllocError>
    ensures { IfOk result (λ e. Did (spec.mul_row op heap.old a.now b.now) heap.old heap.new e) }
{
    match (object_of(heap, a), b.number()) {
        (Some(Object::List(items)), Some(number)) => {
            let all = repeated_within(alloc, items.as_slice(), number)?;
            make_list(heap, all)
        }
        (Some(Object::Tuple(items)), Some(number)) => {
            let all = repeated_within(alloc, items.as_slice(), number)?;
            make_tuple(heap, all)
        }
        _ => mul_right(alloc, op, heap, a, b),
    }
}

#[tactic(auto, using(crate::proofs::Moved::filled_is))]
fn fill_list(heap: &mut Heap, list: u64, items: Option<Items>) -> Result<OpEnd, AllocError>
    ensures { IfOk result (λ e. Did (spec.or_size (λ all. changes_giving list (Fill all) (values.Obj list)) items) heap.old heap.new e) }
{
    match items {
        None => Ok(OpEnd::Stop(StopKind::Size)),
        Some(items) => {
            edit_at(heap, list, Edit::Fill(items))?;
            Ok(OpEnd::Give(Value::Obj(list)))
        }
    }
}

fn imul_on(alloc: Global, heap: &mut Heap, list: u64, b: &Value) -> Result<OpEnd, AllocError>
    ensures { IfOk result (λ e. Did (spec.imul_on heap.old list b.now (slice_get heap.old list) (number_of b.now)) heap.old heap.new e) }
{
    match (heap.get(list), b.number()) {
        (Some(Object::List(items)), Some(number)) => {
            let all = repeated_within(alloc, items.as_slice(), number)?;
            fill_list(heap, list, all)
        }
        _ => mul_row(alloc, Op::IMul, heap, &Value::Obj(list), b),
    }
}

/// `a *= b`.
pub fn imul_row(alloc: Global, heap: &mut Heap, a: &Value, b: &Value) -> Result<OpEnd, AllocError>
    ensures { IfOk result (λ e. Did (spec.imul_row heap.old a.now b.now) heap.old heap.new e) }
{
    match a {
        Value::Obj(number) => imul_on(alloc, heap, *number, b),
        _ => mul_row(alloc, Op::IMul, heap, a, b),
    }
}

/// `a % b`, where b is a sequence.
pub fn mod_row(alloc: Global, heap: &mut Heap, a: &Value, b: &Value) -> Result<OpEnd, AllocError>
    ensures { IfOk result (λ e. Did (spec.mod_row heap.old a.now b.now) heap.old heap.new e) }
{
    match a {
        Value::Str(_) => Ok(OpEnd::Stop(StopKind::Unbuilt)),
        _ => no_operands(alloc, Op::Mod.sign(), heap, a, b),
    }
}

// ---- `in`

fn in_items(heap: &Heap, value: &Value, items: &[Value]) -> OpEnd
    ensures { result ≡ spec.in_end (spec.place_of_value heap.now value.now items.now) }
{
    match place_of_value(heap, value, items) {
        Ok(Some(_)) => OpEnd::Give(Value::Bool(true)),
        Ok(None) => OpEnd::Give(Value::Bool(false)),
        Err(kind) => OpEnd::Stop(kind),
    }
}

// Whether a number lies upward from the start, before the stop.
fn is_upward(start: i128, stop: i128, step: i128, number: i128) -> bool
    ensures { result ≡ (int_lt (pos 0) step && (int_le start number && int_lt number stop)) }
{
    0 < step && (start <= number && number < stop)
}

// Whether a number lies downward from the start, before the stop.
fn is_downward(start: i128, stop: i128, step: i128, number: i128) -> bool
    ensures { result ≡ (int_lt step (pos 0) && (int_lt stop number && int_le number start)) }
{
    step < 0 && (stop < number && number <= start)
}

fn is_between(start: i128, stop: i128, step: i128, number: i128) -> bool
    ensures { result ≡ spec.is_between start stop step number }
{
    is_upward(start, stop, step, number) || is_downward(start, stop, step, number)
}

// Whether a number is a number of steps from the start.
fn is_in_steps(start: i128, step: i128, number: i128) -> bool
    ensures { result ≡ spec.is_in_steps start step number }
{
    step != 0 && number.abs_diff(start) % step.unsigned_abs() == 0
}

fn range_has(start: i128, stop: i128, step: i128, number: i128) -> bool
    ensures { result ≡ spec.range_has start stop step number }
{
    is_between(start, stop, step, number) && is_in_steps(start, step, number)
}

fn other_in_range(heap: &Heap, value: &Value, start: i128, stop: i128, step: i128) -> OpEnd
    ensures { result ≡ spec.other_in_range (range_count start stop step) (object_of heap.now value.now) }
{
    match object_of(heap, value) {
        Some(Object::View { .. }) => if range_len(start, stop, step) == 0 {
            OpEnd::Give(Value::Bool(false))
        } else {
            OpEnd::Stop(StopKind::Unbuilt)
        },
        _ => OpEnd::Give(Value::Bool(false)),
    }
}

fn in_range(heap: &Heap, value: &Value, start: i128, stop: i128, step: i128) -> OpEnd
    ensures { result ≡ spec.in_range_of heap.now start stop step value.now (number_of value.now) }
{
    match value.number() {
        Some(number) => OpEnd::Give(Value::Bool(range_has(start, stop, step, number))),
        None => other_in_range(heap, value, start, stop, step),
    }
}

/// `v in c`.
pub fn in_row(
    alloc: Global,
    heap: &Heap,
    value: &Value,
    container: &Value,
) -> Result<OpEnd, AllocError>
    ensures { IfOk result (λ e. e ≡ spec.in_row heap.now value.now container.now) }
{
    match object_of(heap, container) {
        Some(Object::List(items) | Object::Tuple(items)) => Ok(in_items(
            heap,
            value,
            items.as_slice(),
        )),
        Some(Object::Range { start, stop, step }) => Ok(in_range(
            heap,
            value,
            start.get(),
            stop.get(),
            step.get(),
        )),
        _ => asks_in(alloc, heap, value, container),
    }
}
